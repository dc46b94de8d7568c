//! Laws of sites, of their files and of their short lines. A law is a function without a body; there
//! is no other code in this crate.
//!
//! A page keeps to its bounds, stays open as it is, and inactive plugins have no say in it (the module
//! `pages`). A site is its history ([`history_rebuilds_the_site`]), and so is its log
//! ([`the_log_is_the_site`]), under one program or several ([`rows_rest_on_names`]).
//!
//! What an open finds in a file makes the site that the client was told of
//! ([`the_file_is_the_site`]). Each short line is read as the command that it prints, and together
//! they rebuild the rows ([`short_lines_rebuild_the_rows`]), of whatever lines these came
//! ([`short_lines_make_the_same_rows`]). Plugins that a bundle has beside those of another one change
//! nothing until they are named ([`further_plugins_have_no_say`]); so does the program's option
//! `--snippets` ([`snippets_have_no_say`]).
#![tactic(auto)]

mod file;
mod further;
mod history;
mod log_law;
mod pages;
mod programs;
mod reading;
mod rebuilding;

pub use file::the_file_is_the_site;
pub use further::{further_plugins_have_no_say, snippets_have_no_say};
pub use history::{
    a_copy_agrees, history_goes_on_over_a_copy, history_rebuilds_the_site,
    kept_lines_are_enough_ever, replies_are_written, sites_of_one_history_agree,
};
pub use log_law::the_log_is_the_site;
pub use pages::{
    inactive_plugins_have_no_say, inactive_plugins_have_no_say_ever,
    inactive_plugins_have_no_say_in_replies, open_pages_stay, site_pages_keep_to_their_bounds,
};
pub use programs::{rows_rest_on_names, sites_given_the_same_edits_agree};
pub use reading::short_lines_are_commands;
pub use rebuilding::{
    rows_are_stored, short_lines_make_the_same_rows, short_lines_rebuild_the_rows,
};
