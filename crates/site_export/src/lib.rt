//! The command lines that are defined of what a site stores: one for each post, option, template
//! and active plugin, and for the ID to go on with.
//!
//! They are meant to rebuild it. That a site that has just begun stores the same rows after them is
//! tested, and isn't proved.
#![tactic(auto)]

mod history;
mod line;
mod pairs;
mod posts;

pub use history::history_of;
