//! What a program does with a site that is kept in a file: it opens the log and shuts it, and
//! prints or shortens its history.
//!
//! Each task ends with the program's exit status, after a line on standard error if something
//! failed. What carries out the lines is any [`Commands`](site_serving::Commands).
#![tactic(auto)]

mod file_ids;
mod files;
mod history;
mod status;
mod summary;

pub use file_ids::WhileThere;
pub use files::{ServeLines, Served, ended};
pub use history::{Rebuild, Rebuilt, check, compact, export};
pub use status::{failed, failed_at, not_started};
pub use summary::{Summary, summary_of};
