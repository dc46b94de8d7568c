//! A journal whose lines are kept in a log, so that a site can be kept in a file.
//!
//! [`LogJournal`] appends the lines that were noted to a [`CommandLog`](command_log::CommandLog)
//! before it writes any reply that was taken after them.
#![tactic(auto)]

mod commit;
mod journal;
mod steady;
mod waiting;

pub use journal::LogJournal;
pub use steady::Steady;
