//! A log of text lines in an SQLite database. A line that was appended is in the log after a crash,
//! and a log of which a line has changed since is refused: [`LineDigest`] has the digest of the lines
//! so far, and [`digests_tell_lines_apart`] says what two histories with one digest are to each other.
#![tactic(auto)]

mod batch;
mod closed;
mod digest;
mod digest_laws;
mod fault;
mod lines;
mod log;
mod numbering;
mod opening;
mod table;
mod testing;

pub use batch::{Batch, LogPlace};
pub use closed::LogFiles;
pub use digest::LineDigest;
pub use digest_laws::{digests_tell_lines_apart, worked_digests};
pub use fault::LogFault;
pub use log::CommandLog;
