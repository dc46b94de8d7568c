//! Starting a site from its log: the lines of the log make the site anew. And making the log
//! shorter.
#![tactic(auto)]

mod compacting;
mod fault;
mod identity;
mod opening;
mod replay;
mod task;

pub use compacting::{CompactLog, Compaction, compact};
pub use fault::StartFault;
pub use identity::identity_of;
pub use opening::start;
pub use task::{LogTask, with_files, with_log};
