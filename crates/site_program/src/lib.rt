//! The site that a program serves: lines of JSON come in, each is one command, and each gets one
//! reply.
//!
//! [`Site::command`] carries out one line, and [`Site::serve`] a whole input, line by line. What a
//! line means is the definition `step`; what an input means is `IsReplies`. The plugins come from
//! the program that owns the site.
#![tactic(auto)]

mod edits;
mod page;
mod serve;
mod settings;
mod setup;
mod site;
mod state;
mod watched;

pub use byte_io::{EndFault, Journal, Message, Reading, Sink, Source, Writing};
pub use page_trace::{PageEnd, PageName, PageTrace, Told, Unwatched, Watch};
pub use site::Site;
pub use site_edits::StoreFault;
pub use site_replies::{Refusal, ServeFault, SiteReply};
pub use site_serving::{Commands, KeptPages, LineReply};
