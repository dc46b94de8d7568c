//! What is told of the invocations of pages: a trait for whoever wants to be told, and a log of
//! JSON lines.
//!
//! A program that wants no log hands in [`Unwatched`], for which pages are printed without
//! stopping.
#![tactic(auto)]

mod line;
mod log;
mod paths;
mod told;
mod values;
mod watch;

pub use log::PageTrace;
pub use told::{PageEnd, PageName, Told};
pub use watch::{Unwatched, Watch};
