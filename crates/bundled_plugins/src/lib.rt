//! The ten plugins that come with the engine: their load lists, and what their callbacks reply; and
//! all plugins of a program, which are these, and `snippets` if it is asked for.
//!
//! A program makes a closure for each of [`numbers`], which passes its call on to [`reply`], keeps
//! each as a [`Stored`], and hands them to [`plugins`].
#![tactic(auto)]

mod beside;
mod calls;
mod program;
mod replies;
mod rows;
mod shipped;
mod stored;

pub use beside::{Beside, with_own};
pub use program::{numbers, plugins, reply};
pub use replies::bundled_reply;
pub use shipped::{NUMBERS, bundle};
pub use stored::{Function, Stored};
