//! What a program that serves a site does beside making its plugins: it reads the command-line
//! arguments, and does what they ask for.
//!
//! A program asks for its arguments by [`read_command_line`], makes its [`Plugins`](callback_store::Plugins), and
//! hands both to [`run`]. Lines are served by [`serve_lines`].
#![tactic(auto)]

mod arguments;
mod files;
mod lines;
mod tasks;
mod trace;

pub use arguments::{Asked, read_command_line};
pub use lines::{Limits, NotServed, Run, serve_lines};
pub use site_tasks::failed;
pub use tasks::run;
