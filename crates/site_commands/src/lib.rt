//! The commands of a site, read from lines of JSON: which command a line is, and what it names.
//! Lengths of texts and paths, dates, and posts and plugins that may not exist are checked where a
//! command is carried out.
#![tactic(auto)]

mod command;
mod get_line;
mod line;
mod reader;
mod worked;

pub use command::{Command, read_command};
pub use line::read_line;
pub use reader::CommandReader;
pub use worked::worked_commands;
