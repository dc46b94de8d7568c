//! The command-line arguments: how many calls a page has, how many texts are kept, whether
//! invocations are told, and what is done with which database file. `clap` reads them.
#![tactic(auto)]

mod answer;
mod options;
mod worked;

pub use answer::{ArgsAnswer, Flags, Task, read_args};
pub use worked::worked_args;
