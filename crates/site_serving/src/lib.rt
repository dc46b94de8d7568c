//! Serving an input, line by line, whatever its lines mean.
//!
//! [`Commands`] carries out one line; [`serve`] a whole input, and hands the replies to a journal.
//! [`KeptPages`] keeps pages until a line changes something, so that a line that is asked again gets
//! its page without being carried out again.
#![tactic(auto)]

mod commands;
mod line_reply;
mod pages;
mod serving;

pub use commands::Commands;
pub use line_reply::LineReply;
pub use pages::KeptPages;
pub use serving::serve;
