//! What a program does with a site that it serves over HTTP, to the clients of its standard input and
//! output.
//!
//! Each task ends with the program's exit status, after a line on standard error if something
//! failed. What carries out the lines is any [`Commands`](site_serving::Commands).
#![tactic(auto)]

mod files;
mod reader;
mod serving;
mod token;
mod writer;

pub use files::{ServeClients, Served, serve_path};
pub use serving::{Clients, serve};
pub use token::read_token;
