//! A site over HTTP: requests come in as bytes, and the responses go out.
#![tactic(auto)]

mod laws;
mod pages;
mod serve;
mod service;

pub use http_messages::EntityTag;
pub use laws::{conditions_leave_out_the_page, one_stream_one_cut};
pub use pages::Pages;
pub use serve::{CONFIG, serve_http};
pub use service::PageService;
