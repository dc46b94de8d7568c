//! What a request of HTTP asks a site for, and the response that the site's reply becomes.
#![tactic(auto)]

mod entity_tag;
mod request;
mod response;

pub use entity_tag::EntityTag;
pub use request::{RequestFault, Wanted, condition_of, read_request};
pub use response::{refuse, refuse_for_memory, respond_to_commands, respond_with};
