//! Theorems about a site over HTTP: a request for a page is the command `get`, two pages with one tag
//! and one path are the same, and each response says where it ends. What a client is sent it reads in
//! one way alone, and on a stream of frames its own bytes decide what it asked for, whoever else is
//! connected.
#![tactic(auto)]

mod ends;
mod reading;
mod tags;

pub use ends::responses_say_their_end;
pub use reading::{
    each_client_is_answered, equal_bytes_ask_the_same, the_client_reads_the_answers,
};
pub use tags::{no_edit_between_equal_tags, one_tag_one_page, page_lines_ask_for_pages};
