//! Values at the keys of a JSON tree, as commands and site files have them: texts, IDs, kinds and
//! states of posts, and names of options; and how long texts may be.
#![tactic(auto)]

mod limits;
mod values;

pub use limits::{MAX_CONTENT, MAX_TITLE, MAX_VALUE};
pub use values::{
    id_at, kind_named, number_at, option_named, status_given, status_named, text_at, text_given,
    text_or,
};
