//! The commands that change what a site has stored, each over its tables.
//!
//! Each function carries out one command and replies to it. A refused command leaves the rows as
//! they were, and so does one that ends in a [`StoreFault`].
#![tactic(auto)]

mod edits;
mod imports;
mod templates;

pub use edits::{delete, edit, put, set_active, set_option};
pub use imports::import;
pub use post_tables::StoreFault;
pub use templates::set_template;
