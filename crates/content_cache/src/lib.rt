//! A cache of the pieces that shortcodes cut texts into. If it is full, the least recently used
//! text is dropped.
#![tactic(auto)]

mod cache;
mod cut_text;

pub use cache::PieceCache;
pub use cut_text::{Known, OpenedName};
