//! Passes over the callbacks of a hook.
//!
//! A pass holds the group that it reached, and a change puts a new group in its place (class
//! WP_Hook). So a pass goes on through the group as it was, whatever changes meanwhile, and copies
//! none of it.
#![tactic(auto)]

mod entries;
mod plans;
mod position;
mod worked;

pub use entries::EntriesLeft;
pub use plans::Plans;
pub use position::Position;
pub use worked::worked_pass;
