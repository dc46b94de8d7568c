//! A crash at each moment of serving a file, as a run that ends there.
//!
//! A machine that stops between two calls makes no later one. A run over a disk and a sink that pass
//! on as many calls and fail each one after does the same, and returns: it makes the same calls up to
//! there, since serving is generic over both. [`serve_until`] is that run, for every number of calls.
//! What is proved of its return is so of the files that the machine leaves.
#![tactic(auto)]

mod serving;
mod stopping;

pub use serving::serve_until;
pub use stopping::Stopping;
