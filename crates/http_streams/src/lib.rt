//! HTTP for a service whose responses stand only once it has committed what they tell of: one
//! connection, by [`serve_rounds`], or many on one stream of frames, by [`serve_frames`].
#![tactic(auto)]

mod frame;
mod frames;
mod part;
mod rounds;
mod serving;
mod table;

pub use frame::{Frame, Front, MAX_BYTES, frames_read_back, next_frame, push_frame};
pub use rounds::{Commits, serve_rounds};
pub use serving::serve_frames;
