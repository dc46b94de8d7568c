//! Where the commits of a database file's log end, and whether what follows them is what a crash
//! leaves. A log that was damaged is told from one that was only cut short by a crash, and one that is
//! older than its database file from one that may be this file's.
#![tactic(auto)]

mod bytes;
mod laws;
mod rows;
mod tail;

pub use laws::{law_of_crashes, law_of_damage};
pub use rows::last_row;
pub use tail::{Tail, outgrows, tail_of};
