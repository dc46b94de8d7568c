//! Plain permalinks: which posts the path of a request asks for, and those of them that a site has
//! (WordPress documentation, Customize Permalinks, 'Plain permalinks').
#![tactic(auto)]

mod lookup;
mod month;
mod number;
mod query;
mod worked;

pub use lookup::find;
pub use query::{Query, read};
pub use site_records::{Found, FoundKind};
pub use worked::{worked_finds, worked_fronts, worked_queries};
