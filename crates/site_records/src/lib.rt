//! What a site stores, as plain data: posts and pages with their dates, options, templates, names
//! of active plugins; and what a path finds of it. Also what several crates read of such data:
//! numbers in digits, names of kinds and statuses, and the text of a name, which
//! [`sorted_named`] finds where names are sorted.
#![tactic(auto)]

mod date;
mod digits;
mod found;
mod post;
mod sorted;
mod texts;
mod worked;

pub use date::PostDate;
pub use digits::number;
pub use found::{Found, FoundKind};
pub use post::{MAX_ID, Post, PostKind, PostStatus, SiteRecords, kind_text, status_text};
pub use sorted::sorted_named;
pub use texts::text_named;
pub use worked::worked_dates;
