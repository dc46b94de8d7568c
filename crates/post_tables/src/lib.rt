//! The rows of a site, kept in a database in memory.
#![tactic(auto)]

mod fault;
mod import;
mod kept;
mod kept_parts;
mod listing;
mod named;
mod posts;
mod read;
mod schema;
mod tables;
mod worked;

pub use fault::{StoreFault, TablesFault};
pub use site_records::{Post, PostDate, PostKind, PostStatus, SiteRecords};
pub use tables::Tables;
pub use worked::worked_rows;
