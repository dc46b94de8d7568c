//! A site that is served over HTTP: what carries out lines, as the pages that HTTP shows, with a
//! journal that the edits are committed to before any response tells of them.
#![tactic(auto)]

mod laws;
mod notes;
mod page_line;
mod replies;
mod serving;
mod site_pages;

pub use laws::the_log_is_not_older;
pub use serving::{serve_site, serve_site_frames};
pub use site_pages::SitePages;
