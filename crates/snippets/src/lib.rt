//! The plugin `snippets`: shortcodes, filters and actions that are options of a site, and no code.
//! docs/SNIPPETS.md says how they are written.
#![tactic(auto)]

mod laws;
mod parts;
mod places;
mod printing;
mod registering;
mod replies;
mod shipped;

pub use laws::{values_add_no_markup, worked_templates};
pub use replies::snippet_reply;
pub use shipped::{numbers, plugin};
