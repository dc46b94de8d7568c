//! Site files: all the records of a site in one JSON text, read up to the first fault.
#![tactic(auto)]

mod active;
mod fault;
mod front;
mod options;
mod posts;
mod site;
mod templates;
mod worked;

pub use fault::{ImportFault, Place, Section};
pub use site::{SiteFile, read_site, read_site_value};
pub use template_trees::{TemplateFault, read_template};
pub use worked::worked_site_files;
