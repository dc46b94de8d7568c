//! What a site has stored: its tables, what its pages read of them kept from one request to the
//! next, and the commands that change it.
//!
//! [`SiteStore`] has a method for each of these commands, which first forgets what the command may
//! change of what is kept. So what is kept is always what the tables hold, and contracts see the
//! rows alone.
#![tactic(auto)]

mod changes;
mod kept_finds;
mod kept_options;
mod small_find;
mod stored;
mod templates;

pub use stored::SiteStore;
pub use templates::Templates;
