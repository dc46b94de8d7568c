//! The table of registrations: which callback runs under which hook at which priority, which
//! callback handles which tag, and how often each action was fired.
#![tactic(auto)]

mod callbacks;
mod entries;
mod group;
mod hook_groups;
mod hook_table;
mod laws;
mod named;
mod registration;
mod registry;
mod worked;

pub use entries::SharedEntries;
pub use hook_table::GroupPlace;
pub use laws::{later_priorities_stay, one_list};
pub use registration::{Entry, Priority, Registration};
pub use registry::{Registry, SharedGroup};
pub use worked::worked_table;
