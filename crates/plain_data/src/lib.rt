//! Plain data that every layer hands to the next: texts, lists, values with several owners, and the
//! names of hooks, shortcodes and callbacks.
#![tactic(auto)]

mod callback;
mod core_hooks;
mod lists;
mod name_byte;
mod names;
mod sharing;
mod texts;

pub use callback::CallbackId;
pub use core_hooks::CoreHook;
pub use lists::Listed;
pub use name_byte::is_name_byte;
pub use names::{HookName, NameFault, TagName, is_hook_name, is_tag_name};
pub use sharing::{Shared, SharedList};
pub use texts::{Text, is_one_of};
