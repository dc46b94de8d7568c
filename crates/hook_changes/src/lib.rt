//! What plugins and the engine say to each other, as plain data: the changes that a callback makes,
//! what it asks of the engine, what it is called with, and what it replies. The texts, lists and
//! names that these are made of are named here too, so that a plugin's author needs this crate alone.
#![tactic(auto)]

mod reply;

pub use plain_data::{
    CallbackId, CoreHook, HookName, Listed, NameFault, Shared, SharedList, TagName, Text,
    is_hook_name, is_one_of, is_tag_name,
};
pub use reply::{Answer, Ask, Call, Change, Reply, Then};
pub use shortcode_atts::Atts;
