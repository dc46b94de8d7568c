//! The callbacks that a program's plugins bring, and what each is stated to reply.
#![tactic(auto)]

mod fault;
mod laws;
mod ordered;
mod plugins;
mod stated;

pub use fault::PluginFault;
pub use laws::ordered_by_name;
pub use plugins::{Plugin, Plugins};
pub use stated::Stated;
