//! What stays the same while a site serves.
use callback_store::Plugins;
use std::alloc::Global;

/// What all commands of a site share: its plugins, the number of calls that a page may make, and
/// the allocator.
#[derive(Drop)]
pub struct Setup<'p, S> {
    pub(crate) plugins: &'p Plugins<S>,
    pub(crate) calls: u32,
    pub(crate) alloc: Global,
}
