//! The plugins whose callbacks are passed over and loaded.
use crate::kept::Kept;
use callback_store::{Plugin, Plugins};
use hook_changes::{CallbackId, Change, Listed, Text};
use std::alloc::{AllocError, Global};

/// The hook that they are registered on.
pub const HOOK: &str = "the_title";

/// Where callbacks are registered.
#[derive(Clone, Copy)]
pub enum Spread {
    /// All at one priority.
    One,
    /// Each at its own.
    Many,
}

impl Spread {
    fn priority(self, number: u16) -> i32 {
        match self {
            Spread::One => 10,
            Spread::Many => i32::from(number),
        }
    }
}

/// Makes plugins with `count` callbacks in all, numbered from 1: as many each as evenly go.
pub fn crowd(
    alloc: Global,
    spread: Spread,
    count: u16,
    plugins: u16,
) -> Result<Listed<Plugin<Kept>>, AllocError> {
    let last = count.saturating_add(1);
    let mut list = Listed::empty(alloc);
    let mut first = 1u16;
    for at in 0..plugins {
        let share = last.saturating_sub(first) / (plugins - at);
        let end = first.saturating_add(share);
        list.push(plugin(alloc, spread, at, first, end)?)?;
        first = end;
    }
    Ok(list)
}

/// Makes the plugin with the callbacks from `first` up to but not including `end`. A function of
/// its own, so that few exits of `crowd` drop a list.
fn plugin(
    alloc: Global,
    spread: Spread,
    at: u16,
    first: u16,
    end: u16,
) -> Result<Plugin<Kept>, AllocError> {
    Ok(Plugin {
        name: Text::new(format!(in alloc; "p{at:02}")?),
        load: load(alloc, spread, first, end)?,
        callbacks: callbacks(alloc, first, end)?,
    })
}

fn load(alloc: Global, spread: Spread, first: u16, end: u16) -> Result<Listed<Change>, AllocError> {
    let mut load = Listed::empty(alloc);
    for number in first..end {
        load.push(Change::Add {
            hook: Text::copied(alloc, HOOK)?,
            priority: spread.priority(number),
            callback: CallbackId::new(u32::from(number)),
            accepted: 1,
        })?;
    }
    Ok(load)
}

fn callbacks(alloc: Global, first: u16, end: u16) -> Result<Listed<Kept>, AllocError> {
    let mut callbacks = Listed::empty(alloc);
    for number in first..end {
        callbacks.push(Kept::new(CallbackId::new(u32::from(number))))?;
    }
    Ok(callbacks)
}

/// Returns the names of the plugins, which are all active, in the order of their bytes.
pub fn active(alloc: Global, plugins: &Plugins<Kept>) -> Result<Vec<Text>, AllocError> {
    let mut names = Vec::new(alloc);
    for plugin in plugins.by_name() {
        names.push(Text::copied(alloc, plugin.name.as_str())?)?;
    }
    Ok(names)
}
