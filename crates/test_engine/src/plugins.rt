//! Plugins over the test callbacks.
ghost use Rattle.std.specs.Prelude.{◌≡◌, IfOk, map};

use crate::callbacks::Tested;
use crate::names::{LONGEST, TOO_LONG};
use bundled_plugins::{NUMBERS, bundle};
use callback_store::{Plugin, PluginFault, Plugins};
use hook_changes::{CallbackId, Change, Listed, Text};
use std::alloc::{AllocError, Global};

/// A hook of a load list. A variant and not its name, since a table can't hold an array of a type
/// that has references.
#[derive(Clone, Copy)]
pub enum Hook {
    Title,
    In,
    Longest,
    TooLong,
    Empty,
}

/// An entry of a load list.
#[derive(Clone, Copy)]
pub enum Load {
    /// No entry.
    No,
    /// Adds a callback to a hook at a priority, with an accepted count.
    On(Hook, i32, u32, u8),
    /// Adds the tag `t` with its handler.
    Tag(u32),
}

/// A plugin: its name, the numbers of its callbacks, and its load list.
#[derive(Clone, Copy)]
pub struct Given<'a>(pub &'a str, pub &'a [u32], pub &'a [Load]);

/// Makes these plugins, with those of the bundle or without them.
pub fn plugins(
    alloc: Global,
    has_bundle: bool,
    given: &[Given<'_>],
) -> Result<Plugins<Tested>, PluginFault> {
    match listed(alloc, has_bundle, given) {
        Ok(list) => Plugins::new(alloc, list),
        Err(AllocError) => Err(PluginFault::OutOfMemory),
    }
}

fn listed(
    alloc: Global,
    has_bundle: bool,
    given: &[Given<'_>],
) -> Result<Listed<Plugin<Tested>>, AllocError> {
    let mut list = if has_bundle {
        bundle(alloc, callbacks(alloc, &NUMBERS)?)?
    } else {
        Listed::empty(alloc)
    };
    for plugin in given {
        list.push(with(alloc, plugin)?)?;
    }
    Ok(list)
}

fn with(alloc: Global, given: &Given<'_>) -> Result<Plugin<Tested>, AllocError> {
    let name = Text::copied(alloc, given.0)?;
    let load = load_list(alloc, given.2)?;
    let callbacks = callbacks(alloc, given.1)?;
    Ok(Plugin {
        name,
        load,
        callbacks,
    })
}

fn callbacks(alloc: Global, numbers: &[u32]) -> Result<Listed<Tested>, AllocError>
    ensures { IfOk result (λ callbacks. map (λ callback. callback.id) callbacks ≡ numbers.now) }
{
    let mut callbacks = Listed::empty(alloc);
    for number in numbers {
        let id = CallbackId::new(*number);
        callbacks.push(Tested { id })?;
    }
    Ok(callbacks)
}

fn load_list(alloc: Global, loads: &[Load]) -> Result<Listed<Change>, AllocError> {
    let mut list = Listed::empty(alloc);
    for load in loads {
        if let Some(change) = change(alloc, *load)? {
            list.push(change)?;
        }
    }
    Ok(list)
}

fn change(alloc: Global, load: Load) -> Result<Option<Change>, AllocError> {
    match load {
        Load::No => Ok(None),
        Load::On(hook, priority, number, accepted) => Ok(Some(Change::Add {
            hook: Text::copied(alloc, name_of(hook))?,
            priority,
            callback: CallbackId::new(number),
            accepted,
        })),
        Load::Tag(number) => Ok(Some(Change::AddTag {
            tag: Text::copied(alloc, "t")?,
            callback: CallbackId::new(number),
        })),
    }
}

fn name_of(hook: Hook) -> &'static str {
    match hook {
        Hook::Title => "the_title",
        Hook::In => "in",
        Hook::Longest => LONGEST,
        Hook::TooLong => TOO_LONG,
        Hook::Empty => "",
    }
}
