//! Passes over a registry, and the changes that it takes meanwhile.
ghost use Rattle.std.specs.Prelude.{◌≡◌, [], None, IfOk, IsTrue, OnOk, OnErr};
ghost use Rattle.plain_data.specs.Names.{is_hook_name};
ghost use Rattle.call_plans.specs.Changes.{IsApplicable, table_after_change};
ghost use Rattle.call_plans.specs.Position.{next_entry};

use crate::entries::EntriesLeft;
use crate::position::Position;
use hook_changes::{Change, HookName, Text};
use hook_registry::{Entry, Registry};
use std::alloc::{AllocError, Global};

/// What is registered, as passes go over it: a pass has a [`Position`], and the registry may change
/// between any two of its entries.
#[derive(Drop)]
pub struct Plans {
    pub registry: Registry,
}

impl Plans {
    /// Makes plans with nothing registered. Does not allocate.
    pub fn new(alloc: Global) -> Self
        ensures { result.registry ≡ record { table = []; tags = []; counts = [] } }
    {
        Plans {
            registry: Registry::new(alloc),
        }
    }

    /// Returns the position of a pass before the first priority of a hook. Copies the hook's name.
    pub fn start(&self, hook: &HookName) -> Result<Position, AllocError>
        ensures { IfOk result (λ position. position
            ≡ record { hook = hook.now; reached = None; entries = [] }) }
    {
        Ok(Position::start(hook.clone()?))
    }

    /// Takes the next entry of a pass: the first one left, or else the first of the next priority's
    /// group as it is now. If there is no such priority, or on allocation failure, the position
    /// stays as it was (class WP_Hook).
    pub fn next(&self, position: &mut Position) -> Result<Option<Entry>, AllocError>
        ensures entry { IfOk result
            (λ found. found ≡ (next_entry self.now.registry.table position.old).0) }
        ensures moved { OnOk result
            (position.new ≡ (next_entry self.now.registry.table position.old).1) }
        ensures err { OnErr result (position.new ≡ position.old) }
    {
        if let Some(entry) = position.entries.take_first() {
            return Ok(Some(entry));
        }
        let place = position.entries.place();
        let hook = position.hook.as_str();
        match self.registry.next_group(hook, position.reached, place)? {
            None => Ok(None),
            Some(group) => {
                position.entries = EntriesLeft::all(group.entries, group.place);
                position.reached = Some(group.priority);
                Ok(position.entries.take_first())
            }
        }
    }

    /// Carries out a change of the registrations; a change of a tag does nothing here. On
    /// allocation failure nothing changes. Positions stay as they are.
    pub fn apply(&mut self, change: &Change) -> Result<(), AllocError>
        requires { IsApplicable change.now }
        ensures applied { OnOk result (self.new ≡ record self.old {
          registry = record self.old.registry {
            table = table_after_change self.old.registry.table change.now;
          };
        }) }
        ensures err { OnErr result (self.new ≡ self.old) }
    {
        match change {
            Change::Add {
                hook,
                priority,
                callback,
                accepted,
            } => {
                let hook = hook_named(hook)?;
                self.registry.add(&hook, *priority, *callback, *accepted)
            }
            Change::Remove {
                hook,
                priority,
                callback,
            } => {
                let hook = hook_named(hook)?;
                let _was_there = self.registry.remove(&hook, *priority, *callback);
                Ok(())
            }
            Change::RemoveAll { hook, priority } => {
                let hook = hook_named(hook)?;
                self.registry.remove_all(&hook, *priority);
                Ok(())
            }
            Change::AddTag { .. } | Change::RemoveTag { .. } | Change::RemoveAllTags => Ok(()),
        }
    }
}

/// Copies the name of a hook.
fn hook_named(text: &Text) -> Result<HookName, AllocError>
    requires { IsTrue (is_hook_name text.now) }
    ensures { IfOk result (λ hook. hook ≡ text.now) }
{
    match HookName::of(text.clone()?) {
        Some(hook) => Ok(hook),
        None => unreachable!(),
    }
}
