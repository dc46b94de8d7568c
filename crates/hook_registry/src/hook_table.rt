//! The registrations of every hook.
ghost use Rattle.std.specs.Prelude.{◌≡◌, ◌==◌, ◌≤◌, ◌∷◌, [], None, Some, IfOk, OnOk, OnErr};
ghost use Rattle.std.specs.Prelude.{MatchOption, false, length, not};
ghost use Rattle.std.specs.List.{list_any};
ghost use Rattle.hook_registry.specs.Named.{value_of};
ghost use Rattle.hook_registry.specs.Table.{Table, registrations, add, remove, remove_all};
ghost use Rattle.hook_registry.specs.Table.{group, next_priority, has, is_of, priority_of};

use crate::group::Group;
use crate::hook_groups::HookGroups;
use crate::registration::{Entry, Priority, Registration};
use indexmap::IndexMap;
use plain_data::{CallbackId, HookName};
use std::alloc::{AllocError, Global};
use std::marker::Model;

/// Where a group was found: the index of its hook among the hooks, and its own among the groups of
/// the hook. Changes may move both, so what is found there is compared before it is used.
#[derive(Clone, Copy)]
pub struct GroupPlace {
    pub hook: usize,
    pub group: usize,
}

/// The registrations of every hook, each hook's in the order in which they run.
#[derive(Drop)]
pub struct HookTable {
    alloc: Global,
    hooks: IndexMap<String, HookGroups>,
}

impl Model for HookTable {
    ghost use Rattle.std.specs.Prelude.{map, string_bytes};
    ghost use Rattle.hook_registry.specs.Table.{Table};

    ghost Value = { Table };

    ghost view = { λ r. map (λ e. (string_bytes e.0, e.1)) r.hooks.entries };
}

impl HookTable {
    /// Makes a table with nothing registered. Does not allocate.
    pub fn new(alloc: Global) -> Self
        ensures { result ≡ [] }
    {
        HookTable {
            alloc,
            hooks: IndexMap::new(alloc),
        }
    }

    /// Registers a callback under a hook and a priority. One that is there keeps its place and
    /// takes the new count. On allocation failure nothing is registered.
    pub fn add(
        &mut self,
        hook: &HookName,
        priority: i32,
        callback: CallbackId,
        accepted: u8,
    ) -> Result<(), AllocError>
        ensures added { OnOk result (self.new ≡ add self.old hook.now
            (record { priority = priority; callback = callback; accepted = accepted })) }
        ensures err { OnErr result (self.new ≡ self.old) }
    {
        let priority = Priority::new(priority);
        let new = Entry { callback, accepted };
        match self.hooks.get_index_of(hook.as_str()) {
            Some(at) => match self.hooks.get_index_mut(at) {
                Some(groups) => groups.add(self.alloc, priority, new),
                None => unreachable!(),
            },
            None => self.add_first(hook, priority, new),
        }
    }

    /// Registers a callback under a hook that has no groups yet.
    fn add_first(
        &mut self,
        hook: &HookName,
        priority: Priority,
        new: Entry,
    ) -> Result<(), AllocError>
        requires { value_of self.old hook.now ≡ None }
        ensures added { OnOk result (self.new ≡ add self.old hook.now
            (record { priority = priority; callback = new.callback; accepted = new.accepted })) }
        ensures err { OnErr result (self.new ≡ self.old) }
    {
        let name = String::from_str(self.alloc, hook.as_str())?;
        let mut groups = HookGroups::new(self.alloc);
        groups.add(self.alloc, priority, new)?;
        self.hooks.insert(name, groups)?;
        Ok(())
    }

    /// Removes one registration, and returns whether it was there. Does not allocate.
    pub fn remove(&mut self, hook: &HookName, priority: i32, callback: CallbackId) -> bool
        ensures removed { self.new ≡ remove self.old hook.now priority callback }
        ensures there { result
            ≡ list_any (is_of priority callback) (registrations self.old hook.now) }
    {
        match self.hooks.get_index_of(hook.as_str()) {
            Some(at) => match self.hooks.get_index_mut(at) {
                Some(groups) => groups.remove(Priority::new(priority), callback),
                None => unreachable!(),
            },
            None => false,
        }
    }

    /// Removes all registrations of a hook, or those of one priority. Does not allocate.
    pub fn remove_all(&mut self, hook: &HookName, priority: Option<i32>)
        ensures { self.new ≡ remove_all self.old hook.now priority }
    {
        match self.hooks.get_index_of(hook.as_str()) {
            Some(at) => match self.hooks.get_index_mut(at) {
                Some(groups) => groups.remove_all(priority),
                None => unreachable!(),
            },
            None => {}
        }
    }

    /// Returns the groups of a hook and their index, if it has any. Those at the index of a hint
    /// are tried first: that spares the look-up by name.
    fn groups_of(&self, hook: &str, hint: usize) -> Option<(usize, &HookGroups)>
        ensures { MatchOption result (value_of self.entry.now hook.entry.now ≡ None) (λ found.
            value_of self.entry.now hook.entry.now ≡ Some found.1.now) }
    {
        if let Some((name, groups)) = self.hooks.get_index(hint) {
            if name.as_str() == hook {
                return Some((hint, groups));
            }
        }
        match self.hooks.get_full(hook) {
            None => None,
            Some((at, _name, groups)) => Some((at, groups)),
        }
    }

    /// Returns the group of a hook's smallest priority, or of the smallest one above another if
    /// that is given, and where it is. The search begins at the place of the group before it.
    pub fn next_group(
        &self,
        hook: &str,
        above: Option<Priority>,
        before: GroupPlace,
    ) -> Option<(&Group, GroupPlace)>
        ensures { MatchOption result
            (next_priority self.entry.now hook.entry.now above ≡ None) (λ found.
            (next_priority self.entry.now hook.entry.now above ≡ Some found.0.now.priority)
            × (group self.entry.now hook.entry.now found.0.now.priority
            ≡ found.0.now.entries)) }
    {
        let (at, groups) = self.groups_of(hook, before.hook)?;
        let (place, group) = groups.next_group(above, before.group)?;
        Some((
            group,
            GroupPlace {
                hook: at,
                group: place,
            },
        ))
    }

    /// Returns the registration of a hook that has no other; `None` if it has none or several.
    pub fn only(&self, hook: &str) -> Option<Registration>
        ensures { MatchOption result ((length (registrations self.now hook.now) == 1) ≡ false)
            (λ only. registrations self.now hook.now ≡ only ∷ []) }
    {
        match self.hooks.get(hook) {
            None => None,
            Some(groups) => groups.only(),
        }
    }

    /// Returns whether the hook has any registration.
    pub fn has(&self, hook: &str) -> bool
        ensures { result ≡ has self.now hook.now }
    {
        match self.hooks.get(hook) {
            Some(groups) => !groups.is_empty(),
            None => false,
        }
    }

    /// Returns the smallest priority of a callback under a hook, if it has one.
    pub fn priority_of(&self, hook: &str, callback: CallbackId) -> Option<i32>
        ensures { result ≡ priority_of self.now hook.now callback }
    {
        match self.hooks.get(hook) {
            Some(groups) => number_of(groups.least_of(callback)),
            None => None,
        }
    }

    /// Returns the callbacks of a hook at a priority, in the order of adding.
    pub fn group(&self, hook: &HookName, priority: i32) -> Result<Vec<Entry>, AllocError>
        ensures { IfOk result (λ entries. entries.items ≡ group self.now hook.now priority) }
    {
        match self.hooks.get(hook.as_str()) {
            Some(groups) => groups.at(self.alloc, Priority::new(priority)),
            None => Ok(Vec::new(self.alloc)),
        }
    }

    /// Returns the smallest priority of a hook, or the smallest one above another if that is given.
    pub fn next_priority(&self, hook: &HookName, after: Option<i32>) -> Option<i32>
        ensures { result ≡ next_priority self.now hook.now after }
    {
        let above = match after {
            Some(number) => Some(Priority::new(number)),
            None => None,
        };
        let start = GroupPlace { hook: 0, group: 0 };
        match self.next_group(hook.as_str(), above, start) {
            Some((group, _)) => Some(group.priority.number()),
            None => None,
        }
    }
}

/// Returns the number of a priority, if there is one.
fn number_of(priority: Option<Priority>) -> Option<i32>
    ensures { result ≡ priority }
{
    match priority {
        None => None,
        Some(priority) => Some(priority.number()),
    }
}
