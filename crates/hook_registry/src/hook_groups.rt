//! The groups of one hook.
ghost use Rattle.std.specs.Prelude.{◌≡◌, ◌==◌, ◌<◌, ◌+◌, ◌∷◌, [], true, false, not, length, map};
ghost use Rattle.std.specs.Prelude.{filter, None, Some, IfOk, IsTrue, OnOk, OnErr};
ghost use Rattle.std.specs.Prelude.{MatchOption, MatchResult};
ghost use Rattle.std.specs.List.{list_any};
ghost use Rattle.hook_registry.specs.Table.{with_added, is_at, is_of, is_other, is_above, entry_of};
ghost use Rattle.hook_registry.specs.Table.{least_priority};
ghost use Rattle.hook_registry.specs.Groups.{registrations_of, AreGroups, IsAt, IsGap, IsEnd};
ghost use Rattle.hook_registry.specs.Groups.{IsPlaceAbove};

use crate::entries::GroupEntries;
use crate::group::Group;
use crate::registration::{Entry, Priority, Registration};
use plain_data::CallbackId;
use std::alloc::{AllocError, Global};
use std::marker::Model;

/// The groups of one hook by ascending priority, none of them empty. Contracts see the hook's
/// registrations in the order in which they run.
#[derive(Drop)]
pub struct HookGroups {
    groups: Vec<Group>,
}

impl Model for HookGroups {
    ghost use Rattle.std.specs.Prelude.{List};
    ghost use Rattle.hook_registry.specs.declared.registration.Registration.{Registration};
    ghost use Rattle.hook_registry.specs.Groups.{registrations_of, AreGroups};

    ghost Value = { List Registration };

    ghost view = { λ p. registrations_of p.groups.items };

    ghost invariant = { λ p. AreGroups p.groups.items };
}

impl HookGroups {
    /// Makes no groups. Does not allocate.
    pub fn new(alloc: Global) -> Self
        ensures { result ≡ [] }
    {
        HookGroups {
            groups: Vec::new(alloc),
        }
    }

    /// Adds an entry at a priority. On allocation failure nothing is added.
    pub fn add(&mut self, alloc: Global, priority: Priority, new: Entry) -> Result<(), AllocError>
        ensures added { OnOk result (self.new ≡ with_added self.old
            (record { priority = priority; callback = new.callback; accepted = new.accepted })) }
        ensures err { OnErr result (self.new ≡ self.old) }
    {
        match find(&self.groups, priority) {
            Ok(at) => self.groups[at].entries.add(alloc, new)?,
            Err(at) => {
                let entries = GroupEntries::one(alloc, new)?;
                self.groups.insert(at, Group { priority, entries })?;
            }
        }
        Ok(())
    }

    /// Removes the entry of a callback at a priority, and returns whether it had one. Does not
    /// allocate.
    pub fn remove(&mut self, priority: Priority, callback: CallbackId) -> bool
        ensures removed { self.new ≡ filter (λ r. not (is_of priority callback r)) self.old }
        ensures there { result ≡ list_any (is_of priority callback) self.old }
    {
        match find(&self.groups, priority) {
            Ok(at) => {
                let was_there = self.groups[at].entries.remove(callback);
                if self.groups[at].entries.is_empty() {
                    let _ = self.groups.remove(at);
                }
                was_there
            }
            Err(_) => false,
        }
    }

    /// Removes the group of a priority, or all of them. Does not allocate.
    pub fn remove_all(&mut self, priority: Option<i32>)
        ensures { self.new ≡ filter (is_other priority) self.old }
    {
        match priority {
            None => self.groups.clear(),
            Some(priority) => match find(&self.groups, Priority::new(priority)) {
                Ok(at) => {
                    let _ = self.groups.remove(at);
                }
                Err(_) => {}
            },
        }
    }

    /// Returns whether there is no registration.
    pub fn is_empty(&self) -> bool
        ensures { result ≡ (length self.now == 0) }
    {
        self.groups.is_empty()
    }

    /// Returns the callbacks at a priority.
    pub fn at(&self, alloc: Global, priority: Priority) -> Result<Vec<Entry>, AllocError>
        ensures { IfOk result
            (λ entries. entries.items ≡ map entry_of (filter (is_at priority) self.now)) }
    {
        match find(&self.groups, priority) {
            Ok(at) => Vec::from_slice(alloc, self.groups[at].entries.as_slice()),
            Err(_) => Ok(Vec::new(alloc)),
        }
    }

    /// Returns the smallest priority of a callback, if it has one.
    pub fn least_of(&self, callback: CallbackId) -> Option<Priority>
        ensures { result ≡ least_priority (λ r. r.callback == callback) self.now }
    {
        for group in self.groups.as_slice() {
            if group.entries.has(callback) {
                return Some(group.priority);
            }
        }
        None
    }

    /// Returns the registration of a hook that has no other; `None` if it has none or several.
    pub fn only(&self) -> Option<Registration>
        ensures { MatchOption result ((length self.now == 1) ≡ false)
            (λ only. self.now ≡ only ∷ []) }
    {
        if self.groups.len() != 1 {
            return None;
        }
        let group = &self.groups[0];
        let entries = group.entries.as_slice();
        if entries.len() != 1 {
            return None;
        }
        Some(Registration {
            priority: group.priority,
            callback: entries[0].callback,
            accepted: entries[0].accepted,
        })
    }

    /// Returns the group of the smallest priority, or of the smallest one above another if that is
    /// given, and its index. The group after the index of a hint is tried first.
    pub fn next_group(&self, above: Option<Priority>, hint: usize) -> Option<(usize, &Group)>
        ensures { MatchOption result (least_priority (is_above above) self.entry.now ≡ None)
            (λ found.
            (least_priority (is_above above) self.entry.now ≡ Some found.1.now.priority)
            × (map entry_of (filter (is_at found.1.now.priority) self.entry.now)
            ≡ found.1.now.entries)) }
    {
        let at = place_above(&self.groups, above, hint);
        match self.groups.get(at) {
            None => None,
            Some(group) => Some((at, group)),
        }
    }
}

/// Finds the group of a priority: `Ok` with its index, or `Err` with the index at which it would be
/// inserted.
fn find(groups: &[Group], priority: Priority) -> Result<usize, usize>
    requires { AreGroups groups.now }
    ensures { MatchResult result (IsAt priority groups.now) (IsGap priority groups.now) }
{
    let at = groups.partition_point(|group| group.is_below(priority));
    if at < groups.len() {
        if groups[at].is_at(priority) {
            return Ok(at);
        }
    }
    Err(at)
}

/// Returns the index of the first group, or of the first one above a priority; the number of groups
/// if there is none. The index after that of a hint is tried first.
fn place_above(groups: &[Group], above: Option<Priority>, hint: usize) -> usize
    requires { AreGroups groups.now }
    ensures { IsPlaceAbove above groups.now result }
{
    match above {
        None => 0,
        Some(priority) => {
            if hint < groups.len() {
                if ends_after(groups, priority, hint) {
                    return hint + 1;
                }
            }
            groups.partition_point(|group| !group.is_above(priority))
        }
    }
}

/// Returns whether the group at an index is the last one that isn't above a priority.
fn ends_after(groups: &[Group], priority: Priority, at: usize) -> bool
    requires plan { AreGroups groups.now }
    requires within { at < length groups.now }
    ensures { IsTrue result → IsEnd priority groups.now (1 + at) }
{
    if groups[at].is_above(priority) {
        return false;
    }
    at + 1 == groups.len() || groups[at + 1].is_above(priority)
}
