//! The registry.
ghost use Rattle.std.specs.Prelude.{◌≡◌, ◌==◌, ◌≤◌, ◌+◌, ◌∷◌, [], false, length, map, min, is_some};
ghost use Rattle.std.specs.Prelude.{MatchOption, Some, None, IfOk, IsTrue, OnOk, OnErr, option_map};
ghost use Rattle.std.specs.List.{list_all, list_any};
ghost use Rattle.plain_data.specs.Names.{is_tag_name};
ghost use Rattle.hook_registry.specs.Named.{value_of, set_value, remove_value};
ghost use Rattle.hook_registry.specs.Table.{Table, registrations, add, remove, remove_all, group};
ghost use Rattle.hook_registry.specs.Table.{next_priority, has, is_of, priority_of, times_fired};

use crate::entries::SharedEntries;
use crate::hook_table::{GroupPlace, HookTable};
use crate::named::Named;
use crate::registration::{Entry, Priority, Registration};
use plain_data::{CallbackId, HookName, NameFault, TagName};
use std::alloc::{AllocError, Global};
use std::marker::Model;

/// A group as a pass takes it: its priority, its entries, and where it was.
#[derive(Drop)]
pub struct SharedGroup {
    pub priority: Priority,
    pub entries: SharedEntries,
    pub place: GroupPlace,
}

/// The registrations of every hook, the handlers of tags, and the firing counts of actions (Plugin
/// Handbook, Hooks; Shortcode API). Actions and filters share one table, as in WordPress.
#[derive(Drop)]
pub struct Registry {
    alloc: Global,
    hooks: HookTable,
    tags: Named<CallbackId>,
    counts: Named<u32>,
}

impl Model for Registry {
    ghost use Rattle.std.specs.Prelude.{IsTrue};
    ghost use Rattle.std.specs.List.{list_all};
    ghost use Rattle.plain_data.specs.Names.{is_tag_name};
    ghost use Rattle.hook_registry.specs.Table.{Registered};

    ghost Value = { Registered };

    ghost view = { λ r. record { table = r.hooks; tags = r.tags; counts = r.counts } };

    ghost invariant = { λ r. IsTrue (list_all (λ p. is_tag_name p.0) r.tags) };
}

impl Registry {
    /// Makes a registry with nothing registered, no tags and nothing fired. Does not allocate.
    pub fn new(alloc: Global) -> Self
        ensures { result ≡ record { table = []; tags = []; counts = [] } }
    {
        Registry {
            alloc,
            hooks: HookTable::new(alloc),
            tags: Named::new(alloc),
            counts: Named::new(alloc),
        }
    }

    /// Registers a callback under a hook and a priority, for a number of arguments (Code Reference,
    /// add_filter).
    ///
    /// Callbacks of one priority run in the order of adding. One that is there keeps its place and
    /// takes the new count. On allocation failure nothing is registered.
    pub fn add(
        &mut self,
        hook: &HookName,
        priority: i32,
        callback: CallbackId,
        accepted: u8,
    ) -> Result<(), AllocError>
        requires { accepted ≤ 16 }
        ensures added { OnOk result (self.new ≡ record self.old {
          table = add self.old.table hook.now
              (record { priority = priority; callback = callback; accepted = accepted });
        }) }
        ensures err { OnErr result (self.new ≡ self.old) }
    {
        self.hooks.add(hook, priority, callback, accepted)
    }

    /// Removes one registration, and returns whether it was there (Code Reference, remove_filter).
    /// Does not allocate.
    pub fn remove(&mut self, hook: &HookName, priority: i32, callback: CallbackId) -> bool
        ensures removed { self.new
            ≡ record self.old { table = remove self.old.table hook.now priority callback } }
        ensures there { result ≡ list_any (is_of priority callback)
            (registrations self.old.table hook.now) }
    {
        self.hooks.remove(hook, priority, callback)
    }

    /// Removes all registrations of a hook, or those of one priority (Code Reference,
    /// remove_all_filters). Does not allocate.
    pub fn remove_all(&mut self, hook: &HookName, priority: Option<i32>)
        ensures { self.new ≡ record self.old {
          table =
              remove_all self.old.table hook.now priority;
        } }
    {
        self.hooks.remove_all(hook, priority);
    }

    /// Returns whether a hook has any registration (Code Reference, has_filter without a callback).
    /// A text that is no hook's name has none.
    pub fn has(&self, hook: &str) -> bool
        ensures { result ≡ has self.now.table hook.now }
    {
        self.hooks.has(hook)
    }

    /// Returns the smallest priority of a callback under a hook, if it has one (Code Reference,
    /// has_filter with a callback).
    pub fn priority_of(&self, hook: &str, callback: CallbackId) -> Option<i32>
        ensures { result ≡ priority_of self.now.table hook.now callback }
    {
        self.hooks.priority_of(hook, callback)
    }

    /// Returns the group of a hook's smallest priority, or of the smallest one above another if
    /// that is given, for a pass to go over. No entries are copied, unless one of the group was
    /// removed while another pass was in it (class WP_Hook).
    ///
    /// The search begins at the place where the pass found the group before it.
    pub fn next_group(
        &self,
        hook: &str,
        above: Option<Priority>,
        before: GroupPlace,
    ) -> Result<Option<SharedGroup>, AllocError>
        ensures { IfOk result (λ found. MatchOption found
            (next_priority self.now.table hook.now above ≡ None)
            (λ g. (next_priority self.now.table hook.now above ≡ Some g.priority)
            × (group self.now.table hook.now g.priority ≡ g.entries))) }
    {
        match self.hooks.next_group(hook, above, before) {
            None => Ok(None),
            Some((group, place)) => Ok(Some(SharedGroup {
                priority: group.priority,
                entries: group.entries.share(self.alloc)?,
                place,
            })),
        }
    }

    /// Returns the registration of a hook that has no other; `None` if it has none or several.
    pub fn only(&self, hook: &str) -> Option<Registration>
        ensures { MatchOption result ((length (registrations self.now.table hook.now) == 1) ≡ false)
            (λ only. registrations self.now.table hook.now ≡ only ∷ []) }
    {
        self.hooks.only(hook)
    }

    /// Returns the callbacks of a hook at a priority, in the order of adding. Reads only the hook's
    /// own registrations.
    pub fn group(&self, hook: &HookName, priority: i32) -> Result<Vec<Entry>, AllocError>
        ensures { IfOk result (λ entries. entries.items ≡ group self.now.table hook.now priority) }
    {
        self.hooks.group(hook, priority)
    }

    /// Returns the smallest priority of a hook, or the smallest one above another if that is given.
    pub fn next_priority(&self, hook: &HookName, after: Option<i32>) -> Option<i32>
        ensures { result ≡ next_priority self.now.table hook.now after }
    {
        self.hooks.next_priority(hook, after)
    }

    /// Makes a callback the handler of a tag (Code Reference, add_shortcode). A tag that is there
    /// keeps its place and takes the new handler. On allocation failure nothing changes.
    pub fn add_tag(&mut self, tag: &TagName, callback: CallbackId) -> Result<(), AllocError>
        ensures added { OnOk result
            (self.new ≡ record self.old { tags = set_value self.old.tags tag.now callback }) }
        ensures err { OnErr result (self.new ≡ self.old) }
    {
        self.tags.set(tag.as_str(), callback)
    }

    /// Removes a tag, and returns whether it was there (Code Reference, remove_shortcode). Does not
    /// allocate.
    pub fn remove_tag(&mut self, tag: &str) -> bool
        ensures removed { self.new ≡ record self.old { tags = remove_value self.old.tags tag.now } }
        ensures there { result ≡ is_some (value_of self.old.tags tag.now) }
    {
        self.tags.remove(tag)
    }

    /// Removes all tags (Code Reference, remove_all_shortcodes). Does not allocate.
    pub fn remove_all_tags(&mut self)
        ensures { self.new ≡ record self.old { tags = [] } }
    {
        self.tags.clear();
    }

    /// Returns the handler of a tag. A text that is no tag has none.
    pub fn tag(&self, tag: &str) -> Option<CallbackId>
        ensures { result ≡ value_of self.now.tags tag.now }
    {
        self.tags.get(tag)
    }

    /// Returns the handler of a tag, as [`Registry::tag`] does. The tag at a place among all,
    /// counted from 0, is tried first, and the place becomes that of the tag found: the shortcodes
    /// of a text often have one name.
    pub fn tag_near(&self, tag: &str, place: &mut usize) -> Option<CallbackId>
        ensures { result ≡ value_of self.now.tags tag.now }
    {
        self.tags.get_near(tag, place)
    }

    /// Returns the tags, in the order in which they were first added.
    pub fn tag_names(&self) -> Result<Vec<TagName>, AllocError>
        ensures { IfOk result (λ names. names.items ≡ map (λ p. p.0) self.now.tags) }
    {
        let mut names = Vec::new(self.alloc);
        for at in 0..self.tags.len() {
            match TagName::read(self.alloc, self.tags.name_at(at)) {
                Ok(name) => names.push(name)?,
                Err(NameFault::OutOfMemory) => return Err(AllocError),
                Err(NameFault::BadName) => unreachable!(),
            }
        }
        Ok(names)
    }

    /// Returns the number of tags. Each of them is a name that a shortcode may have.
    pub fn tag_count(&self) -> usize
        ensures count { result ≡ length self.now.tags }
        ensures names { IsTrue (list_all (λ p. is_tag_name p.0) self.now.tags) }
    {
        self.tags.len()
    }

    /// Returns the tag of this name, if there is one. Only this one is looked up and copied.
    pub fn tag_named(&self, name: &str) -> Result<Option<TagName>, AllocError>
        ensures { IfOk result
            (λ tag. tag ≡ option_map (λ handler. name.now) (value_of self.now.tags name.now)) }
    {
        if self.tags.get(name).is_none() {
            return Ok(None);
        }
        match TagName::read(self.alloc, name) {
            Ok(tag) => Ok(Some(tag)),
            Err(NameFault::OutOfMemory) => Err(AllocError),
            Err(NameFault::BadName) => unreachable!(),
        }
    }

    /// Counts one firing of an action, and returns the new count, which stays at 4,294,967,295 once
    /// there (Code Reference, did_action). On allocation failure nothing is counted.
    pub fn fire(&mut self, hook: &HookName) -> Result<u32, AllocError>
        ensures fired { IfOk result (λ count.
            (count ≡ min (times_fired self.old.counts hook.now + 1) 4294967295)
            × (self.new ≡ record self.old {
              counts = set_value self.old.counts hook.now count;
            })) }
        ensures err { OnErr result (self.new ≡ self.old) }
    {
        let count = self.did(hook.as_str()).saturating_add(1);
        self.counts.set(hook.as_str(), count)?;
        Ok(count)
    }

    /// Returns how often an action was fired (Code Reference, did_action). A text that is no hook's
    /// name was never fired.
    pub fn did(&self, hook: &str) -> u32
        ensures { result ≡ times_fired self.now.counts hook.now }
    {
        self.counts.get(hook).unwrap_or(0)
    }
}
