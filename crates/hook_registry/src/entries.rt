//! The entries of one priority: the registry's own list of them, and the one that passes share.
ghost use Rattle.std.specs.Prelude.{◌≡◌, ◌∷◌, ◌++◌, [], ◌==◌, ◌&&◌, ℕ, not, filter, length};
ghost use Rattle.std.specs.Prelude.{IfOk, IfSome, MatchOption, OnOk, OnErr};
ghost use Rattle.std.specs.List.{list_any};
ghost use Rattle.hook_registry.specs.Entries.{with_entry, is_by, is_among, AreCallbacksOf};

use crate::callbacks::Callbacks;
use crate::registration::Entry;
use plain_data::CallbackId;
use std::alloc::{AllocError, Global};
use std::marker::Model;
use std::rc::Rc;

/// Entries in order, which their owners share. They are not written while they have several owners.
#[derive(Drop)]
pub struct SharedEntries {
    entries: Rc<Vec<Entry>>,
}

impl Model for SharedEntries {
    ghost use Rattle.std.specs.Prelude.{List};
    ghost use Rattle.hook_registry.specs.declared.registration.Entry.{Entry};

    ghost Value = { List Entry };

    ghost view = { λ s. s.entries.value.items };
}

impl SharedEntries {
    /// Copies entries, to be shared.
    fn copied(alloc: Global, entries: &[Entry]) -> Result<Self, AllocError>
        ensures { IfOk result (λ shared. shared ≡ entries.now) }
    {
        let entries = Vec::from_slice(alloc, entries)?;
        Ok(SharedEntries {
            entries: Rc::new(alloc, entries)?,
        })
    }

    /// Borrows the entries.
    pub fn as_slice(&self) -> &[Entry]
        ensures { result.now ≡ self.now }
    {
        self.entries.as_slice()
    }

    /// Returns the same entries for another owner. Does not allocate; an `Err` says that they have
    /// too many owners to count.
    pub fn share(&self) -> Result<Self, AllocError>
        ensures { IfOk result (λ shared. shared ≡ self.now) }
    {
        Ok(SharedEntries {
            entries: self.entries.clone()?,
        })
    }

    /// Adds an entry after the others. If the entries have other owners, they are copied first, and
    /// those owners keep them as they were. On allocation failure nothing is added.
    fn push(&mut self, alloc: Global, new: Entry) -> Result<(), AllocError>
        ensures ok { OnOk result (self.new ≡ self.old ++ new ∷ []) }
        ensures err { OnErr result (self.new ≡ self.old) }
    {
        match Rc::get_mut(&mut self.entries) {
            Some(entries) => push_to(entries, new)?,
            None => {
                let entries = with_last(alloc, self.entries.as_slice(), new)?;
                self.entries = Rc::new(alloc, entries)?;
            }
        }
        Ok(())
    }
}

/// Adds an entry to those that passes share, or to a copy of others if there are none to share.
fn with_pushed(
    alloc: Global,
    shared: Option<SharedEntries>,
    others: &[Entry],
    new: Entry,
) -> Result<SharedEntries, AllocError>
    ensures { IfOk result (λ more. MatchOption shared (more ≡ others.now ++ new ∷ [])
        (λ entries. more ≡ entries ++ new ∷ [])) }
{
    match shared {
        Some(entries) => {
            let mut more = entries;
            more.push(alloc, new)?;
            Ok(more)
        }
        None => {
            let entries = with_last(alloc, others, new)?;
            Ok(SharedEntries {
                entries: Rc::new(alloc, entries)?,
            })
        }
    }
}

/// Returns the entries of all callbacks but one, if there are entries and they have no other owner.
/// Does not allocate.
fn without(shared: Option<SharedEntries>, callback: CallbackId) -> Option<SharedEntries>
    ensures { IfSome result (λ left. MatchOption shared ⊥
        (λ entries. left ≡ filter (λ e. not (is_by callback e)) entries)) }
{
    let SharedEntries { mut entries } = shared?;
    match Rc::get_mut(&mut entries) {
        Some(list) => remove_from(list, callback),
        None => return None,
    }
    Some(SharedEntries { entries })
}

/// The entries of one priority, in the order of adding. Contracts see the list.
///
/// Passes go over a list of the entries that they share with the registry, so that a change doesn't
/// alter what a pass has still to come to (class WP_Hook). The registry has the entries once more
/// for itself, so that a removal does not allocate, also while a pass shares the list.
pub struct GroupEntries {
    own: Vec<Entry>,
    /// The same entries, for passes to share. There are none after a removal while a pass shared
    /// them, until an entry is added.
    shared: Option<SharedEntries>,
    /// The callbacks of the entries, once there have been more than [`FEW`], so that another one is
    /// added without all of them being compared with it.
    callbacks: Option<Callbacks>,
}

/// The number of entries up to which comparing a callback with all of them costs no more than
/// finding it by its hash.
const FEW: usize = 32;

impl Model for GroupEntries {
    ghost use Rattle.std.specs.Prelude.{◌≡◌, List, IfSome};
    ghost use Rattle.hook_registry.specs.declared.registration.Entry.{Entry};
    ghost use Rattle.hook_registry.specs.Entries.{AreCallbacksOf};

    ghost Value = { List Entry };

    ghost view = { λ e. e.own.items };

    ghost invariant = { λ e. IfSome e.shared (λ shared. shared ≡ e.own.items)
        × IfSome e.callbacks (λ callbacks. AreCallbacksOf callbacks e.own.items) };
}

/// Written out, so that all who own entries call this drop, and no proof tells apart whether there
/// is a list to share.
impl Drop for GroupEntries {
    fn drop(self) {
        let GroupEntries {
            own: _,
            shared: _,
            callbacks: _,
        } = self;
    }
}

impl GroupEntries {
    /// Makes a group of one entry.
    pub fn one(alloc: Global, entry: Entry) -> Result<Self, AllocError>
        ensures { IfOk result (λ entries. entries ≡ entry ∷ []) }
    {
        let mut own = Vec::new(alloc);
        own.push(entry)?;
        let shared = Some(SharedEntries::copied(alloc, own.as_slice())?);
        Ok(GroupEntries {
            own,
            shared,
            callbacks: None,
        })
    }

    /// Borrows the entries.
    pub fn as_slice(&self) -> &[Entry]
        ensures { result.now ≡ self.now }
    {
        self.own.as_slice()
    }

    /// Returns the entries for a pass. They are shared, and copied only if there is no list to
    /// share.
    pub fn share(&self, alloc: Global) -> Result<SharedEntries, AllocError>
        ensures { IfOk result (λ shared. shared ≡ self.now) }
    {
        match &self.shared {
            Some(shared) => shared.share(),
            None => SharedEntries::copied(alloc, self.own.as_slice()),
        }
    }

    /// Returns whether a callback has an entry.
    pub fn has(&self, callback: CallbackId) -> bool
        ensures { result ≡ list_any (is_by callback) self.now }
    {
        match &self.callbacks {
            Some(callbacks) => callbacks.contains(callback),
            None => self.own.iter().any(|entry| entry.callback == callback),
        }
    }

    /// Returns whether there is no entry.
    pub fn is_empty(&self) -> bool
        ensures { result ≡ (length self.now == 0) }
    {
        self.own.is_empty()
    }

    /// Adds an entry after the others. If the callback has one, that keeps its place and takes the
    /// new count. On allocation failure nothing is added.
    pub fn add(&mut self, alloc: Global, new: Entry) -> Result<(), AllocError>
        ensures added { OnOk result (self.new ≡ with_entry self.old new) }
        ensures err { OnErr result (self.new ≡ self.old) }
    {
        if !self.has(new.callback) {
            return self.push(alloc, new);
        }
        let changed = with_entry(alloc, self.own.as_slice(), new)?;
        let shared = SharedEntries::copied(alloc, changed.as_slice())?;
        self.own = changed;
        self.shared = Some(shared);
        Ok(())
    }

    fn push(&mut self, alloc: Global, new: Entry) -> Result<(), AllocError>
        ensures ok { OnOk result (self.new ≡ self.old ++ new ∷ []) }
        ensures err { OnErr result (self.new ≡ self.old) }
    {
        let shared = self.shared.take();
        let for_passes = new;
        let more = with_pushed(alloc, shared, self.own.as_slice(), for_passes)?;
        let callbacks = self.callbacks.take();
        let for_callbacks = new;
        let callbacks = with_callback(alloc, callbacks, self.own.as_slice(), for_callbacks)?;
        push_to(&mut self.own, new)?;
        self.shared = Some(more);
        self.callbacks = callbacks;
        Ok(())
    }

    /// Removes the entry of a callback, and returns whether it had one. Does not allocate.
    pub fn remove(&mut self, callback: CallbackId) -> bool
        ensures removed { self.new ≡ filter (λ e. not (is_by callback e)) self.old }
        ensures there { result ≡ list_any (is_by callback) self.old }
    {
        let was_there = self.has(callback);
        remove_from(&mut self.own, callback);
        self.shared = without(self.shared.take(), callback);
        self.callbacks = without_callback(self.callbacks.take(), callback);
        was_there
    }
}

/// Returns the callbacks without one, if there are any. Does not allocate.
fn without_callback(callbacks: Option<Callbacks>, callback: CallbackId) -> Option<Callbacks>
    ensures { IfSome result (λ left. MatchOption callbacks ⊥ (λ all. (c : ℕ) →
        is_among left c ≡ (not (callback == c) && is_among all c))) }
{
    let mut left = callbacks?;
    left.remove(callback);
    Some(left)
}

/// Adds the callback of a new entry to those of the others. They are read first if there are many
/// others and none has been read.
fn with_callback(
    alloc: Global,
    callbacks: Option<Callbacks>,
    others: &[Entry],
    new: Entry,
) -> Result<Option<Callbacks>, AllocError>
    requires { IfSome callbacks (λ callbacks. AreCallbacksOf callbacks others.now) }
    ensures { IfOk result (λ more. IfSome more
        (λ callbacks. AreCallbacksOf callbacks (others.now ++ new ∷ []))) }
{
    let mut more = match callbacks {
        Some(callbacks) => callbacks,
        None if others.len() < FEW => return Ok(None),
        None => Callbacks::of(alloc, others)?,
    };
    more.insert(new.callback)?;
    Ok(Some(more))
}

/// Adds an entry after the others. On allocation failure nothing is added.
fn push_to(entries: &mut Vec<Entry>, new: Entry) -> Result<(), AllocError>
    ensures ok { OnOk result (entries.new.items ≡ entries.old.items ++ new ∷ []) }
    ensures err { OnErr result (entries.new.items ≡ entries.old.items) }
{
    entries.push(new)?;
    Ok(())
}

/// Removes the entry of a callback. Does not allocate.
fn remove_from(entries: &mut Vec<Entry>, callback: CallbackId)
    ensures { entries.new.items ≡ filter (λ e. not (is_by callback e)) entries.old.items }
{
    entries.retain(|entry| entry.callback != callback);
}

/// Copies the entries, and adds one after them.
fn with_last(alloc: Global, entries: &[Entry], new: Entry) -> Result<Vec<Entry>, AllocError>
    ensures { IfOk result (λ copy. copy.items ≡ entries.now ++ new ∷ []) }
{
    let mut copy = Vec::with_capacity(alloc, entries.len() + 1)?;
    copy.extend_from_slice(entries)?;
    copy.push(new)?;
    Ok(copy)
}

/// Copies the entries with one added. If the callback has an entry, that keeps its place and takes
/// the new count; otherwise the new entry goes last.
fn with_entry(alloc: Global, entries: &[Entry], new: Entry) -> Result<Vec<Entry>, AllocError>
    ensures { IfOk result (λ changed. changed.items ≡ with_entry entries.now new) }
{
    let mut changed = Vec::with_capacity(alloc, entries.len() + 1)?;
    changed.extend_from_slice(entries)?;
    for at in 0..entries.len() {
        if entries[at].callback == new.callback {
            changed[at].accepted = new.accepted;
            return Ok(changed);
        }
    }
    changed.push(new)?;
    Ok(changed)
}
