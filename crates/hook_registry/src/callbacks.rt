//! The callbacks of a priority that has many, found by a hash.
ghost use Rattle.std.specs.Prelude.{◌≡◌, ◌==◌, ◌||◌, ◌&&◌, ℕ, not, OnOk, IfOk};
ghost use Rattle.hook_registry.specs.Entries.{is_among, AreCallbacksOf};

use crate::registration::Entry;
use plain_data::CallbackId;
use std::alloc::{AllocError, Global};
use std::collections::HashSet;
use std::marker::Model;

/// The callbacks of a list of entries. Contracts see their numbers, in no order.
///
/// They are boxed, since most priorities have none and every group has room for them.
#[derive(Drop)]
pub struct Callbacks {
    numbers: Box<HashSet<u32>>,
}

impl Model for Callbacks {
    ghost use Rattle.std.specs.Prelude.{ℕ, List};

    ghost Value = { List ℕ };

    ghost view = { λ c. c.numbers.value.keys };
}

impl Callbacks {
    /// Reads the callbacks of some entries.
    pub fn of(alloc: Global, entries: &[Entry]) -> Result<Self, AllocError>
        ensures { IfOk result (λ callbacks. AreCallbacksOf callbacks entries.now) }
    {
        let mut numbers = HashSet::with_capacity(alloc, entries.len())?;
        for entry in entries {
            numbers.insert(entry.callback.number())?;
        }
        Ok(Callbacks {
            numbers: Box::new(alloc, numbers)?,
        })
    }

    /// Returns whether a callback is among them.
    pub fn contains(&self, callback: CallbackId) -> bool
        ensures { result ≡ is_among self.now callback }
    {
        self.numbers.contains(&callback.number())
    }

    /// Adds a callback. On allocation failure nothing is added.
    pub fn insert(&mut self, callback: CallbackId) -> Result<(), AllocError>
        ensures { OnOk result ((c : ℕ) → is_among self.new c ≡ (callback == c || is_among self.old c)) }
    {
        self.numbers.insert(callback.number())?;
        Ok(())
    }

    /// Removes a callback, if it is among them. Does not allocate.
    pub fn remove(&mut self, callback: CallbackId)
        ensures { (c : ℕ) → is_among self.new c ≡ (not (callback == c) && is_among self.old c) }
    {
        self.numbers.remove(&callback.number());
    }
}
