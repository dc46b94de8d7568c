//! A list whose items are taken from its front.
ghost use Rattle.std.specs.Prelude.{◌≡◌, ◌∷◌, List, [], reverse, OnOk, OnErr, MatchOption, length};
ghost use Rattle.std.specs.Prelude.{slice_get};
ghost use Rattle.std.specs.Option.{option_copied};

use std::alloc::{AllocError, Global};
use std::marker::Model;

/// Items in order, of which the first is taken and put back without moving the others. Contracts
/// see a list.
#[derive(Drop)]
pub struct Left<T> {
    turned: Vec<T>,
}

impl<T> Model for Left<T> {
    ghost use Rattle.std.specs.Prelude.{List, reverse};

    ghost Value = { List T };

    ghost view = { λ l. reverse l.turned.items };
}

impl<T> Left<T> {
    /// Makes a list of no items. Does not allocate.
    pub fn none(alloc: Global) -> Self
        ensures { result ≡ [] }
    {
        Left {
            turned: Vec::new(alloc),
        }
    }

    /// Takes over the items of a `Vec`, which is reversed in place.
    pub fn new(items: Vec<T>) -> Self
        ensures { result ≡ items.items }
    {
        let mut turned = items;
        turned.reverse();
        Left { turned }
    }

    /// Takes the first item.
    pub fn take_first(&mut self) -> Option<T>
        ensures { MatchOption result ((self.old ≡ []) × (self.new ≡ [])) (λ item. self.old ≡ item
            ∷ self.new) }
    {
        self.turned.pop()
    }

    /// Returns how many items are left.
    pub fn len(&self) -> usize
        ensures { result ≡ length self.now }
    {
        self.turned.len()
    }

    /// Borrows the item at a place, counted from 0 at the front, if there is one.
    pub fn get(&self, place: usize) -> Option<&T>
        ensures { option_copied result ≡ slice_get self.entry.now place }
    {
        let items = self.turned.as_slice();
        if place < items.len() {
            items.get(items.len() - 1 - place)
        } else {
            None
        }
    }
}

impl<T: Drop> Left<T> {
    /// Puts an item before the others. On allocation failure the items stay as they were.
    pub fn put_first(&mut self, item: T) -> Result<(), AllocError>
        ensures ok { OnOk result (self.new ≡ item ∷ self.old) }
        ensures err { OnErr result (self.new ≡ self.old) }
    {
        self.turned.push(item)?;
        Ok(())
    }
}
