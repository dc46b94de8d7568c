//! Values under names.
ghost use Rattle.std.specs.Prelude.{◌≡◌, ◌<◌, [], length, map, slice_get, Some, is_some, OnOk};
ghost use Rattle.std.specs.Prelude.{OnErr};
ghost use Rattle.hook_registry.specs.Named.{value_of, set_value, remove_value};

use indexmap::IndexMap;
use std::alloc::{AllocError, Global};
use std::marker::Model;

/// Values under names, in the order in which the names were first set.
#[derive(Drop)]
pub struct Named<V> {
    alloc: Global,
    values: IndexMap<String, V>,
}

impl<V> Model for Named<V> {
    ghost use Rattle.std.specs.Prelude.{List, ℕ, map, string_bytes};

    ghost Value = { List (List ℕ × V) };

    ghost view = { λ n. map (λ e. (string_bytes e.0, e.1)) n.values.entries };
}

impl<V: Copy + Drop> Named<V> {
    /// Makes a map of no names. Does not allocate.
    pub fn new(alloc: Global) -> Self
        ensures { result ≡ [] }
    {
        Named {
            alloc,
            values: IndexMap::new(alloc),
        }
    }

    /// Returns the value under a name, if there is one.
    pub fn get(&self, name: &str) -> Option<V>
        ensures { result ≡ value_of self.now name.now }
    {
        self.values.get(name).copied()
    }

    /// Returns the value under a name, if there is one. The name at a place, counted from 0, is
    /// tried first, which spares the look-up by name; the place becomes that of the name found.
    pub fn get_near(&self, name: &str, place: &mut usize) -> Option<V>
        ensures { result ≡ value_of self.now name.now }
    {
        if let Some((near, value)) = self.values.get_index(*place) {
            if near.as_str() == name {
                return Some(*value);
            }
        }
        match self.values.get_full(name) {
            None => None,
            Some((at, _name, value)) => {
                *place = at;
                Some(*value)
            }
        }
    }

    /// Sets the value of a name, which keeps its place if it is there. On allocation failure
    /// nothing is set.
    pub fn set(&mut self, name: &str, value: V) -> Result<(), AllocError>
        ensures ok { OnOk result (self.new ≡ set_value self.old name.now value) }
        ensures err { OnErr result (self.new ≡ self.old) }
    {
        let name = String::from_str(self.alloc, name)?;
        self.values.insert(name, value)?;
        Ok(())
    }

    /// Removes a name, and returns whether it was there. Does not allocate.
    pub fn remove(&mut self, name: &str) -> bool
        ensures removed { self.new ≡ remove_value self.old name.now }
        ensures there { result ≡ is_some (value_of self.old name.now) }
    {
        self.values.shift_remove(name).is_some()
    }

    /// Returns the number of names.
    pub fn len(&self) -> usize
        ensures { result ≡ length self.now }
    {
        self.values.len()
    }

    /// Returns the name at a place, counted from 0.
    pub fn name_at(&self, at: usize) -> &str
        requires { at < length self.now }
        ensures { slice_get (map (λ p. p.0) self.entry.now) at ≡ Some result.now }
    {
        match self.values.get_index(at) {
            Some((name, _)) => name.as_str(),
            None => unreachable!(),
        }
    }

    /// Removes all names. Does not allocate.
    pub fn clear(&mut self)
        ensures { self.new ≡ [] }
    {
        self.values.clear();
    }
}
