//! What a pass has left of a group.
ghost use Rattle.std.specs.Prelude.{◌≡◌, ◌∷◌, [], MatchOption};

use hook_registry::{Entry, GroupPlace, SharedEntries};
use std::marker::Model;

/// What a pass has left of the group that it reached. Contracts see the entries left, the next one
/// first.
#[derive(Drop)]
pub struct EntriesLeft {
    group: Option<SharedEntries>,
    taken: usize,
    /// Where the group was. No contract sees it.
    place: GroupPlace,
}

impl Model for EntriesLeft {
    ghost use Rattle.std.specs.Prelude.{List, drop, unwrap_or, []};
    ghost use Rattle.hook_registry.specs.declared.registration.Entry.{Entry};

    ghost Value = { List Entry };

    ghost view = { λ l. drop l.taken (unwrap_or l.group []) };
}

impl EntriesLeft {
    /// Makes a list of no entries. Does not allocate.
    pub fn none() -> Self
        ensures { result ≡ [] }
    {
        EntriesLeft {
            group: None,
            taken: 0,
            place: GroupPlace { hook: 0, group: 0 },
        }
    }

    /// Starts with all entries of a group, which was found at this place.
    pub(crate) fn all(group: SharedEntries, place: GroupPlace) -> Self
        ensures { result ≡ group }
    {
        EntriesLeft {
            group: Some(group),
            taken: 0,
            place,
        }
    }

    /// Returns where the group was as it was reached.
    pub(crate) fn place(&self) -> GroupPlace {
        self.place
    }

    /// Takes the next entry, if one is left.
    pub fn take_first(&mut self) -> Option<Entry>
        ensures { MatchOption result ((self.old ≡ []) × (self.new ≡ []))
            (λ entry. self.old ≡ entry ∷ self.new) }
    {
        match &self.group {
            None => None,
            Some(group) => {
                let entries = group.as_slice();
                if self.taken >= entries.len() {
                    return None;
                }
                let entry = entries[self.taken];
                self.taken += 1;
                Some(entry)
            }
        }
    }
}
