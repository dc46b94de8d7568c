//! Plugins in the order of their names.
ghost use Rattle.std.specs.Prelude.{◌≡◌};
ghost use Rattle.std.specs.List.Sorted.{IsSortedByKey};
ghost use Rattle.std.specs.Ordering.{nat_cmp};
ghost use Rattle.std.specs.Cmp.Lexicographic.{slice_cmp};

use crate::plugins::Plugin;
use hook_changes::Listed;
use std::marker::Model;

/// Plugins in the order of their names by bytes. It is a type of its own, since a type over stored
/// callbacks may keep what it knows of names only if it asks nothing of the callbacks.
#[derive(Drop)]
pub struct Ordered<S> {
    pub(crate) list: Listed<Plugin<S>>,
}

impl<S> Model for Ordered<S> {
    ghost use Rattle.std.specs.Prelude.{List};
    ghost use Rattle.std.specs.List.Sorted.{IsSortedByKey};
    ghost use Rattle.std.specs.Ordering.{nat_cmp};
    ghost use Rattle.std.specs.Cmp.Lexicographic.{slice_cmp};
    ghost use Rattle.callback_store.specs.declared.plugins.Plugin.{Plugin};

    ghost Value = { List (Plugin S) };

    ghost view = { λ o. o.list };

    ghost invariant = { λ o. IsSortedByKey (λ p. p.name) (slice_cmp nat_cmp) o.list };
}

impl<S> Ordered<S> {
    /// Borrows the plugins.
    #[inline]
    pub fn as_slice(&self) -> &[Plugin<S>]
        ensures { result.now ≡ self.entry.now }
    {
        self.list.as_slice()
    }

    /// Borrows the plugins, which are in order.
    #[inline]
    pub fn in_order(&self) -> &[Plugin<S>]
        ensures same { result.now ≡ self.entry.now }
        ensures sorted { IsSortedByKey (λ p. p.name) (slice_cmp nat_cmp) result.now }
    {
        self.list.as_slice()
    }
}
