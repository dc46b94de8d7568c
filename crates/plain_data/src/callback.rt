//! The numbers of callbacks.
ghost use Rattle.std.specs.Prelude.{◌≡◌, ℕ};

use std::marker::Model;

/// The number by which a bundle of plugins names one of its callbacks, in place of WordPress's PHP
/// callable.
///
/// Number 0 is core's own callback, `do_shortcode`; no plugin has it.
#[derive(Clone, Copy, PartialEq, Eq)]
pub struct CallbackId {
    number: u32,
}

impl Model for CallbackId {
    ghost Value = { ℕ };

    ghost view = { λ c. c.number };

    ghost inverse = { λ n. record { number = n } };
}

impl CallbackId {
    /// Makes the ID of the callback with this number.
    pub fn new(number: u32) -> Self
        ensures { result ≡ number }
    {
        CallbackId { number }
    }

    /// Returns the callback's number.
    pub fn number(self) -> u32
        ensures { result ≡ self }
    {
        self.number
    }
}
