//! One registration, and what a pass takes of it.
ghost use Rattle.std.specs.Prelude.{◌≡◌, ℤ, Some};

use plain_data::CallbackId;
use std::marker::Model;

/// A priority, which contracts see as a whole number of 32 bits. Smaller ones run earlier.
#[derive(Clone, Copy, PartialEq, Eq, Hash)]
pub struct Priority {
    number: i32,
}

impl Model for Priority {
    ghost Value = { ℤ };

    ghost view = { λ p. p.number };

    ghost inverse = { λ z. record { number = z } };
}

impl Priority {
    /// Makes the priority of this number.
    pub fn new(number: i32) -> Self
        ensures { result ≡ number }
    {
        Priority { number }
    }

    /// Returns the priority as a number.
    pub fn number(self) -> i32
        ensures { result ≡ self }
    {
        self.number
    }
}

/// A callback that is registered under a hook, as `add_filter` and `add_action` do.
#[derive(Clone, Copy)]
pub struct Registration {
    pub priority: Priority,
    pub callback: CallbackId,
    /// How many of the pass's arguments the callback takes, 0 to 16.
    pub accepted: u8,
}

/// A callback of a group, with how many arguments it takes.
#[derive(Clone, Copy)]
pub struct Entry {
    pub callback: CallbackId,
    /// 0 to 16.
    pub accepted: u8,
}
