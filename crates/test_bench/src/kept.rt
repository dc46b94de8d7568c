//! The callbacks that are timed.
ghost use Rattle.test_bench.specs.Kept.{keeps_value};

use callback_store::Stated;
use hook_changes::{Call, CallbackId, Listed, Reply, Text, Then};
use std::alloc::{AllocError, Global};

/// A callback that answers the value as it came.
#[derive(Drop)]
pub struct Kept {
    id: CallbackId,
}

impl Kept {
    /// Makes the callback of a number.
    pub fn new(id: CallbackId) -> Self {
        Kept { id }
    }
}

impl Stated for Kept {
    ghost says = { keeps_value };

    ghost number = { λ stored. stored.id };

    fn id(&self) -> CallbackId {
        self.id
    }

    fn answer(&self, alloc: Global, call: &Call) -> Result<Reply, AllocError> {
        let value = match call.args.as_slice() {
            [] => Text::empty(alloc),
            [value, ..] => value.clone()?,
        };
        Ok(Reply {
            changes: Listed::empty(alloc),
            echo: Text::empty(alloc),
            next: Then::Answer(value),
        })
    }
}
