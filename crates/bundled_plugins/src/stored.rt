//! A callback as the engine keeps it.
ghost use Rattle.std.specs.Prelude.{◌≡◌, Ok};
ghost use Rattle.bundled_plugins.specs.Program.{says};

use callback_store::Stated;
use hook_changes::{Call, CallbackId, Reply};
use std::alloc::{AllocError, Global};

/// A callback as a boxed function, which takes the allocator and what it is called with.
pub type Function = Box<dyn Fn(Global, &Call) -> Result<Reply, AllocError>>;

/// A callback of the program: a boxed function, kept with the facts that it may be called on every call,
/// and that whatever it answers is what its plugin states for its number.
#[derive(Drop)]
pub struct Stored {
    id: CallbackId,
    function: Function,
    ghost callable: { Function.IsAlwaysCallable function },
    ghost as_stated: { (alloc : _) (call : _) (reply : _)
        → Function.post function alloc call (Ok reply) → reply ≡ says id call.now },
}

impl Stored {
    /// Stores a function as the callback with that number. Does not allocate.
    pub fn new(id: CallbackId, function: Function) -> Self
        requires callable { Function.IsAlwaysCallable function }
        requires as_stated { (alloc : _) (call : _) (reply : _)
            → Function.post function alloc call (Ok reply) → reply ≡ says id call.now }
        ensures { ⟦<Stored as Stated>⟧.number result ≡ id }
    {
        Stored { id, function }
    }
}

impl Stated for Stored {
    ghost says = { says };

    ghost number = { λ stored. stored.id };

    fn id(&self) -> CallbackId {
        self.id
    }

    fn answer(&self, alloc: Global, call: &Call) -> Result<Reply, AllocError> {
        (self.function)(alloc, call)
    }
}
