//! What a stored callback is stated to reply.
ghost use Rattle.std.specs.Prelude.{◌≡◌, ℕ, IfOk};

use hook_changes::{Call, CallbackId, Reply};
use std::alloc::{AllocError, Global};

/// A stored callback, whose replies are stated: `says` is the one reply of each number to each
/// call, and whatever the callback answers is that reply. Each bundle of plugins has a type of its
/// own that keeps this fact beside the closure, so what a page means is known without running
/// anything.
pub trait Stated: Drop {
    ghost use Rattle.hook_changes.specs.declared.reply.Call.{Call};
    ghost use Rattle.hook_changes.specs.declared.reply.Reply.{Reply};

    /// The reply of the callback with a number to a call.
    ghost says: { ℕ → Call → Reply };

    /// The callback's number.
    ghost number: { Self → ℕ };

    /// Returns the callback's number.
    fn id(&self) -> CallbackId
        ensures { result ≡ number self.now };

    /// Returns the reply to a call, or an error if memory runs out.
    fn answer(&self, alloc: Global, call: &Call) -> Result<Reply, AllocError>
        ensures { IfOk result (λ reply. reply ≡ says (number self.now) call.now) };
}
