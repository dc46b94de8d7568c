//! Why a run is refused.
use std::alloc::AllocError;
use thiserror::Error;

/// Why a run ended early. A run that has returned one returns the same from then on.
#[derive(Clone, Copy, Debug, PartialEq, Eq, Error)]
pub enum RunFault {
    /// A callback was to be invoked and no call was left.
    #[error("too many calls")]
    TooManyCalls,
    /// A pass was to begin 33 levels deep.
    #[error("too deep")]
    TooDeep,
    /// Memory ran out, for the engine or for a callback.
    #[error("out of memory")]
    OutOfMemory,
}

impl From<AllocError> for RunFault {
    ghost use Rattle.std.specs.Prelude.{◌≡◌};
    ghost use Rattle.hook_meaning.specs.declared.fault.RunFault.{RunFault};

    ghost from_gives = { λ _ fault. fault ≡ RunFault.OutOfMemory };

    fn from(_error: AllocError) -> Self {
        RunFault::OutOfMemory
    }
}
