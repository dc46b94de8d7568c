//! A run that is put aside.
ghost use Rattle.std.specs.Prelude.{◌≡◌};

use crate::run::jobs::Job;
use crate::run::stack::Stack;
use crate::state::State;

/// A run that is put aside between two turns, without a fault: all that it owns. It doesn't borrow
/// the plugins, which are handed in again when it goes on.
pub struct PausedRun {
    pub(crate) state: State,
    pub(crate) job: Option<Job>,
    pub(crate) stack: Stack,
}

/// Written out, so that a crate which owns a run that is put aside calls this drop, and proves no
/// drop of what such a run owns.
impl Drop for PausedRun {
    fn drop(self) {
        let PausedRun {
            state: _,
            job: _,
            stack: _,
        } = self;
    }
}

impl PausedRun {
    /// Takes the run apart. Only this module may, since a type with a `Drop` of its own has no
    /// pattern elsewhere.
    pub(crate) fn into_parts(self) -> (State, Option<Job>, Stack)
        ensures { result ≡ (self.state, self.job, self.stack) }
    {
        let PausedRun { state, job, stack } = self;
        (state, job, stack)
    }
}
