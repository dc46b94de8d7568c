//! The invocation that a stopped run's last turn has made: the innermost of its frames.
ghost use Rattle.std.specs.Prelude.{◌≡◌, IfOk, IfSome, option_map, slice_get};
ghost use Rattle.std.specs.Option.{option_copied};
ghost use Rattle.hook_machine.specs.Invocations.{made_as, last_made, reached_by, invoked_in};
ghost use Rattle.hook_machine.specs.Invocations.{reply_made, GoesOnWith};
ghost use Rattle.hook_meaning.specs.Meaning.{Engine};
ghost use Rattle.hook_machine.specs.Outcomes.{engine_over};
ghost use Rattle.hook_machine.specs.Runs.{paused_world, paused_event};

use crate::run::calls::reply_of;
use crate::run::frames::{Frame, Invoked};
use crate::run::paused::PausedRun;
use crate::run::stack::Stack;
use callback_store::{Plugins, Stated};
use hook_changes::{Call, CallbackId, Reply};
use hook_registry::Priority;
use std::alloc::{AllocError, Global};

/// An invocation that the last turn of a run has made: its callback, and its call.
#[derive(Drop)]
pub struct Invocation<'r> {
    pub callback: CallbackId,
    pub call: &'r Call,
    /// The priority that its pass has reached; a shortcode's handler has none.
    pub priority: Option<Priority>,
    /// How deep in asks the run is, 0 to 32.
    pub depth: u32,
}

impl<'r> Invocation<'r> {
    /// Calls the callback and returns its reply, which is the one that is stated for it and this
    /// call. Core's callback 0 has no reply.
    pub fn reply<S: Stated>(
        &self,
        plugins: &Plugins<S>,
        alloc: Global,
    ) -> Result<Option<Reply>, AllocError>
        ensures { IfOk result (λ reply. reply ≡ reply_made (engine_over S.says S.number plugins.now)
            self.now.callback self.now.call.now) }
    {
        if self.callback.number() == 0 {
            return Ok(None);
        }
        Ok(Some(reply_of(plugins, alloc, self.callback, self.call)?))
    }
}

/// Returns the priority that the pass under the innermost frame has reached.
fn priority_reached(stack: &Stack) -> Option<Priority>
    ensures { result ≡ reached_by (slice_get stack.now 1) }
{
    match stack.get(1) {
        Some(Frame::Pass(pass)) => pass.reached(),
        _ => None,
    }
}

/// Returns the invocation of the innermost frame, if that is one.
fn innermost(stack: &Stack) -> Option<&Invoked>
    ensures { option_copied result ≡ invoked_in (slice_get stack.entry.now 0) }
{
    match stack.get(0) {
        Some(Frame::Invocation(invoked)) => Some(invoked),
        _ => None,
    }
}

impl PausedRun {
    /// Returns the invocation that the last turn has made. It is `None` before the first turn of a
    /// job, and after the last.
    pub fn invocation(&self) -> Option<Invocation<'_>>
        ensures made { option_map made_as result ≡ last_made self.entry.now }
        ensures event { IfSome result (λ i. (i.callback ≡ (paused_event self.entry.now).callback)
            × (i.call.now ≡ (paused_event self.entry.now).call)) }
        ensures left { (engine : Engine) → IfSome result (λ i.
            GoesOnWith engine self.entry.now i.callback i.call.now) }
    {
        if self.job.is_some() {
            return None;
        }
        let invoked = innermost(&self.stack)?;
        Some(Invocation {
            callback: invoked.callback(),
            call: invoked.call(),
            priority: priority_reached(&self.stack),
            depth: self.state.depth,
        })
    }

    /// Returns how many invocations may still be made.
    pub fn calls_left(&self) -> u32
        ensures { result ≡ (paused_world self.now).calls }
    {
        self.state.calls()
    }
}
