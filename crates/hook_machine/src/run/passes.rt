//! Passes over hooks as frames of a run: a pass begins, invokes its next callback, and leaves its
//! hook at its end.
//!
//! Each function here goes on with the innermost frame. It ends with `Move::Turned` right after an
//! invocation at which the run stops, or with `Move::Handed` and a result for the frame below;
//! `jobs` calls it, and hands that result on. After an `Err` the state may have part of a reply's
//! changes: `Run` returns that fault from then on, and never goes on. The clauses `weight` bound how
//! often a result is handed on, so `jobs` comes to an end.
ghost use Rattle.std.specs.Prelude.{◌≡◌, ◌<◌, ℕ, List, IfOk, IfErr, IsTrue, OnOk, take};
ghost use Rattle.hook_machine.specs.declared.run.frames.Pace.TheVariants.{Through};
ghost use Rattle.hook_changes.specs.declared.reply.Call.{Call};
ghost use Rattle.hook_meaning.specs.World.{World};
ghost use Rattle.hook_meaning.specs.Meaning.{Engine, pass, filter_pass, action_pass, invoke};
ghost use Rattle.hook_meaning.specs.Meaning.{hook_call, arguments, value_after};
ghost use Rattle.hook_machine.specs.Outcomes.{engine_over};
ghost use Rattle.hook_machine.specs.PassedOver.{left_by_core};
ghost use Rattle.hook_machine.specs.Rest.{after_call, pass_left, pending_left};
ghost use Rattle.hook_machine.specs.Moves.{Does, AddsWeight, Invokes, MayAnswer, went_left};
ghost use Rattle.hook_machine.specs.Moves.{made_by, went_by};

use crate::run::calls::reply_of;
use crate::run::frames::{Frame, HookPass, Invoked, Move, Pace, PassParts, Pending, Went};
use crate::run::stack::Stack;
use crate::state::State;
use call_plans::Position;
use callback_store::{Plugins, Stated};
use hook_changes::{HookName, Listed, Text, Then};
use hook_meaning::{PassKind, RunFault};
use hook_registry::Entry;
use std::alloc::{AllocError, Global};

/// Calls the callback, carries the echo and the changes of its reply out, and returns what its
/// invocation is to do next. Core's own callback has no reply.
fn call_and_apply<S: Stated>(
    plugins: &Plugins<S>,
    state: &mut State,
    invoked: &Invoked,
) -> Result<Pending, RunFault>
    ensures ok { IfOk result (λ pending. (state.new, pending)
        ≡ after_call (engine_over S.says S.number plugins.now) state.old invoked.now.callback
        invoked.now.call) }
    ensures err { IfErr result (λ fault. fault ≡ RunFault.OutOfMemory) }
    ensures calls { state.new.calls ≡ state.old.calls }
{
    let callback = invoked.callback();
    if callback.number() == 0 {
        return Ok(Pending::Core);
    }
    let reply = reply_of(plugins, state.alloc(), callback, invoked.call())?;
    state.carry_out(plugins, &reply)?;
    Ok(Pending::Next(reply.next))
}

/// Returns the outcome of an invocation, given its next step.
fn went(invoked: Invoked, pending: Pending, pace: Pace) -> Went
    ensures left { (engine : Engine) (world : World)
        → pending_left engine world invoked.callback invoked.call pending
        ≡ went_left engine world result }
    ensures made { (world : World) → went_by world result ≡ made_by world invoked }
    ensures may { MayAnswer pace result }
{
    let mut invoked = invoked;
    let waits = match pace {
        Pace::ByTurns => pending,
        Pace::Through => match pending {
            Pending::Next(Then::Answer(text)) => return Went::Answered(invoked, text),
            other => other,
        },
    };
    invoked.set_pending(waits);
    Went::Waits(invoked)
}

/// Invokes a callback.
pub fn invoke<S: Stated>(
    plugins: &Plugins<S>,
    state: &mut State,
    invoked: Invoked,
    pace: Pace,
) -> Result<Went, RunFault>
    ensures invokes { Invokes (engine_over S.says S.number plugins.now)
        (invoke (engine_over S.says S.number plugins.now) state.old invoked.callback invoked.call)
        result state.new }
    ensures may { IfOk result (MayAnswer pace) }
    ensures calls { OnOk result (state.new.calls < state.old.calls) }
{
    state.take_call()?;
    let pending = call_and_apply(plugins, state, &invoked)?;
    Ok(went(invoked, pending, pace))
}

/// Invokes a callback, and hands its answer on or keeps how it goes on.
pub fn invoke_turn<S: Stated>(
    plugins: &Plugins<S>,
    state: &mut State,
    stack: &mut Stack,
    invoked: Invoked,
    pace: Pace,
) -> Result<Move, RunFault>
    ensures moves { Does pace (engine_over S.says S.number plugins.now)
        (λ engine. invoke engine state.old invoked.callback invoked.call) stack.old result state.new
        stack.new }
    ensures weight { AddsWeight 0 result stack.old stack.new }
{
    let went = invoke(plugins, state, invoked, pace)?;
    match went {
        Went::Answered(invoked, text) => {
            stack.keep_spare(invoked);
            Ok(Move::Handed(text))
        }
        Went::Waits(invoked) => {
            stack.put_first(Frame::Invocation(invoked))?;
            Ok(Move::Turned)
        }
    }
}

/// Makes the invocation of a pass's next callback. A filter's value moves into its call.
fn next_invocation(
    alloc: Global,
    stack: &mut Stack,
    pass: &mut HookPass,
    entry: Entry,
) -> Result<Invoked, AllocError>
    ensures callback { IfOk result (λ invoked. invoked.callback ≡ entry.callback) }
    ensures call { IfOk result (λ invoked. invoked.call ≡ hook_call pass.old.position.hook
        (take entry.accepted (arguments pass.old.kind pass.old.value pass.old.args))) }
    ensures pass { OnOk result (pass.new ≡ record pass.old { value = pass.new.value }) }
    ensures kept { OnOk result ((answer : List ℕ)
        → value_after pass.old.kind pass.new.value answer
        ≡ value_after pass.old.kind pass.old.value answer) }
    ensures stack { stack.new ≡ stack.old }
{
    let mut invoked = stack.spare(alloc)?;
    pass.fill(alloc, &mut invoked, entry)?;
    Ok(invoked)
}

/// Goes on with a pass: its next entry is invoked, or it leaves its hook. A run that doesn't stop
/// goes on with each callback's answer, up to the first callback that asks for something.
pub fn pass_turn<S: Stated>(
    plugins: &Plugins<S>,
    state: &mut State,
    stack: &mut Stack,
    pass: HookPass,
    pace: Pace,
) -> Result<Move, RunFault>
    ensures moves { Does pace (engine_over S.says S.number plugins.now)
        (λ engine. pass_left engine state.old pass) stack.old result state.new stack.new }
    ensures weight { AddsWeight 0 result stack.old stack.new }
{
    let mut pass = pass;
    let mut answered = 0u32;
    'entries: loop {
        match pass.next(state)? {
            None => {
                state.leave();
                let value = pass.take_value(state.alloc());
                stack.keep_pass(pass);
                return Ok(Move::Handed(value));
            }
            Some(entry) => {
                let invoked = next_invocation(state.alloc(), stack, &mut pass, entry)?;
                let went = invoke(plugins, state, invoked, pace)?;
                match went {
                    Went::Answered(invoked, answer) => {
                        stack.keep_spare(invoked);
                        answered = answered.wrapping_add(1);
                        pass.hand_in_turn(answer, answered)?;
                    }
                    Went::Waits(invoked) => {
                        stack.put_first(Frame::Pass(pass))?;
                        stack.put_first(Frame::Invocation(invoked))?;
                        return Ok(Move::Turned);
                    }
                }
            }
        }
    }
}

/// Begins a pass over a hook.
pub fn begin_pass<S: Stated>(
    plugins: &Plugins<S>,
    state: &mut State,
    stack: &mut Stack,
    kind: PassKind,
    hook: HookName,
    value: Text,
    args: Listed<Text>,
    pace: Pace,
) -> Result<Move, RunFault>
    ensures moves { Does pace (engine_over S.says S.number plugins.now)
        (λ engine. pass (invoke engine) kind state.old hook value args) stack.old result state.new
        stack.new }
    ensures weight { AddsWeight 0 result stack.old stack.new }
{
    state.enter(&hook)?;
    let parts = PassParts {
        kind,
        args,
        value,
        position: Position::start(hook),
    };
    let pass = stack.new_pass(state.alloc(), parts)?;
    pass_turn(plugins, state, stack, pass, pace)
}

/// Returns whether a run that doesn't stop may pass over a filter, since that leaves the value as
/// it is.
pub fn may_pass_over(state: &State, hook: &str, value: &str, pace: Pace) -> bool
    ensures { IsTrue result → (pace ≡ Through) × ((engine : Engine) (args : List (List ℕ))
        → (call : Call) × (filter_pass (invoke engine) state.now hook.now value.now args
        ≡ left_by_core state.now hook.now call value.now)) }
{
    match pace {
        Pace::ByTurns => false,
        Pace::Through => state.leaves(hook, value),
    }
}

/// Begins a filter pass. If nothing is registered on the hook, no pass is made.
pub fn begin_filter<S: Stated>(
    plugins: &Plugins<S>,
    state: &mut State,
    stack: &mut Stack,
    hook: Text,
    value: Text,
    args: Listed<Text>,
    pace: Pace,
) -> Result<Move, RunFault>
    ensures moves { Does pace (engine_over S.says S.number plugins.now)
        (λ engine. filter_pass (invoke engine) state.old hook value args) stack.old result state.new
        stack.new }
    ensures weight { AddsWeight 0 result stack.old stack.new }
{
    if !state.is_hooked(hook.as_str()) {
        return Ok(Move::Handed(value));
    }
    match HookName::of(hook) {
        Some(hook) => {
            let kind = PassKind::Filter;
            begin_pass(plugins, state, stack, kind, hook, value, args, pace)
        }
        None => Ok(Move::Handed(value)),
    }
}

/// Begins an action pass. If nothing is registered on the hook, the action is counted and no pass
/// is made.
pub fn begin_action<S: Stated>(
    plugins: &Plugins<S>,
    state: &mut State,
    stack: &mut Stack,
    hook: Text,
    args: Listed<Text>,
    pace: Pace,
) -> Result<Move, RunFault>
    ensures moves { Does pace (engine_over S.says S.number plugins.now)
        (λ engine. action_pass (invoke engine) state.old hook args) stack.old result state.new
        stack.new }
    ensures weight { AddsWeight 0 result stack.old stack.new }
{
    match HookName::of(hook) {
        Some(hook) => {
            state.fire(&hook)?;
            let nothing = Text::empty(state.alloc());
            if !state.is_hooked(hook.as_str()) {
                return Ok(Move::Handed(nothing));
            }
            let kind = PassKind::Action;
            begin_pass(plugins, state, stack, kind, hook, nothing, args, pace)
        }
        None => Ok(Move::Handed(Text::empty(state.alloc()))),
    }
}
