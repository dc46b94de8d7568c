//! Invocations as frames of a run: an invocation hands its answer on, asks for something, or gets
//! what it asked for.
//!
//! `passes` says what the functions of all frames have in common.
ghost use Rattle.std.specs.Prelude.{◌≡◌, ◌⊎◌, ◌+◌, ◌<◌, ◌≤◌, ◌∷◌, IfErr, OnOk};
ghost use Rattle.hook_changes.specs.declared.reply.Then.TheVariants as next;
ghost use Rattle.hook_changes.specs.declared.reply.Ask.TheVariants.{Apply, Act, Shortcodes};
ghost use Rattle.hook_meaning.specs.declared.fault.RunFault.TheVariants.{TooDeep, OutOfMemory};
ghost use Rattle.hook_machine.specs.declared.run.frames.Pending.TheVariants.{Next, Core};
ghost use Rattle.hook_meaning.specs.Meaning.{invoke};
ghost use Rattle.hook_machine.specs.Outcomes.{engine_over};
ghost use Rattle.hook_machine.specs.Rest.{pending_left, pending_handed, with_answer};
ghost use Rattle.hook_machine.specs.Moves.{Does, AddsWeight};

use crate::run::frames::{Frame, Invoked, Move, Pace, Pending};
use crate::run::passes::{begin_action, begin_filter, invoke_turn};
use crate::run::stack::Stack;
use crate::run::texts::begin_text;
use crate::state::State;
use callback_store::{Plugins, Stated};
use content_cache::PieceCache;
use hook_changes::{Answer, Ask, Listed, Text, Then};
use hook_meaning::RunFault;

/// Invokes a callback again, with one more answer.
fn invoke_again<S: Stated>(
    plugins: &Plugins<S>,
    state: &mut State,
    stack: &mut Stack,
    invoked: Invoked,
    answer: Answer,
    pace: Pace,
) -> Result<Move, RunFault>
    ensures moves { Does pace (engine_over S.says S.number plugins.now)
        (λ engine. invoke engine state.old invoked.callback (with_answer invoked.call answer))
        stack.old result state.new stack.new }
    ensures weight { AddsWeight 0 result stack.old stack.new }
{
    let mut invoked = invoked;
    invoked.add_answer(answer)?;
    invoke_turn(plugins, state, stack, invoked, pace)
}

/// Goes one level deeper, and puts the invocation that waits for what is done there on the stack.
fn wait(
    state: &mut State,
    stack: &mut Stack,
    invoked: Invoked,
    pending: Pending,
) -> Result<(), RunFault>
    ensures within { OnOk result (state.old.depth < 32) }
    ensures deeper { OnOk result (state.new ≡ record state.old { depth = state.old.depth + 1 }) }
    ensures waits { OnOk result (stack.new ≡ Frame.Invocation (record invoked { pending = pending })
        ∷ stack.old) }
    ensures err { IfErr result (λ fault. (fault ≡ OutOfMemory)
        ⊎ ((fault ≡ TooDeep) × (32 ≤ state.old.depth))) }
{
    let mut invoked = invoked;
    state.deepen()?;
    invoked.set_pending(pending);
    stack.put_first(Frame::Invocation(invoked))?;
    Ok(())
}

/// Begins the filter pass that a callback asked for.
fn ask_apply<S: Stated>(
    plugins: &Plugins<S>,
    state: &mut State,
    stack: &mut Stack,
    invoked: Invoked,
    hook: Text,
    value: Text,
    args: Listed<Text>,
    pace: Pace,
) -> Result<Move, RunFault>
    ensures moves { Does pace (engine_over S.says S.number plugins.now)
        (λ engine. pending_left engine state.old invoked.callback invoked.call
        (Next (next.Ask (Apply hook value args)))) stack.old result state.new stack.new }
    ensures weight { AddsWeight 1 result stack.old stack.new }
{
    wait(state, stack, invoked, Pending::ForText)?;
    begin_filter(plugins, state, stack, hook, value, args, pace)
}

/// Begins the action pass that a callback asked for.
fn ask_act<S: Stated>(
    plugins: &Plugins<S>,
    state: &mut State,
    stack: &mut Stack,
    invoked: Invoked,
    hook: Text,
    args: Listed<Text>,
    pace: Pace,
) -> Result<Move, RunFault>
    ensures moves { Does pace (engine_over S.says S.number plugins.now)
        (λ engine. pending_left engine state.old invoked.callback invoked.call
        (Next (next.Ask (Act hook args)))) stack.old result state.new stack.new }
    ensures weight { AddsWeight 1 result stack.old stack.new }
{
    wait(state, stack, invoked, Pending::ForNothing)?;
    begin_action(plugins, state, stack, hook, args, pace)
}

/// Begins to replace the shortcodes of a text, as a callback asked.
fn ask_shortcodes<S: Stated>(
    plugins: &Plugins<S>,
    state: &mut State,
    stack: &mut Stack,
    invoked: Invoked,
    text: Text,
    cache: &mut PieceCache,
    pace: Pace,
) -> Result<Move, RunFault>
    ensures moves { Does pace (engine_over S.says S.number plugins.now)
        (λ engine. pending_left engine state.old invoked.callback invoked.call
        (Next (next.Ask (Shortcodes text)))) stack.old result state.new stack.new }
    ensures weight { AddsWeight 1 result stack.old stack.new }
    ensures cache { cache.new ≡ cache.old }
{
    wait(state, stack, invoked, Pending::ForText)?;
    begin_text(plugins, state, stack, text, cache, pace)
}

/// Begins to replace the shortcodes of the first argument of core's callback. The argument moves
/// out of the call, which is not read again.
fn core_turn<S: Stated>(
    plugins: &Plugins<S>,
    state: &mut State,
    stack: &mut Stack,
    invoked: Invoked,
    cache: &mut PieceCache,
    pace: Pace,
) -> Result<Move, RunFault>
    ensures moves { Does pace (engine_over S.says S.number plugins.now)
        (λ engine. pending_left engine state.old invoked.callback invoked.call Core)
        stack.old result state.new stack.new }
    ensures weight { AddsWeight 1 result stack.old stack.new }
    ensures cache { cache.new ≡ cache.old }
{
    let mut invoked = invoked;
    let text = invoked.take_first_argument(state.alloc());
    wait(state, stack, invoked, Pending::ForCore)?;
    begin_text(plugins, state, stack, text, cache, pace)
}

/// Answers what a callback asked, or begins the pass that has to come first.
fn ask_turn<S: Stated>(
    plugins: &Plugins<S>,
    state: &mut State,
    stack: &mut Stack,
    invoked: Invoked,
    ask: Ask,
    cache: &mut PieceCache,
    pace: Pace,
) -> Result<Move, RunFault>
    ensures moves { Does pace (engine_over S.says S.number plugins.now)
        (λ engine. pending_left engine state.old invoked.callback invoked.call
        (Next (next.Ask ask)))
        stack.old result state.new stack.new }
    ensures weight { AddsWeight 1 result stack.old stack.new }
    ensures cache { cache.new ≡ cache.old }
{
    match ask {
        Ask::Apply { hook, value, args } => {
            ask_apply(plugins, state, stack, invoked, hook, value, args, pace)
        }
        Ask::Act { hook, args } => ask_act(plugins, state, stack, invoked, hook, args, pace),
        Ask::Shortcodes { text } => {
            ask_shortcodes(plugins, state, stack, invoked, text, cache, pace)
        }
        Ask::Did { hook } => {
            let answer = state.did(hook.as_str());
            invoke_again(plugins, state, stack, invoked, answer, pace)
        }
        Ask::Current => {
            let answer = state.current()?;
            invoke_again(plugins, state, stack, invoked, answer, pace)
        }
        Ask::Doing { hook } => {
            let answer = Answer::Flag(state.doing(hook.as_str()));
            invoke_again(plugins, state, stack, invoked, answer, pace)
        }
        Ask::Has {
            hook,
            callback: other,
        } => {
            let answer = state.has(hook.as_str(), other);
            invoke_again(plugins, state, stack, invoked, answer, pace)
        }
        Ask::TagExists { tag } => {
            let answer = Answer::Flag(state.tag_exists(tag.as_str()));
            invoke_again(plugins, state, stack, invoked, answer, pace)
        }
        Ask::GetOption { name } => {
            let answer = state.option(name.as_str())?;
            invoke_again(plugins, state, stack, invoked, answer, pace)
        }
    }
}

/// Goes on after a callback's reply: its answer is handed on, or its ask is answered.
fn follow_turn<S: Stated>(
    plugins: &Plugins<S>,
    state: &mut State,
    stack: &mut Stack,
    invoked: Invoked,
    next: Then,
    cache: &mut PieceCache,
    pace: Pace,
) -> Result<Move, RunFault>
    ensures moves { Does pace (engine_over S.says S.number plugins.now)
        (λ engine. pending_left engine state.old invoked.callback invoked.call (Next next))
        stack.old result state.new stack.new }
    ensures weight { AddsWeight 1 result stack.old stack.new }
    ensures cache { cache.new ≡ cache.old }
{
    match next {
        Then::Answer(text) => {
            stack.keep_spare(invoked);
            Ok(Move::Handed(text))
        }
        Then::Ask(ask) => ask_turn(plugins, state, stack, invoked, ask, cache, pace),
    }
}

/// Carries out the pending step of an invocation. One that waits for a result is not handed it
/// here: `waiting_turn` does that.
pub fn invocation_turn<S: Stated>(
    plugins: &Plugins<S>,
    state: &mut State,
    stack: &mut Stack,
    invoked: Invoked,
    cache: &mut PieceCache,
    pace: Pace,
) -> Result<Move, RunFault>
    ensures moves { Does pace (engine_over S.says S.number plugins.now)
        (λ engine. pending_left engine state.old invoked.callback invoked.call invoked.pending)
        stack.old result state.new stack.new }
    ensures weight { AddsWeight 1 result stack.old stack.new }
    ensures cache { cache.new ≡ cache.old }
{
    let mut invoked = invoked;
    match invoked.take_pending() {
        Pending::Next(next) => follow_turn(plugins, state, stack, invoked, next, cache, pace),
        Pending::Core => core_turn(plugins, state, stack, invoked, cache, pace),
        _ => Ok(Move::Handed(Text::empty(state.alloc()))),
    }
}

/// Hands a result to an invocation that waits for it, one level up.
pub fn waiting_turn<S: Stated>(
    plugins: &Plugins<S>,
    state: &mut State,
    stack: &mut Stack,
    invoked: Invoked,
    text: Text,
    pace: Pace,
) -> Result<Move, RunFault>
    ensures moves { Does pace (engine_over S.says S.number plugins.now)
        (λ engine. pending_handed engine state.old invoked.callback invoked.call invoked.pending
        text)
        stack.old result state.new stack.new }
    ensures weight { AddsWeight 0 result stack.old stack.new }
{
    let mut invoked = invoked;
    match invoked.take_pending() {
        Pending::ForText => {
            state.rise();
            invoke_again(plugins, state, stack, invoked, Answer::Text(text), pace)
        }
        Pending::ForNothing => {
            state.rise();
            invoke_again(plugins, state, stack, invoked, Answer::Nothing, pace)
        }
        Pending::ForCore => {
            state.rise();
            stack.keep_spare(invoked);
            Ok(Move::Handed(text))
        }
        _ => Ok(Move::Handed(text)),
    }
}
