//! Jobs of a run, from their begin to their end: the innermost frame goes on, and its result is
//! handed from frame to frame, until a callback was invoked at which the run stops, or nothing is
//! left.
ghost use Rattle.std.specs.Prelude.{◌≡◌, ◌∷◌};
ghost use Rattle.hook_machine.specs.Outcomes.{engine_over};
ghost use Rattle.hook_machine.specs.Rest.{rest, rest_with};
ghost use Rattle.hook_machine.specs.Jobs.{job_left, left_from};
ghost use Rattle.hook_machine.specs.Moves.{Does, Moves, AddsWeight, room_of, still_left, TurnsBy};
ghost use Rattle.hook_machine.specs.Moves.{IsOver, made_at};

use crate::run::asks::{invocation_turn, waiting_turn};
use crate::run::frames::{Frame, Move, Pace};
use crate::run::passes::{begin_action, begin_filter, pass_turn};
use crate::run::stack::Stack;
use crate::run::texts::{begin_text, shown_turn, text_turn};
use crate::state::State;
use callback_store::{Plugins, Stated};
use content_cache::PieceCache;
use hook_changes::{Listed, Text};
use hook_meaning::RunFault;

/// What a turn of a run came to.
#[derive(Drop)]
pub enum Turn {
    /// A callback was invoked, and its echo and changes were carried out. There is more to do.
    More,
    /// The job is done, with this result.
    Done(Text),
}

/// What a run is to do.
#[derive(Drop)]
pub enum Job {
    /// `apply_filters`.
    Filters {
        hook: Text,
        value: Text,
        args: Listed<Text>,
    },
    /// `do_action`.
    Action {
        hook: Text,
        args: Listed<Text>,
    },
    /// `do_shortcode`.
    Shortcodes {
        text: Text,
    },
}

/// Goes on with a frame.
fn frame_turn<S: Stated>(
    plugins: &Plugins<S>,
    state: &mut State,
    stack: &mut Stack,
    frame: Frame,
    cache: &mut PieceCache,
    pace: Pace,
) -> Result<Move, RunFault>
    ensures moves { Moves pace (engine_over S.says S.number plugins.now)
        (rest (engine_over S.says S.number plugins.now) state.old (frame ∷ stack.old)) result
        state.new stack.new }
    ensures weight { AddsWeight 1 result stack.old stack.new }
    ensures cache { cache.new ≡ cache.old }
{
    match frame {
        Frame::Pass(pass) => pass_turn(plugins, state, stack, pass, pace),
        Frame::Invocation(invoked) => invocation_turn(plugins, state, stack, invoked, cache, pace),
        Frame::Shortcodes(pass) => text_turn(plugins, state, stack, pass, pace),
    }
}

/// Hands a result to a frame.
fn result_turn<S: Stated>(
    plugins: &Plugins<S>,
    state: &mut State,
    stack: &mut Stack,
    frame: Frame,
    text: Text,
    pace: Pace,
) -> Result<Move, RunFault>
    ensures moves { Moves pace (engine_over S.says S.number plugins.now)
        (rest_with (engine_over S.says S.number plugins.now) state.old (frame ∷ stack.old) text)
        result state.new
        stack.new }
    ensures weight { AddsWeight (room_of frame) result stack.old stack.new }
{
    match frame {
        Frame::Pass(pass) => {
            let mut pass = pass;
            pass.hand(text);
            pass_turn(plugins, state, stack, pass, pace)
        }
        Frame::Invocation(invoked) => waiting_turn(plugins, state, stack, invoked, text, pace),
        Frame::Shortcodes(pass) => shown_turn(plugins, state, stack, pass, text, pace),
    }
}

/// Hands a result on from frame to frame, until a callback was invoked or no frame is left.
fn hand_on<S: Stated>(
    plugins: &Plugins<S>,
    state: &mut State,
    stack: &mut Stack,
    moved: Move,
    pace: Pace,
) -> Result<Turn, RunFault>
    ensures turns { TurnsBy pace
        (still_left (engine_over S.says S.number plugins.now) moved state.old stack.old) result
        (made_at state.new stack.new)
        (rest (engine_over S.says S.number plugins.now) state.new stack.new) }
    ensures over { IsOver result stack.new }
{
    let mut moved = moved;
    'frames: loop {
        match moved {
            Move::Turned => return Ok(Turn::More),
            Move::Handed(text) => match stack.take_first() {
                None => return Ok(Turn::Done(text)),
                Some(frame) => moved = result_turn(plugins, state, stack, frame, text, pace)?,
            },
        }
    }
}

/// Begins a job, and goes on to its first invocation or its end.
pub fn begin<S: Stated>(
    plugins: &Plugins<S>,
    state: &mut State,
    stack: &mut Stack,
    job: Job,
    cache: &mut PieceCache,
    pace: Pace,
) -> Result<Move, RunFault>
    ensures moves { Does pace (engine_over S.says S.number plugins.now)
        (λ engine. job_left engine state.old job) stack.old result state.new stack.new }
    ensures cache { cache.new ≡ cache.old }
{
    match job {
        Job::Filters { hook, value, args } => {
            begin_filter(plugins, state, stack, hook, value, args, pace)
        }
        Job::Action { hook, args } => begin_action(plugins, state, stack, hook, args, pace),
        Job::Shortcodes { text } => begin_text(plugins, state, stack, text, cache, pace),
    }
}

/// Goes on with a job that isn't begun, or with the innermost frame.
fn move_on<S: Stated>(
    plugins: &Plugins<S>,
    state: &mut State,
    stack: &mut Stack,
    job: Option<Job>,
    cache: &mut PieceCache,
    pace: Pace,
) -> Result<Move, RunFault>
    ensures moves { Moves pace (engine_over S.says S.number plugins.now)
        (left_from (engine_over S.says S.number plugins.now) state.old job stack.old) result
        state.new stack.new }
    ensures cache { cache.new ≡ cache.old }
{
    if let Some(job) = job {
        return begin(plugins, state, stack, job, cache, pace);
    }
    match stack.take_first() {
        None => Ok(Move::Handed(Text::empty(state.alloc()))),
        Some(frame) => frame_turn(plugins, state, stack, frame, cache, pace),
    }
}

/// Makes one turn: goes on until a callback was invoked, or to the end.
pub fn next_turn<S: Stated>(
    plugins: &Plugins<S>,
    state: &mut State,
    stack: &mut Stack,
    job: Option<Job>,
    cache: &mut PieceCache,
    pace: Pace,
) -> Result<Turn, RunFault>
    ensures turns { TurnsBy pace
        (left_from (engine_over S.says S.number plugins.now) state.old job stack.old) result
        (made_at state.new stack.new)
        (rest (engine_over S.says S.number plugins.now) state.new stack.new) }
    ensures over { IsOver result stack.new }
    ensures cache { cache.new ≡ cache.old }
{
    let moved = move_on(plugins, state, stack, job, cache, pace)?;
    hand_on(plugins, state, stack, moved, pace)
}
