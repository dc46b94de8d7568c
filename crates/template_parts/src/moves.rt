//! Going on with a page, item by item, until a callback was invoked or nothing is left.
ghost use Rattle.std.specs.Prelude.{◌≡◌, None, OnOk, option_map};
ghost use Rattle.hook_machine.specs.Runs.{last_event, fault_of, engine_of, IsIdle, IsReady};
ghost use Rattle.template_parts.specs.Places.{post_at};
ghost use Rattle.template_parts.specs.Left.{step_pass, BeginsBy, run_left, IsIdleIfOver};
ghost use Rattle.template_parts.specs.Left.{IsIdleAtEnd, Moves, Stops, Shortens};

use crate::item::{Hand, begin_item, hand_on, start_action};
use crate::place::{ItemPlace, stored_item};
use crate::settings::Settings;
use crate::steps::Step;
use callback_store::Stated;
use content_cache::PieceCache;
use hook_machine::{Left, Pace, Run, RunFault, Turn};
use plain_data::Text;
use site_records::Post;
use std::alloc::Global;

/// What a page has still to do, apart from its run.
#[derive(Drop)]
pub struct PageRest {
    /// What becomes of the result of the job under way, if one is.
    pub hand: Option<Hand>,
    pub steps: Left<Step>,
}

/// Why a page stops.
#[derive(Clone, Copy, Debug)]
pub enum Stop {
    /// A callback was invoked.
    Turned,
    /// Nothing is left.
    Over,
}

/// Returns the post at a place, if there is one.
fn post_at(posts: &[Post], place: Option<usize>) -> Option<&Post>
    ensures { option_map (λ p. p.now) result ≡ post_at posts.entry.now place }
{
    match place {
        Some(at) => posts.get(at),
        None => None,
    }
}

/// Begins the item of a step, if there is one.
fn begin_step<S: Stated>(
    alloc: Global,
    run: &mut Run<'_, S>,
    settings: &Settings,
    posts: &[Post],
    step: Step,
    pace: Pace,
) -> Result<Option<Hand>, RunFault>
    requires { IsReady run.old }
    ensures { BeginsBy pace S.says S.number run.old result run.new
        (λ engine world. step_pass engine settings.now posts.now world step) }
{
    let post = post_at(posts, step.post);
    match step.place {
        ItemPlace::Hook(hook) => start_action(alloc, run, settings, Text::core(alloc, hook)),
        ItemPlace::Stored(place) => match stored_item(settings, place) {
            Some(item) => begin_item(alloc, run, settings, post, item, pace),
            None => Ok(None),
        },
    }
}

/// Makes one move: a turn of the job under way, or the beginning of the next step. Returns why the
/// page stops, or `None` if an item was begun or ended and there is more to do.
fn one_move<S: Stated>(
    alloc: Global,
    run: &mut Run<'_, S>,
    settings: &Settings,
    posts: &[Post],
    ahead: &mut PageRest,
    cache: &mut PieceCache,
    pace: Pace,
) -> Result<Option<Stop>, RunFault>
    requires sound { fault_of run.old ≡ None }
    requires idle { ahead.old.hand ≡ None → IsIdle run.old }
    ensures moves { Moves pace
        (run_left (engine_of S.says S.number run.old) settings.now posts.now run.old ahead.old)
        result
        (last_event run.new) (run_left (engine_of S.says S.number run.old) settings.now posts.now
        run.new ahead.new) }
    ensures idle { OnOk result (ahead.new.hand ≡ None → IsIdle run.new) }
    ensures over { IsIdleIfOver result run.new }
    ensures shorter { Shortens result ahead.old ahead.new }
    ensures sound { OnOk result (fault_of run.new ≡ None) }
    ensures engine { engine_of S.says S.number run.new ≡ engine_of S.says S.number run.old }
    ensures cache { cache.new ≡ cache.old }
{
    match ahead.hand {
        Some(hand) => match run.go_on(pace, cache)? {
            Turn::More => Ok(Some(Stop::Turned)),
            Turn::Done(text) => {
                ahead.hand = None;
                hand_on(alloc, run, hand, text)?;
                Ok(None)
            }
        },
        None => match ahead.steps.take_first() {
            None => Ok(Some(Stop::Over)),
            Some(step) => {
                ahead.hand = begin_step(alloc, run, settings, posts, step, pace)?;
                Ok(None)
            }
        },
    }
}

/// Makes moves until a callback was invoked or nothing is left.
pub(crate) fn next_stop<S: Stated>(
    alloc: Global,
    run: &mut Run<'_, S>,
    settings: &Settings,
    posts: &[Post],
    ahead: &mut PageRest,
    cache: &mut PieceCache,
    pace: Pace,
) -> Result<Stop, RunFault>
    requires sound { fault_of run.old ≡ None }
    requires idle { ahead.old.hand ≡ None → IsIdle run.old }
    ensures stops { Stops pace
        (run_left (engine_of S.says S.number run.old) settings.now posts.now run.old ahead.old)
        result
        (last_event run.new) (run_left (engine_of S.says S.number run.old) settings.now posts.now
        run.new ahead.new) }
    ensures idle { OnOk result (ahead.new.hand ≡ None → IsIdle run.new) }
    ensures over { IsIdleAtEnd result run.new }
    ensures sound { OnOk result (fault_of run.new ≡ None) }
    ensures engine { engine_of S.says S.number run.new ≡ engine_of S.says S.number run.old }
    ensures cache { cache.new ≡ cache.old }
{
    let mut moved = one_move(alloc, run, settings, posts, ahead, cache, pace)?;
    'moves: loop {
        match moved {
            Some(stop) => return Ok(stop),
            None => moved = one_move(alloc, run, settings, posts, ahead, cache, pace)?,
        }
    }
}
