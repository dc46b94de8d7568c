//! Two pages and a run that go on in turn with each other, over one cache: each makes as many turns
//! as it does alone and comes to the same end, in whatever order their turns are made and however
//! much the cache keeps.
ghost use Rattle.std.specs.Prelude.{◌≤◌};
ghost use Rattle.template_parts.specs.Page.{CanGoOn};

use crate::callbacks::Tested;
use crate::runs::{Answer, is_text, loaded};
use crate::turns::{CASES, Case, all_plugins, begun, is_end};
use callback_store::Plugins;
use content_cache::PieceCache;
use hook_changes::{Listed, Text};
use hook_machine::{Job, Run, RunFault, Turn};
use std::alloc::{AllocError, Global};
use template_parts::{Page, PageTurn};

/// The job of a run: its active plugin, the value of the filter `the_title`, how many turns stop
/// after a callback, and what the run answers.
struct Work(&'static str, &'static str, u32, Answer);

static WORKS: [Work; 4] = [
    Work("", "T", 0, Ok("T")),
    Work("marks", "T", 2, Ok("TXY")),
    Work("deep", "dd", 5, Ok("(())")),
    Work(
        "deep",
        "ddddddddddddddddddddddddddddddddd",
        33,
        Err(RunFault::TooDeep),
    ),
];

/// How many turns have stopped, and whether the end has come.
#[derive(Clone, Copy)]
struct Place {
    turned: u32,
    is_over: bool,
}

const BEGINNING: Place = Place {
    turned: 0,
    is_over: false,
};

/// Makes one turn of a page that isn't over. Returns false if the page comes to a wrong end, or not
/// after as many turns as alone.
fn page_steps(
    page: &mut Page<'_, Tested>,
    case: &Case,
    place: &mut Place,
    cache: &mut PieceCache,
) -> bool
    requires { CanGoOn page.old }
    ensures { CanGoOn page.new }
{
    if place.is_over {
        return true;
    }
    match page.turn(cache) {
        Ok(PageTurn::More) => {
            place.turned = place.turned.saturating_add(1);
            true
        }
        end => {
            place.is_over = true;
            place.turned == case.3 && is_end(end, case.4)
        }
    }
}

/// Makes one turn of a run that isn't over. Returns false if the run comes to a wrong end, or not
/// after as many turns as alone.
fn run_steps(
    run: &mut Run<'_, Tested>,
    work: &Work,
    place: &mut Place,
    cache: &mut PieceCache,
) -> bool {
    if place.is_over {
        return true;
    }
    let outcome = match run.turn(cache) {
        Ok(Turn::More) => {
            place.turned = place.turned.saturating_add(1);
            return true;
        }
        Ok(Turn::Done(text)) => Ok(text),
        Err(fault) => Err(fault),
    };
    place.is_over = true;
    place.turned == work.2 && is_text(outcome, work.3)
}

/// Returns the next pseudorandom number, by a linear congruential generator with Knuth's constants.
fn next_number(number: u64) -> u64 {
    number
        .wrapping_mul(6364136223846793005)
        .wrapping_add(1442695040888963407)
}

/// Returns whose turn a step is: 0 is the first page's, 1 the second's, 2 the run's. With a batch
/// of 0 the number decides; otherwise the first page takes `batch` turns, and then the others take
/// one each.
fn whose_turn(step: u32, batch: u32, number: u64) -> u32 {
    if batch == 0 {
        return ((number >> 40) % 3) as u32;
    }
    let at = step % batch.saturating_add(2);
    if at < batch { 0 } else { at - batch + 1 }
}

/// Returns whether each of them comes to its own end.
fn come_to_their_ends(
    first: &mut Page<'_, Tested>,
    second: &mut Page<'_, Tested>,
    run: &mut Run<'_, Tested>,
    script: Script,
    cache: &mut PieceCache,
) -> bool
    requires first { CanGoOn first.old }
    requires second { CanGoOn second.old }
    ensures first { CanGoOn first.new }
    ensures second { CanGoOn second.new }
{
    let (mut one, mut two, mut three) = (BEGINNING, BEGINNING, BEGINNING);
    let mut number = script.seed;
    for step in 0..6000 {
        number = next_number(number);
        let is_right = match whose_turn(step, script.batch, number) {
            0 => page_steps(first, script.first, &mut one, cache),
            1 => page_steps(second, script.second, &mut two, cache),
            _ => run_steps(run, script.work, &mut three, cache),
        };
        if !is_right {
            return false;
        }
    }
    one.is_over && two.is_over && three.is_over
}

/// What is run, and in which order.
#[derive(Clone, Copy)]
struct Script {
    first: &'static Case,
    second: &'static Case,
    work: &'static Work,
    batch: u32,
    seed: u64,
}

/// Makes the script with a number: the cases in turn, each with another one and a job.
fn script_at(at: u32) -> Script {
    Script {
        first: &CASES[at as usize % 16],
        second: &CASES[(at as usize / 16 * 7 + at as usize * 5 + 1) % 16],
        work: &WORKS[at as usize % 4],
        batch: at / 16 % 4,
        seed: at as u64,
    }
}

/// Makes a run that has begun its job.
fn started<'p>(
    alloc: Global,
    plugins: &'p Plugins<Tested>,
    work: &Work,
) -> Result<Run<'p, Tested>, RunFault> {
    let job = job(alloc, work)?;
    let mut run = loaded(alloc, plugins, &[work.0], 10_000)?;
    match run.start(job) {
        Ok(()) => Ok(run),
        Err(fault) => {
            run.end();
            Err(fault)
        }
    }
}

fn job(alloc: Global, work: &Work) -> Result<Job, AllocError> {
    Ok(Job::Filters {
        hook: Text::copied(alloc, "the_title")?,
        value: Text::copied(alloc, work.1)?,
        args: Listed::empty(alloc),
    })
}

fn with_run(
    alloc: Global,
    plugins: &Plugins<Tested>,
    first: &mut Page<'_, Tested>,
    second: &mut Page<'_, Tested>,
    script: Script,
    cache: &mut PieceCache,
) -> bool
    requires first { CanGoOn first.old }
    requires second { CanGoOn second.old }
    ensures first { CanGoOn first.new }
    ensures second { CanGoOn second.new }
{
    match started(alloc, plugins, script.work) {
        Ok(mut run) => {
            let are_right = come_to_their_ends(first, second, &mut run, script, cache);
            run.end();
            are_right
        }
        Err(_) => false,
    }
}

fn with_second(
    alloc: Global,
    plugins: &Plugins<Tested>,
    first: &mut Page<'_, Tested>,
    script: Script,
    cache: &mut PieceCache,
) -> bool
    requires { CanGoOn first.old }
    ensures { CanGoOn first.new }
{
    match begun(alloc, plugins, script.second) {
        Ok(mut second) => {
            let are_right = with_run(alloc, plugins, first, &mut second, script, cache);
            second.finish(cache).is_ok() == script.second.4.is_ok() && are_right
        }
        Err(_) => false,
    }
}

fn is_carried_out(
    alloc: Global,
    plugins: &Plugins<Tested>,
    script: Script,
    cache: &mut PieceCache,
) -> bool {
    match begun(alloc, plugins, script.first) {
        Ok(mut first) => {
            let are_right = with_second(alloc, plugins, &mut first, script, cache);
            first.finish(cache).is_ok() == script.first.4.is_ok() && are_right
        }
        Err(_) => false,
    }
}

/// Returns whether the scripts, one after another over one cache of that capacity, come to the
/// right ends.
fn are_carried_out(alloc: Global, plugins: &Plugins<Tested>, capacity: usize) -> bool
    requires { (1 ≤ capacity) × (capacity ≤ 4096) }
{
    let Ok(mut cache) = PieceCache::new(alloc, capacity) else {
        return false;
    };
    for at in 0..64 {
        if !is_carried_out(alloc, plugins, script_at(at), &mut cache) {
            return false;
        }
    }
    true
}

#[test]
fn turns_among_each_other(rt: HostRuntime) {
    let alloc = rt.alloc();
    match all_plugins(alloc) {
        Ok(plugins) => {
            for capacity in [1, 2, 4096] {
                assert!(rt; are_carried_out(alloc, &plugins, capacity));
            }
        }
        Err(_) => assert!(rt; false),
    }
}
