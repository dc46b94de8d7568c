//! Makes passes of a filter over many callbacks, and loads of many plugins, so that scripts can
//! measure them.
//!
//! `test_bench COUNT TIMES [many]` registers COUNT callbacks (0 to 1,000) of four plugins, all at
//! one priority or each at its own, makes TIMES passes over them and prints the value after the
//! last one.
//!
//! `test_bench COUNT TIMES loads PLUGINS` spreads COUNT callbacks, all at one priority, evenly over
//! PLUGINS plugins (1 to 64, which may have 256 each), makes TIMES runs of what they register and
//! then one more, and prints how many callbacks a pass in that one calls.
//!
//! A number that is left out is 3.
#![tactic(auto)]

ghost use Rattle.hook_machine.specs.Runs.{IsReady};

mod crowd;
mod kept;
mod loads;

use callback_store::Plugins;
use content_cache::PieceCache;
use crowd::{HOOK, Spread, active, crowd};
use hook_changes::{Listed, Text};
use hook_machine::{Run, RunFault};
use kept::Kept;
use loads::called_after;
use std::alloc::Global;
use std::env;
use std::process::ExitCode;

/// What is made.
#[derive(Clone, Copy)]
enum Work {
    /// Passes over callbacks of four plugins.
    Passes(Spread),
    /// Loads of that many plugins.
    Loads(u16),
}

fn main(rt: HostRuntime) -> ExitCode {
    let Ok(words) = env::args(&rt) else {
        return ExitCode::FAILURE;
    };
    let mut words = words.skip(1);
    let count = number(words.next()).min(1_000) as u16;
    let times = number(words.next());
    let work = match words.next() {
        None => Work::Passes(Spread::One),
        Some(word) if word.as_str() == "loads" => {
            Work::Loads(number(words.next()).clamp(1, 64) as u16)
        }
        Some(_) => Work::Passes(Spread::Many),
    };
    match done(rt.alloc(), work, count, times) {
        Some(text) => {
            let text = text.as_str();
            let _ = println!(rt; "{text}");
            ExitCode::SUCCESS
        }
        None => ExitCode::FAILURE,
    }
}

/// Reads an argument as a number: 3 if there is no such argument, and 0 if it isn't a number.
fn number(word: Option<String>) -> u32 {
    match word {
        Some(word) => word.as_str().parse().unwrap_or(0),
        None => 3,
    }
}

/// Does the work `times` times, and returns what is printed of it.
fn done(alloc: Global, work: Work, count: u16, times: u32) -> Option<Text> {
    match work {
        Work::Passes(spread) => {
            let plugins = Plugins::new(alloc, crowd(alloc, spread, count, 4).ok()?).ok()?;
            passes_over(alloc, &plugins, times).ok()
        }
        Work::Loads(plugins) => {
            let list = crowd(alloc, Spread::One, count, plugins).ok()?;
            let plugins = Plugins::new(alloc, list).ok()?;
            let called = called_after(alloc, &plugins, times).ok()?;
            Some(Text::new(format!(in alloc; "{called}").ok()?))
        }
    }
}

/// Runs the passes in a request of their own.
fn passes_over(alloc: Global, plugins: &Plugins<Kept>, times: u32) -> Result<Text, RunFault> {
    let active = active(alloc, plugins)?;
    let mut cache = PieceCache::new(alloc, 1)?;
    let mut run = Run::new(alloc, plugins, active.as_slice(), &[], u32::MAX)?;
    let value = passes(alloc, &mut run, times, &mut cache);
    run.end();
    value
}

/// Runs `times` passes, after the load lists of all plugins, and returns the value of the last.
fn passes(
    alloc: Global,
    run: &mut Run<'_, Kept>,
    times: u32,
    cache: &mut PieceCache,
) -> Result<Text, RunFault>
    requires { IsReady run.old }
{
    run.load()?;
    let none = Listed::empty(alloc);
    let mut value = Text::copied(alloc, "value")?;
    for _ in 0..times {
        value = run.apply_filters(HOOK, value, &none, cache)?;
    }
    Ok(value)
}
