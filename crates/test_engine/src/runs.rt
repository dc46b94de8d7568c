//! Runs over the test callbacks: what they are told to do, and what they answer.
ghost use Rattle.std.specs.Prelude.{IfOk};
ghost use Rattle.hook_machine.specs.Runs.{CanBegin, IsReady};

use crate::callbacks::Tested;
use crate::plugins::{Given, plugins};
use callback_store::Plugins;
use content_cache::PieceCache;
use hook_changes::{Listed, Text};
use hook_machine::{Run, RunFault};
use std::alloc::{AllocError, Global};

/// What a run answers.
pub type Answer = Result<&'static str, RunFault>;

/// What a run is over: whether the bundle's plugins are there, other plugins, the names of the
/// active ones, and how many calls it has.
#[derive(Clone, Copy)]
pub struct Setting<'a>(pub bool, pub &'a [Given<'a>], pub &'a [&'a str], pub u32);

/// What a run is told to do, and what comes of it.
#[derive(Clone, Copy)]
pub enum Step {
    /// A pass of the filter of that name over a value, with further arguments: what it answers.
    Filters(&'static str, &'static str, &'static [&'static str], Answer),
    /// A pass of the action of that name, with arguments. It is carried out.
    Acts(&'static str, &'static [&'static str]),
    /// The text with its shortcodes replaced.
    Replaces(&'static str, Answer),
    /// What was printed since the last such step.
    Prints(&'static str),
    /// The number of texts whose pieces the cache keeps.
    Keeps(usize),
}

/// Returns whether a new run in this setting, whose plugins are loaded first, answers each step as
/// it says.
pub fn are_answered(alloc: Global, setting: &Setting<'_>, steps: &[Step]) -> bool {
    match plugins(alloc, setting.0, setting.1) {
        Ok(plugins) => are_answered_over(alloc, &plugins, setting, steps),
        Err(_) => false,
    }
}

fn are_answered_over(
    alloc: Global,
    plugins: &Plugins<Tested>,
    setting: &Setting<'_>,
    steps: &[Step],
) -> bool {
    match loaded(alloc, plugins, setting.2, setting.3) {
        Ok(mut run) => {
            let are_answered = answers_each(alloc, &mut run, steps);
            run.end();
            are_answered
        }
        Err(_) => false,
    }
}

/// Makes a run, with its plugins loaded.
pub fn loaded<'p>(
    alloc: Global,
    plugins: &'p Plugins<Tested>,
    active: &[&str],
    calls: u32,
) -> Result<Run<'p, Tested>, RunFault>
    ensures { IfOk result (λ run. IsReady run) }
{
    let active = texts(alloc, active)?;
    let mut run = Run::new(alloc, plugins, active.as_slice(), &[], calls)?;
    match run.load() {
        Ok(()) => Ok(run),
        Err(fault) => {
            run.end();
            Err(fault)
        }
    }
}

fn answers_each(alloc: Global, run: &mut Run<'_, Tested>, steps: &[Step]) -> bool
    requires { CanBegin run.old }
{
    let Ok(mut cache) = PieceCache::new(alloc, 4) else {
        return false;
    };
    for step in steps {
        if !is_answered(alloc, run, *step, &mut cache) {
            return false;
        }
    }
    true
}

fn is_answered(alloc: Global, run: &mut Run<'_, Tested>, step: Step, cache: &mut PieceCache) -> bool
    requires { CanBegin run.old }
    ensures { CanBegin run.new }
{
    match step {
        Step::Filters(hook, value, args, wanted) => {
            is_text(filtered(alloc, run, hook, value, args, cache), wanted)
        }
        Step::Acts(hook, args) => acts(alloc, run, hook, args, cache).is_ok(),
        Step::Replaces(text, wanted) => is_text(run.do_shortcode(text, cache), wanted),
        Step::Prints(wanted) => is_text(run.take_output(), Ok(wanted)),
        Step::Keeps(count) => cache.kept() == count,
    }
}

fn filtered(
    alloc: Global,
    run: &mut Run<'_, Tested>,
    hook: &str,
    value: &str,
    args: &[&str],
    cache: &mut PieceCache,
) -> Result<Text, RunFault>
    requires { CanBegin run.old }
    ensures { CanBegin run.new }
{
    let args = texts(alloc, args)?;
    let value = Text::copied(alloc, value)?;
    run.apply_filters(hook, value, &args, cache)
}

fn acts(
    alloc: Global,
    run: &mut Run<'_, Tested>,
    hook: &str,
    args: &[&str],
    cache: &mut PieceCache,
) -> Result<(), RunFault>
    requires { CanBegin run.old }
    ensures { CanBegin run.new }
{
    let args = texts(alloc, args)?;
    run.do_action(hook, &args, cache)
}

/// Copies texts.
pub fn texts(alloc: Global, texts: &[&str]) -> Result<Listed<Text>, AllocError> {
    let mut listed = Listed::empty(alloc);
    for text in texts {
        listed.push(Text::copied(alloc, text)?)?;
    }
    Ok(listed)
}

/// Returns whether a result is that text, or that fault.
pub fn is_text(found: Result<Text, RunFault>, wanted: Result<&str, RunFault>) -> bool {
    match found {
        Ok(text) => wanted == Ok(text.as_str()),
        Err(fault) => wanted == Err(fault),
    }
}
