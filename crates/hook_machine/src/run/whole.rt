//! Calls of a run for programs of one's own: whole passes, single turns, and a load that is shared
//! with no other run. The pages of a site go by `loaded`, `start` and `go_on`.
ghost use Rattle.std.specs.Prelude.{◌≡◌, [], IfOk, OnOk};
ghost use Rattle.hook_meaning.specs.Meaning.{filtered, action_pass, replaced, invoke};
ghost use Rattle.hook_machine.specs.Outcomes.{RunsAs, engine_over};
ghost use Rattle.hook_machine.specs.Rest.{rest};
ghost use Rattle.hook_machine.specs.Jobs.{job_left, left_from};

use crate::run::frames::Pace;
use crate::run::jobs::{Job, Turn, next_turn};
use crate::run::stack::Stack;
use crate::run::{Run, fault_in};
use crate::state::State;
use crate::state::tables::RunTables;
use callback_store::{Plugins, Stated};
use content_cache::PieceCache;
use hook_changes::{Listed, SharedList, Text};
use hook_meaning::RunFault;
use std::alloc::{AllocError, Global};

/// Copies texts.
pub fn copies(alloc: Global, texts: &[Text]) -> Result<Vec<Text>, AllocError>
    ensures { IfOk result (λ copies. copies.items ≡ texts.now) }
{
    Vec::from_clones(alloc, texts)
}

/// Makes the job of `apply_filters`.
fn filters(alloc: Global, hook: &str, value: Text, args: &Listed<Text>) -> Result<Job, AllocError>
    ensures { IfOk result (λ job. job ≡ Job.Filters hook.now value args.now) }
{
    Ok(Job::Filters {
        hook: Text::copied(alloc, hook)?,
        value,
        args: Listed::new(copies(alloc, args.as_slice())?),
    })
}

/// Makes the job of `do_action`.
fn action(alloc: Global, hook: &str, args: &Listed<Text>) -> Result<Job, AllocError>
    ensures { IfOk result (λ job. job ≡ Job.Action hook.now args.now) }
{
    Ok(Job::Action {
        hook: Text::copied(alloc, hook)?,
        args: Listed::new(copies(alloc, args.as_slice())?),
    })
}

/// Makes the job of `do_shortcode`.
fn shortcodes(alloc: Global, text: &str) -> Result<Job, AllocError>
    ensures { IfOk result (λ job. job ≡ Job.Shortcodes text.now) }
{
    Ok(Job::Shortcodes {
        text: Text::copied(alloc, text)?,
    })
}

/// Runs `apply_filters` to its end.
fn run_filters<S: Stated>(
    plugins: &Plugins<S>,
    state: &mut State,
    stack: &mut Stack,
    hook: &str,
    value: Text,
    args: &Listed<Text>,
    cache: &mut PieceCache,
) -> Result<Text, RunFault>
    requires { stack.old ≡ [] }
    ensures ends { RunsAs
        (filtered (engine_over S.says S.number plugins.now) state.old hook.now value args.now)
        result state.new }
    ensures over { OnOk result (stack.new ≡ []) }
    ensures cache { cache.new ≡ cache.old }
{
    let job = filters(state.alloc(), hook, value, args)?;
    run_job(plugins, state, stack, job, cache)
}

/// Runs `do_action` to its end.
fn run_action<S: Stated>(
    plugins: &Plugins<S>,
    state: &mut State,
    stack: &mut Stack,
    hook: &str,
    args: &Listed<Text>,
    cache: &mut PieceCache,
) -> Result<Text, RunFault>
    requires { stack.old ≡ [] }
    ensures ends { RunsAs
        (action_pass (invoke (engine_over S.says S.number plugins.now)) state.old hook.now args.now)
        result state.new }
    ensures over { OnOk result (stack.new ≡ []) }
    ensures cache { cache.new ≡ cache.old }
{
    let job = action(state.alloc(), hook, args)?;
    run_job(plugins, state, stack, job, cache)
}

/// Runs `do_shortcode` to its end.
fn run_shortcodes<S: Stated>(
    plugins: &Plugins<S>,
    state: &mut State,
    stack: &mut Stack,
    text: &str,
    cache: &mut PieceCache,
) -> Result<Text, RunFault>
    requires { stack.old ≡ [] }
    ensures ends { RunsAs
        (replaced (engine_over S.says S.number plugins.now) state.old text.now) result state.new }
    ensures over { OnOk result (stack.new ≡ []) }
    ensures cache { cache.new ≡ cache.old }
{
    let job = shortcodes(state.alloc(), text)?;
    run_job(plugins, state, stack, job, cache)
}

/// Goes on to the end, without stopping where it needn't.
pub fn all_turns<S: Stated>(
    plugins: &Plugins<S>,
    state: &mut State,
    stack: &mut Stack,
    job: Option<Job>,
    cache: &mut PieceCache,
) -> Result<Text, RunFault>
    ensures ends { RunsAs
        (left_from (engine_over S.says S.number plugins.now) state.old job stack.old) result
        state.new }
    ensures over { OnOk result (stack.new ≡ []) }
    ensures cache { cache.new ≡ cache.old }
{
    let mut turned = next_turn(plugins, state, stack, job, cache, Pace::Through)?;
    'turns: loop {
        match turned {
            Turn::Done(text) => return Ok(text),
            Turn::More => turned = next_turn(plugins, state, stack, None, cache, Pace::Through)?,
        }
    }
}

/// Runs a job to its end.
pub fn run_job<S: Stated>(
    plugins: &Plugins<S>,
    state: &mut State,
    stack: &mut Stack,
    job: Job,
    cache: &mut PieceCache,
) -> Result<Text, RunFault>
    requires { stack.old ≡ [] }
    ensures ends { RunsAs (job_left (engine_over S.says S.number plugins.now) state.old job) result
        state.new }
    ensures over { OnOk result (stack.new ≡ []) }
    ensures cache { cache.new ≡ cache.old }
{
    all_turns(plugins, state, stack, Some(job), cache)
}

impl<'a, S: Stated> Run<'a, S> {
    ghost use Rattle.std.specs.Prelude.{◌≡◌, [], None, IfOk, IfErr, OnOk};
    ghost use Rattle.callback_store.specs.Shape.{shapes_of};
    ghost use Rattle.hook_meaning.specs.World.{fresh, loaded};
    ghost use Rattle.hook_meaning.specs.Meaning.{filtered, acted, replaced};
    ghost use Rattle.hook_machine.specs.Outcomes.{RunsAs, engine_with};
    ghost use Rattle.hook_machine.specs.Moves.{Turns};
    ghost use Rattle.hook_machine.specs.Runs.{world_of, fault_of, engine_of, left_of, last_event};
    ghost use Rattle.hook_machine.specs.Runs.{CanBegin, IsIdle, IsIdleAtEnd, Keeps};

    /// Makes a run with nothing registered and nothing printed, of a site with these active plugins
    /// and options, that may make that many invocations. If an option has two values, the first
    /// counts.
    pub fn new(
        alloc: Global,
        plugins: &'a Plugins<S>,
        active: &[Text],
        options: &[(Text, Text)],
        calls: u32,
    ) -> Result<Self, RunFault>
        ensures world { IfOk result (λ run. world_of run ≡ fresh calls options.now active.now) }
        ensures sound { IfOk result (λ run. fault_of run ≡ None) }
        ensures idle { IfOk result (λ run. IsIdle run) }
        ensures engine { IfOk result (λ run. engine_of S.says S.number run ≡ engine_with S.says
            (shapes_of S.number plugins.entry.now)) }
        ensures err { IfErr result (λ fault. fault ≡ RunFault.OutOfMemory) }
    {
        let active = SharedList::new(Vec::from_clones(alloc, active)?)?;
        let options = SharedList::new(Vec::from_clones(alloc, options)?)?;
        let tables = RunTables::new(alloc);
        Ok(Run::over(plugins, State::new(alloc, tables, active, options, calls)))
    }

    /// Carries out core's own registration, and then the load lists of the active plugins in the
    /// order of their names. Invokes no callback.
    pub fn load(&mut self) -> Result<(), RunFault>
        requires idle { CanBegin self.old }
        ensures idle { OnOk result (IsIdle self.new) }
        ensures loaded { fault_of self.old ≡ None →
            OnOk result (world_of self.new ≡ loaded (engine_of S.says S.number self.old).plugins
            (world_of self.old)) }
        ensures memory { fault_of self.old ≡ None
            → IfErr result (λ fault. fault ≡ RunFault.OutOfMemory) }
        ensures keeps { Keeps S.says S.number self.old result self.new }
    {
        if let Some(fault) = self.fault {
            return Err(fault);
        }
        match self.state.load(self.plugins) {
            Ok(()) => Ok(()),
            Err(AllocError) => {
                self.fault = Some(RunFault::OutOfMemory);
                Err(RunFault::OutOfMemory)
            }
        }
    }

    /// Returns the value after the callbacks of a filter (Code Reference, apply_filters). For a
    /// text that is no hook's name, returns the value as it is.
    pub fn apply_filters(
        &mut self,
        hook: &str,
        value: Text,
        args: &Listed<Text>,
        cache: &mut PieceCache,
    ) -> Result<Text, RunFault>
        requires idle { CanBegin self.old }
        ensures idle { OnOk result (IsIdle self.new) }
        ensures filtered { fault_of self.old ≡ None →
            RunsAs (filtered (engine_of S.says S.number self.old) (world_of self.old) hook.now value
            args.now) result
            (world_of self.new) }
        ensures keeps { Keeps S.says S.number self.old result self.new }
        ensures cache { cache.new ≡ cache.old }
    {
        if let Some(fault) = self.fault {
            return Err(fault);
        }
        let result = run_filters(
            self.plugins,
            &mut self.state,
            &mut self.stack,
            hook,
            value,
            args,
            cache,
        );
        self.fault = fault_in(&result);
        result
    }

    /// Runs the callbacks of an action (Code Reference, do_action). A text that is no hook's name
    /// does nothing.
    pub fn do_action(
        &mut self,
        hook: &str,
        args: &Listed<Text>,
        cache: &mut PieceCache,
    ) -> Result<(), RunFault>
        requires idle { CanBegin self.old }
        ensures idle { OnOk result (IsIdle self.new) }
        ensures acted { fault_of self.old ≡ None →
            RunsAs (acted (engine_of S.says S.number self.old) (world_of self.old) hook.now
            args.now) result
            (world_of self.new) }
        ensures keeps { Keeps S.says S.number self.old result self.new }
        ensures cache { cache.new ≡ cache.old }
    {
        if let Some(fault) = self.fault {
            return Err(fault);
        }
        match run_action(
            self.plugins,
            &mut self.state,
            &mut self.stack,
            hook,
            args,
            cache,
        ) {
            Ok(_nothing) => Ok(()),
            Err(fault) => {
                self.fault = Some(fault);
                Err(fault)
            }
        }
    }

    /// Returns a text with its shortcodes replaced (Code Reference, do_shortcode).
    pub fn do_shortcode(&mut self, text: &str, cache: &mut PieceCache) -> Result<Text, RunFault>
        requires idle { CanBegin self.old }
        ensures idle { OnOk result (IsIdle self.new) }
        ensures replaced { fault_of self.old ≡ None →
            RunsAs (replaced (engine_of S.says S.number self.old) (world_of self.old) text.now)
            result
            (world_of self.new) }
        ensures keeps { Keeps S.says S.number self.old result self.new }
        ensures cache { cache.new ≡ cache.old }
    {
        if let Some(fault) = self.fault {
            return Err(fault);
        }
        let result = run_shortcodes(self.plugins, &mut self.state, &mut self.stack, text, cache);
        self.fault = fault_in(&result);
        result
    }

    /// Returns the fault that the run has returned, if it has.
    pub fn fault(&self) -> Option<RunFault>
        ensures { result ≡ fault_of self.now }
    {
        self.fault
    }

    /// Goes on with the job until one callback was invoked and its echo and changes were carried
    /// out, or until the job's end.
    pub fn turn(&mut self, cache: &mut PieceCache) -> Result<Turn, RunFault>
        ensures turns { fault_of self.old ≡ None →
            Turns (left_of (engine_of S.says S.number self.old) self.old) result
            (last_event self.new)
            (left_of (engine_of S.says S.number self.old) self.new) }
        ensures idle { IsIdleAtEnd result self.new }
        ensures keeps { Keeps S.says S.number self.old result self.new }
        ensures cache { cache.new ≡ cache.old }
    {
        self.go_on(Pace::ByTurns, cache)
    }

    /// Ends the run. All that a run owns is dropped here, for every page that ends one, so that
    /// what dropping does is proved once.
    pub fn end(self) {
        drop(self);
    }
}
