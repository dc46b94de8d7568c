//! The run of a request's callbacks: the calls by which the pages of a site go, and in `run/` its
//! frames and the calls for programs of one's own.
ghost use Rattle.std.specs.Prelude.{◌≡◌};
ghost use Rattle.hook_machine.specs.Runs.{fault_in};

pub(crate) mod asks;
pub(crate) mod calls;
pub(crate) mod cut;
pub(crate) mod frames;
pub(crate) mod invocation;
pub(crate) mod jobs;
pub(crate) mod left;
pub(crate) mod passes;
pub(crate) mod paused;
pub(crate) mod pieces;
pub(crate) mod stack;
pub(crate) mod texts;
pub(crate) mod whole;

use crate::run::frames::Pace;
use crate::run::jobs::{Job, Turn, next_turn};
use crate::run::passes::may_pass_over;
use crate::run::paused::PausedRun;
use crate::run::stack::Stack;
use crate::state::State;
use crate::state::load_list::load_list;
use crate::state::loaded::KeptLoad;
use crate::state::tables::RunTables;
use callback_store::{Plugins, Stated};
use content_cache::PieceCache;
use hook_changes::{HookName, SharedList, Text};
use hook_meaning::RunFault;
use std::alloc::{AllocError, Global};

/// A run of a request's callbacks. It borrows the plugins, and shares the options and the active
/// names, which no later edit changes.
///
/// Once a call has returned a fault, each later call returns that same fault.
pub struct Run<'a, S> {
    plugins: &'a Plugins<S>,
    state: State,
    /// A job that has not begun.
    job: Option<Job>,
    /// What is left of one that has.
    stack: Stack,
    fault: Option<RunFault>,
}

/// Written out, so that a crate which owns a run calls this drop, and proves no drop of what a run
/// owns.
impl<'a, S> Drop for Run<'a, S> {
    fn drop(self) {
        let Run {
            plugins: _,
            state: _,
            job: _,
            stack: _,
            fault: _,
        } = self;
    }
}

fn fault_in<T>(outcome: &Result<T, RunFault>) -> Option<RunFault>
    ensures { result ≡ fault_in outcome.now }
{
    match outcome {
        Ok(_) => None,
        Err(fault) => Some(*fault),
    }
}

impl<'a, S: Stated> Run<'a, S> {
    ghost use Rattle.std.specs.Prelude.{◌≡◌, ◌++◌, ℕ, List, [], None, IfOk, IfErr, OnOk, IsOk};
    ghost use Rattle.std.specs.Prelude.{IsTrue, IsFalse, MatchOption};
    ghost use Rattle.callback_store.specs.Shape.{shapes_of};
    ghost use Rattle.hook_meaning.specs.World.{fresh, loaded};
    ghost use Rattle.hook_meaning.specs.Meaning.{Engine, filtered, acted};
    ghost use Rattle.hook_machine.specs.Outcomes.{engine_with};
    ghost use Rattle.hook_registry.specs.Table.{has};
    ghost use Rattle.hook_meaning.specs.Trace.{Done};
    ghost use Rattle.hook_machine.specs.Moves.{Leads, TurnsBy};
    ghost use Rattle.hook_machine.specs.Jobs.{job_left};
    ghost use Rattle.hook_machine.specs.Runs.{world_of, fault_of, engine_of, left_of, left_in};
    ghost use Rattle.hook_machine.specs.Runs.{last_event, paused_event};
    ghost use Rattle.hook_machine.specs.Runs.{CanBegin, IsIdle, IsReady, IsIdleAtEnd};
    ghost use Rattle.hook_machine.specs.Runs.{Keeps, paused_world, paused_left, IsPausedIdle};

    /// Makes a run of a state, with no job under way. Does not allocate.
    fn over(plugins: &'a Plugins<S>, state: State) -> Self
        ensures world { world_of result ≡ state }
        ensures sound { fault_of result ≡ None }
        ensures idle { IsIdle result }
        ensures engine { engine_of S.says S.number result ≡ engine_with S.says
            (shapes_of S.number plugins.entry.now) }
    {
        Run {
            plugins,
            job: None,
            stack: Stack::none(state.alloc()),
            state,
            fault: None,
        }
    }

    /// Makes a run of a site with these active plugins and options, which may make that many
    /// invocations, once core and the active plugins have loaded. If an option has two values, the
    /// first counts. The run shares the active names and the options. What the load left is kept
    /// for later runs: one with the same load lists shares it, and carries nothing out.
    pub fn loaded(
        alloc: Global,
        plugins: &'a Plugins<S>,
        active: SharedList<Text>,
        options: SharedList<(Text, Text)>,
        calls: u32,
        kept: &mut KeptLoad,
    ) -> Result<Self, AllocError>
        ensures world { IfOk result (λ run. world_of run
            ≡ loaded (shapes_of S.number plugins.entry.now) (fresh calls options active)) }
        ensures ready { IfOk result (λ run. IsReady run) }
        ensures engine { IfOk result (λ run. engine_of S.says S.number run ≡ engine_with S.says
            (shapes_of S.number plugins.entry.now)) }
    {
        let load = load_list(alloc, plugins, active.as_slice())?;
        let loaded = kept.loaded(alloc, &load)?;
        let tables = RunTables::of(alloc, loaded);
        Ok(Run::over(plugins, State::new(alloc, tables, active, options, calls)))
    }

    /// Begins a job, of which nothing is done before the first turn. Does not allocate.
    pub fn start(&mut self, job: Job) -> Result<(), RunFault>
        requires idle { CanBegin self.old }
        ensures started { OnOk result (left_of (engine_of S.says S.number self.old) self.new
            ≡ job_left
            (engine_of S.says S.number self.old) (world_of self.old) job) }
        ensures same { world_of self.new ≡ world_of self.old }
        ensures succeeds { fault_of self.old ≡ None → IsOk result }
        ensures keeps { Keeps S.says S.number self.old result self.new }
    {
        if let Some(fault) = self.fault {
            return Err(fault);
        }
        self.job = Some(job);
        Ok(())
    }

    /// Goes on with the job: to its end, or to an invocation after which there is more to do. By
    /// turns that is the next one; a run that goes through passes over those that it needn't stop
    /// at.
    pub fn go_on(&mut self, pace: Pace, cache: &mut PieceCache) -> Result<Turn, RunFault>
        ensures turns { fault_of self.old ≡ None →
            TurnsBy pace (left_of (engine_of S.says S.number self.old) self.old) result
            (last_event self.new)
            (left_of (engine_of S.says S.number self.old) self.new) }
        ensures idle { IsIdleAtEnd result self.new }
        ensures keeps { Keeps S.says S.number self.old result self.new }
        ensures cache { cache.new ≡ cache.old }
    {
        if let Some(fault) = self.fault {
            return Err(fault);
        }
        let job = self.job.take();
        let result = next_turn(
            self.plugins,
            &mut self.state,
            &mut self.stack,
            job,
            cache,
            pace,
        );
        self.fault = fault_in(&result);
        result
    }

    /// Returns whether anything is registered on a hook (Code Reference, has_filter).
    pub fn is_hooked(&self, hook: &str) -> bool
        ensures { result ≡ has (world_of self.now).table hook.now }
    {
        self.state.is_hooked(hook)
    }

    /// Passes over a filter that leaves its value as it is, and returns whether it did. It does so
    /// only in a run that doesn't stop, on a hook whose only callback is core's own, over a text
    /// without shortcodes.
    pub fn pass_over(&mut self, hook: &str, value: &str, pace: Pace) -> Result<bool, RunFault>
        requires idle { CanBegin self.old }
        ensures idle { OnOk result (IsIdle self.new) }
        ensures passed { fault_of self.old ≡ None
            → IfOk result (λ passed. IsTrue passed → (args : List (List ℕ))
            → Leads pace (filtered (engine_of S.says S.number self.old) (world_of self.old) hook.now
            value.now args)
            (Done (world_of self.new) value.now)) }
        ensures stays { fault_of self.old ≡ None → IfOk result (λ passed. IsFalse passed →
            world_of self.new ≡ world_of self.old) }
        ensures succeeds { fault_of self.old ≡ None → IsOk result }
        ensures keeps { Keeps S.says S.number self.old result self.new }
    {
        if let Some(fault) = self.fault {
            return Err(fault);
        }
        if !may_pass_over(&self.state, hook, value, pace) {
            return Ok(false);
        }
        self.state.spend_call();
        Ok(true)
    }

    /// Passes over an action on which nothing is registered: its firing is counted (Code Reference,
    /// do_action). If anything is registered, nothing is done, and the hook is returned.
    pub fn pass_over_action(&mut self, hook: Text) -> Result<Option<Text>, RunFault>
        requires idle { CanBegin self.old }
        ensures idle { OnOk result (IsIdle self.new) }
        ensures passed { fault_of self.old ≡ None → IfOk result (λ left. MatchOption left
            ((args : List (List ℕ)) → acted (engine_of S.says S.number self.old)
            (world_of self.old) hook args
            ≡ Done (world_of self.new) tt)
            (λ same. (same ≡ hook) × (world_of self.new ≡ world_of self.old))) }
        ensures memory { fault_of self.old ≡ None
            → IfErr result (λ fault. fault ≡ RunFault.OutOfMemory) }
        ensures keeps { Keeps S.says S.number self.old result self.new }
    {
        if let Some(fault) = self.fault {
            return Err(fault);
        }
        if self.state.is_hooked(hook.as_str()) {
            return Ok(Some(hook));
        }
        let fired = match HookName::of(hook) {
            Some(hook) => self.state.fire(&hook),
            None => Ok(()),
        };
        match fired {
            Ok(()) => Ok(None),
            Err(AllocError) => {
                self.fault = Some(RunFault::OutOfMemory);
                Err(RunFault::OutOfMemory)
            }
        }
    }

    /// Prints a text of the page's own, after what was printed so far.
    pub fn print(&mut self, text: &str) -> Result<(), RunFault>
        requires idle { CanBegin self.old }
        ensures idle { OnOk result (IsIdle self.new) }
        ensures printed { fault_of self.old ≡ None →
            OnOk result (world_of self.new ≡ record (world_of self.old)
            { output = (world_of self.old).output ++ text.now }) }
        ensures memory { fault_of self.old ≡ None
            → IfErr result (λ fault. fault ≡ RunFault.OutOfMemory) }
        ensures keeps { Keeps S.says S.number self.old result self.new }
    {
        if let Some(fault) = self.fault {
            return Err(fault);
        }
        match self.state.echo(text) {
            Ok(()) => Ok(()),
            Err(AllocError) => {
                self.fault = Some(RunFault::OutOfMemory);
                Err(RunFault::OutOfMemory)
            }
        }
    }

    /// Takes what was printed so far, which leaves nothing printed. A job that is under way goes on
    /// as before. Does not allocate.
    pub fn take_output(&mut self) -> Result<Text, RunFault>
        ensures left { fault_of self.old ≡ None → (engine : Engine)
            → left_of engine self.new ≡ left_in engine (world_of self.new) self.old }
        ensures idle { OnOk result (IsIdle self.old → IsIdle self.new) }
        ensures text { fault_of self.old ≡ None →
            IfOk result (λ text. (text ≡ (world_of self.old).output) ×
            (world_of self.new ≡ record (world_of self.old) { output = [] })) }
        ensures succeeds { fault_of self.old ≡ None → IsOk result }
        ensures keeps { Keeps S.says S.number self.old result self.new }
    {
        if let Some(fault) = self.fault {
            return Err(fault);
        }
        Ok(self.state.take_output())
    }

    /// Puts the run aside, with all that it owns. A job that is under way is kept. Does not
    /// allocate.
    pub fn pause(self) -> PausedRun
        requires sound { fault_of self ≡ None }
        ensures world { paused_world result ≡ world_of self.entry }
        ensures left { (engine : Engine) → paused_left engine result ≡ left_of engine self.entry }
        ensures event { paused_event result ≡ last_event self.entry }
        ensures idle { IsIdle self.entry → IsPausedIdle result }
    {
        let Run {
            plugins: _,
            state,
            job,
            stack,
            fault: _,
        } = self;
        PausedRun { state, job, stack }
    }
}

impl PausedRun {
    ghost use Rattle.hook_meaning.specs.Meaning.{Engine};
    ghost use Rattle.hook_machine.specs.Runs.{world_of, fault_of, engine_of, left_of, IsIdle};
    ghost use Rattle.hook_machine.specs.Runs.{paused_world, paused_left, IsPausedIdle};
    ghost use Rattle.hook_machine.specs.Runs.{last_event, paused_event};
    ghost use Rattle.hook_machine.specs.Outcomes.{engine_over};

    /// Goes on with the run. The plugins are those that it was made with: over others it goes on as
    /// those reply. Does not allocate.
    pub fn resume<S: Stated>(self, plugins: &Plugins<S>) -> Run<'_, S>
        ensures world { world_of result ≡ paused_world self }
        ensures left { (engine : Engine) → left_of engine result ≡ paused_left engine self }
        ensures event { last_event result ≡ paused_event self }
        ensures idle { IsPausedIdle self → IsIdle result }
        ensures sound { fault_of result ≡ None }
        ensures engine { engine_of S.says S.number result
            ≡ engine_over S.says S.number plugins.entry.now }
    {
        let (state, job, stack) = self.into_parts();
        Run {
            plugins,
            state,
            job,
            stack,
            fault: None,
        }
    }
}
