//! What is registered while a request runs.
ghost use Rattle.std.specs.Prelude.{◌≡◌, ◌+◌, ◌++◌, map, min, OnOk, OnErr};
ghost use Rattle.hook_registry.specs.Named.{set_value};
ghost use Rattle.hook_registry.specs.Table.{times_fired};
ghost use Rattle.hook_machine.specs.Loads.{registered_after, none_registered, registered_after_all};
ghost use Rattle.hook_machine.specs.Loads.{load_left};
ghost use Rattle.hook_machine.specs.Loads.{load_change, core_load};

use crate::state::load_list::{LoadChange, core_change};
use crate::state::loaded::Loaded;
use call_plans::Plans;
use hook_changes::{Change, HookName};
use hook_registry::Registry;
use std::alloc::{AllocError, Global};
use std::marker::Model;

/// The registrations, the handlers of tags, and the firings.
#[derive(Drop)]
pub struct Tables {
    pub(crate) alloc: Global,
    pub(crate) plans: Plans,
}

impl Model for Tables {
    ghost use Rattle.hook_registry.specs.Table.{Registered};

    ghost Value = { Registered };

    ghost view = { λ t. t.plans.registry };
}

impl Tables {
    /// Makes tables with nothing registered and nothing fired. Does not allocate.
    pub fn new(alloc: Global) -> Self
        ensures { result ≡ none_registered }
    {
        Tables {
            alloc,
            plans: Plans::new(alloc),
        }
    }

    fn plans(&self) -> &Plans
        ensures { result.now.registry ≡ self.now }
    {
        &self.plans
    }
}

/// The tables of one run. At first they are those that its load left, which other runs share; a
/// change gives the run tables of its own, by carrying the load out once more. What was fired is
/// always the run's own.
#[derive(Drop)]
pub struct RunTables {
    loaded: Option<Loaded>,
    own: Tables,
}

impl Model for RunTables {
    ghost use Rattle.std.specs.Prelude.{◌≡◌, [], IfSome};
    ghost use Rattle.hook_registry.specs.Table.{Registered};
    ghost use Rattle.hook_machine.specs.Loads.{tables_in};

    ghost Value = { Registered };

    ghost view = { λ t. tables_in t.loaded t.own };

    ghost invariant = { λ t. IfSome t.loaded (λ load. (t.own.table ≡ []) × (t.own.tags ≡ [])) };
}

impl RunTables {
    /// Makes tables with nothing registered and nothing fired. Does not allocate.
    pub fn new(alloc: Global) -> Self
        ensures { result ≡ none_registered }
    {
        RunTables {
            loaded: None,
            own: Tables::new(alloc),
        }
    }

    /// Makes tables with what a load left, and nothing fired. Does not allocate.
    pub fn of(alloc: Global, loaded: Loaded) -> Self
        ensures { result ≡ load_left loaded }
    {
        RunTables {
            loaded: Some(loaded),
            own: Tables::new(alloc),
        }
    }

    /// Returns the registry that has the registrations and the tags. What was fired may be in
    /// another.
    pub fn registry(&self) -> &Registry
        ensures table { result.now.table ≡ self.now.table }
        ensures tags { result.now.tags ≡ self.now.tags }
    {
        &self.plans().registry
    }

    /// Returns the registrations, for passes to go over. What was fired may be in others.
    pub fn plans(&self) -> &Plans
        ensures table { result.now.registry.table ≡ self.now.table }
        ensures tags { result.now.registry.tags ≡ self.now.tags }
    {
        match &self.loaded {
            Some(loaded) => loaded.tables().plans(),
            None => self.own.plans(),
        }
    }

    /// Returns how often an action was fired.
    pub fn did(&self, hook: &str) -> u32
        ensures { result ≡ times_fired self.now.counts hook.now }
    {
        self.own.plans.registry.did(hook)
    }

    /// Counts one firing of an action.
    pub fn fire(&mut self, hook: &HookName) -> Result<(), AllocError>
        ensures ok { OnOk result (self.new ≡ record self.old {
          counts = set_value self.old.counts hook.now
              (min (times_fired self.old.counts hook.now + 1) 4294967295);
        }) }
        ensures err { OnErr result (self.new ≡ self.old) }
    {
        let _count = self.own.plans.registry.fire(hook)?;
        Ok(())
    }

    /// Carries a change out. One whose callback isn't active registers nothing.
    pub fn carry(&mut self, change: &Change, is_active: bool) -> Result<(), AllocError>
        ensures { OnOk result (self.new ≡ registered_after self.old change.now is_active) }
    {
        match self.loaded.take() {
            None => self.own.carry(change, is_active),
            Some(loaded) => {
                self.own.load(loaded.changes())?;
                self.own.carry(change, is_active)
            }
        }
    }

    /// Carries out core's own registration, and then changes of load lists, each beside whether its
    /// callback is active.
    pub fn load(&mut self, alloc: Global, load: &[LoadChange<'_>]) -> Result<(), AllocError>
        ensures { OnOk result
            (self.new ≡ registered_after_all self.old (core_load ++ map load_change load.now)) }
    {
        self.carry(&core_change(alloc), true)?;
        for change in load {
            self.carry(change.0, change.1)?;
        }
        Ok(())
    }
}
