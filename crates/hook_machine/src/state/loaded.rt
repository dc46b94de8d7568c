//! What loading leaves, which runs share.
ghost use Rattle.std.specs.Prelude.{◌≡◌, IfOk, IsTrue, map};
ghost use Rattle.hook_changes.specs.declared.reply.Change.{Change};
ghost use Rattle.hook_machine.specs.Loads.{load_left, load_change};

use crate::state::load_list::LoadChange;
use crate::state::tables::Tables;
use hook_changes::{Change, Listed, Shared};
use std::alloc::{AllocError, Global};
use std::marker::Model;

/// The changes of a load, each with whether its callback is active, and the tables that they leave.
#[derive(Drop)]
struct Load {
    changes: Listed<(Change, bool)>,
    tables: Tables,
}

/// A load that has been carried out. Its owners share it. Contracts see the changes.
#[derive(Drop)]
pub struct Loaded {
    load: Shared<Load>,
}

impl Model for Loaded {
    ghost use Rattle.std.specs.Prelude.{◌≡◌, List, Bool};
    ghost use Rattle.hook_changes.specs.declared.reply.Change.{Change};
    ghost use Rattle.hook_machine.specs.Loads.{load_left, load_change};

    ghost Value = { List (Change × Bool) };

    ghost view = { λ l. l.load.changes };

    ghost invariant = { λ l. l.load.tables ≡ load_left l.load.changes };
}

impl Loaded {
    /// Carries changes out, over tables with nothing registered.
    fn of(alloc: Global, changes: Listed<(Change, bool)>) -> Result<Self, AllocError>
        ensures { IfOk result (λ loaded. loaded ≡ changes) }
    {
        let mut tables = Tables::new(alloc);
        tables.load(changes.as_slice())?;
        Ok(Loaded {
            load: Shared::new(alloc, Load { changes, tables })?,
        })
    }

    /// Returns the same load for another owner. Does not allocate; an `Err` says that it has too
    /// many owners to count.
    fn share(&self) -> Result<Self, AllocError>
        ensures { IfOk result (λ shared. shared ≡ self.now) }
    {
        Ok(Loaded {
            load: self.load.share()?,
        })
    }

    /// Borrows the changes that were loaded, each with whether its callback is active.
    pub fn changes(&self) -> &[(Change, bool)]
        ensures { result.now ≡ self.now }
    {
        self.load.get().changes.as_slice()
    }

    /// Borrows the tables that the changes leave.
    pub fn tables(&self) -> &Tables
        ensures { result.now ≡ load_left self.now }
    {
        &self.load.get().tables
    }
}

/// What the last load left, kept for the runs after it. No contract sees it: a run is the same
/// without.
#[derive(Drop)]
pub struct KeptLoad {
    last: Option<Loaded>,
}

impl KeptLoad {
    /// Keeps nothing.
    pub fn none() -> Self {
        KeptLoad { last: None }
    }

    /// Returns what these changes leave: what is kept, if it is of the same changes. Otherwise they
    /// are carried out, and what they leave is kept in its place.
    pub(crate) fn loaded(
        &mut self,
        alloc: Global,
        changes: &[LoadChange<'_>],
    ) -> Result<Loaded, AllocError>
        ensures { IfOk result (λ loaded. loaded ≡ map load_change changes.now) }
    {
        if let Some(last) = &self.last {
            if are_same(last.changes(), changes) {
                return last.share();
            }
        }
        let loaded = Loaded::of(alloc, copied(alloc, changes)?)?;
        self.last = Some(loaded.share()?);
        Ok(loaded)
    }
}

/// Copies changes.
fn copied(alloc: Global, changes: &[LoadChange<'_>]) -> Result<Listed<(Change, bool)>, AllocError>
    ensures { IfOk result (λ copies. copies ≡ map load_change changes.now) }
{
    let mut copies = Listed::empty(alloc);
    for change in changes {
        copies.push((change.0.clone()?, change.1))?;
    }
    Ok(copies)
}

/// Returns whether two lists have the same changes in the same order.
fn are_same(kept: &[(Change, bool)], changes: &[LoadChange<'_>]) -> bool
    ensures { IsTrue result → kept.now ≡ map load_change changes.now }
{
    if kept.len() != changes.len() {
        return false;
    }
    for at in 0..kept.len() {
        if !is_same_load(&kept[at], &changes[at]) {
            return false;
        }
    }
    true
}

fn is_same_load(kept: &(Change, bool), change: &LoadChange<'_>) -> bool
    ensures { IsTrue result → kept.now ≡ load_change change.now }
{
    kept.1 == change.1 && kept.0 == *change.0
}
