//! Carrying changes out.
ghost use Rattle.std.specs.Prelude.{◌≡◌, ◌++◌, IfOk, OnOk, MatchOption, IsTrue, IsFalse};
ghost use Rattle.plain_data.specs.Names.{is_tag_name};
ghost use Rattle.hook_changes.specs.declared.reply.Change.TheVariants.{AddTag};
ghost use Rattle.callback_store.specs.Shape.{shapes_of};
ghost use Rattle.hook_meaning.specs.World.{world_after_change, world_after_changes, loaded};
ghost use Rattle.hook_machine.specs.Loads.{registered_after, registered_after_all, core_load};

use crate::state::State;
use crate::state::load_list::{core_change, has_active, load_list};
use crate::state::tables::Tables;
use callback_store::{Plugins, Stated};
use hook_changes::{CallbackId, Change, NameFault, Reply, TagName, Text, is_hook_name};
use std::alloc::{AllocError, Global};

/// Reads a text as the name of a tag; `None` if it isn't one.
fn tag_named(alloc: Global, text: &str) -> Result<Option<TagName>, AllocError>
    ensures { IfOk result (λ name. MatchOption name (IsFalse (is_tag_name text.now))
        (λ tag. IsTrue (is_tag_name text.now) × (tag ≡ text.now))) }
{
    match TagName::read(alloc, text) {
        Ok(name) => Ok(Some(name)),
        Err(NameFault::BadName) => Ok(None),
        Err(NameFault::OutOfMemory) => Err(AllocError),
    }
}

impl Tables {
    fn add_tag(
        &mut self,
        tag: &Text,
        callback: CallbackId,
        is_active: bool,
    ) -> Result<(), AllocError>
        ensures { OnOk result
            (self.new ≡ registered_after self.old (AddTag tag.now callback) is_active) }
    {
        if callback.number() == 0 || !is_active {
            return Ok(());
        }
        match tag_named(self.alloc, tag.as_str())? {
            Some(tag) => self.plans.registry.add_tag(&tag, callback),
            None => Ok(()),
        }
    }

    /// Carries a change out. One whose callback isn't active registers nothing.
    pub fn carry(&mut self, change: &Change, is_active: bool) -> Result<(), AllocError>
        ensures { OnOk result (self.new ≡ registered_after self.old change.now is_active) }
    {
        match change {
            Change::Add { hook, accepted, .. } => {
                if *accepted > 16 || !is_active || !is_hook_name(hook.as_str()) {
                    return Ok(());
                }
                self.plans.apply(change)
            }
            Change::Remove { hook, .. } | Change::RemoveAll { hook, .. } => {
                if !is_hook_name(hook.as_str()) {
                    return Ok(());
                }
                self.plans.apply(change)
            }
            Change::AddTag { tag, callback } => self.add_tag(tag, *callback, is_active),
            Change::RemoveTag { tag } => {
                let _was_there = self.plans.registry.remove_tag(tag.as_str());
                Ok(())
            }
            Change::RemoveAllTags => {
                self.plans.registry.remove_all_tags();
                Ok(())
            }
        }
    }

    /// Carries out core's own registration, and then changes of load lists, each beside whether its
    /// callback is active.
    pub fn load(&mut self, load: &[(Change, bool)]) -> Result<(), AllocError>
        ensures { OnOk result (self.new ≡ registered_after_all self.old (core_load ++ load.now)) }
    {
        self.carry(&core_change(self.alloc), true)?;
        for change in load {
            self.carry(&change.0, change.1)?;
        }
        Ok(())
    }
}

impl State {
    /// Carries a change out. What was known of the filter on shortcodes is forgotten.
    pub fn change<S: Stated>(
        &mut self,
        plugins: &Plugins<S>,
        change: &Change,
    ) -> Result<(), AllocError>
        ensures ok { OnOk result
            (self.new ≡ world_after_change (shapes_of S.number plugins.now) self.old change.now) }
        ensures calls { self.new.calls ≡ self.old.calls }
        ensures active { self.new.active ≡ self.old.active }
    {
        let is_active = has_active(plugins, self.active.as_slice(), change);
        self.filters_shortcodes = None;
        self.tables.carry(change, is_active)
    }

    /// Carries changes out in their order.
    pub fn change_all<S: Stated>(
        &mut self,
        plugins: &Plugins<S>,
        changes: &[Change],
    ) -> Result<(), AllocError>
        ensures ok { OnOk result
            (self.new ≡ world_after_changes (shapes_of S.number plugins.now) self.old changes.now) }
        ensures calls { self.new.calls ≡ self.old.calls }
        ensures active { self.new.active ≡ self.old.active }
    {
        for change in changes {
            self.change(plugins, change)?;
        }
        Ok(())
    }

    /// Appends a reply's echo, and then carries its changes out.
    pub fn carry_out<S: Stated>(
        &mut self,
        plugins: &Plugins<S>,
        reply: &Reply,
    ) -> Result<(), AllocError>
        ensures ok { OnOk result (self.new ≡ world_after_changes (shapes_of S.number plugins.now)
            (record self.old { output = self.old.output ++ reply.now.echo }) reply.now.changes) }
        ensures calls { self.new.calls ≡ self.old.calls }
        ensures active { self.new.active ≡ self.old.active }
    {
        self.echo(reply.echo.as_str())?;
        let changes = reply.changes.as_slice();
        // Most replies change nothing.
        if changes.is_empty() {
            return Ok(());
        }
        self.change_all(plugins, changes)
    }

    /// Carries out core's own registration, and then the load lists of the active plugins.
    pub fn load<S: Stated>(&mut self, plugins: &Plugins<S>) -> Result<(), AllocError>
        ensures { OnOk result (self.new ≡ loaded (shapes_of S.number plugins.now) self.old) }
    {
        let load = load_list(self.alloc, plugins, self.active.as_slice())?;
        self.filters_shortcodes = None;
        self.tables.load(self.alloc, &load)
    }
}
