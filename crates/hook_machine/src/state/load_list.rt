//! The changes with which a request begins.
ghost use Rattle.std.specs.Prelude.{
  ◌≡◌,
  ◌≤◌,
  ◌++◌,
  pos,
  codes,
  map,
  length,
  bytes_eq,
  is_some,
  IfOk,
  IfSome,
  OnOk,
};
ghost use Rattle.std.specs.List.{list_any};
ghost use Rattle.callback_store.specs.Shape.{shapes_of};
ghost use Rattle.hook_changes.specs.declared.reply.Change.TheVariants.{Add};
ghost use Rattle.hook_meaning.specs.World.{load_changes};
ghost use Rattle.hook_machine.specs.Loads.{has_active, with_active, load_change};

use callback_store::{Plugin, Plugins, Stated};
use hook_changes::{CallbackId, Change, CoreHook, Text, is_one_of};
use std::alloc::{AllocError, Global};

/// A change of a load list, and whether its callback is active.
pub type LoadChange<'p> = (&'p Change, bool);

/// Makes core's own registration (core's default filters).
pub fn core_change(alloc: Global) -> Change
    ensures { result ≡ Add (codes "the_content") (pos 11) 0 1 }
{
    Change::Add {
        hook: Text::core(alloc, CoreHook::TheContent),
        priority: 11,
        callback: CallbackId::new(0),
        accepted: 1,
    }
}

/// Lists the load lists of the plugins of these names, in the order of the names. Each change is
/// beside whether its callback is active.
pub fn load_list<'p, S: Stated>(
    alloc: Global,
    plugins: &'p Plugins<S>,
    active: &[Text],
) -> Result<Vec<LoadChange<'p>>, AllocError>
    ensures { IfOk result (λ list. map load_change list.items
        ≡ with_active (shapes_of S.number plugins.entry.now)
        active.now (load_changes (shapes_of S.number plugins.entry.now) active.now)) }
{
    let mut list = Vec::new(alloc);
    for plugin in plugins.by_name() {
        if let Some(place) = place_of(active, plugin.name.as_str()) {
            push_own(&mut list, plugins, active, place, plugin)?;
        }
    }
    Ok(list)
}

/// Returns where to look for a name first, if it is one of the names. If they are in order, as those
/// of a site's tables are, it is found by halves, and is the first from there on.
fn place_of(names: &[Text], name: &str) -> Option<usize>
    ensures found { is_some result ≡ list_any (bytes_eq name.now) names.now }
    ensures within { IfSome result (λ place. place ≤ length names.now) }
{
    let place = names.partition_point(|other| other.as_str() < name);
    if let Some(other) = names.get(place) {
        if name == other.as_str() {
            return Some(place);
        }
    }
    if is_one_of(names, name) {
        return Some(0);
    }
    None
}

/// Appends the load list of a plugin, whose name is looked for from a place on.
fn push_own<'p, S: Stated>(
    list: &mut Vec<LoadChange<'p>>,
    plugins: &Plugins<S>,
    active: &[Text],
    place: usize,
    plugin: &'p Plugin<S>,
) -> Result<(), AllocError>
    requires { place ≤ length active.now }
    ensures { OnOk result (map load_change list.new.items ≡ map load_change list.old.items
        ++ with_active (shapes_of S.number plugins.now) active.now plugin.entry.now.load) }
{
    // Most changes register a callback of their own plugin, whose name is most often the first here,
    // so that the others aren't looked at.
    let from = &active[place..];
    for change in plugin.load.as_slice() {
        let is_active = has_active(plugins, from, change) || has_active(plugins, active, change);
        list.push((change, is_active))?;
    }
    Ok(())
}

/// Returns whether the callback that a change registers is active. For a change that registers none
/// it says yes.
pub fn has_active<S: Stated>(plugins: &Plugins<S>, active: &[Text], change: &Change) -> bool
    ensures { result ≡ has_active (shapes_of S.number plugins.now) active.now change.now }
{
    match change {
        Change::Add { callback, .. } | Change::AddTag { callback, .. } => {
            callback.number() == 0 || plugins.is_held_by(active, *callback)
        }
        Change::Remove { .. }
        | Change::RemoveAll { .. }
        | Change::RemoveTag { .. }
        | Change::RemoveAllTags => true,
    }
}
