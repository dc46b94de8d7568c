//! The plugin `exclaim`: it puts an exclamation mark after each title. docs/PLUGINS.md begins with
//! it, and `geanmarbles new-plugin` makes a new plugin's crate from it.
#![tactic(auto)]

ghost use Rattle.std.specs.Prelude.{◌≡◌, ◌∷◌, [], IfOk, map};
ghost use Rattle.callback_store.specs.Shape.{shape_of};
ghost use Rattle.example_exclaim.specs.Exclaim.{exclaim, load, number_of};

use callback_store::{Plugin, Stated};
use hook_changes::{Call, CallbackId, Change, Listed, Reply, Text, Then};
use std::alloc::{AllocError, Global};

/// The callback of the plugin, a filter on `the_title`.
#[derive(Clone, Copy)]
pub struct Exclaim;

impl Stated for Exclaim {
    ghost use Rattle.example_exclaim.specs.Exclaim.{says, number_of};

    ghost says = { says };

    ghost number = { number_of };

    fn id(&self) -> CallbackId {
        CallbackId::new(1001)
    }

    fn answer(&self, alloc: Global, call: &Call) -> Result<Reply, AllocError> {
        let mut title = match call.args.as_slice() {
            [] => Text::empty(alloc),
            [title, ..] => title.clone()?,
        };
        title.push_str("!")?;
        Ok(Reply {
            changes: Listed::empty(alloc),
            echo: Text::empty(alloc),
            next: Then::Answer(title),
        })
    }
}

/// Makes a list of this plugin alone.
pub fn listed(alloc: Global) -> Result<Listed<Plugin<Exclaim>>, AllocError>
    ensures { IfOk result (λ plugins. map (shape_of number_of) plugins ≡ exclaim ∷ []) }
{
    let mut callbacks = Listed::empty(alloc);
    callbacks.push(Exclaim)?;
    let name = Text::copied(alloc, "exclaim")?;
    let load = load(alloc)?;
    let mut plugins = Listed::empty(alloc);
    plugins.push(Plugin {
        name,
        load,
        callbacks,
    })?;
    Ok(plugins)
}

/// Makes the load list: what each request begins with if the plugin is active.
fn load(alloc: Global) -> Result<Listed<Change>, AllocError>
    ensures { IfOk result (λ changes. changes ≡ load) }
{
    let mut changes = Listed::empty(alloc);
    changes.push(Change::Add {
        hook: Text::copied(alloc, "the_title")?,
        priority: 10,
        callback: CallbackId::new(1001),
        accepted: 1,
    })?;
    Ok(changes)
}
