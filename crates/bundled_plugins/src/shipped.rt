//! The bundled plugins and their load lists.
ghost use Rattle.std.specs.Prelude.{◌≡◌, ◌++◌, ◌∷◌, ◌≤◌, [], IfOk, OnOk, map, take, drop, length};
ghost use Rattle.callback_store.specs.Shape.{shape_of};
ghost use Rattle.bundled_plugins.specs.Bundle.{bundle, numbers, plugin};
ghost use Rattle.bundled_plugins.specs.Rows.{change_of, plugin_of, numbers_in};

use crate::rows::{ChangeRow, changes_of};
use callback_store::{Plugin, Stated};
use hook_changes::{CoreHook, Listed, Text};
use std::alloc::{AllocError, Global};
use std::mem;

/// The numbers of the bundled callbacks, in the order in which [`bundle`] takes them.
pub const NUMBERS: [u32; 31] = [
    14, 15, 16, 23, 24, 25, 17, 18, 19, 20, 21, 22, 26, 10, 11, 12, 13, 1, 2, 6, 7, 8, 9, 27, 28,
    29, 30, 3, 4, 5, 31,
];

/// A bundled plugin: its name, its load list, and the numbers of its callbacks.
pub struct Shipped {
    name: &'static str,
    load: &'static [ChangeRow],
    callbacks: &'static [u32],
}

// The bundled plugins, in the order of their names.
const SHIPPED: [Shipped; 10] = [
    Shipped {
        name: "args",
        load: &[
            ChangeRow::Add(CoreHook::TheTitle, 10, 14, 0),
            ChangeRow::Add(CoreHook::TheTitle, 20, 15, 16),
            ChangeRow::Add(CoreHook::WpFooter, 10, 16, 1),
        ],
        callbacks: &[14, 15, 16],
    },
    Shipped {
        name: "atts",
        load: &[
            ChangeRow::AddTag("show", 23),
            ChangeRow::AddTag("link", 24),
            ChangeRow::AddTag("ask", 25),
        ],
        callbacks: &[23, 24, 25],
    },
    Shipped {
        name: "bold",
        load: &[
            ChangeRow::AddTag("b", 17),
            ChangeRow::AddTag("i", 18),
            ChangeRow::AddTag("raw", 19),
            ChangeRow::AddTag("off", 20),
            ChangeRow::AddTag("alloff", 21),
            ChangeRow::AddTag("hush", 22),
        ],
        callbacks: &[17, 18, 19, 20, 21, 22],
    },
    Shipped {
        name: "deep",
        load: &[ChangeRow::Add(CoreHook::TheTitle, 10, 26, 1)],
        callbacks: &[26],
    },
    Shipped {
        name: "grow",
        load: &[ChangeRow::Add(CoreHook::TheTitle, 10, 10, 1)],
        callbacks: &[10, 11, 12, 13],
    },
    Shipped {
        name: "marks",
        load: &[
            ChangeRow::Add(CoreHook::TheTitle, 10, 2, 1),
            ChangeRow::Add(CoreHook::TheTitle, 10, 1, 1),
            ChangeRow::Add(CoreHook::TheTitle, 10, 2, 2),
        ],
        callbacks: &[1, 2],
    },
    Shipped {
        name: "nest",
        load: &[
            ChangeRow::Add(CoreHook::TheTitle, 10, 6, 1),
            ChangeRow::Add(CoreHook::TheTitle, 11, 7, 1),
            ChangeRow::Add(CoreHook::TheTitle, 11, 8, 1),
            ChangeRow::Add(CoreHook::TheTitle, 12, 9, 1),
        ],
        callbacks: &[6, 7, 8, 9],
    },
    Shipped {
        name: "note",
        load: &[
            ChangeRow::AddTag("note", 27),
            ChangeRow::AddTag("ping", 29),
            ChangeRow::AddTag("say", 30),
        ],
        callbacks: &[27, 28, 29, 30],
    },
    Shipped {
        name: "once",
        load: &[
            ChangeRow::Add(CoreHook::TheTitle, 10, 3, 1),
            ChangeRow::Add(CoreHook::TheTitle, 11, 4, 1),
            ChangeRow::Add(CoreHook::TheTitle, 12, 5, 1),
        ],
        callbacks: &[3, 4, 5],
    },
    Shipped {
        name: "tagmark",
        load: &[ChangeRow::Add(CoreHook::DoShortcodeTag, 10, 31, 2)],
        callbacks: &[31],
    },
];

/// Takes the first callbacks out of a list.
fn take_first<S: Drop>(callbacks: &mut Vec<S>, count: usize) -> Result<Vec<S>, AllocError>
    requires { count ≤ length callbacks.old.items }
    ensures taken { IfOk result (λ first. first.items ≡ take count callbacks.old.items) }
    ensures left { OnOk result (callbacks.new.items ≡ drop count callbacks.old.items) }
{
    let rest = callbacks.split_off(count)?;
    Ok(mem::replace(callbacks, rest))
}

/// Appends the plugin of a row, which takes as many of the first callbacks as the row has numbers.
fn push<S: Stated + Drop>(
    alloc: Global,
    plugins: &mut Listed<Plugin<S>>,
    row: &Shipped,
    callbacks: &mut Vec<S>,
) -> Result<(), AllocError>
    requires { length row.now.callbacks.now ≤ length (map S.number callbacks.old.items) }
    ensures pushed { OnOk result (map (shape_of S.number) plugins.new
        ≡ map (shape_of S.number) plugins.old
        ++ plugin row.now.name.now (map change_of row.now.load.now)
        (take (length row.now.callbacks.now) (map S.number callbacks.old.items)) ∷ []) }
    ensures left { OnOk result (map S.number callbacks.new.items
        ≡ drop (length row.now.callbacks.now) (map S.number callbacks.old.items)) }
{
    let callbacks = Listed::new(take_first(callbacks, row.callbacks.len())?);
    plugins.push(Plugin {
        name: Text::copied(alloc, row.name)?,
        load: changes_of(alloc, row.load)?,
        callbacks,
    })?;
    Ok(())
}

/// Makes the plugins of rows. Their callbacks must be in the order of the rows.
fn plugins_of<S: Stated + Drop>(
    alloc: Global,
    rows: &[Shipped],
    callbacks: Listed<S>,
) -> Result<Listed<Plugin<S>>, AllocError>
    requires { map S.number callbacks ≡ numbers_in rows.now }
    ensures { IfOk result (λ plugins. map (shape_of S.number) plugins ≡ map plugin_of rows.now) }
{
    let mut rest = callbacks.into_vec();
    let mut plugins = Listed::empty(alloc);
    for row in rows {
        push(alloc, &mut plugins, row, &mut rest)?;
    }
    Ok(plugins)
}

/// Makes the bundled plugins, in the order of their names. Their callbacks must be in the order of
/// [`NUMBERS`].
pub fn bundle<S: Stated + Drop>(
    alloc: Global,
    callbacks: Listed<S>,
) -> Result<Listed<Plugin<S>>, AllocError>
    requires { map S.number callbacks ≡ numbers }
    ensures { IfOk result (λ plugins. map (shape_of S.number) plugins ≡ bundle) }
{
    plugins_of(alloc, &SHIPPED, callbacks)
}
