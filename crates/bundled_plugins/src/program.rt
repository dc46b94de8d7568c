//! The plugins of a program: the bundle, and after it `snippets`, if that is asked for.
ghost use Rattle.std.specs.Prelude.{◌≡◌, IfOk, map};
ghost use Rattle.callback_store.specs.Shape.{shape_of};
ghost use Rattle.bundled_plugins.specs.Program.{numbers, plugins, says};

use crate::replies::bundled_reply;
use crate::shipped::{NUMBERS, bundle};
use callback_store::{Plugin, Stated};
use hook_changes::{Call, CallbackId, Listed, Reply};
use snippets::snippet_reply;
use std::alloc::{AllocError, Global};

/// The numbers from here on are of `snippets`.
const FIRST_OF_SNIPPETS: u32 = 500;

/// Returns the numbers of a program's callbacks, in the order in which [`plugins`] takes them.
pub fn numbers(alloc: Global, with_snippets: bool) -> Result<Vec<u32>, AllocError>
    ensures { IfOk result (λ all. all.items ≡ numbers with_snippets) }
{
    let mut all = Vec::new(alloc);
    all.extend_from_slice(&NUMBERS)?;
    if with_snippets {
        all.extend_from_slice(snippets::numbers(alloc)?.as_slice())?;
    }
    Ok(all)
}

/// Returns what a program's callback with that number replies to a call.
#[tactic(auto, unfolding(crate::specs::Program::says))]
pub fn reply(alloc: Global, id: CallbackId, call: &Call) -> Result<Reply, AllocError>
    ensures { IfOk result (λ reply. reply ≡ says id call.now) }
{
    if id.number() < FIRST_OF_SNIPPETS {
        bundled_reply(alloc, id, call)
    } else {
        snippet_reply(alloc, id, call)
    }
}

/// Makes a program's plugins: the bundle, and after it `snippets`, if that is asked for. Their
/// callbacks must be in the order of [`numbers`].
pub fn plugins<S: Stated + Drop>(
    alloc: Global,
    callbacks: Listed<S>,
    with_snippets: bool,
) -> Result<Listed<Plugin<S>>, AllocError>
    requires { map S.number callbacks ≡ numbers with_snippets }
    ensures { IfOk result (λ list. map (shape_of S.number) list ≡ plugins with_snippets) }
{
    let mut bundled = callbacks.into_vec();
    let of_snippets = bundled.split_off(NUMBERS.len())?;
    let mut list = bundle(alloc, Listed::new(bundled))?;
    if with_snippets {
        list.push(snippets::plugin(alloc, Listed::new(of_snippets))?)?;
    }
    Ok(list)
}
