//! A program's plugins beside an author's own.
ghost use Rattle.std.specs.Prelude.{◌≡◌, ◌++◌, ℕ, IfOk, map};
ghost use Rattle.callback_store.specs.Shape.{shape_of};
ghost use Rattle.bundled_plugins.specs.Beside.{AreOwn, number_of};
ghost use Rattle.bundled_plugins.specs.Program as program;

use crate::program::{numbers, plugins, reply};
use callback_store::{Plugin, Stated};
use hook_changes::{Call, CallbackId, Listed, Reply};
use std::alloc::{AllocError, Global};

/// The callbacks of an author's own plugins have numbers from here on.
const FIRST_OWN: u32 = 1_000;

/// A callback of a program with an author's own plugins: one of these, or one of [`plugins`].
#[derive(Drop)]
pub enum Beside<P> {
    /// A callback of an author's own, with a number from 1,000 on.
    Own(P),
    /// The one of [`plugins`] that has this number.
    Given(CallbackId),
}

impl<P: Stated> Stated for Beside<P> {
    ghost use Rattle.bundled_plugins.specs.Beside.{number_of, says};

    ghost says = { says P.says };

    ghost number = { number_of P.number };

    fn id(&self) -> CallbackId {
        match self {
            Beside::Own(own) => own.id(),
            Beside::Given(id) => *id,
        }
    }

    #[tactic(auto, unfolding(crate::specs::Beside::says))]
    fn answer(&self, alloc: Global, call: &Call) -> Result<Reply, AllocError> {
        let id = self.id();
        if id.number() < FIRST_OWN {
            return reply(alloc, id, call);
        }
        match self {
            Beside::Own(own) => own.answer(alloc, call),
            // [`with_own`] makes none with such a number.
            Beside::Given(_) => Err(AllocError),
        }
    }
}

/// Makes a plugin of an author's own one of a program that has others beside it.
fn own_plugin<P: Stated>(alloc: Global, plugin: Plugin<P>) -> Result<Plugin<Beside<P>>, AllocError>
    ensures { IfOk result (λ own. shape_of (number_of P.number) own ≡ shape_of P.number plugin) }
{
    let Plugin {
        name,
        load,
        callbacks,
    } = plugin;
    let mut own = Listed::empty(alloc);
    for callback in callbacks.into_vec() {
        own.push(Beside::Own(callback))?;
    }
    Ok(Plugin {
        name,
        load,
        callbacks: own,
    })
}

/// Makes the callbacks of these numbers.
fn given<P: Stated>(alloc: Global, numbers: &[u32]) -> Result<Listed<Beside<P>>, AllocError>
    ensures { IfOk result (λ given. map (number_of P.number) given ≡ numbers.now) }
{
    let mut given = Listed::empty(alloc);
    for number in numbers {
        given.push(Beside::Given(CallbackId::new(*number)))?;
    }
    Ok(given)
}

/// Makes the plugins of a program with an author's own: the bundle, `snippets` if it is asked for,
/// and then these. Their callbacks must have numbers from 1,000 on: those below are replied to as by
/// [`reply`].
pub fn with_own<P: Stated>(
    alloc: Global,
    own: Listed<Plugin<P>>,
    with_snippets: bool,
) -> Result<Listed<Plugin<Beside<P>>>, AllocError>
    requires { AreOwn (map (shape_of P.number) own) }
    ensures { IfOk result (λ list. map (shape_of (number_of P.number)) list
        ≡ program.plugins with_snippets ++ map (shape_of P.number) own) }
{
    let all = numbers(alloc, with_snippets)?;
    let mut list = plugins(alloc, given(alloc, all.as_slice())?, with_snippets)?;
    for plugin in own.into_vec() {
        list.push(own_plugin(alloc, plugin)?)?;
    }
    Ok(list)
}
