//! Plugins of one callback each, on `the_title`, which adds itself at larger and larger priorities,
//! or fails on every call as if memory had run out.
ghost use Rattle.std.specs.Prelude.{◌≡◌, codes, IfOk};
ghost use Rattle.hook_changes.specs.declared.reply.Change.TheVariants.{Add};
ghost use Rattle.test_limits.specs.Climbing.{says, climbs, changes, next_priority, first_argument};

use callback_store::{Plugin, Plugins, Stated};
use hook_changes::{Call, CallbackId, Change, Listed, Reply, Text};
use std::alloc::{AllocError, Global};

/// The number of the callback that fails on every call.
const NO_MEMORY: u32 = 1;

/// The plugins' names, each with the number of its callback.
static PLUGINS: [(&str, u32); 3] = [
    ("climb", 3),
    // No page has this many calls.
    ("climb-on", 1_000_000),
    ("fail", NO_MEMORY),
];

/// A callback that adds itself while the value has fewer bytes than its number says.
#[derive(Clone, Copy)]
pub struct Climbing {
    number: u32,
}

impl Stated for Climbing {
    ghost says = { says };

    ghost number = { λ callback. callback.number };

    fn id(&self) -> CallbackId {
        CallbackId::new(self.number)
    }

    #[tactic(auto, unfolding(crate::specs::Climbing::says))]
    fn answer(&self, alloc: Global, call: &Call) -> Result<Reply, AllocError> {
        if self.number == NO_MEMORY {
            return Err(AllocError);
        }
        climbs(alloc, self.number, first_argument(call))
    }
}

/// Borrows the first argument of a call, or empty text if it has none.
pub fn first_argument(call: &Call) -> &str
    ensures { result.now ≡ first_argument call.entry.now.args }
{
    match call.args.as_slice() {
        [] => "",
        [first, ..] => first.as_str(),
    }
}

fn climbs(alloc: Global, number: u32, value: &str) -> Result<Reply, AllocError>
    ensures { IfOk result (λ reply. reply ≡ climbs number value.now) }
{
    let changes = changes(alloc, number, value)?;
    let text = Text::new(format!(in alloc; "{value}x")?);
    Ok(Reply::answer(alloc, text).with_changes(changes))
}

fn changes(alloc: Global, number: u32, value: &str) -> Result<Listed<Change>, AllocError>
    ensures { IfOk result (λ list. list ≡ changes number value.now) }
{
    let mut changes = Listed::empty(alloc);
    if value.len() < number as usize {
        changes.push(addition(alloc, number, next_priority(value))?)?;
    }
    Ok(changes)
}

fn addition(alloc: Global, number: u32, priority: i32) -> Result<Change, AllocError>
    ensures { IfOk result (λ change. change ≡ Add (codes "the_title") priority number 1) }
{
    Ok(Change::Add {
        hook: Text::copied(alloc, "the_title")?,
        priority,
        callback: CallbackId::new(number),
        accepted: 1,
    })
}

/// Returns 11 plus the length of the value, or the largest priority if that is smaller.
fn next_priority(value: &str) -> i32
    ensures { result ≡ next_priority value.now }
{
    if value.len() > 2_147_483_636 {
        return 2_147_483_647;
    }
    11 + value.len() as i32
}

/// Makes the plugins.
pub fn plugins(alloc: Global) -> Option<Plugins<Climbing>> {
    match listed(alloc) {
        Ok(list) => Plugins::new(alloc, list).ok(),
        Err(AllocError) => None,
    }
}

fn listed(alloc: Global) -> Result<Listed<Plugin<Climbing>>, AllocError> {
    let mut list = Listed::empty(alloc);
    for (name, number) in &PLUGINS {
        list.push(plugin(alloc, name, *number)?)?;
    }
    Ok(list)
}

fn plugin(alloc: Global, name: &str, number: u32) -> Result<Plugin<Climbing>, AllocError> {
    let name = Text::copied(alloc, name)?;
    let mut load = Listed::empty(alloc);
    load.push(addition(alloc, number, 10)?)?;
    let mut callbacks = Listed::empty(alloc);
    callbacks.push(Climbing { number })?;
    Ok(Plugin {
        name,
        load,
        callbacks,
    })
}
