//! The test callbacks.
ghost use Rattle.std.specs.Prelude.{◌≡◌, IfOk};
ghost use Rattle.hook_meaning.specs.Meaning.{first_or_empty};
ghost use Rattle.test_engine.specs.Tested.{tested, letter_reply, changes, climbs, next_priority};
ghost use Rattle.test_engine.specs.Tested.{letter};

use crate::asking::asking;
use bundled_plugins::bundled_reply;
use callback_store::Stated;
use hook_changes::{Call, CallbackId, Change, Listed, Reply, Text, Then};
use std::alloc::{AllocError, Global};

/// A callback, by its number: one of the bundle below 100, and else one of those made for tests.
#[derive(Clone, Copy)]
pub struct Tested {
    pub id: CallbackId,
}

impl Stated for Tested {
    ghost says = { tested };

    ghost number = { λ callback. callback.id };

    fn id(&self) -> CallbackId {
        self.id
    }

    // Number 106 fails on every call, as if memory had run out.
    #[tactic(auto, unfolding(crate::specs::Tested::tested))]
    fn answer(&self, alloc: Global, call: &Call) -> Result<Reply, AllocError> {
        let number = self.id.number();
        if number < 100 {
            return bundled_reply(alloc, self.id, call);
        }
        if number == 106 {
            return Err(AllocError);
        }
        if number > 200 {
            return asking(alloc, number, call);
        }
        lettered(alloc, number, first_argument(call))
    }
}

fn lettered(alloc: Global, number: u32, value: &str) -> Result<Reply, AllocError>
    ensures { IfOk result (λ reply. reply ≡ letter_reply number value.now) }
{
    let changes = changes(alloc, number, value)?;
    let letter = letter(number);
    let text = Text::new(format!(in alloc; "{value}{letter}")?);
    Ok(Reply::answer(alloc, text).with_changes(changes))
}

/// Returns the first argument, or empty text.
pub fn first_argument(call: &Call) -> &str
    ensures { result.now ≡ first_or_empty call.entry.now.args }
{
    match call.args.as_slice() {
        [] => "",
        [first, ..] => first.as_str(),
    }
}

fn letter(number: u32) -> &'static str
    ensures { result.now ≡ letter number }
{
    match number {
        101 => "a",
        102 => "b",
        103 => "c",
        104 | 107 => "x",
        _ => "r",
    }
}

fn changes(alloc: Global, number: u32, value: &str) -> Result<Listed<Change>, AllocError>
    ensures { IfOk result (λ list. list ≡ changes number value.now) }
{
    let mut changes = Listed::empty(alloc);
    let hook = Text::copied(alloc, "the_title")?;
    let change = match number {
        101 => Change::RemoveAll {
            hook,
            priority: None,
        },
        105 => Change::Remove {
            hook,
            priority: 10,
            callback: CallbackId::new(105),
        },
        _ if climbs(number, value) => Change::Add {
            hook,
            priority: next_priority(value),
            callback: CallbackId::new(number),
            accepted: 1,
        },
        _ => return Ok(changes),
    };
    changes.push(change)?;
    Ok(changes)
}

/// Returns whether a callback adds itself at a larger priority.
fn climbs(number: u32, value: &str) -> bool
    ensures { result ≡ climbs number value.now }
{
    number == 107 || number == 104 && value.len() < 3
}

/// Returns 11 plus the length of the value, or the largest priority if that is smaller.
fn next_priority(value: &str) -> i32
    ensures { result ≡ next_priority value.now }
{
    if value.len() > 2_147_483_636 {
        return 2_147_483_647;
    }
    11 + value.len() as i32
}
