//! Open pages over two callbacks on `the_title`. Each fails while its switch is on, as if memory
//! had run out, so the replies show at which line a callback is called.
use crate::climbing::first_argument;
use crate::replies::{Wanted, is_reply};
use callback_store::{Plugin, Plugins, Stated};
use hook_changes::{Call, CallbackId, Change, Listed, Reply, Text};
use site_program::{Refusal, Site};
use std::alloc::{AllocError, Global};
use std::cell::Cell;
use std::rc::Rc;

/// A callback that answers its first argument, unless its switch is on.
#[derive(Drop)]
struct Switched {
    number: u32,
    is_on: Rc<Cell<bool>>,
}

impl Stated for Switched {
    ghost use Rattle.test_limits.specs.Switched.{says};

    ghost says = { says };

    ghost number = { λ callback. callback.number };

    fn id(&self) -> CallbackId {
        CallbackId::new(self.number)
    }

    fn answer(&self, alloc: Global, call: &Call) -> Result<Reply, AllocError> {
        if self.is_on.get() {
            return Err(AllocError);
        }
        Ok(Reply::answer(alloc, Text::copied(alloc, first_argument(call))?))
    }
}

fn addition(alloc: Global, number: u32) -> Result<Change, AllocError> {
    Ok(Change::Add {
        hook: Text::copied(alloc, "the_title")?,
        priority: 10,
        callback: CallbackId::new(number),
        accepted: 1,
    })
}

/// Makes one plugin of two callbacks, numbered 101 and 102.
fn listed(
    alloc: Global,
    first: Rc<Cell<bool>>,
    second: Rc<Cell<bool>>,
) -> Result<Listed<Plugin<Switched>>, AllocError> {
    let mut load = Listed::empty(alloc);
    load.push(addition(alloc, 101)?)?;
    load.push(addition(alloc, 102)?)?;
    let mut callbacks = Listed::empty(alloc);
    callbacks.push(Switched {
        number: 101,
        is_on: first,
    })?;
    callbacks.push(Switched {
        number: 102,
        is_on: second,
    })?;
    let mut list = Listed::empty(alloc);
    list.push(Plugin {
        name: Text::copied(alloc, "switched")?,
        load,
        callbacks,
    })?;
    Ok(list)
}

const ACTIVATE: &[u8] = br#"{"cmd":"activate","plugin":"switched"}"#;

const PUT: &[u8] = br#"{"cmd":"put","title":"T","date":"2024-05-01 10:00:00"}"#;

const BEGIN: &[u8] = br#"{"cmd":"begin","path":"/"}"#;

const ONE_TURN: &[u8] = br#"{"cmd":"turns","page":1,"count":1}"#;

const ALL_TURNS: &[u8] = br#"{"cmd":"turns","page":1,"count":100}"#;

const SHOWN: Wanted = Wanted::Page(200, "<h2>T</h2>");

/// Lines with their replies, each after whether the switch of the first and of the second callback
/// is then on.
type Exchange = (bool, bool, &'static [u8], Wanted);

/// No callback is called at `begin`.
static AT_BEGIN: [Exchange; 4] = [
    (false, false, ACTIVATE, Wanted::Ok),
    (false, false, PUT, Wanted::Id(1)),
    (true, true, BEGIN, Wanted::Id(1)),
    (false, false, ALL_TURNS, SHOWN),
];

/// The second callback is called in the second turn, and not before. The page at which memory runs
/// out is closed.
static IN_THE_SECOND_TURN: [Exchange; 6] = [
    (false, false, ACTIVATE, Wanted::Ok),
    (false, false, PUT, Wanted::Id(1)),
    (false, false, BEGIN, Wanted::Id(1)),
    (false, true, ONE_TURN, Wanted::Ok),
    (false, true, ONE_TURN, Wanted::No(Refusal::OutOfMemory)),
    (false, false, ONE_TURN, Wanted::No(Refusal::NoSuchPage)),
];

/// The first callback is called in the first turn, and not again.
static ONCE: [Exchange; 5] = [
    (false, false, ACTIVATE, Wanted::Ok),
    (false, false, PUT, Wanted::Id(1)),
    (false, false, BEGIN, Wanted::Id(1)),
    (false, false, ONE_TURN, Wanted::Ok),
    (true, false, ALL_TURNS, SHOWN),
];

/// Returns whether a new site gives the expected replies.
fn passes(alloc: Global, exchanges: &[Exchange]) -> Result<bool, AllocError> {
    let first = Rc::new(alloc, Cell::new(false))?;
    let second = Rc::new(alloc, Cell::new(false))?;
    let list = listed(alloc, first.clone()?, second.clone()?)?;
    let Ok(plugins) = Plugins::new(alloc, list) else {
        return Ok(false);
    };
    let Ok(mut site) = Site::new(alloc, &plugins, 10_000, 1) else {
        return Ok(false);
    };
    for (first_is_on, second_is_on, line, wanted) in exchanges {
        first.set(*first_is_on);
        second.set(*second_is_on);
        if !is_reply(&site.command(line), *wanted) {
            return Ok(false);
        }
    }
    Ok(true)
}

#[test]
fn each_callback_is_called_in_its_turn(rt: HostRuntime) {
    let alloc = rt.alloc();
    assert!(rt; passes(alloc, &AT_BEGIN) == Ok(true));
    assert!(rt; passes(alloc, &IN_THE_SECOND_TURN) == Ok(true));
    assert!(rt; passes(alloc, &ONCE) == Ok(true));
}
