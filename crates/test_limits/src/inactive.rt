//! Sites over two bundles that differ in `bold` alone, whose callback 17 is the program's own in
//! the one, and answers `!` in the other. While `bold` isn't active no page tells the one bundle
//! from the other, not even if another plugin registers that callback.
ghost use Rattle.std.specs.Prelude.{◌≡◌, IfOk, map};
ghost use Rattle.test_limits.specs.Inactive.{says};

use crate::replies::{Wanted, is_reply};
use bundled_plugins::{NUMBERS, bundle, bundled_reply};
use callback_store::{Plugin, Plugins, Stated};
use hook_changes::{Call, CallbackId, Change, Listed, Reply, Text};
use site_program::Site;
use std::alloc::{AllocError, Global};

/// A callback of the program's bundle, unless it is the one with the number `CHANGED`, which
/// answers `!`.
#[derive(Clone, Copy)]
struct Bundled<const CHANGED: u32> {
    id: CallbackId,
}

impl<const CHANGED: u32> Stated for Bundled<CHANGED> {
    ghost says = { says CHANGED };

    ghost number = { λ callback. callback.id };

    fn id(&self) -> CallbackId {
        self.id
    }

    #[tactic(auto, unfolding(crate::specs::Inactive::says))]
    fn answer(&self, alloc: Global, call: &Call) -> Result<Reply, AllocError> {
        if self.id.number() == CHANGED {
            return Ok(Reply::answer(alloc, Text::copied(alloc, "!")?));
        }
        bundled_reply(alloc, self.id, call)
    }
}

fn callbacks<const CHANGED: u32>(
    alloc: Global,
    numbers: &[u32],
) -> Result<Listed<Bundled<CHANGED>>, AllocError>
    ensures { IfOk result (λ callbacks. map (λ callback. callback.id) callbacks ≡ numbers.now) }
{
    let mut callbacks = Listed::empty(alloc);
    for number in numbers {
        let id = CallbackId::new(*number);
        callbacks.push(Bundled { id })?;
    }
    Ok(callbacks)
}

/// Makes the plugin `borrow`, which has no callback of its own and registers number 17 on
/// `the_title`.
fn borrow<S>(alloc: Global) -> Result<Plugin<S>, AllocError> {
    let mut load = Listed::empty(alloc);
    load.push(Change::Add {
        hook: Text::copied(alloc, "the_title")?,
        priority: 10,
        callback: CallbackId::new(17),
        accepted: 1,
    })?;
    Ok(Plugin {
        name: Text::copied(alloc, "borrow")?,
        load,
        callbacks: Listed::empty(alloc),
    })
}

fn listed<const CHANGED: u32>(
    alloc: Global,
    has_borrow: bool,
) -> Result<Listed<Plugin<Bundled<CHANGED>>>, AllocError> {
    let mut list = bundle(alloc, callbacks(alloc, &NUMBERS)?)?;
    if has_borrow {
        list.push(borrow(alloc)?)?;
    }
    Ok(list)
}

/// A line with its reply.
type Exchange = (&'static [u8], Wanted);

const MARKS: Exchange = (br#"{"cmd":"activate","plugin":"marks"}"#, Wanted::Ok);

const BORROW: Exchange = (br#"{"cmd":"activate","plugin":"borrow"}"#, Wanted::Ok);

const BOLD: Exchange = (br#"{"cmd":"activate","plugin":"bold"}"#, Wanted::Ok);

const NO_BOLD: Exchange = (br#"{"cmd":"deactivate","plugin":"bold"}"#, Wanted::Ok);

const POST: Exchange = (
    br#"{"cmd":"put","title":"T","content":"[b]x[/b]","date":"2024-05-01 10:00:00"}"#,
    Wanted::Id(1),
);

const EMPTY_POST: Exchange = (
    br#"{"cmd":"put","title":"T","date":"2024-05-01 10:00:00"}"#,
    Wanted::Id(1),
);

const GET: &[u8] = br#"{"cmd":"get","path":"/"}"#;

const BEGIN: Exchange = (br#"{"cmd":"begin","path":"/"}"#, Wanted::Id(1));

const ONE_TURN: &[u8] = br#"{"cmd":"turns","page":1,"count":1}"#;

const ALL_TURNS: &[u8] = br#"{"cmd":"turns","page":1,"count":100}"#;

/// The post's page without `bold`, and with it over each of the bundles.
const PLAIN_PAGE: Wanted = Wanted::Page(200, "<h2>TX1Y</h2>[b]x[/b]");

const BOLD_PAGE: Wanted = Wanted::Page(200, "<h2>TX1Y</h2><b>x</b>");

const CHANGED_PAGE: Wanted = Wanted::Page(200, "<h2>TX1Y</h2>!");

/// A page that is begun without `bold` has as many turns and the same bytes over both bundles,
/// although `bold` is activated after its first turn: the two callbacks of `marks`, core's own, and
/// the last turn.
static WITHOUT: [Exchange; 9] = [
    MARKS,
    POST,
    (GET, PLAIN_PAGE),
    BEGIN,
    (ONE_TURN, Wanted::Ok),
    BOLD,
    (ONE_TURN, Wanted::Ok),
    (ONE_TURN, Wanted::Ok),
    (ONE_TURN, PLAIN_PAGE),
];

/// With `bold` the bundles differ: in a page, and in one that is begun with it and given its turns
/// without it.
static WITH: [Exchange; 9] = [
    MARKS,
    POST,
    (GET, PLAIN_PAGE),
    BOLD,
    (GET, BOLD_PAGE),
    BEGIN,
    NO_BOLD,
    (ALL_TURNS, BOLD_PAGE),
    (GET, PLAIN_PAGE),
];

static WITH_CHANGED: [Exchange; 9] = [
    MARKS,
    POST,
    (GET, PLAIN_PAGE),
    BOLD,
    (GET, CHANGED_PAGE),
    BEGIN,
    NO_BOLD,
    (ALL_TURNS, CHANGED_PAGE),
    (GET, PLAIN_PAGE),
];

/// The page of a post without content.
const TITLE: Wanted = Wanted::Page(200, "<h2>T</h2>");

/// `borrow` registers callback 17 only in pages that are begun while `bold` is active too.
static BORROWED: [Exchange; 8] = [
    BORROW,
    EMPTY_POST,
    (GET, TITLE),
    BEGIN,
    BOLD,
    (ONE_TURN, Wanted::Ok),
    (ONE_TURN, TITLE),
    (GET, Wanted::Page(200, "<h2><b></b></h2>")),
];

static BORROWED_CHANGED: [Exchange; 8] = [
    BORROW,
    EMPTY_POST,
    (GET, TITLE),
    BEGIN,
    BOLD,
    (ONE_TURN, Wanted::Ok),
    (ONE_TURN, TITLE),
    (GET, Wanted::Page(200, "<h2>!</h2>")),
];

/// The load list of `borrow` isn't carried out while it isn't active, although the callback in it
/// is an active one.
static NOT_LOADED: [Exchange; 3] = [BOLD, EMPTY_POST, (GET, TITLE)];

/// Returns whether a new site over the bundle in which that callback is changed, with `borrow` or
/// without it, gives the expected replies.
fn passes<const CHANGED: u32>(alloc: Global, has_borrow: bool, lines: &[Exchange]) -> bool {
    let Ok(list) = listed::<CHANGED>(alloc, has_borrow) else {
        return false;
    };
    let Ok(plugins) = Plugins::new(alloc, list) else {
        return false;
    };
    let Ok(mut site) = Site::new(alloc, &plugins, 10_000, 1) else {
        return false;
    };
    for (line, wanted) in lines {
        if !is_reply(&site.command(line), *wanted) {
            return false;
        }
    }
    true
}

#[test]
fn an_inactive_plugin_changes_no_page(rt: HostRuntime) {
    let alloc = rt.alloc();
    for has_borrow in [false, true] {
        assert!(rt; passes::<0>(alloc, has_borrow, &WITHOUT));
        assert!(rt; passes::<17>(alloc, has_borrow, &WITHOUT));
        assert!(rt; passes::<0>(alloc, has_borrow, &WITH));
        assert!(rt; passes::<17>(alloc, has_borrow, &WITH_CHANGED));
    }
}

#[test]
fn no_plugin_registers_a_callback_of_an_inactive_one(rt: HostRuntime) {
    let alloc = rt.alloc();
    assert!(rt; passes::<0>(alloc, true, &BORROWED));
    assert!(rt; passes::<17>(alloc, true, &BORROWED_CHANGED));
    assert!(rt; passes::<0>(alloc, true, &NOT_LOADED));
    assert!(rt; passes::<17>(alloc, true, &NOT_LOADED));
}
