//! Pages whose callbacks need more and more calls, or run out of memory.
use crate::replies::Wanted;
use crate::sites::{Trial, passes};
use site_program::Refusal;

const PUT: (&[u8], Wanted) = (
    br#"{"cmd":"put","title":"","date":"2024-05-01 10:00:00"}"#,
    Wanted::Id(1),
);

const PAGE: &[u8] = br#"{"cmd":"get","path":"/"}"#;

const TOO_MANY: (&[u8], Wanted) = (PAGE, Wanted::No(Refusal::TooManyCalls));

const NO_MEMORY: (&[u8], Wanted) = (PAGE, Wanted::No(Refusal::OutOfMemory));

/// A page without plugins.
const PLAIN: (&[u8], Wanted) = (PAGE, Wanted::Page(200, "<h2></h2>"));

const CLIMB: (&[u8], Wanted) = (br#"{"cmd":"activate","plugin":"climb"}"#, Wanted::Ok);

const CLIMB_ON: (&[u8], Wanted) = (br#"{"cmd":"activate","plugin":"climb-on"}"#, Wanted::Ok);

/// Four calls of the callback, and core's own.
static ENOUGH: [(&[u8], Wanted); 3] = [PUT, CLIMB, (PAGE, Wanted::Page(200, "<h2>xxxx</h2>"))];

static ONE_TOO_FEW: [(&[u8], Wanted); 3] = [PUT, CLIMB, TOO_MANY];

static NEVER_ENOUGH: [(&[u8], Wanted); 3] = [PUT, CLIMB_ON, TOO_MANY];

/// A callback that fails as if memory had run out: each page is refused until its plugin is
/// inactive.
static FAILS: [(&[u8], Wanted); 7] = [
    PUT,
    PLAIN,
    (br#"{"cmd":"activate","plugin":"fail"}"#, Wanted::Ok),
    NO_MEMORY,
    NO_MEMORY,
    (br#"{"cmd":"deactivate","plugin":"fail"}"#, Wanted::Ok),
    PLAIN,
];

#[test]
fn calls_are_counted(rt: HostRuntime) {
    let alloc = rt.alloc();
    assert!(rt; passes(alloc, 5, 0, Trial::Replies(&ENOUGH)));
    assert!(rt; passes(alloc, 4, 0, Trial::Replies(&ONE_TOO_FEW)));
    for calls in [5, 1000] {
        assert!(rt; passes(alloc, calls, 0, Trial::Replies(&NEVER_ENOUGH)));
    }
}

#[test]
fn a_callback_without_memory_refuses_its_page_alone(rt: HostRuntime) {
    assert!(rt; passes(rt.alloc(), 10_000, 0, Trial::Replies(&FAILS)));
}
