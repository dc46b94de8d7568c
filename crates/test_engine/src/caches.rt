//! The cache of pieces: how many texts it keeps, and that no answer shows what it keeps.
use crate::runs::{Setting, Step, are_answered};
use content_cache::PieceCache;
use hook_changes::TagName;
use shortcode_scan::Piece;
use std::alloc::Global;

/// Whether `b` is a live name, the text that is looked up, whether all of it is one shortcode, and
/// how many texts are kept after it.
struct LookUp(bool, &'static str, bool, usize);

/// The capacity of a cache, and what is looked up in it in turn.
struct Case(usize, &'static [LookUp]);

static CACHES: [Case; 3] = [
    // What is kept for other names isn't returned. Without a name nothing is kept.
    Case(
        1,
        &[
            LookUp(false, "[b]", false, 0),
            LookUp(true, "[b]", true, 1),
            LookUp(false, "[b]", false, 1),
            LookUp(true, "[b]", true, 1),
        ],
    ),
    // A text that was looked up before is kept once.
    Case(
        4,
        &[
            LookUp(true, "x", false, 1),
            LookUp(true, "y", false, 2),
            LookUp(true, "x", false, 2),
        ],
    ),
    // No more are kept than the capacity.
    Case(
        1,
        &[
            LookUp(true, "x", false, 1),
            LookUp(true, "y", false, 1),
            LookUp(true, "x", false, 1),
        ],
    ),
];

fn is_one_match(pieces: &[Piece]) -> bool {
    match pieces {
        [Piece::Match { .. }] => true,
        _ => false,
    }
}

fn is_looked_up(cache: &mut PieceCache, names: &[TagName], look_up: &LookUp) -> bool {
    let live = if look_up.0 { names } else { &[] };
    match cache.pieces(live, look_up.1) {
        Ok(pieces) => is_one_match(pieces.as_slice()) == look_up.2 && cache.kept() == look_up.3,
        Err(_) => false,
    }
}

fn are_looked_up(alloc: Global, case: &Case) -> bool {
    if case.0 < 1 || case.0 > 4096 {
        return false;
    }
    let Ok(name) = TagName::read(alloc, "b") else {
        return false;
    };
    match PieceCache::new(alloc, case.0) {
        Ok(mut cache) => are_looked_up_in(&mut cache, &[name], case.1),
        Err(_) => false,
    }
}

fn are_looked_up_in(cache: &mut PieceCache, names: &[TagName], look_ups: &[LookUp]) -> bool {
    for look_up in look_ups {
        if !is_looked_up(cache, names, look_up) {
            return false;
        }
    }
    true
}

#[test]
fn caches_keep_texts(rt: HostRuntime) {
    for case in &CACHES {
        assert!(rt; are_looked_up(rt.alloc(), case));
    }
}

#[test]
fn a_run_keeps_the_text_of_a_pass(rt: HostRuntime) {
    let steps = [Step::Replaces("[b]x[/b]", Ok("<b>x</b>")), Step::Keeps(1)];
    assert!(rt; are_answered(rt.alloc(), &Setting(true, &[], &["bold"], 10_000), &steps));
}
