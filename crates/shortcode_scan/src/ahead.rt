//! What a scan has found ahead of its place, so that no part of the text is searched twice for the
//! same thing.
ghost use Rattle.std.specs.Prelude.{◌≡◌, ◌+◌, ◌<◌, ◌≤◌, ◌++◌, ◌∷◌, [], length, IsTrue, IfOk};
ghost use Rattle.std.specs.Prelude.{IfSome, OnOk};
ghost use Rattle.memchr.specs.Find.{occurs_at};
ghost use Rattle.shortcode_scan.specs.Places.{first_place};
ghost use Rattle.shortcode_scan.specs.Matches.{bracket_from, closing_tag};
ghost use Rattle.shortcode_scan.specs.Memory.{IsAheadOf, Knows, nothing_searched};

use crate::places::{bracket_from, closing_tag, tag_from};
use memchr::memmem::Finder;
use plain_data::TagName;
use std::alloc::{AllocError, Global};

/// The result of a search from a place on. Up to what it found, nothing has to be searched again.
#[derive(Clone, Copy)]
pub(crate) struct Lookahead {
    pub(crate) from: usize,
    pub(crate) next: Option<usize>,
}

/// The results of the searches of a scan.
#[derive(Drop)]
pub(crate) struct Memory {
    /// The next `]`.
    pub(crate) bracket: Lookahead,
    /// The searches for the closing tags of the names, in their order.
    pub(crate) tags: Vec<Finder<'static>>,
    /// For each name the next closing tag, or that there is none.
    pub(crate) closings: Vec<Lookahead>,
}

impl Lookahead {
    /// Returns what is known before any search: that nothing begins at the end of the text.
    fn unsearched(text: &[u8]) -> Lookahead
        ensures { result ≡ nothing_searched text.now }
    {
        Lookahead {
            from: text.len(),
            next: None,
        }
    }

    /// Returns whether it covers a search from the place on: that is not before `from`, nor after
    /// what was found.
    fn covers(&self, from: usize) -> bool
        ensures { IsTrue result → (self.now.from ≤ from) × IfSome self.now.next (λ k. from ≤ k) }
    {
        self.from <= from
            && match self.next {
                Some(k) => from <= k,
                None => true,
            }
    }
}

/// Finds the first `]` from a place on.
pub(crate) fn next_bracket(text: &[u8], ahead: &mut Lookahead, from: usize) -> Option<usize>
    requires in_text { from ≤ length text.now }
    requires known { ahead.old.next ≡ bracket_from text.now ahead.old.from }
    ensures value { result ≡ bracket_from text.now from }
    ensures within { IfSome result (λ k. (from ≤ k) × (k < length text.now)) }
    ensures known { ahead.new.next ≡ bracket_from text.now ahead.new.from }
{
    if ahead.covers(from) {
        return ahead.next;
    }
    *ahead = Lookahead {
        from,
        next: bracket_from(text, from),
    };
    ahead.next
}

/// Finds the first place of the tag from a place on.
pub(crate) fn next_closing(
    text: &[u8],
    tag: &Finder<'static>,
    ahead: &mut Lookahead,
    from: usize,
) -> Option<usize>
    requires in_text { from ≤ length text.now }
    requires some { 0 < length tag.now }
    requires known { IsAheadOf text.now tag.now ahead.old }
    ensures value { result ≡ first_place (occurs_at text.now tag.now) from (length text.now) }
    ensures within { IfSome result (λ k. (from ≤ k) × (k + length tag.now ≤ length text.now)) }
    ensures known { IsAheadOf text.now tag.now ahead.new }
{
    if ahead.covers(from) {
        return ahead.next;
    }
    *ahead = Lookahead {
        from,
        next: tag_from(text, tag, from),
    };
    ahead.next
}

/// Adds the search for the closing tag of a name. Nothing is searched yet.
fn push_search(
    alloc: Global,
    name: &[u8],
    text: &[u8],
    tags: &mut Vec<Finder<'static>>,
    closings: &mut Vec<Lookahead>,
) -> Result<(), AllocError>
    ensures tags { OnOk result (tags.new.items ≡ tags.old.items ++ closing_tag name.now ∷ []) }
    ensures closings { OnOk result (closings.new.items ≡ closings.old.items
        ++ nothing_searched text.now
        ∷ []) }
{
    tags.push(closing_tag(alloc, name)?)?;
    closings.push(Lookahead::unsearched(text))?;
    Ok(())
}

/// Returns what is known before the first search.
pub(crate) fn first_memory(
    alloc: Global,
    names: &[TagName],
    text: &[u8],
) -> Result<Memory, AllocError>
    ensures { IfOk result (Knows names.now text.now) }
{
    let mut tags = Vec::new(alloc);
    let mut closings = Vec::new(alloc);
    for name in names {
        let name = name.as_str().as_bytes();
        push_search(alloc, name, text, &mut tags, &mut closings)?;
    }
    Ok(Memory {
        bracket: Lookahead::unsearched(text),
        tags,
        closings,
    })
}
