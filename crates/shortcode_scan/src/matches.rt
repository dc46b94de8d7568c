//! The shortcodes of a text, leftmost first.
ghost use Rattle.std.specs.Prelude.{◌≡◌, ◌+◌, ◌<◌, ◌≤◌, ◌++◌, [], true, false, None};
ghost use Rattle.std.specs.Prelude.{Some, bytes_eq, length, slice_index_or, slice_range, IfNone};
ghost use Rattle.std.specs.Prelude.{IfOk, IfSome, OnOk};
ghost use Rattle.std.specs.List.{list_any, prefix_len};
ghost use Rattle.plain_data.specs.NameByte.{is_name_byte};
ghost use Rattle.shortcode_scan.specs.Memory.{IsAheadOf, IsNamed, Knows};
ghost use Rattle.shortcode_scan.specs.Matches.{closing_tag, core_of, match_at, name_at, name_start};
ghost use Rattle.shortcode_scan.specs.Matches.{with_extras};
ghost use Rattle.shortcode_scan.specs.Pieces.{end_of, plain_between, start_of, IsPieces, NoMatch};

use crate::ahead::{Lookahead, Memory, first_memory, next_bracket, next_closing};
use crate::places::{has_byte_at, opening_from};
use crate::{Piece, Span};
use memchr::memmem::Finder;
use plain_data::{TagName, is_name_byte};
use std::alloc::{AllocError, Global};

/// A match without its optional outer brackets.
#[derive(Clone, Copy)]
struct Core {
    atts: Span,
    content: Span,
    end: usize,
}

/// A match, and where it begins and ends.
#[derive(Clone, Copy)]
struct FoundMatch {
    start: usize,
    end: usize,
    piece: Piece,
}

/// Finds where the name of a match at a place would begin.
#[tactic(auto, unfolding(crate::specs::Matches::name_start))]
fn name_start(text: &[u8], at: usize) -> Option<usize>
    ensures value { result ≡ name_start text.now at }
    ensures within { IfSome result (λ start. (at < start) × (start ≤ length text.now)) }
{
    if !has_byte_at(text, at, b'[') {
        return None;
    }
    if has_byte_at(text, at + 1, b'[') {
        Some(at + 2)
    } else {
        Some(at + 1)
    }
}

/// A live name in the text: which one it is, and where it ends.
#[derive(Clone, Copy)]
struct Name {
    index: usize,
    end: usize,
}

/// Finds the live name at a place, if there is one.
#[tactic(auto, unfolding(crate::specs::Matches::name_at))]
fn name_at(names: &[TagName], text: &[u8], start: usize) -> Option<Name>
    requires in_text { start ≤ length text.now }
    requires named { IsNamed names.now }
    ensures none { IfNone result (name_at names.now text.now start ≡ None) }
    ensures some { IfSome result (λ name.
        name_at names.now text.now start ≡ Some (slice_range text.now start name.end)) }
    ensures index { IfSome result (λ name. (name.index < length names.now)
        × (slice_range text.now start name.end ≡ slice_index_or names.now name.index [])) }
    ensures within { IfSome result (λ name. (start ≤ name.end) × (name.end ≤ length text.now)) }
{
    let rest = &text[start..];
    let len = name_len(rest);
    if len == 0 {
        return None;
    }
    let index = index_of(names, &rest[..len])?;
    Some(Name {
        index,
        end: start + len,
    })
}

/// Counts the bytes of names at the front.
pub(crate) fn name_len(rest: &[u8]) -> usize
    ensures value { result ≡ prefix_len is_name_byte rest.now }
    ensures within { result ≤ length rest.now }
{
    rest.iter().take_while(|b| is_name_byte(**b)).count()
}

/// Returns the index of the first of the names that is the run, if one is.
fn index_of(names: &[TagName], run: &[u8]) -> Option<usize>
    ensures none { IfNone result (list_any (λ n. bytes_eq n run.now) names.now ≡ false) }
    ensures some { IfSome result (λ k. list_any (λ n. bytes_eq n run.now) names.now ≡ true) }
    ensures index { IfSome result (λ k.
        (k < length names.now) × (run.now ≡ slice_index_or names.now k [])) }
{
    for (k, name) in names.iter().enumerate() {
        if name.as_str().as_bytes() == run {
            return Some(k);
        }
    }
    None
}

/// Finds what follows the end of a name, if the first `]` from there on is at `bracket`.
#[tactic(auto, unfolding(crate::specs::Matches::core_of))]
fn core_of(
    text: &[u8],
    name: &[u8],
    tag: &Finder<'static>,
    ahead: &mut Lookahead,
    name_end: usize,
    bracket: usize,
) -> Core
    requires after_name { name_end ≤ bracket }
    requires in_text { bracket < length text.now }
    requires tag { tag.now ≡ closing_tag name.now }
    requires known { IsAheadOf text.now tag.now ahead.old }
    ensures value { result ≡ core_of text.now name.now name_end bracket }
    ensures within { (bracket < result.end) × (result.end ≤ length text.now) }
    ensures known { IsAheadOf text.now tag.now ahead.new }
{
    let end = bracket + 1;
    if name_end < bracket && text[bracket - 1] == b'/' {
        let atts = Span {
            start: name_end,
            end: bracket - 1,
        };
        let content = Span { start: end, end };
        return Core { atts, content, end };
    }
    let atts = Span {
        start: name_end,
        end: bracket,
    };
    match next_closing(text, tag, ahead, end) {
        Some(closing) => Core {
            atts,
            content: Span {
                start: end,
                end: closing,
            },
            end: closing + name.len() + 3,
        },
        None => Core {
            atts,
            content: Span { start: end, end },
            end,
        },
    }
}

/// Finds what follows the end of a live name, if the first `]` from there on is at `bracket`.
fn core_named(
    names: &[TagName],
    text: &[u8],
    memory: &mut Memory,
    name: Name,
    bracket: usize,
) -> Core
    requires live { name.index < length names.now }
    requires after_name { name.end ≤ bracket }
    requires in_text { bracket < length text.now }
    requires known { Knows names.now text.now memory.old }
    ensures value { result ≡ core_of text.now (slice_index_or names.now name.index []) name.end
        bracket }
    ensures within { (bracket < result.end) × (result.end ≤ length text.now) }
    ensures known { Knows names.now text.now memory.new }
{
    let run = names[name.index].as_str().as_bytes();
    let tag = &memory.tags[name.index];
    let mut ahead = memory.closings[name.index];
    let core = core_of(text, run, tag, &mut ahead, name.end, bracket);
    memory.closings[name.index] = ahead;
    core
}

/// Makes the match at a place with this core.
#[tactic(auto, unfolding(crate::specs::Matches::with_extras))]
fn with_extras(text: &[u8], start: usize, name: Span, core: Core) -> FoundMatch
    requires { (start < core.end) × (core.end ≤ length text.now) }
    ensures piece { result.piece ≡ with_extras text.now start name core }
    ensures start { (result.start ≡ start) × (start_of result.piece ≡ start) }
    ensures end { end_of result.piece ≡ result.end }
    ensures within { (start < result.end) × (result.end ≤ length text.now) }
{
    let closing_extra = has_byte_at(text, core.end, b']');
    let opening_extra = has_byte_at(text, start + 1, b'[');
    let end = if closing_extra {
        core.end + 1
    } else {
        core.end
    };
    let piece = Piece::Match {
        whole: Span { start, end },
        name,
        atts: core.atts,
        content: core.content,
        opening_extra,
        closing_extra,
    };
    FoundMatch { start, end, piece }
}

/// Finds the match at a place, if there is one.
#[tactic(auto, unfolding(crate::specs::Matches::match_at))]
fn match_at(names: &[TagName], text: &[u8], memory: &mut Memory, at: usize) -> Option<FoundMatch>
    requires { Knows names.now text.now memory.old }
    ensures none { IfNone result (match_at names.now text.now at ≡ None) }
    ensures some { IfSome result (λ found. match_at names.now text.now at ≡ Some found.piece) }
    ensures start { IfSome result (λ found. (found.start ≡ at) × (start_of found.piece ≡ at)) }
    ensures end { IfSome result (λ found. end_of found.piece ≡ found.end) }
    ensures within { IfSome result (λ found. (at < found.end) × (found.end ≤ length text.now)) }
    ensures known { Knows names.now text.now memory.new }
{
    let start = name_start(text, at)?;
    let name = name_at(names, text, start)?;
    let end = name.end;
    let bracket = next_bracket(text, &mut memory.bracket, end)?;
    let core = core_named(names, text, memory, name, bracket);
    Some(with_extras(text, at, Span { start, end }, core))
}

/// Finds the first match from a place on. If there is no `]` ahead, no shortcode ends, and the
/// search is over.
fn next_match(
    names: &[TagName],
    text: &[u8],
    memory: &mut Memory,
    from: usize,
) -> Option<FoundMatch>
    requires in_text { from ≤ length text.now }
    requires known { Knows names.now text.now memory.old }
    ensures none { IfNone result (NoMatch names.now text.now from (length text.now)) }
    ensures some { IfSome result (λ found. match_at names.now text.now found.start
        ≡ Some found.piece) }
    ensures before { IfSome result (λ found. NoMatch names.now text.now from found.start) }
    ensures end { IfSome result (λ found. end_of found.piece ≡ found.end) }
    ensures within { IfSome result (λ found.
        (from ≤ found.start) × (found.start < found.end) × (found.end ≤ length text.now)) }
    ensures known { Knows names.now text.now memory.new }
{
    let mut at = from;
    'search: while let Some(open) = opening_from(text, at) {
        next_bracket(text, &mut memory.bracket, open)?;
        if let Some(found) = match_at(names, text, memory, open) {
            return Some(found);
        }
        at = open + 1;
    }
    None
}

/// Adds a plain piece, unless it is empty.
fn push_plain(pieces: &mut Vec<Piece>, start: usize, end: usize) -> Result<(), AllocError>
    ensures { OnOk result (pieces.new.items ≡ pieces.old.items ++ plain_between start end) }
{
    if start < end {
        pieces.push(Piece::Plain(Span { start, end }))?;
    }
    Ok(())
}

/// Returns the pieces of a text, whose bytes these are.
pub(crate) fn cut(alloc: Global, live: &[TagName], bytes: &[u8]) -> Result<Vec<Piece>, AllocError>
    ensures { IfOk result (λ pieces. IsPieces live.now bytes.now pieces.items) }
{
    let mut pieces = Vec::new(alloc);
    if live.is_empty() {
        push_plain(&mut pieces, 0, bytes.len())?;
        return Ok(pieces);
    }
    let mut memory = first_memory(alloc, live, bytes)?;
    push_pieces(live, bytes, &mut memory, &mut pieces)?;
    Ok(pieces)
}

/// Adds the pieces of a text to a list that has none yet.
fn push_pieces(
    live: &[TagName],
    bytes: &[u8],
    memory: &mut Memory,
    pieces: &mut Vec<Piece>,
) -> Result<(), AllocError>
    requires known { Knows live.now bytes.now memory.old }
    requires none { pieces.old.items ≡ [] }
    ensures { OnOk result (IsPieces live.now bytes.now pieces.new.items) }
{
    let mut at = 0;
    'pieces: while let Some(found) = next_match(live, bytes, memory, at) {
        push_plain(pieces, at, found.start)?;
        pieces.push(found.piece)?;
        at = found.end;
    }
    push_plain(pieces, at, bytes.len())
}
