//! Shortcodes in a text: which names it opens, and the pieces that the shortcodes cut it into.
//!
//! A shortcode is `[name attributes]`, `[name attributes/]` or `[name attributes]content[/name]`
//! (Shortcode API). The pieces of a text are found leftmost first, in one pass, and no part of it
//! is searched twice for the same thing.
#![tactic(auto)]

ghost use Rattle.std.specs.Prelude.{◌≡◌, ◌≢◌, ◌<◌, ◌↔◌, ℕ, List, [], length, slice_index};
ghost use Rattle.std.specs.Prelude.{slice_range};
ghost use Rattle.std.specs.Prelude.{AllPairs, IfOk, IsTrue};
ghost use Rattle.std.specs.List.{AllByRecursion};
ghost use Rattle.plain_data.specs.Names.{is_tag_name};
ghost use Rattle.shortcode_scan.specs.Spans.{IsSpanOf, HasSpansOf};
ghost use Rattle.shortcode_scan.specs.Pieces.{IsPieces, pieces_of, plain_between, pieces_text};
ghost use Rattle.shortcode_scan.specs.Live.{is_live, live, AreSameNames};
ghost use Rattle.shortcode_scan.specs.Opened.{is_among};

use live_names::{live_few, live_many, opened};
use places::{bracket_from, opening_from};
use plain_data::TagName;
use std::alloc::{AllocError, Global};

mod ahead;
mod live_names;
mod matches;
mod places;

/// A part of a text, from `start` up to but not including `end`, in bytes counted from 0.
#[derive(Clone, Copy, PartialEq, Eq)]
pub struct Span {
    pub start: usize,
    pub end: usize,
}

/// A piece of a text: plain text, or a shortcode (Shortcode API, get_shortcode_regex).
#[derive(Clone, Copy, PartialEq, Eq)]
pub enum Piece {
    /// Text in which no shortcode begins.
    Plain(Span),
    /// A shortcode.
    Match {
        /// All of it, with its extra brackets.
        whole: Span,
        /// The name in its opening tag.
        name: Span,
        /// The attribute text: what lies between the name and the end of the opening tag.
        atts: Span,
        /// The text up to the closing tag. If there is no closing tag, an empty span at the end of
        /// the shortcode, before a closing extra.
        content: Span,
        /// Whether there is a second `[` before the name.
        opening_extra: bool,
        /// Whether there is a further `]` at its end.
        closing_extra: bool,
    },
}

/// The maximum number of names that are searched for one by one. For a few names that is faster
/// than collecting all that a text opens.
const FEW_NAMES: usize = 8;

/// Returns whether no `[` of the text has a `]` after it. No shortcode ends in such a text, so it
/// is one plain piece, whatever names there are.
pub fn is_plain(text: &str) -> bool
    ensures brackets { IsTrue result
        ↔ ((i : ℕ) (j : ℕ) → i < j → slice_index text.now i ≡ 91 → slice_index text.now j ≢ 93) }
    ensures whole { IsTrue result → (names : List (List ℕ))
        → pieces_of names text.now ≡ plain_between 0 (length text.now) }
{
    let text = text.as_bytes();
    match opening_from(text, 0) {
        Some(open) => bracket_from(text, open).is_none(),
        None => true,
    }
}

/// Returns whether the text has no `[`. Such a text opens no name.
fn opens_nothing(text: &str) -> bool
    ensures { IsTrue result → (names : List (List ℕ)) → live names text.now ≡ [] }
{
    opening_from(text.as_bytes(), 0).is_none()
}

/// Finds the names that the text opens, in the order of `names`: those that occur in it as `[` and
/// the name, followed by the end or by one of `<`, `>`, `&`, `/`, `[`, `]`, `=` and the bytes up to
/// the space (Shortcode API, do_shortcode).
///
/// It fails only if memory runs out.
pub fn live(alloc: Global, names: &[TagName], text: &str) -> Result<Vec<TagName>, AllocError>
    ensures { IfOk result (λ found. found.items ≡ live names.now text.now) }
{
    if opens_nothing(text) {
        return Ok(Vec::new(alloc));
    }
    if names.len() <= FEW_NAMES {
        live_few(alloc, names, text.as_bytes())
    } else {
        live_many(alloc, names, text)
    }
}

/// Finds all names that the text opens in the sense of [`live`], each once, in the order in which
/// it first opens them, whether or not there are shortcodes of these names. Goes through the text
/// once.
///
/// It fails only if memory runs out.
pub fn opened_names(alloc: Global, text: &str) -> Result<Vec<&str>, AllocError>
    ensures opened { IfOk result (λ names. (name : List ℕ) → IsTrue (is_tag_name name)
        → is_among name names.items ≡ is_live text.now name) }
    ensures once { IfOk result (λ names. AllPairs (λ a b. a.now ≢ b.now) names.items) }
{
    let names = opened(alloc, text)?;
    Vec::from_slice(alloc, names.as_slice())
}

/// Returns the pieces of the text, with `live` as the names that count (Shortcode API,
/// get_shortcode_regex): from its first byte to its last, leftmost shortcode first, none within
/// another.
///
/// It fails only if memory runs out.
pub fn pieces(alloc: Global, live: &[TagName], text: &str) -> Result<Vec<Piece>, AllocError>
    ensures pieces { IfOk result (λ pieces. IsPieces live.now text.now pieces.items) }
    ensures value { IfOk result (λ pieces. pieces.items ≡ pieces_of live.now text.now) }
    ensures spans { IfOk result (λ pieces. AllByRecursion (HasSpansOf text.now) pieces.items) }
{
    let pieces = matches::cut(alloc, live, text.as_bytes())?;
    Ok(pieces)
}

/// Returns the part of the text at a span. The span begins and ends between two characters of the
/// text, as each span of its pieces does.
pub fn text_at(text: &str, span: Span) -> &str
    requires { IsSpanOf text.now span }
    ensures { result.now ≡ slice_range text.now span.start span.end }
{
    &text[span.start..span.end]
}

/// A law: a text has exactly one list of pieces.
pub fn one_cut()
    ensures pieces { (names : List (List ℕ)) (text : List ℕ)
        → IsPieces names text (pieces_of names text) }
    ensures only { (names : List (List ℕ)) (text : List ℕ) (pieces : List Piece)
        → IsPieces names text pieces → pieces ≡ pieces_of names text }
{}

/// A law: how names cut a text depends neither on their order nor on how often each of them is
/// given.
pub fn names_cut_alike()
    ensures { (names : List (List ℕ)) (others : List (List ℕ)) (text : List ℕ)
        → AreSameNames names others → pieces_of names text ≡ pieces_of others text }
{}

/// A law: the pieces of a text, joined, are the text.
pub fn pieces_join()
    ensures { (names : List (List ℕ)) (text : List ℕ) (pieces : List Piece)
        → IsPieces names text pieces → pieces_text text pieces ≡ text }
{}
