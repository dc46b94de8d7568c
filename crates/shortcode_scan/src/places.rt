//! The first places of bytes and of tags in a text.
ghost use Rattle.std.specs.Prelude.{◌≡◌, ◌+◌, ◌<◌, ◌≤◌, ◌==◌, length, slice_index, IsTrue, IfOk};
ghost use Rattle.std.specs.Prelude.{IfSome};
ghost use Rattle.memchr.specs.Find.{occurs_at};
ghost use Rattle.shortcode_scan.specs.Places.{first_place};
ghost use Rattle.shortcode_scan.specs.Matches.{bracket_from, closing_tag};
ghost use Rattle.shortcode_scan.specs.Live.{opening_of};

use memchr::memchr;
use memchr::memmem::{Finder, FinderBuilder};
use std::alloc::{AllocError, Global};

/// Returns whether the text has this byte, which is not 0, at a place.
pub(crate) fn has_byte_at(text: &[u8], at: usize, byte: u8) -> bool
    requires { 0 < byte }
    ensures value { result ≡ (slice_index text.now at == byte) }
    ensures within { IsTrue result → at < length text.now }
{
    at < text.len() && text[at] == byte
}

/// Finds the first place of a byte in the text, from a place on.
fn byte_from(text: &[u8], byte: u8, from: usize) -> Option<usize>
    requires { from ≤ length text.now }
    ensures value { result ≡ first_place (λ k. slice_index text.now k == byte) from
        (length text.now) }
    ensures within { IfSome result (λ k. (from ≤ k) × (k < length text.now)) }
{
    match memchr(byte, &text[from..]) {
        Some(k) => Some(from + k),
        None => None,
    }
}

/// Finds the first `[` in the text, from a place on.
pub(crate) fn opening_from(text: &[u8], from: usize) -> Option<usize>
    requires { from ≤ length text.now }
    ensures value { result ≡ first_place (λ k. slice_index text.now k == 91) from
        (length text.now) }
    ensures within { IfSome result (λ k. (from ≤ k) × (k < length text.now)) }
{
    // Brackets in a row need no search.
    if has_byte_at(text, from, b'[') {
        return Some(from);
    }
    byte_from(text, b'[', from)
}

/// Finds the first `]` in the text, from a place on.
pub(crate) fn bracket_from(text: &[u8], from: usize) -> Option<usize>
    requires { from ≤ length text.now }
    ensures value { result ≡ bracket_from text.now from }
    ensures within { IfSome result (λ k. (from ≤ k) × (k < length text.now)) }
{
    byte_from(text, b']', from)
}

/// Finds the first place of the tag in the text, from a place on.
pub(crate) fn tag_from(text: &[u8], tag: &Finder<'_>, from: usize) -> Option<usize>
    requires in_text { from ≤ length text.now }
    requires some { 0 < length tag.now }
    ensures value { result ≡ first_place (occurs_at text.now tag.now) from (length text.now) }
    ensures within { IfSome result (λ k. (from ≤ k) × (k + length tag.now ≤ length text.now)) }
{
    match tag.find(&text[from..]) {
        Some(k) => Some(from + k),
        None => None,
    }
}

/// Makes the opening of a name: `[` and the name.
pub(crate) fn opening(alloc: Global, name: &[u8]) -> Result<Vec<u8>, AllocError>
    ensures { IfOk result (λ tag. tag.items ≡ opening_of name.now) }
{
    let mut tag = Vec::new(alloc);
    tag.push(b'[')?;
    tag.extend_from_slice(name)?;
    Ok(tag)
}

/// Makes a search for the closing tag of a name: `[/`, the name and `]`.
pub(crate) fn closing_tag(alloc: Global, name: &[u8]) -> Result<Finder<'static>, AllocError>
    ensures { IfOk result (λ tag. tag ≡ closing_tag name.now) }
{
    let mut tag = Vec::new(alloc);
    tag.extend_from_slice(b"[/")?;
    tag.extend_from_slice(name)?;
    tag.push(b']')?;
    Ok(FinderBuilder::new().build_forward_owned(tag))
}
