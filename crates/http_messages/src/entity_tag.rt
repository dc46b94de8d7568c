//! The entity tag of a page, and whether a condition lists it.
ghost use Rattle.std.specs.Prelude.{◌≡◌, IfOk, reverse};
ghost use Rattle.httparse.specs.Grammar.{skip_ows, trim_ows};
ghost use Rattle.http_messages.specs.EntityTag.{tag_text, is_listed, is_weak, lists};

use httparse::is_space_or_tab;
use itoa::Buffer;
use std::alloc::{AllocError, Global};

/// The entity tag of every page that a site shows from one edit to the next (RFC 9110, section
/// 8.8.3). A field has it as both numbers in decimal, in quotes: `"START-EDITS"`.
#[derive(Clone, Copy, Debug, PartialEq, Eq)]
pub struct EntityTag {
    /// A number that was drawn when the program started.
    pub start: u64,
    /// How many edits were done since, 2^64 - 1 at most.
    pub edits: u64,
}

/// Returns the text of a tag.
pub(crate) fn tag_text(alloc: Global, tag: EntityTag) -> Result<Vec<u8>, AllocError>
    ensures { IfOk result (λ text. text.items ≡ tag_text tag) }
{
    let mut text = Vec::new(alloc);
    let mut buffer = Buffer::new();
    text.push(b'"')?;
    text.extend_from_slice(buffer.format(tag.start).as_bytes())?;
    text.push(b'-')?;
    text.extend_from_slice(buffer.format(tag.edits).as_bytes())?;
    text.push(b'"')?;
    Ok(text)
}

/// Returns whether a condition lists the tag, or any tag. A weak one counts too (RFC 9110, section
/// 13.1.2).
pub(crate) fn lists(condition: &[u8], tag: &[u8]) -> bool
    ensures { result ≡ lists condition.now tag.now }
{
    let mut rest = condition;
    while let Some(comma) = rest.iter().position(|b| *b == b',') {
        if is_listed(trimmed(&rest[..comma]), tag) {
            return true;
        }
        rest = &rest[comma + 1..];
    }
    is_listed(trimmed(rest), tag)
}

fn is_listed(element: &[u8], tag: &[u8]) -> bool
    ensures { result ≡ is_listed tag.now element.now }
{
    element == tag || element == b"*".as_slice() || is_weak(element, tag)
}

/// Returns whether the element is the tag after `W/`.
fn is_weak(element: &[u8], tag: &[u8]) -> bool
    ensures { result ≡ is_weak tag.now element.now }
{
    match element {
        [b'W', b'/', strong @ ..] => strong == tag,
        _ => false,
    }
}

/// Returns the bytes without the spaces and tabs at both ends.
fn trimmed(element: &[u8]) -> &[u8]
    ensures { result.now ≡ trim_ows element.now }
{
    trimmed_end(trimmed_start(element))
}

fn trimmed_start(mut s: &[u8]) -> &[u8]
    ensures { result.now ≡ skip_ows s.now }
{
    while let [first, rest @ ..] = s
        && is_space_or_tab(*first)
    {
        s = rest;
    }
    s
}

fn trimmed_end(mut s: &[u8]) -> &[u8]
    ensures { result.now ≡ reverse (skip_ows (reverse s.now)) }
{
    while let [rest @ .., last] = s
        && is_space_or_tab(*last)
    {
        s = rest;
    }
    s
}
