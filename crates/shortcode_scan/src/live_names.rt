//! The names that a text opens.
ghost use Rattle.std.specs.Prelude.{◌≡◌, ◌<◌, ◌≤◌, ◌==◌, true, length, slice_index, option_map};
ghost use Rattle.std.specs.Prelude.{IfOk};
ghost use Rattle.shortcode_scan.specs.Live.{ends_name, has_opening, is_live, is_name_end, live};
ghost use Rattle.shortcode_scan.specs.Opened.{is_among, name_opened, AreOpened};

use crate::matches::name_len;
use crate::places::{opening, opening_from, tag_from};
use indexmap::IndexSet;
use memchr::memmem::Finder;
use plain_data::TagName;
use std::alloc::{AllocError, Global};

/// Returns whether a byte after a name ends it.
fn ends_name(byte: u8) -> bool
    ensures { result ≡ ends_name byte }
{
    matches!(
        byte,
        0..=b' ' | b'<' | b'>' | b'&' | b'/' | b'[' | b']' | b'='
    )
}

/// Returns whether a name that goes up to a place of the text ends there.
fn is_name_end(text: &[u8], end: usize) -> bool
    requires { end ≤ length text.now }
    ensures { result ≡ is_name_end text.now end }
{
    end == text.len() || ends_name(text[end])
}

/// Returns whether the text has this opening, `[` and a name, at a place at which the name ends
/// after it.
fn has_opening(text: &[u8], opening: &[u8]) -> bool
    requires { 0 < length opening.now }
    ensures { result ≡ has_opening text.now opening.now }
{
    let tag = Finder::new(opening);
    let mut at = 0;
    'search: while let Some(open) = tag_from(text, &tag, at) {
        if is_name_end(text, open + opening.len()) {
            return true;
        }
        at = open + 1;
    }
    false
}

/// Returns whether the text opens the name.
pub(crate) fn is_live(alloc: Global, text: &[u8], name: &[u8]) -> Result<bool, AllocError>
    ensures { IfOk result (λ live. live ≡ is_live text.now name.now) }
{
    let opening = opening(alloc, name)?;
    Ok(has_opening(text, &opening))
}

/// Finds those of the names that the text opens, by a search for each: it goes through the text
/// once for each name.
pub(crate) fn live_few(
    alloc: Global,
    names: &[TagName],
    text: &[u8],
) -> Result<Vec<TagName>, AllocError>
    ensures { IfOk result (λ found. found.items ≡ live names.now text.now) }
{
    let mut found = Vec::new(alloc);
    for name in names {
        if is_live(alloc, text, name.as_str().as_bytes())? {
            found.push(name.clone()?)?;
        }
    }
    Ok(found)
}

/// Returns what the `[` at a place opens: the bytes of names after it, if there are any and a name
/// may end at the place at which they end.
#[tactic(auto, unfolding(crate::specs::Opened::name_opened))]
fn name_opened(text: &str, at: usize) -> Option<&str>
    requires within { at < length text.now }
    requires bracket { slice_index text.now at ≡ 91 }
    ensures { option_map (λ name. name.now) result ≡ name_opened text.now at }
{
    let bytes = text.as_bytes();
    let start = at + 1;
    let len = name_len(&bytes[start..]);
    if 0 < len && is_name_end(bytes, start + len) {
        Some(&text[start..start + len])
    } else {
        None
    }
}

/// Finds the names that a text opens, each once: it goes through the text once, however many names
/// are looked for among them.
pub(crate) fn opened(alloc: Global, text: &str) -> Result<IndexSet<&str>, AllocError>
    ensures { IfOk result (λ names. AreOpened text.now names.keys) }
{
    let bytes = text.as_bytes();
    let mut names = IndexSet::new(alloc);
    let mut at = 0;
    'search: while let Some(open) = opening_from(bytes, at) {
        if let Some(name) = name_opened(text, open) {
            names.insert(name)?;
        }
        at = open + 1;
    }
    Ok(names)
}

/// Finds those of the names that the text opens, by looking each up among all that it opens.
pub(crate) fn live_many(
    alloc: Global,
    names: &[TagName],
    text: &str,
) -> Result<Vec<TagName>, AllocError>
    ensures { IfOk result (λ found. found.items ≡ live names.now text.now) }
{
    let opened = opened(alloc, text)?;
    let mut found = Vec::new(alloc);
    for name in names {
        if opened.contains(name.as_str()) {
            found.push(name.clone()?)?;
        }
    }
    Ok(found)
}
