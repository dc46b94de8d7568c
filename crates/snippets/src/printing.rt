//! What a template prints.
ghost use Rattle.std.specs.Prelude.{◌≡◌, ◌++◌, IfOk, OnOk, bytes_eq, option_map, is_some};
ghost use Rattle.std.specs.Map.{lookup};
ghost use Rattle.snippets.specs.Pieces.{piece_now};
ghost use Rattle.snippets.specs.Places.{place_now};
ghost use Rattle.snippets.specs.Snippets.{second_argument, values_in};
ghost use Rattle.snippets.specs.Templates.{after_byte, begins, given, is_script, left_out_after, part_now};
ghost use Rattle.snippets.specs.Templates.{piece_of, piece_under, place_past, printed, safe, text_in};

use crate::parts::{Part, parts_of};
use crate::places::{Place, place_after, takes_values};
use hook_changes::{Call, Text};
use page_escapes::escape_html;
use std::alloc::{AllocError, Global};

/// A piece of what is printed.
#[derive(Clone, Copy)]
pub(crate) enum Piece<'a> {
    /// Text of the template.
    Fixed(&'a str),
    /// A value, which is printed safe.
    Shown(&'a str),
    /// The content, which is printed as it is.
    Inner(&'a str),
}

/// Returns what is left of a scheme after a byte, or `None` if the byte isn't of it. As a browser
/// reads an address, blanks and control bytes are passed over, and upper case is lower case.
fn after_byte(scheme: &[u8], byte: u8) -> Option<&[u8]>
    ensures { option_map (λ left. left.now) result ≡ after_byte scheme.now byte }
{
    match scheme {
        [first, rest @ ..] if byte > b' ' => {
            if byte.to_ascii_lowercase() == *first {
                Some(rest)
            } else {
                None
            }
        }
        _ => Some(scheme),
    }
}

/// Returns whether an address begins with a scheme.
fn begins(scheme: &[u8], address: &[u8]) -> bool
    ensures { result ≡ begins scheme.now address.now }
{
    let mut left = scheme;
    for byte in address {
        if left.is_empty() {
            return true;
        }
        match after_byte(left, *byte) {
            Some(rest) => left = rest,
            None => return false,
        }
    }
    left.is_empty()
}

/// Returns whether a value is an address that is a program, or a page of its own.
fn is_script(value: &str) -> bool
    ensures { result ≡ is_script value.now }
{
    let value = value.as_bytes();
    begins(b"javascript:", value) || begins(b"vbscript:", value) || begins(b"data:", value)
}

/// Appends a value, escaped: text and no markup, wherever in a page it comes. A value that is a
/// program is left out.
fn push_safe(alloc: Global, text: &mut Text, value: &str) -> Result<(), AllocError>
    ensures { OnOk result (text.new ≡ text.old ++ safe value.now) }
{
    if is_script(value) {
        return Ok(());
    }
    text.push_str(escape_html(alloc, value)?.as_str())
}

/// Returns a hook's second argument.
fn second_argument(call: &Call) -> Option<&str>
    ensures { option_map (λ second. second.now) result ≡ second_argument call.entry.now.args }
{
    match call.args.as_slice() {
        [_, second, ..] => Some(second.as_str()),
        _ => None,
    }
}

/// Returns the value under a name: an attribute, or under `2` a hook's second argument.
fn value_in<'a>(call: &'a Call, name: &str) -> Option<&'a str>
    ensures { option_map (λ value. value.now) result
        ≡ lookup (bytes_eq name.now) (values_in call.entry.now) }
{
    if name == "2" {
        if let Some(second) = second_argument(call) {
            return Some(second);
        }
    }
    call.atts.named(name)
}

/// Returns whether something is given under a name.
fn is_given(call: &Call, content: &str, name: &str) -> bool
    ensures { result ≡ is_some (given (values_in call.now) content.now name.now) }
{
    if name == "content" {
        !content.is_empty()
    } else {
        value_in(call, name).is_some()
    }
}

/// Returns the piece for a name: the content, a value if the place allows one, or the default.
fn piece_under<'a>(
    call: &'a Call,
    content: &'a str,
    place: Place<'_>,
    name: &str,
    default: &'a str,
) -> Piece<'a>
    ensures { piece_now result ≡ piece_under (values_in call.entry.now) content.entry.now
        (place_now place.entry) name.now default.entry.now }
{
    if name == "content" {
        return if content.is_empty() {
            Piece::Fixed(default)
        } else {
            Piece::Inner(content)
        };
    }
    match value_in(call, name) {
        Some(value) if takes_values(place) => Piece::Shown(value),
        Some(_) => Piece::Shown(""),
        None => Piece::Fixed(default),
    }
}

/// Returns the piece of a part.
fn piece_of<'a>(
    call: &'a Call,
    content: &'a str,
    place: Place<'_>,
    left_out: Option<&str>,
    part: &Part<'a>,
) -> Piece<'a>
    ensures { piece_now result ≡ piece_of (values_in call.entry.now) content.entry.now
        (place_now place.entry) (option_map (λ name. name.now) left_out.entry)
        (part_now part.now) }
{
    if left_out.is_some() {
        return Piece::Fixed("");
    }
    match part {
        Part::Own(own) => Piece::Fixed(own),
        Part::Value(name, default) => piece_under(call, content, place, name, default),
        Part::Opening(_) | Part::Inverted(_) | Part::Closing(_) => Piece::Fixed(""),
    }
}

/// Appends a piece.
fn push_piece(alloc: Global, text: &mut Text, piece: Piece<'_>) -> Result<(), AllocError>
    ensures { OnOk result (text.new ≡ text.old ++ text_in (piece_now piece.entry)) }
{
    match piece {
        Piece::Fixed(fixed) => text.push_str(fixed),
        Piece::Shown(value) => push_safe(alloc, text, value),
        Piece::Inner(content) => text.push_str(content),
    }
}

/// Returns the place of what comes after a piece. A value has no markup, and a content's is not
/// looked at.
fn place_past<'w>(place: Place<'w>, piece: Piece<'_>) -> Place<'w>
    ensures { place_now result ≡ place_past (place_now place.entry) (piece_now piece.entry) }
{
    match piece {
        Piece::Fixed(fixed) => place_after(place, fixed),
        Piece::Shown(_) | Piece::Inner(_) => place,
    }
}

/// Returns the name that is left out after a part, if one is.
fn left_out_after<'t>(
    call: &Call,
    content: &str,
    left_out: Option<&'t str>,
    part: &Part<'t>,
) -> Option<&'t str>
    ensures { option_map (λ name. name.now) result ≡ left_out_after (values_in call.now)
        content.now (option_map (λ name. name.now) left_out.entry) (part_now part.now) }
{
    match left_out {
        None => match part {
            Part::Opening(name) if !is_given(call, content, name) => Some(name),
            Part::Inverted(name) if is_given(call, content, name) => Some(name),
            _ => None,
        },
        Some(open) => match part {
            Part::Closing(name) if *name == open => None,
            _ => Some(open),
        },
    }
}

/// Prints a template for a call and a content.
#[tactic(auto, unfolding(crate::specs::Templates::printed, crate::specs::Templates::pieces_of))]
pub(crate) fn printed<'a>(
    alloc: Global,
    template: &'a str,
    call: &'a Call,
    content: &'a str,
) -> Result<Text, AllocError>
    ensures { IfOk result (λ text.
        text ≡ printed template.now (values_in call.now) content.now) }
{
    let parts = parts_of(alloc, template)?;
    let mut text = Text::empty(alloc);
    let mut place = Place::Between;
    let mut left_out = None;
    for part in &parts {
        let piece = piece_of(call, content, place, left_out, part);
        push_piece(alloc, &mut text, piece)?;
        place = place_past(place, piece);
        left_out = left_out_after(call, content, left_out, part);
    }
    Ok(text)
}
