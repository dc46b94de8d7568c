//! The parts of a template: its own text, and what stands in braces.
ghost use Rattle.std.specs.Prelude.{◌≡◌, ◌<◌, ◌≤◌, length, IfOk, IfSome, option_map, map};
ghost use Rattle.std.specs.List.{before_first, after_first};
ghost use Rattle.std.specs.Prelude.{◌==◌};
ghost use Rattle.shortcode_atts.specs.Found.{pair_now};
ghost use Rattle.snippets.specs.Templates.{cut, read, name_of, next_part, part_at, parts_of, part_now};

use hook_changes::is_tag_name;
use std::alloc::{AllocError, Global};

/// A part of a template.
#[derive(Clone, Copy)]
pub(crate) enum Part<'t> {
    /// Its own text.
    Own(&'t str),
    /// `{{name}}` or `{{name|default}}`.
    Value(&'t str, &'t str),
    /// `{{#name}}`, after which nothing is printed if nothing is given under the name.
    Opening(&'t str),
    /// `{{^name}}`, after which nothing is printed if something is given under the name.
    Inverted(&'t str),
    /// `{{/name}}`, after which it is again.
    Closing(&'t str),
}

/// Splits a text round the first `{{`.
fn at_opening(text: &str) -> Option<(&str, &str)>
    ensures value { option_map pair_now result ≡ cut 123 text.now }
    ensures shorter { IfSome result (λ x. length x.1.now < length text.now) }
{
    text.split_once("{{")
}

/// Splits a text round the first `}}`.
fn at_closing(text: &str) -> Option<(&str, &str)>
    ensures value { option_map pair_now result ≡ cut 125 text.now }
    ensures shorter { IfSome result (λ x. length x.1.now < length text.now) }
{
    text.split_once("}}")
}

/// Returns what is before the first `|` of a text, and what is after it: all and nothing, if there
/// is none.
fn at_bar(text: &str) -> (&str, &str)
    ensures { pair_now result
        ≡ (before_first (λ b. b == 124) text.now, after_first (λ b. b == 124) text.now) }
{
    match text.split_once('|') {
        Some(parts) => parts,
        None => (text, ""),
    }
}

/// Returns what is written so between its braces. Whether its name is one isn't looked at.
fn read(text: &str) -> Part<'_>
    ensures { part_now result ≡ read text.now }
{
    if let Some(name) = text.strip_prefix('#') {
        return Part::Opening(name);
    }
    if let Some(name) = text.strip_prefix('^') {
        return Part::Inverted(name);
    }
    if let Some(name) = text.strip_prefix('/') {
        return Part::Closing(name);
    }
    let (name, default) = at_bar(text);
    Part::Value(name, default)
}

/// Returns the name of a part; the template's own text has none.
fn name_of<'t>(part: &Part<'t>) -> &'t str
    ensures { result.now ≡ name_of (part_now part.now) }
{
    match part {
        Part::Own(_) => "",
        Part::Value(name, _) | Part::Opening(name) | Part::Inverted(name) | Part::Closing(name) =>
            name,
    }
}

/// Returns the part after a `{{`, if it has a `}}` and its name is one, and what is after that. A
/// name is 1 to 64 ASCII letters, digits, `_` and `-`.
#[tactic(auto, unfolding(crate::specs::Templates::part_at))]
fn part_at(text: &str) -> Option<(Part<'_>, &str)>
    ensures value { option_map (λ x. (part_now x.0, x.1.now)) result ≡ part_at text.now }
    ensures shorter { IfSome result (λ x. length x.1.now < length text.now) }
{
    let (inside, rest) = at_closing(text)?;
    let part = read(inside);
    if is_tag_name(name_of(&part)) {
        Some((part, rest))
    } else {
        None
    }
}

/// Returns what comes after a `{{`, a part or else the braces themselves, and what is after that.
fn next_part(text: &str) -> (Part<'_>, &str)
    ensures value { (part_now result.0, result.1.now) ≡ next_part text.now }
    ensures within { length result.1.now ≤ length text.now }
{
    match part_at(text) {
        Some(found) => found,
        None => (Part::Own("{{"), text),
    }
}

/// Reads a template. What isn't of a part's form is the template's own text, braces included.
pub(crate) fn parts_of(alloc: Global, template: &str) -> Result<Vec<Part<'_>>, AllocError>
    ensures { IfOk result (λ parts. map part_now parts.items ≡ parts_of template.now) }
{
    let mut parts = Vec::new(alloc);
    let mut rest = template;
    'parts: while let Some((own, after)) = at_opening(rest) {
        let (part, more) = next_part(after);
        parts.push(Part::Own(own))?;
        parts.push(part)?;
        rest = more;
    }
    parts.push(Part::Own(rest))?;
    Ok(parts)
}
