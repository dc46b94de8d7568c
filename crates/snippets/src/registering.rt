//! What the words of the option `snippets` register.
ghost use Rattle.std.specs.Prelude.{◌≡◌, ◌++◌, ◌==◌, IfOk, OnOk, IfSome, ◌<◌, ◌+◌, pos, flat_map, map};
ghost use Rattle.hook_changes.specs.declared.reply.Change.{Change};
ghost use Rattle.std.specs.List.{slice_split, before_first, after_first};
ghost use Rattle.shortcode_atts.specs.Found.{pair_now};
ghost use Rattle.snippets.specs.Snippets.{priority_in, registered};

use crate::shipped::{FIRST_SLOT, HANDLER};
use hook_changes::{CallbackId, Change, Listed, Text};
use std::alloc::{AllocError, Global};

/// Returns the priority that one or two digits write, the first of two no zero.
fn priority_in(text: &str) -> Option<u8>
    ensures value { result ≡ priority_in text.now }
    ensures small { IfSome result (λ priority. priority < 100) }
{
    match text.as_bytes() {
        [d @ b'0'..=b'9'] => Some(d - b'0'),
        [d @ b'1'..=b'9', e @ b'0'..=b'9'] => Some(10 * (d - b'0') + (e - b'0')),
        _ => None,
    }
}

/// Returns what is before the first `:` of a word, and what is after it.
fn at_colon(word: &str) -> (&str, &str)
    ensures { pair_now result
        ≡ (before_first (λ b. b == 58) word.now, after_first (λ b. b == 58) word.now) }
{
    match word.split_once(':') {
        Some(parts) => parts,
        None => (word, ""),
    }
}

/// Returns what is before the first `]` of a text.
fn before_bracket(text: &str) -> &str
    ensures { result.now ≡ before_first (λ b. b == 93) text.now }
{
    match text.split_once(']') {
        Some((before, _)) => before,
        None => text,
    }
}

/// Appends what a word registers: `[tag]` a shortcode, `hook:priority` a callback on a hook, and
/// any other word nothing.
fn push_registered(
    alloc: Global,
    changes: &mut Listed<Change>,
    word: &str,
) -> Result<(), AllocError>
    ensures { OnOk result (changes.new ≡ changes.old ++ registered word.now) }
{
    if let Some(rest) = word.strip_prefix('[') {
        changes.push(Change::AddTag {
            tag: Text::copied(alloc, before_bracket(rest))?,
            callback: CallbackId::new(HANDLER),
        })?;
        return Ok(());
    }
    let (hook, priority) = at_colon(word);
    if let Some(priority) = priority_in(priority) {
        changes.push(callback_on(alloc, hook, priority)?)?;
    }
    Ok(())
}

/// Makes the change that registers the callback of a priority, at most 99, on a hook.
fn callback_on(alloc: Global, hook: &str, priority: u8) -> Result<Change, AllocError>
    ensures { IfOk result (λ change. change ≡ Change.Add hook.now (pos priority) (502 + priority) 2) }
{
    Ok(Change::Add {
        hook: Text::copied(alloc, hook)?,
        priority: i32::from(priority),
        callback: CallbackId::new(FIRST_SLOT + u32::from(priority)),
        accepted: 2,
    })
}

/// Splits a list at its blanks.
fn words_in<'a>(alloc: Global, list: &'a str) -> Result<Vec<&'a str>, AllocError>
    ensures { IfOk result (λ words.
        map (λ word. word.now) words.items ≡ slice_split (λ c. c == 32) list.entry.now) }
{
    list.split(' ').collect(alloc)
}

/// Returns what the words of a list register, in order. They are apart by blanks.
pub(crate) fn registered(alloc: Global, list: &str) -> Result<Listed<Change>, AllocError>
    ensures { IfOk result (λ changes.
        changes ≡ flat_map registered (slice_split (λ c. c == 32) list.now)) }
{
    let words = words_in(alloc, list)?;
    let mut changes = Listed::empty(alloc);
    for word in &words {
        push_registered(alloc, &mut changes, word)?;
    }
    Ok(changes)
}
