//! Changes and replies as rows of tables, and what is made of a row.
ghost use Rattle.std.specs.Prelude.{◌≡◌, ◌++◌, IfOk, OnOk, map, string_bytes};
ghost use Rattle.bundled_plugins.specs.Rows.{change_of, part_of, text_of, reply_of};

use crate::calls::{first_argument, second_argument};
use hook_changes::{Call, CallbackId, Change, CoreHook, Listed, Reply, Text, Then};
use itoa::Buffer;
use std::alloc::{AllocError, Global};

/// A change of the registrations or of the shortcodes.
pub enum ChangeRow {
    /// `add_filter`: the hook, the priority, the callback's number, and how many arguments it
    /// accepts.
    Add(CoreHook, i32, u32, u8),
    /// `remove_filter`: the hook, the priority and the callback's number.
    Remove(CoreHook, i32, u32),
    /// `remove_all_filters`: the hook and the priority.
    RemoveAll(CoreHook, i32),
    /// `add_shortcode`: the tag and the handler's number.
    AddTag(&'static str, u32),
    /// `remove_shortcode`: the tag.
    RemoveTag(&'static str),
    /// `remove_all_shortcodes`.
    RemoveAllTags,
}

/// A part of a text that a callback prints or answers.
pub enum TextPart {
    /// The same text for every call.
    Fixed(&'static str),
    /// The first argument, or empty text if the call has no such argument.
    First,
    /// The second argument, or empty text if the call has no such argument.
    Second,
    /// The number of arguments, in decimal.
    Count,
    /// The text between the shortcode's tags.
    Content,
}

/// A reply that asks nothing: changes, a text to print and a text to answer, of the same parts for
/// every call.
pub struct ReplyRow {
    /// The callback's number.
    pub number: u32,
    pub changes: &'static [ChangeRow],
    pub prints: &'static [TextPart],
    pub answers: &'static [TextPart],
}

/// Copies a text, whose copies then share its memory: a load list is copied for each page, and
/// carried out where it isn't that of the page before.
fn shared(alloc: Global, text: &str) -> Result<Text, AllocError>
    ensures { IfOk result (λ shared. shared ≡ text.now) }
{
    let mut shared = Text::copied(alloc, text)?;
    shared.share()?;
    Ok(shared)
}

/// Makes the change of a row.
fn change_of(alloc: Global, row: &ChangeRow) -> Result<Change, AllocError>
    ensures { IfOk result (λ change. change ≡ change_of row.now) }
{
    Ok(match row {
        ChangeRow::Add(hook, priority, number, accepted) => Change::Add {
            hook: Text::core(alloc, *hook),
            priority: *priority,
            callback: CallbackId::new(*number),
            accepted: *accepted,
        },
        ChangeRow::Remove(hook, priority, number) => Change::Remove {
            hook: Text::core(alloc, *hook),
            priority: *priority,
            callback: CallbackId::new(*number),
        },
        ChangeRow::RemoveAll(hook, priority) => Change::RemoveAll {
            hook: Text::core(alloc, *hook),
            priority: Some(*priority),
        },
        ChangeRow::AddTag(tag, number) => Change::AddTag {
            tag: shared(alloc, tag)?,
            callback: CallbackId::new(*number),
        },
        ChangeRow::RemoveTag(tag) => Change::RemoveTag {
            tag: shared(alloc, tag)?,
        },
        ChangeRow::RemoveAllTags => Change::RemoveAllTags,
    })
}

/// Makes the changes of rows, in order. Inline, so that no rows, as most replies have, take no call.
#[inline]
pub fn changes_of(alloc: Global, rows: &[ChangeRow]) -> Result<Listed<Change>, AllocError>
    ensures { IfOk result (λ changes. changes ≡ map change_of rows.now) }
{
    let mut changes = Listed::empty(alloc);
    if !rows.is_empty() {
        push_changes(alloc, &mut changes, rows)?;
    }
    Ok(changes)
}

/// Appends the changes of rows.
#[inline(never)]
fn push_changes(
    alloc: Global,
    changes: &mut Listed<Change>,
    rows: &[ChangeRow],
) -> Result<(), AllocError>
    ensures { OnOk result (changes.new ≡ changes.old ++ map change_of rows.now) }
{
    for row in rows {
        changes.push(change_of(alloc, row)?)?;
    }
    Ok(())
}

/// Appends a part to a text.
fn push_part(text: &mut String, part: &TextPart, call: &Call) -> Result<(), AllocError>
    ensures { OnOk result (string_bytes text.new ≡ string_bytes text.old
        ++ part_of call.now part.now) }
{
    match part {
        TextPart::Fixed(fixed) => text.push_str(fixed),
        TextPart::First => text.push_str(first_argument(call)),
        TextPart::Second => text.push_str(second_argument(call)),
        TextPart::Count => text.push_str(Buffer::new().format(call.args.as_slice().len())),
        TextPart::Content => text.push_str(call.content.as_str()),
    }
}

/// Returns about how many bytes parts take together.
#[inline(never)]
fn room_for(parts: &[TextPart], call: &Call) -> usize {
    let mut room = 0usize;
    for part in parts {
        room = room.saturating_add(match part {
            TextPart::Fixed(fixed) => fixed.len(),
            TextPart::First => first_argument(call).len(),
            TextPart::Second => second_argument(call).len(),
            TextPart::Count => 2,
            TextPart::Content => call.content.as_str().len(),
        });
    }
    room
}

/// Appends parts to a text.
#[inline(never)]
fn push_parts(text: &mut String, parts: &[TextPart], call: &Call) -> Result<(), AllocError>
    ensures { OnOk result (string_bytes text.new ≡ string_bytes text.old
        ++ text_of call.now parts.now) }
{
    for part in parts {
        push_part(text, part, call)?;
    }
    Ok(())
}

/// Joins parts, in room that is allocated at once. Inline, so that no parts take no call.
#[inline(always)]
fn text_of(alloc: Global, parts: &[TextPart], call: &Call) -> Result<Text, AllocError>
    ensures { IfOk result (λ text. text ≡ text_of call.now parts.now) }
{
    if parts.is_empty() {
        return Ok(Text::empty(alloc));
    }
    let mut text = String::with_capacity(alloc, room_for(parts, call))?;
    push_parts(&mut text, parts, call)?;
    Ok(Text::new(text))
}

/// Makes the reply of a row to a call.
#[inline(never)]
pub fn reply_of(alloc: Global, row: &ReplyRow, call: &Call) -> Result<Reply, AllocError>
    ensures { IfOk result (λ reply. reply ≡ reply_of row.now call.now) }
{
    Ok(Reply {
        changes: changes_of(alloc, row.changes)?,
        echo: text_of(alloc, row.prints, call)?,
        next: Then::Answer(text_of(alloc, row.answers, call)?),
    })
}
