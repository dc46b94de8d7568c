//! Texts, changes, asks and answers as JSON. Changes and asks have the names of WordPress's
//! functions.
ghost use Rattle.std.specs.Prelude.{◌≡◌, ◌≤◌, ◌++◌, ◌∷◌, [], codes, length, map, option_map, string_bytes, OnOk};
ghost use Rattle.json.specs.Token.{key};
ghost use Rattle.page_trace.specs.Line.{
  front,
  text_tokens,
  with_text,
  with_number,
  with_priority,
  with_list,
  if_any,
  unless_empty,
  pair_tokens,
  atts_tokens,
  answer_tokens,
  change_name,
  change_arguments,
  change_tokens,
  ask_name,
  ask_arguments,
  function_call,
};

use hook_changes::{Answer, Ask, CallbackId, Change, Text};
use json::Writer;
use shortcode_atts::Atts;
use std::alloc::AllocError;

/// The most bytes of a text that are written.
const MOST_BYTES: usize = 200;

/// Returns the first bytes of a text, up to 200, cut between two characters.
fn front(text: &str) -> &str
    ensures most { length result.now ≤ 200 }
    ensures cut { result.now ≡ front text.now }
{
    &text[..text.floor_char_boundary(MOST_BYTES)]
}

/// Writes a text: a string, or if it is long its first bytes and how many it has.
#[tactic(auto, unfolding(crate::specs::Line::text_tokens))]
pub(crate) fn put_text(line: &mut Writer, text: &str) -> Result<(), AllocError>
    ensures before { line.new.before ≡ line.old.before }
    ensures tokens { OnOk result (line.new.tokens ≡ line.old.tokens ++ text_tokens text.now) }
{
    if text.len() <= MOST_BYTES {
        return line.string(text);
    }
    line.begin_object()?;
    line.key("cut")?;
    line.string(front(text))?;
    line.key("bytes")?;
    line.u64(text.len() as u64)?;
    line.end_object()
}

/// Writes a key and its text.
pub(crate) fn put_named_text(line: &mut Writer, name: &str, text: &str) -> Result<(), AllocError>
    ensures before { line.new.before ≡ line.old.before }
    ensures tokens { OnOk result (line.new.tokens ≡ line.old.tokens
        ++ with_text name.now text.now) }
{
    line.key(name)?;
    put_text(line, text)
}

/// Writes a key and its text, if there is one.
pub(crate) fn put_text_if_any(
    line: &mut Writer,
    name: &str,
    text: Option<&str>,
) -> Result<(), AllocError>
    ensures before { line.new.before ≡ line.old.before }
    ensures tokens { OnOk result (line.new.tokens ≡ line.old.tokens
        ++ if_any (with_text name.now) (option_map (λ text. text.now) text.entry)) }
{
    match text {
        Some(text) => put_named_text(line, name, text),
        None => Ok(()),
    }
}

/// Writes a key and its text, unless that is empty.
pub(crate) fn put_text_unless_empty(
    line: &mut Writer,
    name: &str,
    text: &str,
) -> Result<(), AllocError>
    ensures before { line.new.before ≡ line.old.before }
    ensures tokens { OnOk result (line.new.tokens ≡ line.old.tokens
        ++ unless_empty (with_text name.now) text.now) }
{
    if text.is_empty() {
        return Ok(());
    }
    put_named_text(line, name, text)
}

/// Writes a key and its number.
pub(crate) fn put_number(line: &mut Writer, name: &str, number: u64) -> Result<(), AllocError>
    ensures before { line.new.before ≡ line.old.before }
    ensures tokens { OnOk result (line.new.tokens ≡ line.old.tokens ++ with_number name.now number) }
{
    line.key(name)?;
    line.u64(number)
}

/// Writes a key and its number, if there is one.
pub(crate) fn put_number_if_any(
    line: &mut Writer,
    name: &str,
    number: Option<u32>,
) -> Result<(), AllocError>
    ensures before { line.new.before ≡ line.old.before }
    ensures tokens { OnOk result (line.new.tokens ≡ line.old.tokens
        ++ if_any (with_number name.now) number) }
{
    match number {
        Some(number) => put_number(line, name, u64::from(number)),
        None => Ok(()),
    }
}

/// Writes a priority, with its sign.
pub(crate) fn put_priority(line: &mut Writer, priority: i32) -> Result<(), AllocError>
    ensures before { line.new.before ≡ line.old.before }
    ensures tokens { OnOk result (line.new.tokens ≡ line.old.tokens ++ with_priority priority) }
{
    line.key("priority")?;
    line.i64(i64::from(priority))
}

/// Writes the number of a callback.
pub(crate) fn put_callback_number(line: &mut Writer, callback: CallbackId) -> Result<(), AllocError>
    ensures before { line.new.before ≡ line.old.before }
    ensures tokens { OnOk result (line.new.tokens ≡ line.old.tokens
        ++ with_number (codes "callback") callback) }
{
    put_number(line, "callback", u64::from(callback.number()))
}

/// Writes a key and a list of texts.
pub(crate) fn put_texts(line: &mut Writer, name: &str, texts: &[Text]) -> Result<(), AllocError>
    ensures before { line.new.before ≡ line.old.before }
    ensures tokens { OnOk result (line.new.tokens ≡ line.old.tokens
        ++ with_list name.now text_tokens texts.now) }
{
    line.key(name)?;
    line.begin_array()?;
    for text in texts {
        put_text(line, text.as_str())?;
    }
    line.end_array()
}

/// Writes a pair of texts as a list.
fn put_pair(line: &mut Writer, name: &str, value: &str) -> Result<(), AllocError>
    ensures before { line.new.before ≡ line.old.before }
    ensures tokens { OnOk result (line.new.tokens ≡ line.old.tokens
        ++ pair_tokens (name.now, value.now)) }
{
    line.begin_array()?;
    put_text(line, name)?;
    put_text(line, value)?;
    line.end_array()
}

/// Writes the attributes of a shortcode that have names.
fn put_named_atts(line: &mut Writer, atts: &Atts) -> Result<(), AllocError>
    ensures before { line.new.before ≡ line.old.before }
    ensures tokens { OnOk result (line.new.tokens ≡ line.old.tokens
        ++ with_list (codes "named") pair_tokens atts.now.named) }
{
    line.key("named")?;
    line.begin_array()?;
    for at in 0..usize::MAX {
        match atts.pair(at) {
            Some((name, value)) => put_pair(line, name, value)?,
            None => return line.end_array(),
        }
    }
    // A list cannot have as many pairs.
    Err(AllocError)
}

/// Writes the attributes of a shortcode that have no names.
fn put_positional_atts(line: &mut Writer, values: &[String]) -> Result<(), AllocError>
    ensures before { line.new.before ≡ line.old.before }
    ensures tokens { OnOk result (line.new.tokens ≡ line.old.tokens
        ++ with_list (codes "positional") text_tokens (map string_bytes values.now)) }
{
    line.key("positional")?;
    line.begin_array()?;
    for value in values {
        put_text(line, value.as_str())?;
    }
    line.end_array()
}

/// Writes the attributes of a shortcode.
#[tactic(auto, unfolding(crate::specs::Line::atts_tokens))]
pub(crate) fn put_atts(line: &mut Writer, atts: &Atts) -> Result<(), AllocError>
    ensures before { line.new.before ≡ line.old.before }
    ensures tokens { OnOk result (line.new.tokens ≡ line.old.tokens ++ atts_tokens atts.now) }
{
    line.key("atts")?;
    line.begin_object()?;
    put_named_atts(line, atts)?;
    put_positional_atts(line, atts.positional())?;
    line.end_object()
}

/// Writes what the engine answered.
#[tactic(auto, unfolding(crate::specs::Line::answer_tokens))]
fn put_answer(line: &mut Writer, answer: &Answer) -> Result<(), AllocError>
    ensures before { line.new.before ≡ line.old.before }
    ensures tokens { OnOk result (line.new.tokens ≡ line.old.tokens ++ answer_tokens answer.now) }
{
    match answer {
        Answer::Text(text) => put_text(line, text.as_str()),
        Answer::Number(number) => line.i64(*number),
        Answer::Flag(flag) => line.boolean(*flag),
        Answer::Nothing => line.null(),
    }
}

/// Writes what the engine answered so far.
fn put_all_answers(line: &mut Writer, answers: &[Answer]) -> Result<(), AllocError>
    ensures before { line.new.before ≡ line.old.before }
    ensures tokens { OnOk result (line.new.tokens ≡ line.old.tokens
        ++ with_list (codes "answers") answer_tokens answers.now) }
{
    line.key("answers")?;
    line.begin_array()?;
    for answer in answers {
        put_answer(line, answer)?;
    }
    line.end_array()
}

/// Writes what the engine answered so far, if it has answered anything.
pub(crate) fn put_answers(line: &mut Writer, answers: &[Answer]) -> Result<(), AllocError>
    ensures before { line.new.before ≡ line.old.before }
    ensures tokens { OnOk result (line.new.tokens ≡ line.old.tokens
        ++ unless_empty (with_list (codes "answers") answer_tokens) answers.now) }
{
    if answers.is_empty() {
        return Ok(());
    }
    put_all_answers(line, answers)
}

/// Returns the name of the function of WordPress's that makes a change.
#[tactic(auto, unfolding(crate::specs::Line::change_name))]
fn name_of_change(change: &Change) -> &'static str
    ensures { result.now ≡ change_name change.now }
{
    match change {
        Change::Add { .. } => "add_filter",
        Change::Remove { .. } => "remove_filter",
        Change::RemoveAll { .. } => "remove_all_filters",
        Change::AddTag { .. } => "add_shortcode",
        Change::RemoveTag { .. } => "remove_shortcode",
        Change::RemoveAllTags => "remove_all_shortcodes",
    }
}

/// Writes a priority, with its sign, if there is one.
fn put_priority_if_any(line: &mut Writer, priority: Option<i32>) -> Result<(), AllocError>
    ensures before { line.new.before ≡ line.old.before }
    ensures tokens { OnOk result (line.new.tokens ≡ line.old.tokens
        ++ if_any with_priority priority) }
{
    match priority {
        Some(priority) => put_priority(line, priority),
        None => Ok(()),
    }
}

/// Writes the number of a callback, if there is one.
fn put_callback_if_any(line: &mut Writer, callback: Option<CallbackId>) -> Result<(), AllocError>
    ensures before { line.new.before ≡ line.old.before }
    ensures tokens { OnOk result (line.new.tokens ≡ line.old.tokens
        ++ if_any (with_number (codes "callback")) callback) }
{
    match callback {
        Some(callback) => put_callback_number(line, callback),
        None => Ok(()),
    }
}

/// Writes what a change is given.
#[tactic(auto, unfolding(crate::specs::Line::change_arguments))]
fn put_change_arguments(line: &mut Writer, change: &Change) -> Result<(), AllocError>
    ensures before { line.new.before ≡ line.old.before }
    ensures tokens { OnOk result (line.new.tokens ≡ line.old.tokens
        ++ change_arguments change.now) }
{
    match change {
        Change::Add {
            hook,
            priority,
            callback,
            accepted,
        } => {
            put_named_text(line, "hook", hook.as_str())?;
            put_priority(line, *priority)?;
            put_callback_number(line, *callback)?;
            put_number(line, "accepted", u64::from(*accepted))
        }
        Change::Remove {
            hook,
            priority,
            callback,
        } => {
            put_named_text(line, "hook", hook.as_str())?;
            put_priority(line, *priority)?;
            put_callback_number(line, *callback)
        }
        Change::RemoveAll { hook, priority } => {
            put_named_text(line, "hook", hook.as_str())?;
            put_priority_if_any(line, *priority)
        }
        Change::AddTag { tag, callback } => {
            put_named_text(line, "tag", tag.as_str())?;
            put_callback_number(line, *callback)
        }
        Change::RemoveTag { tag } => put_named_text(line, "tag", tag.as_str()),
        Change::RemoveAllTags => Ok(()),
    }
}

/// Writes a change, under the name of the function that makes it.
#[tactic(auto, unfolding(crate::specs::Line::change_tokens))]
fn put_change(line: &mut Writer, change: &Change) -> Result<(), AllocError>
    ensures before { line.new.before ≡ line.old.before }
    ensures tokens { OnOk result (line.new.tokens ≡ line.old.tokens ++ change_tokens change.now) }
{
    line.begin_object()?;
    line.key(name_of_change(change))?;
    line.begin_object()?;
    put_change_arguments(line, change)?;
    line.end_object()?;
    line.end_object()
}

/// Writes the changes.
fn put_all_changes(line: &mut Writer, changes: &[Change]) -> Result<(), AllocError>
    ensures before { line.new.before ≡ line.old.before }
    ensures tokens { OnOk result (line.new.tokens ≡ line.old.tokens
        ++ with_list (codes "changes") change_tokens changes.now) }
{
    line.key("changes")?;
    line.begin_array()?;
    for change in changes {
        put_change(line, change)?;
    }
    line.end_array()
}

/// Writes the changes, if there are any.
pub(crate) fn put_changes(line: &mut Writer, changes: &[Change]) -> Result<(), AllocError>
    ensures before { line.new.before ≡ line.old.before }
    ensures tokens { OnOk result (line.new.tokens ≡ line.old.tokens
        ++ unless_empty (with_list (codes "changes") change_tokens) changes.now) }
{
    if changes.is_empty() {
        return Ok(());
    }
    put_all_changes(line, changes)
}

/// Returns the name of the function of WordPress's that asks.
#[tactic(auto, unfolding(crate::specs::Line::ask_name))]
fn name_of_ask(ask: &Ask) -> &'static str
    ensures { result.now ≡ ask_name ask.now }
{
    match ask {
        Ask::Apply { .. } => "apply_filters",
        Ask::Act { .. } => "do_action",
        Ask::Shortcodes { .. } => "do_shortcode",
        Ask::Did { .. } => "did_action",
        Ask::Current => "current_filter",
        Ask::Doing { .. } => "doing_filter",
        Ask::Has { .. } => "has_filter",
        Ask::TagExists { .. } => "shortcode_exists",
        Ask::GetOption { .. } => "get_option",
    }
}

/// Writes what an ask is given.
#[tactic(auto, unfolding(crate::specs::Line::ask_arguments))]
fn put_ask_arguments(line: &mut Writer, ask: &Ask) -> Result<(), AllocError>
    ensures before { line.new.before ≡ line.old.before }
    ensures tokens { OnOk result (line.new.tokens ≡ line.old.tokens ++ ask_arguments ask.now) }
{
    match ask {
        Ask::Apply { hook, value, args } => {
            put_named_text(line, "hook", hook.as_str())?;
            put_named_text(line, "value", value.as_str())?;
            put_texts(line, "args", args.as_slice())
        }
        Ask::Act { hook, args } => {
            put_named_text(line, "hook", hook.as_str())?;
            put_texts(line, "args", args.as_slice())
        }
        Ask::Shortcodes { text } => put_named_text(line, "text", text.as_str()),
        Ask::Did { hook } => put_named_text(line, "hook", hook.as_str()),
        Ask::Current => Ok(()),
        Ask::Doing { hook } => put_named_text(line, "hook", hook.as_str()),
        Ask::Has { hook, callback } => {
            put_named_text(line, "hook", hook.as_str())?;
            put_callback_if_any(line, *callback)
        }
        Ask::TagExists { tag } => put_named_text(line, "tag", tag.as_str()),
        Ask::GetOption { name } => put_named_text(line, "name", name.as_str()),
    }
}

/// Writes an ask, under the name of the function that asks.
pub(crate) fn put_ask(line: &mut Writer, ask: &Ask) -> Result<(), AllocError>
    ensures before { line.new.before ≡ line.old.before }
    ensures tokens { OnOk result (line.new.tokens ≡ line.old.tokens
        ++ key (codes "ask") ∷ function_call (ask_name ask.now) (ask_arguments ask.now)) }
{
    line.key("ask")?;
    line.begin_object()?;
    line.key(name_of_ask(ask))?;
    line.begin_object()?;
    put_ask_arguments(line, ask)?;
    line.end_object()?;
    line.end_object()
}
