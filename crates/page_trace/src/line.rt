//! The lines of a log.
ghost use Rattle.std.specs.Prelude.{◌≡◌, ◌++◌, ◌∷◌, [], option_map, OnOk, IfOk};
ghost use Rattle.json.specs.Print.{print};
ghost use Rattle.page_trace.specs.Line.{
  with_number,
  if_any,
  page_tokens,
  place_tokens,
  hook_tokens,
  plugin_name,
  callback_tokens,
  arguments_tokens,
  received_tokens,
  invoked_tokens,
  next_tokens,
  reply_tokens,
  invocation_tokens,
  outcome_tokens,
  end_tokens,
  invocation_line,
  end_line,
};
ghost use Rattle.std.specs.Prelude.{codes};

use crate::told::{PageEnd, Told};
use crate::values::{
    put_answers, put_ask, put_atts, put_callback_number, put_changes, put_named_text, put_number,
    put_number_if_any, put_priority, put_text_if_any, put_text_unless_empty, put_texts,
};
use hook_changes::{Call, Reply, Then};
use json::Writer;
use std::alloc::{AllocError, Global};

/// How many bytes a line has room for before it grows.
const ROOM: usize = 512;

/// Writes which page it is: its path, if that is known, and the number of an open page.
#[tactic(auto, unfolding(crate::specs::Line::page_tokens))]
fn put_page(line: &mut Writer, path: Option<&str>, number: Option<u32>) -> Result<(), AllocError>
    ensures before { line.new.before ≡ line.old.before }
    ensures tokens { OnOk result (line.new.tokens ≡ line.old.tokens
        ++ page_tokens (option_map (λ path. path.now) path.entry) number) }
{
    put_text_if_any(line, "page", path)?;
    put_number_if_any(line, "open", number)
}

/// Writes the item of the page under way, if it is known.
fn put_item(line: &mut Writer, item: Option<usize>) -> Result<(), AllocError>
    ensures before { line.new.before ≡ line.old.before }
    ensures tokens { OnOk result (line.new.tokens ≡ line.old.tokens
        ++ if_any (with_number (codes "item")) item) }
{
    match item {
        Some(item) => put_number(line, "item", item as u64),
        None => Ok(()),
    }
}

/// Writes where in the page an invocation was made.
#[tactic(auto, unfolding(crate::specs::Line::place_tokens))]
fn put_place(line: &mut Writer, told: &Told<'_>) -> Result<(), AllocError>
    ensures before { line.new.before ≡ line.old.before }
    ensures tokens { OnOk result (line.new.tokens ≡ line.old.tokens ++ place_tokens told.now) }
{
    put_number(line, "count", u64::from(told.count))?;
    put_item(line, told.item)?;
    put_number_if_any(line, "post", told.post)?;
    put_number(line, "depth", u64::from(told.depth))
}

/// Writes the hook or the tag of a call, and where it stands in the pass.
#[tactic(auto, unfolding(crate::specs::Line::hook_tokens))]
fn put_hook(line: &mut Writer, call: &Call, priority: Option<i32>) -> Result<(), AllocError>
    ensures before { line.new.before ≡ line.old.before }
    ensures tokens { OnOk result (line.new.tokens ≡ line.old.tokens
        ++ hook_tokens call.now priority) }
{
    match priority {
        Some(priority) => {
            put_named_text(line, "hook", call.hook.as_str())?;
            put_priority(line, priority)
        }
        None => put_named_text(line, "tag", call.tag.as_str()),
    }
}

/// Returns the name of a callback's plugin. Core's own callback has none.
fn name_of_plugin<'a>(plugin: Option<&'a str>) -> &'a str
    ensures { result.now ≡ plugin_name plugin.entry }
{
    match plugin {
        Some(name) => name,
        None => "core",
    }
}

/// Writes the callback and its plugin.
#[tactic(auto, unfolding(crate::specs::Line::callback_tokens))]
fn put_callback(line: &mut Writer, told: &Told<'_>) -> Result<(), AllocError>
    ensures before { line.new.before ≡ line.old.before }
    ensures tokens { OnOk result (line.new.tokens ≡ line.old.tokens ++ callback_tokens told.now) }
{
    put_named_text(line, "plugin", name_of_plugin(told.plugin))?;
    put_callback_number(line, told.callback)
}

/// Writes the arguments of a hook's callback, or the attributes and the content of a shortcode.
#[tactic(auto, unfolding(crate::specs::Line::arguments_tokens))]
fn put_arguments(line: &mut Writer, call: &Call, priority: Option<i32>) -> Result<(), AllocError>
    ensures before { line.new.before ≡ line.old.before }
    ensures tokens { OnOk result (line.new.tokens ≡ line.old.tokens
        ++ arguments_tokens call.now priority) }
{
    match priority {
        Some(_) => put_texts(line, "args", call.args.as_slice()),
        None => {
            put_atts(line, &call.atts)?;
            put_named_text(line, "content", call.content.as_str())
        }
    }
}

/// Writes what a callback received.
#[tactic(auto, unfolding(crate::specs::Line::received_tokens))]
fn put_received(line: &mut Writer, call: &Call, priority: Option<i32>) -> Result<(), AllocError>
    ensures before { line.new.before ≡ line.old.before }
    ensures tokens { OnOk result (line.new.tokens ≡ line.old.tokens
        ++ received_tokens call.now priority) }
{
    put_arguments(line, call, priority)?;
    put_answers(line, call.answers.as_slice())
}

/// Writes how a callback goes on.
#[tactic(auto, unfolding(crate::specs::Line::next_tokens))]
fn put_next(line: &mut Writer, next: &Then) -> Result<(), AllocError>
    ensures before { line.new.before ≡ line.old.before }
    ensures tokens { OnOk result (line.new.tokens ≡ line.old.tokens ++ next_tokens next.now) }
{
    match next {
        Then::Answer(text) => put_named_text(line, "answer", text.as_str()),
        Then::Ask(ask) => put_ask(line, ask),
    }
}

/// Writes what a callback replied.
#[tactic(auto, unfolding(crate::specs::Line::reply_tokens))]
fn put_reply(line: &mut Writer, reply: &Reply) -> Result<(), AllocError>
    ensures before { line.new.before ≡ line.old.before }
    ensures tokens { OnOk result (line.new.tokens ≡ line.old.tokens ++ reply_tokens reply.now) }
{
    put_text_unless_empty(line, "echo", reply.echo.as_str())?;
    put_changes(line, reply.changes.as_slice())?;
    put_next(line, &reply.next)
}

/// Writes what a callback replied, if it has replied.
fn put_reply_if_any(line: &mut Writer, reply: Option<&Reply>) -> Result<(), AllocError>
    ensures before { line.new.before ≡ line.old.before }
    ensures tokens { OnOk result (line.new.tokens ≡ line.old.tokens
        ++ if_any reply_tokens (option_map (λ reply. reply.now) reply.entry)) }
{
    match reply {
        Some(reply) => put_reply(line, reply),
        None => Ok(()),
    }
}

/// Writes which callback was invoked, and where.
#[tactic(auto, unfolding(crate::specs::Line::invoked_tokens))]
fn put_invoked(
    line: &mut Writer,
    path: Option<&str>,
    number: Option<u32>,
    told: &Told<'_>,
) -> Result<(), AllocError>
    ensures before { line.new.before ≡ line.old.before }
    ensures tokens { OnOk result (line.new.tokens ≡ line.old.tokens
        ++ invoked_tokens (option_map (λ path. path.now) path.entry) number told.now) }
{
    put_page(line, path, number)?;
    put_place(line, told)?;
    put_hook(line, told.call, told.priority)?;
    put_callback(line, told)
}

/// Writes an invocation as an object.
#[tactic(auto, unfolding(crate::specs::Line::invocation_tokens))]
fn put_invocation(
    line: &mut Writer,
    path: Option<&str>,
    number: Option<u32>,
    told: &Told<'_>,
) -> Result<(), AllocError>
    ensures before { line.new.before ≡ line.old.before }
    ensures tokens { OnOk result (line.new.tokens ≡ line.old.tokens
        ++ invocation_tokens (option_map (λ path. path.now) path.entry) number told.now) }
{
    line.begin_object()?;
    put_invoked(line, path, number, told)?;
    put_received(line, told.call, told.priority)?;
    put_reply_if_any(line, told.reply)?;
    line.end_object()
}

/// Writes what a page came to.
#[tactic(auto, unfolding(crate::specs::Line::outcome_tokens))]
fn put_outcome(line: &mut Writer, end: PageEnd) -> Result<(), AllocError>
    ensures before { line.new.before ≡ line.old.before }
    ensures tokens { OnOk result (line.new.tokens ≡ line.old.tokens ++ outcome_tokens end) }
{
    match end {
        PageEnd::Printed { status, bytes } => {
            put_number(line, "status", u64::from(status))?;
            put_number(line, "bytes", bytes as u64)
        }
        PageEnd::Refused { number, name } => {
            put_number(line, "refused", u64::from(number))?;
            put_named_text(line, "name", name)
        }
    }
}

/// Writes the end of a page as an object.
#[tactic(auto, unfolding(crate::specs::Line::end_tokens))]
fn put_end(
    line: &mut Writer,
    path: Option<&str>,
    number: Option<u32>,
    end: PageEnd,
    invocations: u32,
) -> Result<(), AllocError>
    ensures before { line.new.before ≡ line.old.before }
    ensures tokens { OnOk result (line.new.tokens ≡ line.old.tokens
        ++ end_tokens (option_map (λ path. path.now) path.entry) number end invocations) }
{
    line.begin_object()?;
    put_page(line, path, number)?;
    put_outcome(line, end)?;
    put_number(line, "invocations", u64::from(invocations))?;
    line.end_object()
}

/// Begins a line.
fn begun(alloc: Global) -> Result<Writer, AllocError>
    ensures before { IfOk result (λ line. line.before ≡ []) }
    ensures tokens { IfOk result (λ line. line.tokens ≡ []) }
{
    Ok(Writer::new(Vec::with_capacity(alloc, ROOM)?))
}

/// Returns the bytes of a line, with a newline after them.
fn ended(line: Writer) -> Result<Vec<u8>, AllocError>
    ensures { IfOk result (λ bytes. bytes.items ≡ line.before ++ print line.tokens ++ 10 ∷ []) }
{
    let mut bytes = line.into_inner();
    bytes.push(b'\n')?;
    Ok(bytes)
}

/// Makes the line of an invocation.
pub(crate) fn invocation_line(
    alloc: Global,
    path: Option<&str>,
    number: Option<u32>,
    told: &Told<'_>,
) -> Result<Vec<u8>, AllocError>
    ensures { IfOk result (λ line. line.items
        ≡ invocation_line (option_map (λ path. path.now) path.entry) number told.now) }
{
    let mut line = begun(alloc)?;
    put_invocation(&mut line, path, number, told)?;
    ended(line)
}

/// Makes the line of a page's end.
pub(crate) fn end_line(
    alloc: Global,
    path: Option<&str>,
    number: Option<u32>,
    end: PageEnd,
    invocations: u32,
) -> Result<Vec<u8>, AllocError>
    ensures { IfOk result (λ line. line.items
        ≡ end_line (option_map (λ path. path.now) path.entry) number end invocations) }
{
    let mut line = begun(alloc)?;
    put_end(&mut line, path, number, end, invocations)?;
    ended(line)
}
