//! The calls of callbacks: what a pass or a shortcode hands over, and what is stated in reply.
ghost use Rattle.std.specs.Prelude.{◌≡◌, ℕ, List, [], ◌++◌, ◌∷◌, IfOk, IsTrue, OnOk, length, take};
ghost use Rattle.shortcode_atts.specs.Attributes.{attributes, no_attributes};
ghost use Rattle.hook_meaning.specs.declared.pass_kind.PassKind.TheVariants.{Filter, Action};
ghost use Rattle.hook_machine.specs.Calls.{shortcode_call};
ghost use Rattle.hook_meaning.specs.Meaning.{value_after, hook_call, arguments, first_or_empty};
ghost use Rattle.hook_meaning.specs.Meaning.{reply_to_call};
ghost use Rattle.hook_machine.specs.Outcomes.{engine_over};

use callback_store::{Plugins, Stated};
use hook_changes::{Answer, Call, CallbackId, Listed, Reply, Text, Then};
use hook_meaning::PassKind;
use shortcode_atts::{Atts, parse};
use std::alloc::{AllocError, Global};
use std::mem;

/// Appends copies of texts.
fn with_copies(given: Vec<Text>, texts: &[Text]) -> Result<Vec<Text>, AllocError>
    ensures { IfOk result (λ all. all.items ≡ given.items ++ texts.now) }
{
    let mut all = given;
    for text in texts {
        all.push(text.clone()?)?;
    }
    Ok(all)
}

/// Appends a filter's first arguments: the value, and then copies of the others, `accepted` in all
/// at most.
fn filter_arguments(
    given: Vec<Text>,
    value: Text,
    args: &[Text],
    accepted: u8,
) -> Result<Vec<Text>, AllocError>
    requires { given.items ≡ [] }
    ensures { IfOk result (λ all. all.items ≡ take accepted (arguments Filter value args.now)) }
{
    let mut all = given;
    if accepted == 0 {
        return Ok(all);
    }
    all.push(value)?;
    if accepted == 1 {
        return Ok(all);
    }
    let mut all = with_copies(all, args)?;
    all.truncate(accepted as usize);
    Ok(all)
}

/// Appends copies of an action's first arguments, at most `accepted`. An action without arguments
/// has one empty text.
fn action_arguments(
    alloc: Global,
    given: Vec<Text>,
    args: &[Text],
    accepted: u8,
) -> Result<Vec<Text>, AllocError>
    requires { given.items ≡ [] }
    ensures { IfOk result (λ all. (value : List ℕ) → all.items
        ≡ take accepted (arguments Action value args.now)) }
{
    let mut all = with_copies(given, args)?;
    if all.is_empty() {
        all.push(Text::empty(alloc))?;
    }
    all.truncate(accepted as usize);
    Ok(all)
}

/// Returns whether there are no attributes.
fn has_none(atts: &Atts) -> bool
    ensures { IsTrue result → atts.now ≡ no_attributes }
{
    atts.pair(0).is_none() && atts.positional().is_empty()
}

/// Returns whether a call has none of the parts that only a shortcode's handler is given.
fn is_bare(call: &Call) -> bool
    ensures { IsTrue result → call.now ≡ record call.now {
      tag = [];
      atts = no_attributes;
      content =
          [];
    } }
{
    call.tag.as_str().is_empty() && call.content.as_str().is_empty() && has_none(&call.atts)
}

/// Clears the parts of a call that only a shortcode's handler is given. Most calls have none of them.
fn strip(alloc: Global, call: &mut Call)
    ensures { call.new ≡ record call.old { tag = []; atts = no_attributes; content = [] } }
{
    if is_bare(call) {
        return;
    }
    call.tag = Text::empty(alloc);
    call.atts = Atts::new(alloc);
    call.content = Text::empty(alloc);
}

/// Resets a call to that of a hook without arguments, and returns its old argument vector, emptied,
/// for reuse. The hook's name is copied only if it changes.
fn emptied(alloc: Global, call: &mut Call, hook: &str) -> Result<Vec<Text>, AllocError>
    ensures call { OnOk result (call.new ≡ hook_call hook.now []) }
    ensures room { IfOk result (λ room. room.items ≡ []) }
{
    if call.hook.as_str() != hook {
        call.hook = Text::copied(alloc, hook)?;
    }
    strip(alloc, call);
    call.answers = Listed::empty(alloc);
    let mut room = mem::replace(&mut call.args, Listed::empty(alloc)).into_vec();
    room.clear();
    Ok(room)
}

/// Makes a call without hook or arguments. Does not allocate.
pub fn empty_call(alloc: Global) -> Call
    ensures { result ≡ hook_call [] [] }
{
    Call {
        hook: Text::empty(alloc),
        args: Listed::empty(alloc),
        tag: Text::empty(alloc),
        atts: Atts::new(alloc),
        content: Text::empty(alloc),
        answers: Listed::empty(alloc),
    }
}

/// Returns whether a callback is given the value of a filter and nothing else.
fn takes_value_alone(kind: PassKind, accepted: u8) -> bool
    ensures { IsTrue result → (kind ≡ Filter) × (accepted ≡ 1) }
{
    match kind {
        PassKind::Filter => accepted == 1,
        PassKind::Action => false,
    }
}

/// Returns whether a call is that of a hook's callback with one argument, whatever it has of
/// answers.
fn has_one_argument(call: &Call, hook: &str) -> bool
    ensures { IsTrue result → (record call.now { answers = [] } ≡ hook_call hook.now call.now.args)
        × (length call.now.args ≡ 1) }
{
    let is_one = call.args.as_slice().len() == 1;
    is_one && call.hook.as_str() == hook && is_bare(call)
}

/// Turns a call into that of a hook's callback, with the first arguments that it accepts. A filter
/// needs its value no more until the callback has answered, so the value itself moves into the
/// call.
pub fn fill(
    alloc: Global,
    call: &mut Call,
    kind: PassKind,
    hook: &str,
    value: &mut Text,
    args: &[Text],
    accepted: u8,
) -> Result<(), AllocError>
    ensures call { OnOk result
        (call.new ≡ hook_call hook.now (take accepted (arguments kind value.old args.now))) }
    ensures kept { OnOk result ((answer : List ℕ)
        → value_after kind value.new answer ≡ value_after kind value.old answer) }
{
    if takes_value_alone(kind, accepted) && has_one_argument(call, hook) {
        let value = mem::replace(value, Text::empty(alloc));
        call.answers = Listed::empty(alloc);
        call.args.set(0, value);
        return Ok(());
    }
    let room = emptied(alloc, call, hook)?;
    match kind {
        PassKind::Filter => {
            let value = mem::replace(value, Text::empty(alloc));
            let all = filter_arguments(room, value, args, accepted)?;
            call.args = Listed::new(all);
            Ok(())
        }
        PassKind::Action => {
            let all = action_arguments(alloc, room, args, accepted)?;
            call.args = Listed::new(all);
            Ok(())
        }
    }
}

/// Returns whether a call has none of the parts that only a hook's callback is given, and no
/// answers.
fn is_hookless(call: &Call) -> bool
    ensures { IsTrue result → call.now ≡ record call.now { hook = []; args = []; answers = [] } }
{
    let args = call.args.as_slice().is_empty();
    args && call.hook.as_str().is_empty() && call.answers.as_slice().is_empty()
}

/// Clears the parts of a call that only a hook's callback is given, and the answers. If shortcodes
/// follow one another, there are none.
fn strip_hook(alloc: Global, call: &mut Call)
    ensures { call.new ≡ record call.old { hook = []; args = []; answers = [] } }
{
    if is_hookless(call) {
        return;
    }
    call.hook = Text::empty(alloc);
    call.args = Listed::empty(alloc);
    call.answers = Listed::empty(alloc);
}

/// Replaces attributes with those that a text spells. Most shortcodes have none.
fn set_attributes(alloc: Global, atts: &mut Atts, text: &str) -> Result<(), AllocError>
    ensures { OnOk result (atts.new ≡ attributes text.now) }
{
    if text.is_empty() && has_none(atts) {
        return Ok(());
    }
    *atts = parse(alloc, text)?;
    Ok(())
}

/// Turns a call into that of a shortcode's handler, given the text of its attributes. Its texts are
/// written in the memory of those before.
pub fn fill_handler(
    alloc: Global,
    call: &mut Call,
    tag: &str,
    atts: &str,
    content: &str,
) -> Result<(), AllocError>
    ensures { OnOk result (call.new ≡ shortcode_call tag.now (attributes atts.now) content.now) }
{
    call.tag.rewrite(tag)?;
    call.content.rewrite(content)?;
    set_attributes(alloc, &mut call.atts, atts)?;
    strip_hook(alloc, call);
    Ok(())
}

/// Returns the reply of a callback. That of a number which no plugin has is to answer empty text,
/// and nothing else.
#[inline]
pub fn reply_of<S: Stated>(
    plugins: &Plugins<S>,
    alloc: Global,
    callback: CallbackId,
    call: &Call,
) -> Result<Reply, AllocError>
    ensures { IfOk result (λ reply. reply ≡ reply_to_call (engine_over S.says S.number plugins.now)
        callback
        call.now) }
{
    match plugins.callback(callback) {
        Some(stored) => stored.answer(alloc, call),
        None => Ok(Reply {
            changes: Listed::empty(alloc),
            echo: Text::empty(alloc),
            next: Then::Answer(Text::empty(alloc)),
        }),
    }
}

/// Takes the first argument out of a call; returns empty text if there is none.
pub fn take_first_argument(alloc: Global, call: &mut Call) -> Text
    ensures { result ≡ first_or_empty call.old.args }
{
    let args = std::mem::replace(&mut call.args, Listed::empty(alloc));
    let mut args = args.into_vec();
    if args.is_empty() {
        return Text::empty(alloc);
    }
    let first = args.swap_remove(0);
    call.args = Listed::new(args);
    first
}

/// Appends an answer to those in a call.
pub fn add_answer(call: &mut Call, answer: Answer) -> Result<(), AllocError>
    ensures { OnOk result (call.new ≡ record call.old {
      answers = call.old.answers ++ answer
          ∷ [];
    }) }
{
    call.answers.push(answer)?;
    Ok(())
}
