//! What a bundled callback reads of its call, and how it makes texts and replies.
ghost use Rattle.std.specs.Prelude.{◌≡◌, ◌++◌, IfOk, OnOk, codes, flat_map};
ghost use Rattle.bundled_plugins.specs.Calls.{first_argument, second_argument, text_in};
ghost use Rattle.bundled_plugins.specs.Calls.{text_of_answer};
ghost use Rattle.bundled_plugins.specs.Calls.{text_of_answers};
ghost use Rattle.hook_changes.specs.Replies.{answers_text};

use hook_changes::{Answer, Call, Reply, Text};
use itoa::Buffer;
use std::alloc::{AllocError, Global};

/// Returns the first argument, or empty text if there is none.
pub fn first_argument(call: &Call) -> &str
    ensures { result.now ≡ first_argument call.entry.now.args }
{
    match call.args.as_slice() {
        [] => "",
        [first, ..] => first.as_str(),
    }
}

/// Returns the second argument, or empty text if there is none.
pub fn second_argument(call: &Call) -> &str
    ensures { result.now ≡ second_argument call.entry.now.args }
{
    match call.args.as_slice() {
        [_, second, ..] => second.as_str(),
        _ => "",
    }
}

/// Returns the text of an answer, or empty text if the answer isn't a text.
pub fn text_in(answer: &Answer) -> &str
    ensures { result.now ≡ text_in answer.entry.now }
{
    match answer {
        Answer::Text(text) => text.as_str(),
        _ => "",
    }
}

/// Appends these texts to a text.
pub fn push_all(text: &mut Text, parts: &[&str]) -> Result<(), AllocError>
    ensures { OnOk result (text.new ≡ text.old ++ flat_map (λ part. part.now) parts.now) }
{
    for part in parts {
        text.push_str(part)?;
    }
    Ok(())
}

/// Joins texts.
pub fn joined(alloc: Global, parts: &[&str]) -> Result<Text, AllocError>
    ensures { IfOk result (λ text. text ≡ flat_map (λ part. part.now) parts.now) }
{
    let mut text = Text::empty(alloc);
    push_all(&mut text, parts)?;
    Ok(text)
}

/// Appends an answer to a text, as it is shown: a text as it is, a number in decimal, a flag as `1`
/// or `0`, and the answer to an action as `-`.
pub fn show(text: &mut Text, answer: &Answer) -> Result<(), AllocError>
    ensures { OnOk result (text.new ≡ text.old ++ text_of_answer answer.now) }
{
    match answer {
        Answer::Text(shown) => text.push_str(shown.as_str()),
        Answer::Number(number) => text.push_str(Buffer::new().format(*number)),
        Answer::Flag(flag) => text.push_str(if *flag { "1" } else { "0" }),
        Answer::Nothing => text.push_str("-"),
    }
}

/// Joins answers, each as [`show`] writes it, with commas between them.
pub fn listed(alloc: Global, answers: &[Answer]) -> Result<Text, AllocError>
    ensures { IfOk result (λ text. text ≡ text_of_answers answers.now) }
{
    let mut text = Text::empty(alloc);
    if let Some((first, more)) = answers.split_first() {
        show(&mut text, first)?;
        show_more(&mut text, more)?;
    }
    Ok(text)
}

/// Appends further answers to a text, each with a comma before it.
fn show_more(text: &mut Text, answers: &[Answer]) -> Result<(), AllocError>
    ensures { OnOk result (text.new ≡ text.old
        ++ flat_map (λ next. codes "," ++ text_of_answer next) answers.now) }
{
    for answer in answers {
        text.push_str(",")?;
        show(text, answer)?;
    }
    Ok(())
}

/// Makes a reply that answers these texts, joined, and does nothing else.
pub fn answer(alloc: Global, parts: &[&str]) -> Result<Reply, AllocError>
    ensures { IfOk result (λ reply. reply ≡ answers_text (flat_map (λ part. part.now) parts.now)) }
{
    Ok(Reply::answer(alloc, joined(alloc, parts)?))
}
