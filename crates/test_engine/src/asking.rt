//! Test callbacks that ask, and one that shows what it is called with.
ghost use Rattle.std.specs.Prelude.{◌≡◌, ◌++◌, IfOk};
ghost use Rattle.hook_changes.specs.declared.reply.Ask.{Ask};
ghost use Rattle.hook_meaning.specs.Meaning.{first_or_empty};
ghost use Rattle.test_engine.specs.Asking.{after_one, second_or_empty, deeper_hook, plain_ask};
ghost use Rattle.test_engine.specs.Asking.{text_of_answer, first_ask, text_of_args, shows};
ghost use Rattle.test_engine.specs.Asking.{asks_or_shows, asking};

use crate::callbacks::first_argument;
use hook_changes::{Answer, Ask, Call, CallbackId, Listed, Reply, Text};
use std::alloc::{AllocError, Global};

/// Returns the reply of the callback with this number, one of those that ask or show.
pub fn asking(alloc: Global, number: u32, call: &Call) -> Result<Reply, AllocError>
    ensures { IfOk result (λ reply. reply ≡ asking number call.now) }
{
    if number == 207 {
        return shows(alloc, call.args.as_slice());
    }
    asks_or_shows(alloc, number, call)
}

/// Prints the arguments, and answers them.
fn shows(alloc: Global, args: &[Text]) -> Result<Reply, AllocError>
    ensures { IfOk result (λ reply. reply ≡ shows args.now) }
{
    let echo = listed(alloc, args)?;
    let text = echo.clone()?;
    Ok(Reply::answer(alloc, text).with_echo(echo))
}

/// Returns the arguments, each with a semicolon after it.
fn listed(alloc: Global, args: &[Text]) -> Result<Text, AllocError>
    ensures { IfOk result (λ text. text ≡ text_of_args args.now) }
{
    let mut text = Text::empty(alloc);
    for arg in args {
        text.push_str(arg.as_str())?;
        text.push_str(";")?;
    }
    Ok(text)
}

/// Asks, or else answers what the engine answered last.
fn asks_or_shows(alloc: Global, number: u32, call: &Call) -> Result<Reply, AllocError>
    ensures { IfOk result (λ reply. reply ≡ asks_or_shows number call.now.args call.now.answers) }
{
    let ask = match call.answers.as_slice() {
        [] => first_ask(alloc, number, call)?,
        [_] if number == 208 => Ask::Doing {
            hook: Text::copied(alloc, second_argument(call))?,
        },
        [told] | [_, told, ..] => return Ok(Reply::answer(alloc, shown(alloc, told)?)),
    };
    Ok(Reply::ask(alloc, ask))
}

fn shown(alloc: Global, answer: &Answer) -> Result<Text, AllocError>
    ensures { IfOk result (λ text. text ≡ text_of_answer answer.now) }
{
    match answer {
        Answer::Text(text) => text.clone(),
        Answer::Number(number) => Ok(Text::new(format!(in alloc; "{number}")?)),
        Answer::Flag(true) => Text::copied(alloc, "1"),
        Answer::Flag(false) => Text::copied(alloc, "0"),
        Answer::Nothing => Text::copied(alloc, "-"),
    }
}

/// Returns what is asked first: of the hook that the second argument names, with the further
/// arguments.
fn first_ask(alloc: Global, number: u32, call: &Call) -> Result<Ask, AllocError>
    ensures { IfOk result (λ ask. ask ≡ first_ask number call.now.args) }
{
    let value = first_argument(call);
    let name = second_argument(call);
    match number {
        201 => filter_ask(
            alloc,
            name,
            value,
            "",
            after_one(after_one(call.args.as_slice())),
        ),
        209 => filter_ask(
            alloc,
            deeper_hook(value, name),
            value,
            "x",
            after_one(call.args.as_slice()),
        ),
        _ => plain_ask(
            alloc,
            number,
            name,
            after_one(after_one(call.args.as_slice())),
        ),
    }
}

/// Makes the ask for a filter of a value with some letters after it.
fn filter_ask(
    alloc: Global,
    hook: &str,
    value: &str,
    letters: &str,
    args: &[Text],
) -> Result<Ask, AllocError>
    ensures { IfOk result (λ ask. ask ≡ Ask.Apply hook.now (value.now ++ letters.now) args.now) }
{
    let args = copies(alloc, args)?;
    let value = Text::new(format!(in alloc; "{value}{letters}")?);
    let hook = Text::copied(alloc, hook)?;
    Ok(Ask::Apply { hook, value, args })
}

fn plain_ask(alloc: Global, number: u32, hook: &str, args: &[Text]) -> Result<Ask, AllocError>
    ensures { IfOk result (λ ask. ask ≡ plain_ask number hook.now args.now) }
{
    let hook = Text::copied(alloc, hook)?;
    match number {
        203 => Ok(Ask::Has {
            hook,
            callback: None,
        }),
        204 => Ok(Ask::Has {
            hook,
            callback: Some(CallbackId::new(207)),
        }),
        205 => Ok(Ask::Doing { hook }),
        206 => Ok(Ask::Did { hook }),
        _ => Ok(Ask::Act {
            hook,
            args: copies(alloc, args)?,
        }),
    }
}

/// Returns the title's own hook while the value is shorter than 32 bytes, and then the hook that is
/// named.
fn deeper_hook<'a>(value: &str, name: &'a str) -> &'a str
    ensures { result.now ≡ deeper_hook value.now name.now }
{
    if value.len() < 32 { "the_title" } else { name }
}

fn second_argument(call: &Call) -> &str
    ensures { result.now ≡ second_or_empty call.entry.now.args }
{
    match call.args.as_slice() {
        [_, second, ..] => second.as_str(),
        _ => "",
    }
}

fn after_one(args: &[Text]) -> &[Text]
    ensures { result.now ≡ after_one args.entry.now }
{
    match args {
        [_, more @ ..] => more,
        _ => &[],
    }
}

/// Copies texts.
fn copies(alloc: Global, texts: &[Text]) -> Result<Listed<Text>, AllocError>
    ensures { IfOk result (λ copies. copies ≡ texts.now) }
{
    let mut copies = Listed::empty(alloc);
    for text in texts {
        copies.push(text.clone()?)?;
    }
    Ok(copies)
}
