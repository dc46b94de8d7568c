//! What the callbacks of the plugin reply.
ghost use Rattle.std.specs.Prelude.{◌≡◌, ◌==◌, IfOk};
ghost use Rattle.std.specs.List.{list_any};
ghost use Rattle.snippets.specs.Snippets.{says, registers, draws, runs, gives, bracketed};
ghost use Rattle.snippets.specs.Snippets.{first_argument, is_filter, values_in};
ghost use Rattle.snippets.specs.Templates.{printed};
ghost use Rattle.hook_changes.specs.Replies.{answers_text, asks};
ghost use Rattle.hook_changes.specs.declared.reply.Ask.TheVariants.{GetOption};

use crate::printing::printed;
use crate::registering::registered;
use crate::shipped::{FIRST_SLOT, HANDLER, REGISTRAR};
use hook_changes::{Answer, Ask, Call, CallbackId, Reply, Text};
use std::alloc::{AllocError, Global};

/// Returns the reply of the plugin's callback with that number.
#[tactic(auto, unfolding(crate::specs::Snippets::says))]
pub fn snippet_reply(alloc: Global, id: CallbackId, call: &Call) -> Result<Reply, AllocError>
    ensures { IfOk result (λ reply. reply ≡ says id call.now) }
{
    match id.number() {
        REGISTRAR => register(alloc, call.answers.as_slice()),
        HANDLER => draw(alloc, call),
        number => run(alloc, number.saturating_sub(FIRST_SLOT), call),
    }
}

/// Asks for the list of snippets, and registers them.
fn register(alloc: Global, answers: &[Answer]) -> Result<Reply, AllocError>
    ensures { IfOk result (λ reply. reply ≡ registers answers.now) }
{
    match answers {
        [] => ask_option(alloc, Text::copied(alloc, "snippets")?),
        [Answer::Text(list), ..] => {
            let changes = registered(alloc, list.as_str())?;
            Ok(Reply::answer(alloc, Text::empty(alloc)).with_changes(changes))
        }
        _ => Ok(Reply::answer(alloc, Text::empty(alloc))),
    }
}

/// Asks for an option.
fn ask_option(alloc: Global, name: Text) -> Result<Reply, AllocError>
    ensures { IfOk result (λ reply. reply ≡ asks (GetOption name)) }
{
    Ok(Reply::ask(alloc, Ask::GetOption { name }))
}

/// Puts a tag in brackets: the name of the option that has its template.
fn bracketed(alloc: Global, tag: &str) -> Result<Text, AllocError>
    ensures { IfOk result (λ text. text ≡ bracketed tag.now) }
{
    Ok(Text::new(format!(in alloc; "[{tag}]")?))
}

/// Asks for a shortcode's template, and for the shortcodes in its content if that has a `[`; then
/// answers what the template prints.
fn draw(alloc: Global, call: &Call) -> Result<Reply, AllocError>
    ensures { IfOk result (λ reply. reply ≡ draws call.now call.now.answers) }
{
    match call.answers.as_slice() {
        [] => ask_option(alloc, bracketed(alloc, call.tag.as_str())?),
        [Answer::Text(template)] => {
            if has_bracket(call.content.as_str()) {
                let text = call.content.clone()?;
                return Ok(Reply::ask(alloc, Ask::Shortcodes { text }));
            }
            answer(alloc, template, call, call.content.as_str())
        }
        [Answer::Text(template), Answer::Text(content), ..] => {
            answer(alloc, template, call, content.as_str())
        }
        _ => Ok(Reply::answer(alloc, bracketed(alloc, call.tag.as_str())?)),
    }
}

/// Returns whether a text has a `[`. Without one it has no shortcodes.
fn has_bracket(text: &str) -> bool
    ensures { result ≡ list_any (λ c. c == 91) text.now }
{
    text.as_bytes().iter().any(|byte| *byte == b'[')
}

/// Answers what a template prints.
fn answer(alloc: Global, template: &Text, call: &Call, content: &str) -> Result<Reply, AllocError>
    ensures { IfOk result (λ reply.
        reply ≡ answers_text (printed template.now (values_in call.now) content.now)) }
{
    let text = printed(alloc, template.as_str(), call, content)?;
    Ok(Reply::answer(alloc, text))
}

/// Returns the first argument, or empty text if there is none.
fn first_argument(call: &Call) -> &str
    ensures { result.now ≡ first_argument call.entry.now.args }
{
    match call.args.as_slice() {
        [] => "",
        [first, ..] => first.as_str(),
    }
}

/// Returns whether the callbacks of a hook answer a value; those of every other hook print.
fn is_filter(hook: &str) -> bool
    ensures { result ≡ is_filter hook.now }
{
    hook == "the_title" || hook == "the_content" || hook == "do_shortcode_tag"
}

/// Answers a text to a filter, or prints it.
fn give(alloc: Global, hook: &str, text: Text) -> Reply
    ensures { result ≡ gives hook.now text }
{
    if is_filter(hook) {
        return Reply::answer(alloc, text);
    }
    Reply::answer(alloc, Text::empty(alloc)).with_echo(text)
}

/// Asks for the template of a hook at a priority, and then answers or prints what it prints.
fn run(alloc: Global, priority: u32, call: &Call) -> Result<Reply, AllocError>
    ensures { IfOk result (λ reply. reply ≡ runs priority call.now call.now.answers) }
{
    let hook = call.hook.as_str();
    let value = first_argument(call);
    match call.answers.as_slice() {
        [] => ask_option(alloc, Text::new(format!(in alloc; "{hook}:{priority}")?)),
        [Answer::Text(template), ..] => {
            let text = printed(alloc, template.as_str(), call, value)?;
            Ok(give(alloc, hook, text))
        }
        _ => Ok(Reply::answer(alloc, Text::copied(alloc, value)?)),
    }
}
