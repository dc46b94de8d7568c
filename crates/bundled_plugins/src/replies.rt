//! What the bundled callbacks reply.
ghost use Rattle.std.specs.Prelude.{◌≡◌, ◌++◌, ◌∷◌, [], IfOk, OnOk, codes, length, map};
ghost use Rattle.std.specs.Prelude.{string_bytes, pos, ◌==◌};
ghost use Rattle.std.specs.List.{list_all};
ghost use Rattle.hook_changes.specs.declared.reply.Change.{Change};
ghost use Rattle.hook_changes.specs.declared.reply.Ask.{Ask};
ghost use Rattle.hook_changes.specs.Replies.{answers_text, changes_and_asks};
ghost use Rattle.bundled_plugins.specs.Calls.{text_of_answer};
ghost use Rattle.bundled_plugins.specs.Replies.{says, reply_in, the_title, asks_its_own_hook};
ghost use Rattle.bundled_plugins.specs.Replies.{replaces_content};
ghost use Rattle.bundled_plugins.specs.Replies.{attributes_listed, named_listed};
ghost use Rattle.bundled_plugins.specs.Replies.{positional_listed, link, asks_in_turn, is_run_of_d};
ghost use Rattle.bundled_plugins.specs.Replies.{in_parentheses};
ghost use Rattle.bundled_plugins.specs.Replies.{goes_deeper, counts_pings};
ghost use Rattle.bundled_plugins.specs.Rows.{replies_of, reply_of, AreStated, are_numbered_from};

use crate::calls::{answer, first_argument, joined, listed, push_all, show, text_in};
use crate::rows::{ChangeRow, ReplyRow, TextPart, changes_of, reply_of};
use hook_changes::{Answer, Ask, Atts, Call, CallbackId, CoreHook, Listed, Reply, Text};
use std::alloc::{AllocError, Global};

// Answers empty text, and does nothing else.
const EMPTY: ReplyRow = ReplyRow {
    number: 0,
    changes: &[],
    prints: &[],
    answers: &[],
};

// The replies of the callbacks, in the order of their numbers from 1 on, so that a row is found by
// its place. A callback that needs more than a row has a function of its own, and its row is empty.
const PLAIN: [ReplyRow; 31] = [
    // marks
    ReplyRow {
        number: 1,
        changes: &[],
        prints: &[],
        answers: &[TextPart::First, TextPart::Fixed("Y")],
    },
    ReplyRow {
        number: 2,
        changes: &[],
        prints: &[],
        answers: &[TextPart::First, TextPart::Fixed("X"), TextPart::Second],
    },
    // once
    ReplyRow {
        number: 3,
        changes: &[],
        prints: &[],
        answers: &[TextPart::First, TextPart::Fixed("1")],
    },
    ReplyRow {
        number: 4,
        changes: &[
            ChangeRow::Remove(CoreHook::TheTitle, 11, 4),
            ChangeRow::Add(CoreHook::TheTitle, 11, 4, 1),
        ],
        prints: &[],
        answers: &[TextPart::First, TextPart::Fixed("2")],
    },
    ReplyRow {
        number: 5,
        changes: &[],
        prints: &[],
        answers: &[TextPart::First, TextPart::Fixed("4")],
    },
    // nest
    ReplyRow {
        number: 6,
        changes: &[],
        prints: &[],
        answers: &[TextPart::First, TextPart::Fixed("1")],
    },
    ReplyRow { number: 7, ..EMPTY },
    ReplyRow {
        number: 8,
        changes: &[],
        prints: &[],
        answers: &[TextPart::First, TextPart::Fixed("3")],
    },
    ReplyRow {
        number: 9,
        changes: &[],
        prints: &[],
        answers: &[TextPart::First, TextPart::Fixed("4")],
    },
    // grow
    ReplyRow {
        number: 10,
        changes: &[
            ChangeRow::Add(CoreHook::TheTitle, 5, 11, 1),
            ChangeRow::Add(CoreHook::TheTitle, 10, 12, 1),
            ChangeRow::Add(CoreHook::TheTitle, 20, 13, 1),
        ],
        prints: &[],
        answers: &[TextPart::First, TextPart::Fixed("a")],
    },
    ReplyRow {
        number: 11,
        changes: &[],
        prints: &[],
        answers: &[TextPart::First, TextPart::Fixed("5")],
    },
    ReplyRow {
        number: 12,
        changes: &[],
        prints: &[],
        answers: &[TextPart::First, TextPart::Fixed("9")],
    },
    ReplyRow {
        number: 13,
        changes: &[],
        prints: &[],
        answers: &[TextPart::First, TextPart::Fixed("7")],
    },
    // args
    ReplyRow {
        number: 14,
        changes: &[],
        prints: &[],
        answers: &[TextPart::Fixed("n"), TextPart::Count],
    },
    ReplyRow {
        number: 15,
        changes: &[],
        prints: &[],
        answers: &[
            TextPart::First,
            TextPart::Fixed("("),
            TextPart::Count,
            TextPart::Fixed(" "),
            TextPart::Second,
            TextPart::Fixed(")"),
        ],
    },
    ReplyRow {
        number: 16,
        changes: &[],
        prints: &[
            TextPart::Fixed("["),
            TextPart::Count,
            TextPart::Fixed(":"),
            TextPart::First,
            TextPart::Fixed("]"),
        ],
        answers: &[],
    },
    // bold
    ReplyRow {
        number: 17,
        changes: &[],
        prints: &[],
        answers: &[
            TextPart::Fixed("<b>"),
            TextPart::Content,
            TextPart::Fixed("</b>"),
        ],
    },
    ReplyRow {
        number: 18,
        ..EMPTY
    },
    ReplyRow {
        number: 19,
        changes: &[],
        prints: &[],
        answers: &[TextPart::Fixed("[b]y[/b]")],
    },
    ReplyRow {
        number: 20,
        changes: &[ChangeRow::RemoveTag("b")],
        prints: &[],
        answers: &[],
    },
    ReplyRow {
        number: 21,
        changes: &[ChangeRow::RemoveAllTags],
        prints: &[],
        answers: &[],
    },
    ReplyRow {
        number: 22,
        changes: &[ChangeRow::RemoveAll(CoreHook::TheTitle, 10)],
        prints: &[],
        answers: &[],
    },
    // atts
    ReplyRow {
        number: 23,
        ..EMPTY
    },
    ReplyRow {
        number: 24,
        ..EMPTY
    },
    ReplyRow {
        number: 25,
        ..EMPTY
    },
    // deep
    ReplyRow {
        number: 26,
        ..EMPTY
    },
    // note
    ReplyRow {
        number: 27,
        changes: &[ChangeRow::Add(CoreHook::WpFooter, 10, 28, 1)],
        prints: &[],
        answers: &[TextPart::Fixed("<sup>*</sup>")],
    },
    ReplyRow {
        number: 28,
        changes: &[],
        prints: &[TextPart::Fixed("<p>note</p>")],
        answers: &[],
    },
    ReplyRow {
        number: 29,
        ..EMPTY
    },
    ReplyRow {
        number: 30,
        changes: &[],
        prints: &[TextPart::Fixed("E")],
        answers: &[TextPart::Fixed("A")],
    },
    // tagmark
    ReplyRow {
        number: 31,
        changes: &[],
        prints: &[],
        answers: &[
            TextPart::First,
            TextPart::Fixed("{"),
            TextPart::Second,
            TextPart::Fixed("}"),
        ],
    },
];

// Each reply is made apart from this function (never inline), so that none saves registers for the
// others. A reply is large, so few functions hand it on.

/// Returns the reply of the bundled callback with that number. Any other number answers empty text.
#[tactic(auto, unfolding(crate::specs::Replies::says))]
pub fn bundled_reply(alloc: Global, id: CallbackId, call: &Call) -> Result<Reply, AllocError>
    ensures { IfOk result (λ reply. reply ≡ says id call.now) }
{
    let answers = call.answers.as_slice();
    match id.number() {
        7 => ask_its_own_hook(alloc, first_argument(call), answers),
        18 => replace_content(alloc, &call.content, answers),
        23 => list_attributes(alloc, &call.atts),
        24 => link(alloc, &call.atts),
        25 => ask_in_turn(alloc, answers),
        26 => go_deeper(alloc, first_argument(call), answers),
        29 => count_pings(alloc, answers),
        number => reply_of(alloc, row_of(plain_rows(), number), call),
    }
}

/// Returns the rows. Its contract is the proof that they reply what is stated, and that each is at
/// the place of its number.
fn plain_rows() -> &'static [ReplyRow]
    ensures stated { AreStated result.now }
    ensures in_order { are_numbered_from 1 result.now }
{
    &PLAIN
}

/// Returns the row with that number, which is at its place, or an empty row if no row has it.
fn row_of(rows: &'static [ReplyRow], number: u32) -> &'static ReplyRow
    requires in_order { are_numbered_from 1 rows.now }
    ensures { (call : _) → reply_in (replies_of rows.now) number call ≡ reply_of result.now call }
{
    match number.checked_sub(1) {
        Some(place) => rows.get(place as usize).unwrap_or(&EMPTY),
        None => &EMPTY,
    }
}

/// Number 7 takes itself out and asks what the others make of an empty title, and then adds itself
/// again.
#[inline(never)]
fn ask_its_own_hook(alloc: Global, value: &str, answers: &[Answer]) -> Result<Reply, AllocError>
    ensures { IfOk result (λ reply. reply ≡ asks_its_own_hook value.now answers.now) }
{
    match answers {
        [] => ask_without_itself(alloc),
        [first, ..] => {
            let text = joined(alloc, &[value, "-", text_in(first), "-2"])?;
            let changes = changes_of(alloc, &[ChangeRow::Add(CoreHook::TheTitle, 11, 7, 1)])?;
            Ok(Reply::answer(alloc, text).with_changes(changes))
        }
    }
}

/// Number 7 takes itself out and asks what the others make of an empty title.
fn ask_without_itself(alloc: Global) -> Result<Reply, AllocError>
    ensures { IfOk result (λ reply. reply ≡ changes_and_asks
        (Change.Remove the_title (pos 11) 7 ∷ []) (Ask.Apply the_title [] [])) }
{
    let changes = changes_of(alloc, &[ChangeRow::Remove(CoreHook::TheTitle, 11, 7)])?;
    Ok(Reply::ask(alloc, title_pass(alloc, "")?).with_changes(changes))
}

/// Makes the ask `apply_filters` of `the_title` on a value, with no further arguments.
fn title_pass(alloc: Global, value: &str) -> Result<Ask, AllocError>
    ensures { IfOk result (λ ask. ask ≡ Ask.Apply the_title value.now []) }
{
    Ok(Ask::Apply {
        hook: Text::core(alloc, CoreHook::TheTitle),
        value: Text::copied(alloc, value)?,
        args: Listed::empty(alloc),
    })
}

/// Number 18 puts its content in italics, with the shortcodes in it replaced.
#[inline(never)]
fn replace_content(alloc: Global, content: &Text, answers: &[Answer]) -> Result<Reply, AllocError>
    ensures { IfOk result (λ reply. reply ≡ replaces_content content.now answers.now) }
{
    match answers {
        [] => {
            let text = content.clone()?;
            Ok(Reply::ask(alloc, Ask::Shortcodes { text }))
        }
        [first, ..] => answer(alloc, &["<i>", text_in(first), "</i>"]),
    }
}

/// Number 23 lists the attributes of its shortcode.
#[inline(never)]
fn list_attributes(alloc: Global, atts: &Atts) -> Result<Reply, AllocError>
    ensures { IfOk result (λ reply. reply ≡ answers_text (attributes_listed atts.now)) }
{
    let mut text = Text::empty(alloc);
    push_named(&mut text, atts)?;
    push_positional(&mut text, atts.positional())?;
    Ok(Reply::answer(alloc, text))
}

/// Appends the attributes with a name to a text.
fn push_named(text: &mut Text, atts: &Atts) -> Result<(), AllocError>
    ensures { OnOk result (text.new ≡ text.old ++ named_listed atts.now.named) }
{
    for at in 0..usize::MAX {
        let Some((name, value)) = atts.pair(at) else {
            return Ok(());
        };
        push_all(text, &[name, "=", value, ";"])?;
    }
    // No memory holds that many attributes.
    Err(AllocError)
}

/// Appends values without a name to a text.
fn push_positional(text: &mut Text, values: &[String]) -> Result<(), AllocError>
    ensures { OnOk result (text.new ≡ text.old ++ positional_listed (map string_bytes values.now)) }
{
    for value in values {
        push_all(text, &["#", value.as_str(), ";"])?;
    }
    Ok(())
}

/// Number 24 answers a link.
#[inline(never)]
fn link(alloc: Global, atts: &Atts) -> Result<Reply, AllocError>
    ensures { IfOk result (λ reply. reply ≡ answers_text (link atts.now)) }
{
    let address = atts.named("href").unwrap_or("#");
    let label = atts.named("label").unwrap_or("link");
    answer(alloc, &["<a href=\"", address, "\">", label, "</a>"])
}

/// Number 25 asks one question after another, and then lists the answers.
#[inline(never)]
fn ask_in_turn(alloc: Global, answers: &[Answer]) -> Result<Reply, AllocError>
    ensures { IfOk result (λ reply. reply ≡ asks_in_turn answers.now) }
{
    let question = match answers.len() {
        0 => Ask::Current,
        1 => Ask::Doing {
            hook: Text::core(alloc, CoreHook::TheContent),
        },
        2 => Ask::Did {
            hook: Text::core(alloc, CoreHook::Init),
        },
        3 => Ask::Has {
            hook: Text::core(alloc, CoreHook::TheContent),
            callback: Some(CallbackId::new(0)),
        },
        4 => Ask::TagExists {
            tag: Text::copied(alloc, "b")?,
        },
        5 => Ask::GetOption {
            name: Text::copied(alloc, "blogname")?,
        },
        _ => return Ok(Reply::answer(alloc, listed(alloc, &answers[..6])?)),
    };
    Ok(Reply::ask(alloc, question))
}

/// Number 26 asks what its own hook makes of one `d` fewer, and on `spin` asks without end.
#[inline(never)]
fn go_deeper(alloc: Global, value: &str, answers: &[Answer]) -> Result<Reply, AllocError>
    ensures { IfOk result (λ reply. reply ≡ goes_deeper value.now answers.now) }
{
    if value == "spin" {
        let hook = Text::core(alloc, CoreHook::Init);
        return Ok(Reply::ask(alloc, Ask::Did { hook }));
    }
    if !is_run_of_d(value) {
        return answer(alloc, &[value]);
    }
    in_parentheses(alloc, &value[1..], answers)
}

/// Returns whether a text is one or more `d` and nothing else.
fn is_run_of_d(text: &str) -> bool
    ensures { result ≡ is_run_of_d text.now }
{
    let some = !text.is_empty();
    some && is_all_d(text.as_bytes())
}

fn is_all_d(bytes: &[u8]) -> bool
    ensures { result ≡ list_all (λ byte. byte == 100) bytes.now }
{
    bytes.iter().all(|byte| *byte == b'd')
}

/// Asks what the hook makes of the shorter text, and then answers that in parentheses.
fn in_parentheses(alloc: Global, shorter: &str, answers: &[Answer]) -> Result<Reply, AllocError>
    ensures { IfOk result (λ reply. reply ≡ in_parentheses shorter.now answers.now) }
{
    match answers {
        [] => Ok(Reply::ask(alloc, title_pass(alloc, shorter)?)),
        [first, ..] => answer(alloc, &["(", text_in(first), ")"]),
    }
}

/// Number 29 fires the action `ping` and says how often it was fired.
#[inline(never)]
fn count_pings(alloc: Global, answers: &[Answer]) -> Result<Reply, AllocError>
    ensures { IfOk result (λ reply. reply ≡ counts_pings answers.now) }
{
    match answers {
        [] => Ok(Reply::ask(alloc, ping(alloc)?)),
        [_] => {
            let hook = Text::copied(alloc, "ping")?;
            Ok(Reply::ask(alloc, Ask::Did { hook }))
        }
        [_, second, ..] => answer_shown(alloc, second),
    }
}

/// Makes the ask `do_action` of `ping`, with no arguments.
fn ping(alloc: Global) -> Result<Ask, AllocError>
    ensures { IfOk result (λ ask. ask ≡ Ask.Act (codes "ping") []) }
{
    Ok(Ask::Act {
        hook: Text::copied(alloc, "ping")?,
        args: Listed::empty(alloc),
    })
}

/// Makes the reply that answers one of the engine's answers, as [`show`] writes it.
fn answer_shown(alloc: Global, found: &Answer) -> Result<Reply, AllocError>
    ensures { IfOk result (λ reply. reply ≡ answers_text (text_of_answer found.now)) }
{
    let mut text = Text::empty(alloc);
    show(&mut text, found)?;
    Ok(Reply::answer(alloc, text))
}
