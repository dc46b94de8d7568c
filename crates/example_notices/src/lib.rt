//! The plugin `notices`: a shortcode that draws a box round its content, and titles with their
//! post's ID before them.
//! docs/PLUGINS.md goes through it.
#![tactic(auto)]

ghost use Rattle.std.specs.Prelude.{◌≡◌, ◌∷◌, [], IfOk, map};
ghost use Rattle.shortcode_atts.specs.Attributes.{pair_bytes, with_defaults};
ghost use Rattle.callback_store.specs.Shape.{shape_of};
ghost use Rattle.example_notices.specs.Notices.{load, notices, notice, notice_html, defaults, boxed};
ghost use Rattle.example_notices.specs.Notices.{numbered};
ghost use Rattle.example_notices.specs.Numbers.{number_of};

use callback_store::{Plugin, Stated};
use hook_changes::{Answer, Ask, Atts, Call, CallbackId, Change, Listed, Reply, Text};
use page_escapes::escape_html;
use std::alloc::{AllocError, Global};

/// The callbacks of the plugin.
#[derive(Clone, Copy)]
pub enum Callback {
    /// Number 1001, the handler of `[notice kind="warning" label="Careful"]text[/notice]`.
    Notice,
    /// Number 1002, a filter on `the_title`.
    NumberedTitle,
}

impl Stated for Callback {
    ghost use Rattle.example_notices.specs.Notices.{says};
    ghost use Rattle.example_notices.specs.Numbers.{number_of};

    ghost says = { says };

    ghost number = { number_of };

    fn id(&self) -> CallbackId {
        match self {
            Callback::Notice => CallbackId::new(1001),
            Callback::NumberedTitle => CallbackId::new(1002),
        }
    }

    #[tactic(auto, unfolding(crate::specs::Notices::says))]
    fn answer(&self, alloc: Global, call: &Call) -> Result<Reply, AllocError> {
        match self {
            Callback::Notice => notice(alloc, call),
            Callback::NumberedTitle => {
                let title = numbered(alloc, call.args.as_slice())?;
                Ok(Reply::answer(alloc, title))
            }
        }
    }
}

/// Makes a list of this plugin alone.
pub fn listed(alloc: Global) -> Result<Listed<Plugin<Callback>>, AllocError>
    ensures { IfOk result (λ plugins. map (shape_of number_of) plugins ≡ notices ∷ []) }
{
    let mut callbacks = Listed::empty(alloc);
    callbacks.push(Callback::Notice)?;
    callbacks.push(Callback::NumberedTitle)?;
    let name = Text::copied(alloc, "notices")?;
    let load = load(alloc)?;
    let mut plugins = Listed::empty(alloc);
    plugins.push(Plugin {
        name,
        load,
        callbacks,
    })?;
    Ok(plugins)
}

/// Makes the load list: what each request begins with if the plugin is active.
fn load(alloc: Global) -> Result<Listed<Change>, AllocError>
    ensures { IfOk result (λ changes. changes ≡ load) }
{
    let mut changes = Listed::empty(alloc);
    changes.push(Change::AddTag {
        tag: Text::copied(alloc, "notice")?,
        callback: Callback::Notice.id(),
    })?;
    changes.push(Change::Add {
        hook: Text::copied(alloc, "the_title")?,
        priority: 10,
        callback: Callback::NumberedTitle.id(),
        accepted: 2,
    })?;
    Ok(changes)
}

/// Draws a box round the content, in which the shortcodes are replaced first.
fn notice(alloc: Global, call: &Call) -> Result<Reply, AllocError>
    ensures { IfOk result
        (λ reply. reply ≡ notice call.now.atts call.now.content call.now.answers) }
{
    match call.answers.as_slice() {
        [] => {
            let text = call.content.clone()?;
            Ok(Reply::ask(alloc, Ask::Shortcodes { text }))
        }
        [Answer::Text(replaced), ..] => {
            let html = notice_html(alloc, &call.atts, replaced.as_str())?;
            Ok(Reply::answer(alloc, html))
        }
        _ => Ok(Reply::answer(alloc, Text::empty(alloc))),
    }
}

/// Makes the box round a content.
fn notice_html(alloc: Global, atts: &Atts, content: &str) -> Result<Text, AllocError>
    ensures { IfOk result (λ html. html ≡ notice_html atts.now content.now) }
{
    let given = with_defaults(alloc, atts)?;
    match given.as_slice() {
        [(_, kind), (_, label)] => boxed(alloc, kind.as_str(), label.as_str(), content),
        _ => unreachable!(),
    }
}

/// Returns the attributes `kind` and `label`, or else their defaults.
fn with_defaults(alloc: Global, atts: &Atts) -> Result<Vec<(String, String)>, AllocError>
    ensures { IfOk result (λ pairs. map pair_bytes pairs.items ≡ with_defaults atts.now defaults) }
{
    atts.with_defaults(&[
        default(alloc, "kind", "info")?,
        default(alloc, "label", "Note")?,
    ])
}

fn default(alloc: Global, name: &str, value: &str) -> Result<(String, String), AllocError>
    ensures { IfOk result (λ pair. pair_bytes pair ≡ (name.now, value.now)) }
{
    let name = String::from_str(alloc, name)?;
    let value = String::from_str(alloc, value)?;
    Ok((name, value))
}

fn boxed(alloc: Global, kind: &str, label: &str, content: &str) -> Result<Text, AllocError>
    ensures { IfOk result (λ html. html ≡ boxed kind.now label.now content.now) }
{
    let kind = escape_html(alloc, kind)?;
    let label = escape_html(alloc, label)?;
    let kind = kind.as_str();
    let label = label.as_str();
    let html = format!(in alloc; "<div class=\"notice {kind}\"><b>{label}</b> {content}</div>")?;
    Ok(Text::new(html))
}

/// Puts the post's ID before a title, if the filter is given one.
fn numbered(alloc: Global, args: &[Text]) -> Result<Text, AllocError>
    ensures { IfOk result (λ title. title ≡ numbered args.now) }
{
    match args {
        [] => Ok(Text::empty(alloc)),
        [title] => title.clone(),
        [title, id, ..] => {
            let title = title.as_str();
            let id = id.as_str();
            Ok(Text::new(format!(in alloc; "{id}. {title}")?))
        }
    }
}
