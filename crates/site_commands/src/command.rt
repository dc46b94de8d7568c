//! Commands, read from a line's tree.
ghost use Rattle.std.specs.Prelude.{◌≡◌, Some, option_map, codes};
ghost use Rattle.serde_json.specs.View.{view};
ghost use Rattle.site_values.specs.Tree.{with_found, text_at, text_or};
ghost use Rattle.site_commands.specs.Asked.{
  asked_by,
  put,
  command_of,
  put_of,
  edit_of,
  delete_of,
  option_of,
  activate_of,
  deactivate_of,
  template_of,
  import_of,
  get_of,
  begin_of,
  turns_of,
};

use serde_json::Value;
use site_records::{PostKind, PostStatus};
use site_values::{
    id_at, kind_named, number_at, option_named, status_given, status_named, text_at, text_given,
    text_or,
};

/// A command, over the texts of its tree. Sizes of texts and paths, dates, and whether a post or a
/// plugin is there, aren't checked here: the function that carries the command out refuses them by
/// name.
#[derive(Clone, Copy)]
pub enum Command<'v> {
    /// Store one more post or page.
    Put {
        /// A post if the line doesn't say.
        kind: PostKind,
        /// Published if the line doesn't say.
        status: PostStatus,
        /// Empty if the line doesn't say, as is the content.
        title: &'v str,
        content: &'v str,
        /// Any text: `site_records::PostDate` reads it.
        date: &'v str,
    },
    /// Change what is given of a post or page, and keep the rest. The kind can't be changed.
    Edit {
        /// 1 to 2,147,483,647.
        id: u32,
        status: Option<PostStatus>,
        title: Option<&'v str>,
        content: Option<&'v str>,
        /// Any text, as in `Put`.
        date: Option<&'v str>,
    },
    /// Delete a post or page.
    Delete {
        /// 1 to 2,147,483,647.
        id: u32,
    },
    /// Set an option.
    Option {
        /// 1 to 64 bytes.
        name: &'v str,
        value: &'v str,
    },
    /// Make a plugin active.
    Activate {
        plugin: &'v str,
    },
    /// Make a plugin inactive.
    Deactivate {
        plugin: &'v str,
    },
    /// Store a template, or remove it.
    Template {
        /// Any text: `template_trees::is_template_name` tells which ones are names.
        name: &'v str,
        /// `null` removes what is stored. `template_trees::read_template` reads any other value.
        body: &'v Value,
    },
    /// Add all that a site file holds.
    Import {
        /// Any value: `site_import::read_site_value` reads it.
        site: &'v Value,
    },
    /// Show the page of a path.
    Get {
        path: &'v str,
    },
    /// Open the page of a path.
    Begin {
        path: &'v str,
    },
    /// Give an open page up to `count` turns.
    Turns {
        /// 1 to 8.
        page: u32,
        /// 1 to 1,000,000.
        count: u32,
    },
}

// The largest number that an open page has.
const MAX_PAGE: u32 = 8;

// The most turns that a line gives.
const MAX_TURNS: u32 = 1_000_000;

/// Reads the command that a tree is, or returns `None` if it isn't one: the tree isn't an object,
/// its `cmd` isn't a text that names a command, or a key of that command is missing and has no
/// default, is of the wrong kind or out of its range. `null` is of the wrong kind for every such
/// key. Other keys are ignored. Does not allocate.
#[tactic(auto, unfolding(crate::specs::Asked::command_of))]
pub fn read_command(value: &Value) -> Option<Command<'_>>
    ensures { option_map asked_by result ≡ command_of (view value.now) }
{
    match text_at(value, "cmd")? {
        "put" => read_put(value),
        "edit" => read_edit(value),
        "delete" => read_delete(value),
        "option" => read_option(value),
        "activate" => read_activate(value),
        "deactivate" => read_deactivate(value),
        "template" => read_template(value),
        "import" => read_import(value),
        "get" => read_get(value),
        "begin" => read_begin(value),
        "turns" => read_turns(value),
        _ => None,
    }
}

#[tactic(auto, unfolding(crate::specs::Asked::put_of))]
fn read_put(value: &Value) -> Option<Command<'_>>
    ensures { option_map asked_by result ≡ put_of (view value.now) }
{
    let kind = kind_named(text_or(value, "kind", "post")?)?;
    let status = status_named(text_or(value, "status", "publish")?)?;
    read_put_of(value, kind, status)
}

// Reads the texts of a post or page of that kind and status.
fn read_put_of(value: &Value, kind: PostKind, status: PostStatus) -> Option<Command<'_>>
    ensures { option_map asked_by result
        ≡ with_found (text_or (codes "title") (codes "") (view value.now)) (λ title.
        with_found (text_or (codes "content") (codes "") (view value.now)) (λ content.
        with_found (text_at (codes "date") (view value.now)) (λ date.
        Some (put kind status title content date)))) }
{
    let title = text_or(value, "title", "")?;
    let content = text_or(value, "content", "")?;
    let date = text_at(value, "date")?;
    Some(Command::Put {
        kind,
        status,
        title,
        content,
        date,
    })
}

#[tactic(auto, unfolding(crate::specs::Asked::edit_of))]
fn read_edit(value: &Value) -> Option<Command<'_>>
    ensures { option_map asked_by result ≡ edit_of (view value.now) }
{
    let id = id_at(value, "id")?;
    let status = status_given(value)?;
    let title = text_given(value, "title")?;
    let content = text_given(value, "content")?;
    let date = text_given(value, "date")?;
    Some(Command::Edit {
        id,
        status,
        title,
        content,
        date,
    })
}

#[tactic(auto, unfolding(crate::specs::Asked::delete_of))]
fn read_delete(value: &Value) -> Option<Command<'_>>
    ensures { option_map asked_by result ≡ delete_of (view value.now) }
{
    let id = id_at(value, "id")?;
    Some(Command::Delete { id })
}

#[tactic(auto, unfolding(crate::specs::Asked::option_of))]
fn read_option(value: &Value) -> Option<Command<'_>>
    ensures { option_map asked_by result ≡ option_of (view value.now) }
{
    let name = option_named(text_at(value, "name")?)?;
    let value = text_at(value, "value")?;
    Some(Command::Option { name, value })
}

#[tactic(auto, unfolding(crate::specs::Asked::activate_of))]
fn read_activate(value: &Value) -> Option<Command<'_>>
    ensures { option_map asked_by result ≡ activate_of (view value.now) }
{
    let plugin = text_at(value, "plugin")?;
    Some(Command::Activate { plugin })
}

#[tactic(auto, unfolding(crate::specs::Asked::deactivate_of))]
fn read_deactivate(value: &Value) -> Option<Command<'_>>
    ensures { option_map asked_by result ≡ deactivate_of (view value.now) }
{
    let plugin = text_at(value, "plugin")?;
    Some(Command::Deactivate { plugin })
}

#[tactic(auto, unfolding(crate::specs::Asked::template_of))]
fn read_template(value: &Value) -> Option<Command<'_>>
    ensures { option_map asked_by result ≡ template_of (view value.now) }
{
    let name = text_at(value, "name")?;
    let body = value.get("body")?;
    Some(Command::Template { name, body })
}

#[tactic(auto, unfolding(crate::specs::Asked::import_of))]
fn read_import(value: &Value) -> Option<Command<'_>>
    ensures { option_map asked_by result ≡ import_of (view value.now) }
{
    let site = value.get("site")?;
    Some(Command::Import { site })
}

#[tactic(auto, unfolding(crate::specs::Asked::get_of))]
fn read_get(value: &Value) -> Option<Command<'_>>
    ensures { option_map asked_by result ≡ get_of (view value.now) }
{
    let path = text_at(value, "path")?;
    Some(Command::Get { path })
}

#[tactic(auto, unfolding(crate::specs::Asked::begin_of))]
fn read_begin(value: &Value) -> Option<Command<'_>>
    ensures { option_map asked_by result ≡ begin_of (view value.now) }
{
    let path = text_at(value, "path")?;
    Some(Command::Begin { path })
}

#[tactic(auto, unfolding(crate::specs::Asked::turns_of))]
fn read_turns(value: &Value) -> Option<Command<'_>>
    ensures { option_map asked_by result ≡ turns_of (view value.now) }
{
    let page = number_at(value, "page", MAX_PAGE)?;
    let count = number_at(value, "count", MAX_TURNS)?;
    Some(Command::Turns { page, count })
}
