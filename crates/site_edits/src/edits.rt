//! The commands that change posts, options and active plugins.
ghost use Rattle.std.specs.Prelude.{◌≡◌, option_map, true, false, nat_le, length};
ghost use Rattle.callback_store.specs.Shape.{shapes_of};
ghost use Rattle.site_values.specs.Limits.{fits};
ghost use Rattle.site_edits.specs.Edits.{put, edit, edited, delete, set_option, set_active};
ghost use Rattle.site_edits.specs.Edits.{if_given};
ghost use Rattle.site_edits.specs.Carried.{CarriesOut};
ghost use Rattle.post_tables.specs.Rows.{edit_by};

use callback_store::{Plugins, Stated};
use post_tables::{PostDate, PostKind, PostStatus, StoreFault, Tables, TablesFault};
use site_replies::{Refusal, SiteReply};
use site_values::{MAX_CONTENT, MAX_TITLE, MAX_VALUE};

fn fits_if_given(text: Option<&str>, most: usize) -> bool
    ensures { result ≡ if_given (fits most) (option_map (λ t. t.now) text.entry) }
{
    match text {
        Some(text) => text.len() <= most,
        None => true,
    }
}

/// Stores one more post, and replies with its ID. Refused as `TooLarge`, `BadDate` or `IdsUsedUp`.
#[tactic(auto, unfolding(crate::specs::Edits::put))]
pub fn put(
    tables: &mut Tables,
    kind: PostKind,
    status: PostStatus,
    title: &str,
    content: &str,
    date: &str,
) -> Result<SiteReply, StoreFault>
    ensures { CarriesOut tables.old (put tables.old kind status title.now content.now date.now)
        result tables.new }
{
    if title.len() > MAX_TITLE || content.len() > MAX_CONTENT {
        return Ok(SiteReply::Refused(Refusal::TooLarge));
    }
    let Some(date) = PostDate::read(date) else {
        return Ok(SiteReply::Refused(Refusal::BadDate));
    };
    match tables.put_post(kind, status, title, content, &date) {
        Ok(id) => Ok(SiteReply::OkId(id)),
        Err(TablesFault::IdsUsedUp) => Ok(SiteReply::Refused(Refusal::IdsUsedUp)),
        Err(fault) => Err(StoreFault::from(fault)),
    }
}

/// Replaces the given fields of a post, and keeps the others. Refused as `TooLarge`, `BadDate` or
/// `NoSuchPost`.
#[tactic(auto, unfolding(crate::specs::Edits::edit))]
pub fn edit(
    tables: &mut Tables,
    id: u32,
    status: Option<PostStatus>,
    title: Option<&str>,
    content: Option<&str>,
    date: Option<&str>,
) -> Result<SiteReply, StoreFault>
    ensures { CarriesOut tables.old
        (edit tables.old id (edit_by status title.entry content.entry date.entry))
        result tables.new }
{
    if !fits_if_given(title, MAX_TITLE) || !fits_if_given(content, MAX_CONTENT) {
        return Ok(SiteReply::Refused(Refusal::TooLarge));
    }
    let Some(date) = date else {
        return edit_post(tables, id, status, title, content, None);
    };
    match PostDate::read(date) {
        Some(date) => edit_post(tables, id, status, title, content, Some(&date)),
        None => Ok(SiteReply::Refused(Refusal::BadDate)),
    }
}

/// Replaces the given fields of the post with the ID, and replies.
#[tactic(auto, unfolding(crate::specs::Edits::edited))]
fn edit_post(
    tables: &mut Tables,
    id: u32,
    status: Option<PostStatus>,
    title: Option<&str>,
    content: Option<&str>,
    date: Option<&PostDate>,
) -> Result<SiteReply, StoreFault>
    ensures { CarriesOut tables.old
        (edited tables.old id (edit_by status title.entry content.entry date.entry))
        result tables.new }
{
    match tables.edit_post(id, status, title, content, date) {
        Ok(()) => Ok(SiteReply::Ok),
        Err(TablesFault::NoSuchPost) => Ok(SiteReply::Refused(Refusal::NoSuchPost)),
        Err(fault) => Err(StoreFault::from(fault)),
    }
}

/// Deletes the post. Refused as `NoSuchPost`.
#[tactic(auto, unfolding(crate::specs::Edits::delete))]
pub fn delete(tables: &mut Tables, id: u32) -> Result<SiteReply, StoreFault>
    ensures { CarriesOut tables.old (delete tables.old id) result tables.new }
{
    match tables.delete_post(id) {
        Ok(()) => Ok(SiteReply::Ok),
        Err(TablesFault::NoSuchPost) => Ok(SiteReply::Refused(Refusal::NoSuchPost)),
        Err(fault) => Err(StoreFault::from(fault)),
    }
}

/// Sets the option to the value. Refused as `TooLarge`.
#[tactic(auto, unfolding(crate::specs::Edits::set_option))]
pub fn set_option(tables: &mut Tables, name: &str, value: &str) -> Result<SiteReply, StoreFault>
    ensures { CarriesOut tables.old (set_option tables.old name.now value.now) result tables.new }
{
    if value.len() > MAX_VALUE {
        return Ok(SiteReply::Refused(Refusal::TooLarge));
    }
    tables.set_option(name, value)?;
    Ok(SiteReply::Ok)
}

/// Activates or deactivates a plugin. Refused as `UnknownPlugin`.
#[tactic(auto, unfolding(crate::specs::Edits::set_active))]
pub fn set_active<S: Stated>(
    plugins: &Plugins<S>,
    tables: &mut Tables,
    plugin: &str,
    active: bool,
) -> Result<SiteReply, StoreFault>
    ensures { CarriesOut tables.old
        (set_active (shapes_of S.number plugins.now) tables.old plugin.now active)
        result tables.new }
{
    if plugins.load_of(plugin).is_none() {
        return Ok(SiteReply::Refused(Refusal::UnknownPlugin));
    }
    tables.set_active(plugin, active)?;
    Ok(SiteReply::Ok)
}
