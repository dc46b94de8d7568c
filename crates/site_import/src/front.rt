//! What a site file says about the front.
ghost use Rattle.std.specs.Prelude.{◌≡◌, IfOk, option_map};
ghost use Rattle.serde_json.specs.View.{view};
ghost use Rattle.site_import.specs.Walks.{Reads, section_of};
ghost use Rattle.site_import.specs.Front.{shown_in, options_for, front_of};

use crate::fault::{ImportFault, Place, Section};
use itoa::Buffer;
use plain_data::{Listed, Text};
use serde_json::Value;
use site_values::{id_at, text_at};
use std::alloc::{AllocError, Global};

/// What a front shows: posts, or the page with an ID.
#[derive(Clone, Copy)]
pub(crate) enum FrontShown {
    Posts,
    Page(u32),
}

fn read_shown(value: &Value) -> Option<FrontShown>
    ensures { result ≡ shown_in (view value.now) }
{
    match text_at(value, "show")? {
        "posts" => Some(FrontShown::Posts),
        "page" => Some(FrontShown::Page(id_at(value, "page")?)),
        _ => None,
    }
}

/// Returns the options that say what the front shows.
fn options_for(alloc: Global, shown: FrontShown) -> Result<Listed<(Text, Text)>, AllocError>
    ensures { IfOk result (λ options. options ≡ options_for shown) }
{
    let mut options = Listed::empty(alloc);
    match shown {
        FrontShown::Posts => options.push(option(alloc, "show_on_front", "posts")?)?,
        FrontShown::Page(id) => {
            options.push(option(alloc, "show_on_front", "page")?)?;
            options.push(option(alloc, "page_on_front", Buffer::new().format(id))?)?;
        }
    }
    Ok(options)
}

fn option(alloc: Global, name: &str, value: &str) -> Result<(Text, Text), AllocError>
    ensures { IfOk result (λ option. option ≡ (name.now, value.now)) }
{
    Ok((Text::copied(alloc, name)?, Text::copied(alloc, value)?))
}

#[tactic(auto, unfolding(crate::specs::Front::front_of))]
fn read_section(alloc: Global, value: &Value) -> Result<Listed<(Text, Text)>, ImportFault>
    ensures { Reads (front_of (view value.now)) result }
{
    let Some(shown) = read_shown(value) else {
        return Err(ImportFault::BadImport(Place::whole(Section::Front)));
    };
    Ok(options_for(alloc, shown)?)
}

/// Reads the section `front` of a site file, which may be missing, as the options that it sets.
pub(crate) fn read_front(
    alloc: Global,
    found: Option<&Value>,
) -> Result<Listed<(Text, Text)>, ImportFault>
    ensures { Reads (section_of front_of (option_map (λ v. view v.now) found.entry)) result }
{
    match found {
        Some(value) => read_section(alloc, value),
        None => Ok(Listed::empty(alloc)),
    }
}
