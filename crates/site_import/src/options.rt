//! The options of a site file.
ghost use Rattle.std.specs.Prelude.{option_map};
ghost use Rattle.serde_json.specs.View.{view, members_view};
ghost use Rattle.site_import.specs.Walks.{Reads, each_from, section_of, members_of};
ghost use Rattle.site_import.specs.Options.{option_at, options_of};

use crate::fault::{ImportFault, Place, Section};
use plain_data::{Listed, Text};
use serde_json::{Map, Value};
use site_values::{MAX_VALUE, option_named};
use std::alloc::Global;

fn read_option(
    alloc: Global,
    name: &str,
    value: &Value,
    entry: usize,
) -> Result<(Text, Text), ImportFault>
    ensures { Reads (option_at entry (name.now, view value.now)) result }
{
    let place = Place::entry_of(Section::Options, entry);
    let Some(name) = option_named(name) else {
        return Err(ImportFault::BadImport(place));
    };
    let Some(text) = value.as_str() else {
        return Err(ImportFault::BadImport(place));
    };
    if text.len() > MAX_VALUE {
        return Err(ImportFault::TooLarge(place));
    }
    Ok((Text::copied(alloc, name)?, Text::copied(alloc, text)?))
}

fn read_each(
    alloc: Global,
    members: &Map<String, Value>,
) -> Result<Listed<(Text, Text)>, ImportFault>
    ensures { Reads (each_from option_at 0 (members_of (members_view members.now.entries))) result }
{
    let count = members.len();
    let mut pairs = Listed::empty(alloc);
    let mut entry = 0;
    for (name, value) in members {
        pairs.push(read_option(alloc, name.as_str(), value, entry)?)?;
        entry += 1;
    }
    prove!(entry == count);
    Ok(pairs)
}

#[tactic(auto, unfolding(crate::specs::Options::options_of))]
fn read_section(alloc: Global, value: &Value) -> Result<Listed<(Text, Text)>, ImportFault>
    ensures { Reads (options_of (view value.now)) result }
{
    let Some(members) = value.as_object() else {
        return Err(ImportFault::BadImport(Place::whole(Section::Options)));
    };
    read_each(alloc, members)
}

/// Reads the section `options` of a site file, which may be missing.
pub(crate) fn read_options(
    alloc: Global,
    found: Option<&Value>,
) -> Result<Listed<(Text, Text)>, ImportFault>
    ensures { Reads (section_of options_of (option_map (λ v. view v.now) found.entry)) result }
{
    match found {
        Some(value) => read_section(alloc, value),
        None => Ok(Listed::empty(alloc)),
    }
}
