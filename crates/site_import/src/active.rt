//! The active plugins of a site file.
ghost use Rattle.std.specs.Prelude.{option_map, map};
ghost use Rattle.serde_json.specs.View.{view};
ghost use Rattle.site_import.specs.Walks.{Reads, each_from, section_of};
ghost use Rattle.site_import.specs.Active.{name_at, active_of};

use crate::fault::{ImportFault, Place, Section};
use plain_data::{Listed, Text};
use serde_json::Value;
use std::alloc::Global;

fn read_name(alloc: Global, value: &Value, entry: usize) -> Result<Text, ImportFault>
    ensures { Reads (name_at entry (view value.now)) result }
{
    let Some(name) = value.as_str() else {
        return Err(ImportFault::BadImport(Place::entry_of(Section::Active, entry)));
    };
    Ok(Text::copied(alloc, name)?)
}

fn read_each(alloc: Global, values: &[Value]) -> Result<Listed<Text>, ImportFault>
    ensures { Reads (each_from name_at 0 (map view values.now)) result }
{
    let mut names = Listed::empty(alloc);
    for (entry, value) in values.iter().enumerate() {
        names.push(read_name(alloc, value, entry)?)?;
    }
    Ok(names)
}

#[tactic(auto, using(crate::proofs::Walks::list_of_view), unfolding(crate::specs::Active::active_of))]
fn read_section(alloc: Global, value: &Value) -> Result<Listed<Text>, ImportFault>
    ensures { Reads (active_of (view value.now)) result }
{
    let Some(values) = value.as_array() else {
        return Err(ImportFault::BadImport(Place::whole(Section::Active)));
    };
    read_each(alloc, values.as_slice())
}

/// Reads the section `active` of a site file, which may be missing.
pub(crate) fn read_active(alloc: Global, found: Option<&Value>) -> Result<Listed<Text>, ImportFault>
    ensures { Reads (section_of active_of (option_map (λ v. view v.now) found.entry)) result }
{
    match found {
        Some(value) => read_section(alloc, value),
        None => Ok(Listed::empty(alloc)),
    }
}
