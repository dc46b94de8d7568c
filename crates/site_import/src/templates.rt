//! The templates of a site file.
ghost use Rattle.std.specs.Prelude.{◌≡◌, ◌≢◌, Ok, Err, IfOk, IfErr, option_map};
ghost use Rattle.serde_json.specs.View.{view, members_view};
ghost use Rattle.template_trees.specs.Trees.{template_of};
ghost use Rattle.site_import.specs.Walks.{Reads, each_from, section_of, members_of};
ghost use Rattle.site_import.specs.Templates.{template_at, templates_of};

use crate::fault::{ImportFault, Place, Section};
use plain_data::{Listed, Text};
use serde_json::{Map, Value};
use std::alloc::Global;
use template_trees::{Template, TemplateFault, read_template, template_text};

fn read_tree(
    alloc: Global,
    name: &str,
    value: &Value,
    entry: usize,
) -> Result<Template, ImportFault>
    ensures ok { IfOk result (λ template. template_of name.now (view value.now) ≡ Ok template) }
    ensures err { IfErr result (λ fault. fault ≢ ImportFault.OutOfMemory
        → template_at entry (name.now, view value.now) ≡ Err fault) }
{
    let place = Place::entry_of(Section::Templates, entry);
    match read_template(alloc, name, value) {
        Ok(template) => Ok(template),
        Err(TemplateFault::BadTemplate) => Err(ImportFault::BadTemplate(place)),
        Err(TemplateFault::TooLarge) => Err(ImportFault::TooLarge(place)),
        Err(TemplateFault::OutOfMemory) => Err(ImportFault::OutOfMemory),
    }
}

fn read_one(
    alloc: Global,
    name: &str,
    value: &Value,
    entry: usize,
) -> Result<(Text, Text), ImportFault>
    ensures { Reads (template_at entry (name.now, view value.now)) result }
{
    let _template = read_tree(alloc, name, value, entry)?;
    let text = template_text(alloc, value)?;
    Ok((Text::copied(alloc, name)?, text))
}

fn read_each(
    alloc: Global,
    members: &Map<String, Value>,
) -> Result<Listed<(Text, Text)>, ImportFault>
    ensures { Reads (each_from template_at 0 (members_of (members_view members.now.entries)))
        result }
{
    let count = members.len();
    let mut pairs = Listed::empty(alloc);
    let mut entry = 0;
    for (name, value) in members {
        pairs.push(read_one(alloc, name.as_str(), value, entry)?)?;
        entry += 1;
    }
    prove!(entry == count);
    Ok(pairs)
}

#[tactic(auto, unfolding(crate::specs::Templates::templates_of))]
fn read_section(alloc: Global, value: &Value) -> Result<Listed<(Text, Text)>, ImportFault>
    ensures { Reads (templates_of (view value.now)) result }
{
    let Some(members) = value.as_object() else {
        return Err(ImportFault::BadImport(Place::whole(Section::Templates)));
    };
    read_each(alloc, members)
}

/// Reads the section `templates` of a site file, which may be missing.
pub(crate) fn read_templates(
    alloc: Global,
    found: Option<&Value>,
) -> Result<Listed<(Text, Text)>, ImportFault>
    ensures { Reads (section_of templates_of (option_map (λ v. view v.now) found.entry)) result }
{
    match found {
        Some(value) => read_section(alloc, value),
        None => Ok(Listed::empty(alloc)),
    }
}
