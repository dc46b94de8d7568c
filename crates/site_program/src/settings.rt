//! What the pages of a site need of its options and templates.
ghost use Rattle.std.specs.Prelude.{◌≡◌, [], codes, IfOk, map, unwrap_or};
ghost use Rattle.site_records.specs.Texts.{text_named};
ghost use Rattle.site_records.specs.Sorted.{AreSorted};
ghost use Rattle.template_parts.specs.Choice.{template_choice};
ghost use Rattle.site_program.specs.Requests.{template_for, settings_for};

use plain_data::{Shared, Text};
use site_records::{FoundKind, sorted_named};
use site_store::Templates;
use std::alloc::{AllocError, Global};
use template_parts::{Settings, choose};
use template_trees::Template;

/// Makes the settings of a page for what was found, from these options and templates.
pub(crate) fn settings_for(
    alloc: Global,
    kind: FoundKind,
    options: &[(Text, Text)],
    templates: &mut Templates,
) -> Result<Settings, AllocError>
    requires { AreSorted options.now }
    ensures settings { IfOk result (λ settings. settings
        ≡ settings_for kind options.now templates.old) }
    ensures same { templates.new ≡ templates.old }
{
    Ok(Settings {
        site_name: site_name(alloc, options)?,
        template: template_for(alloc, kind, templates)?,
        header: templates.named(alloc, "header")?,
        footer: templates.named(alloc, "footer")?,
        content: templates.named(alloc, "content")?,
    })
}

/// Returns the option `blogname`, empty if it isn't set.
fn site_name(alloc: Global, options: &[(Text, Text)]) -> Result<Text, AllocError>
    requires { AreSorted options.now }
    ensures { IfOk result (λ name. name ≡ unwrap_or (text_named (codes "blogname") options.now)
        []) }
{
    match sorted_named(options, "blogname") {
        Some(name) => Text::copied(alloc, name),
        None => Ok(Text::empty(alloc)),
    }
}

/// Returns the template for what was found, or the default if none is stored.
fn template_for(
    alloc: Global,
    kind: FoundKind,
    templates: &mut Templates,
) -> Result<Shared<Template>, AllocError>
    ensures template { IfOk result (λ template. template ≡ template_for kind templates.old) }
    ensures same { templates.new ≡ templates.old }
{
    let chosen = choose(kind, templates.names());
    match templates.named(alloc, chosen)? {
        Some(template) => Ok(template),
        None => templates.default_index(alloc),
    }
}
