//! The command that stores templates.
ghost use Rattle.serde_json.specs.View.{view};
ghost use Rattle.site_edits.specs.Templates.{set_template, without_template};
ghost use Rattle.site_edits.specs.Carried.{CarriesOut};

use post_tables::{StoreFault, Tables};
use serde_json::Value;
use site_replies::{Refusal, SiteReply};
use std::alloc::Global;
use template_trees::{TemplateFault, is_template_name, read_template, template_text};

/// Stores a template's body under its name, in place of any before; `null` removes the template.
/// Refused as `BadTemplate` or `TooLarge`.
#[tactic(auto, unfolding(crate::specs::Templates::set_template))]
pub fn set_template(
    alloc: Global,
    tables: &mut Tables,
    name: &str,
    body: &Value,
) -> Result<SiteReply, StoreFault>
    ensures { CarriesOut tables.old (set_template tables.old name.now (view body.now)) result
        tables.new }
{
    if body.is_null() {
        return remove_template(tables, name);
    }
    match read_template(alloc, name, body) {
        Ok(_) => {
            let text = template_text(alloc, body)?;
            tables.set_template(name, Some(text.as_str()))?;
            Ok(SiteReply::Ok)
        }
        Err(TemplateFault::BadTemplate) => Ok(SiteReply::Refused(Refusal::BadTemplate)),
        Err(TemplateFault::TooLarge) => Ok(SiteReply::Refused(Refusal::TooLarge)),
        Err(TemplateFault::OutOfMemory) => Err(StoreFault::OutOfMemory),
    }
}

fn remove_template(tables: &mut Tables, name: &str) -> Result<SiteReply, StoreFault>
    ensures { CarriesOut tables.old (without_template tables.old name.now) result tables.new }
{
    if !is_template_name(name) {
        return Ok(SiteReply::Refused(Refusal::BadTemplate));
    }
    tables.set_template(name, None)?;
    Ok(SiteReply::Ok)
}
