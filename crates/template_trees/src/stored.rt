//! Templates as a site stores them: the compact JSON text of their body.
ghost use Rattle.std.specs.Prelude.{◌≡◌, ℕ, List, Ok, Some, IfOk, option_map};
ghost use Rattle.serde_json.specs.Read.{read};
ghost use Rattle.serde_json.specs.View.{view};
ghost use Rattle.serde_json.specs.Written.{compact_text};
ghost use Rattle.template_trees.specs.declared.tree.Template.{Template};
ghost use Rattle.template_trees.specs.Trees.{template_of, stored_template};

use crate::fault::TemplateFault;
use crate::read::read_template;
use crate::tree::Template;
use plain_data::Text;
use serde_json::Value;
use std::alloc::{AllocError, Global};

/// Writes a body as compact JSON text (RFC 8259), which is what a site stores of a template.
pub fn template_text(alloc: Global, value: &Value) -> Result<Text, AllocError>
    ensures compact { (name : List ℕ) → (template : Template)
        → template_of name (view value.now) ≡ Ok template
        → IfOk result (λ text. text ≡ compact_text (view value.now)) }
    ensures reads_back { (name : List ℕ) → (template : Template)
        → template_of name (view value.now) ≡ Ok template
        → IfOk result (λ text. stored_template name text ≡ Some template) }
{
    Ok(Text::new(value.to_string(alloc)?))
}

/// Reads a stored text as the template of that name, or returns `None` if it isn't one. It fails
/// only if memory runs out.
#[tactic(auto, unfolding(crate::specs::Trees::stored_template))]
pub fn read_stored(alloc: Global, name: &str, text: &str) -> Result<Option<Template>, AllocError>
    ensures { IfOk result (λ template. template ≡ stored_template name.now text.now) }
{
    let Some(value) = read_json(alloc, text)? else {
        return Ok(None);
    };
    match read_template(alloc, name, &value) {
        Ok(template) => Ok(Some(template)),
        Err(TemplateFault::OutOfMemory) => Err(AllocError),
        Err(_) => Ok(None),
    }
}

fn read_json(alloc: Global, text: &str) -> Result<Option<Value>, AllocError>
    ensures { IfOk result (λ value. option_map view value ≡ read text.now) }
{
    match Value::from_str(alloc, text) {
        Ok(value) => Ok(Some(value)),
        Err(e) if e.is_memory() => Err(AllocError),
        Err(_) => Ok(None),
    }
}
