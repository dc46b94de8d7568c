//! The stored templates of a site, each with its tree once a page has used it.
ghost use Rattle.std.specs.Prelude.{◌≡◌, IfOk, find, map, option_map, bytes_eq};
ghost use Rattle.template_trees.specs.Trees.{default_index};
ghost use Rattle.site_store.specs.Stored.{template_named};

use plain_data::{Listed, Shared, Text};
use site_records::text_named;
use std::alloc::{AllocError, Global};
use std::marker::Model;
use template_trees::{Template, default_index, read_stored};

/// The stored templates of a site: their names with their texts, which is what contracts see.
///
/// The text of a template is read at the first use of its name, and the tree is kept from then on.
#[derive(Drop)]
pub struct Templates {
    texts: Listed<(Text, Text)>,
    names: Listed<Text>,
    /// For each name that was asked for, the template that is stored under it, if one is.
    trees: Listed<(Text, Option<Shared<Template>>)>,
    /// The template of a page for which none is stored, once a page has used it.
    default: Option<Shared<Template>>,
}

impl Model for Templates {
    ghost use Rattle.std.specs.Prelude.{◌≡◌, map, IfSome};
    ghost use Rattle.template_trees.specs.Trees.{default_index};
    ghost use Rattle.site_store.specs.Stored.{Texts};
    ghost use Rattle.site_store.specs.Kept.{AreTrees};

    ghost Value = { Texts };

    ghost view = { λ t. t.texts };

    ghost invariant = { λ t. (t.names ≡ map (λ text. text.0) t.texts) × AreTrees t.texts t.trees
        × IfSome t.default (λ template. template.nodes ≡ default_index) };
}

impl Templates {
    /// Makes the templates of these names and texts, none of which is read yet.
    pub(crate) fn new(alloc: Global, texts: Listed<(Text, Text)>) -> Result<Self, AllocError>
        ensures { IfOk result (λ templates. templates ≡ texts) }
    {
        let names = names_of(alloc, texts.as_slice())?;
        Ok(Templates {
            texts,
            names,
            trees: Listed::empty(alloc),
            default: None,
        })
    }

    /// Returns the names under which a template is stored.
    pub fn names(&self) -> &[Text]
        ensures { result.now ≡ map (λ text. text.0) self.now }
    {
        self.names.as_slice()
    }

    /// Returns the template of that name, if one is stored.
    pub fn named(
        &mut self,
        alloc: Global,
        name: &str,
    ) -> Result<Option<Shared<Template>>, AllocError>
        ensures template { IfOk result (λ template. template ≡ template_named name.now self.old) }
        ensures same { self.new ≡ self.old }
    {
        if let Some(tree) = tree_named(self.trees.as_slice(), name) {
            return shared(tree);
        }
        let tree = template_named(alloc, name, self.texts.as_slice())?;
        let kept = shared(&tree)?;
        self.trees.push((Text::copied(alloc, name)?, kept))?;
        Ok(tree)
    }

    /// Returns the template of a page for which none is stored. It is made once.
    pub fn default_index(&mut self, alloc: Global) -> Result<Shared<Template>, AllocError>
        ensures template { IfOk result (λ template. template.nodes ≡ default_index) }
        ensures same { self.new ≡ self.old }
    {
        if let Some(template) = &self.default {
            return template.share();
        }
        let template = Shared::new(alloc, default_index(alloc)?)?;
        self.default = Some(template.share()?);
        Ok(template)
    }
}

/// Copies the names of texts.
fn names_of(alloc: Global, texts: &[(Text, Text)]) -> Result<Listed<Text>, AllocError>
    ensures { IfOk result (λ names. names ≡ map (λ text. text.0) texts.now) }
{
    let mut names = Listed::empty(alloc);
    for (name, _) in texts {
        names.push(name.clone()?)?;
    }
    Ok(names)
}

/// Returns what is kept for a name, if anything is.
fn tree_named<'t>(
    trees: &'t [(Text, Option<Shared<Template>>)],
    name: &str,
) -> Option<&'t Option<Shared<Template>>>
    ensures { option_map (λ tree. tree.now) result
        ≡ option_map (λ t. t.1) (find (λ t. bytes_eq t.0 name.now) trees.now) }
{
    let (_, tree) = trees.iter().find(|(other, _)| other.as_str() == name)?;
    Some(tree)
}

/// Returns the same template for another owner.
fn shared(tree: &Option<Shared<Template>>) -> Result<Option<Shared<Template>>, AllocError>
    ensures { IfOk result (λ shared. shared ≡ tree.now) }
{
    match tree {
        Some(tree) => Ok(Some(tree.share()?)),
        None => Ok(None),
    }
}

/// Reads the template of that name among these texts, if one is stored.
fn template_named(
    alloc: Global,
    name: &str,
    texts: &[(Text, Text)],
) -> Result<Option<Shared<Template>>, AllocError>
    ensures { IfOk result (λ template. template ≡ template_named name.now texts.now) }
{
    let Some(text) = text_named(texts, name) else {
        return Ok(None);
    };
    match read_stored(alloc, name, text)? {
        Some(template) => Ok(Some(Shared::new(alloc, template)?)),
        None => Ok(None),
    }
}
