//! The template of a site that has stored none.
ghost use Rattle.std.specs.Prelude.{◌≡◌, ◌∷◌, [], IfOk, codes};
ghost use Rattle.template_trees.specs.declared.tree.PostTag.{PostTag};
ghost use Rattle.template_trees.specs.declared.tree.Tag.{Tag};
ghost use Rattle.template_trees.specs.declared.tree.Item.{Item};
ghost use Rattle.template_trees.specs.declared.tree.Element.{Element};
ghost use Rattle.template_trees.specs.Trees.{default_index};

use crate::tree::{Element, Item, Node, PostTag, Tag, Template};
use plain_data::{Listed, Text};
use std::alloc::{AllocError, Global};

/// Makes the template `index` of a site that has stored none: between `wp_head` and `wp_footer`
/// each post's title as a heading, with its content after it, or a sentence if no post was found.
pub fn default_index(alloc: Global) -> Result<Template, AllocError>
    ensures { IfOk result (λ template. template.nodes ≡ default_index) }
{
    let mut nodes = Listed::empty(alloc);
    nodes.push(Node::Element(Element::Item(Item::Tag(Tag::WpHead))))?;
    nodes.push(Node::Loop {
        body: heading_and_content(alloc)?,
        otherwise: one_text(alloc, "<p>Nothing found.</p>")?,
    })?;
    nodes.push(Node::Element(Element::Item(Item::Tag(Tag::WpFooter))))?;
    Ok(Template { nodes })
}

fn heading_and_content(alloc: Global) -> Result<Listed<Element>, AllocError>
    ensures { IfOk result (λ elements. elements
        ≡ Element.Item (Item.Text (codes "<h2>"))
        ∷ Element.Item (Item.Tag (Tag.OfPost PostTag.TheTitle))
        ∷ Element.Item (Item.Text (codes "</h2>"))
        ∷ Element.Item (Item.Tag (Tag.OfPost PostTag.TheContent)) ∷ []) }
{
    let mut elements = one_text(alloc, "<h2>")?;
    elements.push(Element::Item(Item::Tag(Tag::OfPost(PostTag::TheTitle))))?;
    elements.push(Element::Item(Item::Text(Text::copied(alloc, "</h2>")?)))?;
    elements.push(Element::Item(Item::Tag(Tag::OfPost(PostTag::TheContent))))?;
    Ok(elements)
}

fn one_text(alloc: Global, text: &str) -> Result<Listed<Element>, AllocError>
    ensures { IfOk result (λ elements. elements ≡ Element.Item (Item.Text text.now) ∷ []) }
{
    let mut elements = Listed::empty(alloc);
    elements.push(Element::Item(Item::Text(Text::copied(alloc, text)?)))?;
    Ok(elements)
}
