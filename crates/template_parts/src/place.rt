//! The places of a page's items in its site's templates.
ghost use Rattle.std.specs.Prelude.{◌≡◌, option_map};
ghost use Rattle.template_parts.specs.Places.{node_item, element_item};
ghost use Rattle.template_parts.specs.Places.{elements_in, template_of, stored_item};

use crate::settings::Settings;
use plain_data::{CoreHook, Listed, Shared};
use template_trees::{Element, Item, Node, Part, Template};

/// One of a loop's two bodies.
#[derive(Clone, Copy, Debug)]
pub enum Side {
    /// The one for each post.
    Body,
    /// The one for no post.
    Otherwise,
}

/// A place in a stored template, counted from 0.
#[derive(Clone, Copy)]
pub enum TreePlace {
    /// A node of the page's template.
    Node(usize),
    /// An element in one of the bodies of a node that is a loop.
    Element { node: usize, side: Side, at: usize },
    /// A node of a part.
    Part { part: Part, at: usize },
}

/// The place of an item.
#[derive(Clone, Copy)]
pub enum ItemPlace {
    /// In no template: an action that is fired all the same.
    Hook(CoreHook),
    Stored(TreePlace),
}

fn element_item(element: &Element) -> Option<&Item>
    ensures { option_map (λ i. i.now) result ≡ element_item element.entry.now }
{
    match element {
        Element::Item(item) => Some(item),
        Element::Part(_) => None,
    }
}

fn node_item(node: &Node) -> Option<&Item>
    ensures { option_map (λ i. i.now) result ≡ node_item node.entry.now }
{
    match node {
        Node::Element(element) => element_item(element),
        Node::Loop { .. } => None,
    }
}

fn elements_in(side: Side, node: &Node) -> Option<&Listed<Element>>
    ensures { option_map (λ l. l.now) result ≡ elements_in side node.entry.now }
{
    match node {
        Node::Element(_) => None,
        Node::Loop { body, otherwise } => match side {
            Side::Body => Some(body),
            Side::Otherwise => Some(otherwise),
        },
    }
}

/// Returns the template that a site stores for a part, if there is one.
pub(crate) fn template_of(settings: &Settings, part: Part) -> Option<&Shared<Template>>
    ensures { option_map (λ t. t.now) result ≡ template_of settings.entry.now part }
{
    match part {
        Part::Header => settings.header.as_ref(),
        Part::Footer => settings.footer.as_ref(),
        Part::Content => settings.content.as_ref(),
    }
}

/// Returns the item at a place, if there is one.
pub(crate) fn stored_item(settings: &Settings, place: TreePlace) -> Option<&Item>
    ensures { option_map (λ i. i.now) result ≡ stored_item settings.entry.now place }
{
    let nodes = settings.template.get().nodes.as_slice();
    match place {
        TreePlace::Node(at) => node_item(nodes.get(at)?),
        TreePlace::Element { node, side, at } => {
            let elements = elements_in(side, nodes.get(node)?)?;
            element_item(elements.as_slice().get(at)?)
        }
        TreePlace::Part { part, at } => {
            let template = template_of(settings, part)?;
            node_item(template.get().nodes.as_slice().get(at)?)
        }
    }
}
