//! How large a template is.
ghost use Rattle.std.specs.Prelude.{◌≡◌, ◌-◌, ◌^◌, min, sum_by};
ghost use Rattle.template_trees.specs.Trees.{count_of, node_count, text_bytes, node_bytes};
ghost use Rattle.template_trees.specs.Trees.{element_bytes, fits};

use crate::tree::{Element, Item, Node};

/// How many nodes a template has at most.
const MAX_NODES: usize = 4_096;

/// How many bytes the texts of a template have at most.
const MAX_TEXT_BYTES: usize = 262_144;

#[tactic(auto, unfolding(crate::specs::Trees::fits))]
pub(crate) fn fits(nodes: &[Node]) -> bool
    ensures { result ≡ fits nodes.now }
{
    count_of(nodes) <= MAX_NODES && text_bytes(nodes) <= MAX_TEXT_BYTES
}

// Counts the nodes. A count that doesn't fit counts as the largest that does: both are far over
// what a template may have.
#[tactic(auto, unfolding(crate::specs::Trees::count_of))]
fn count_of(nodes: &[Node]) -> usize
    ensures { result ≡ min (count_of nodes.now) (2 ^ 64 - 1) }
{
    let mut count = 0usize;
    for node in nodes {
        count = count.saturating_add(node_count(node));
    }
    count
}

fn node_count(node: &Node) -> usize
    ensures { result ≡ min (node_count node.now) (2 ^ 64 - 1) }
{
    match node {
        Node::Element(_) => 1,
        Node::Loop { body, otherwise } => {
            let (body, otherwise) = (body.as_slice().len(), otherwise.as_slice().len());
            body.saturating_add(otherwise).saturating_add(1)
        }
    }
}

#[tactic(auto, unfolding(crate::specs::Trees::text_bytes))]
fn text_bytes(nodes: &[Node]) -> usize
    ensures { result ≡ min (text_bytes nodes.now) (2 ^ 64 - 1) }
{
    let mut bytes = 0usize;
    for node in nodes {
        bytes = bytes.saturating_add(node_bytes(node));
    }
    bytes
}

fn node_bytes(node: &Node) -> usize
    ensures { result ≡ min (node_bytes node.now) (2 ^ 64 - 1) }
{
    match node {
        Node::Element(element) => element_bytes(element),
        Node::Loop { body, otherwise } => {
            elements_bytes(body.as_slice()).saturating_add(elements_bytes(otherwise.as_slice()))
        }
    }
}

fn elements_bytes(elements: &[Element]) -> usize
    ensures { result ≡ min (sum_by element_bytes elements.now) (2 ^ 64 - 1) }
{
    let mut bytes = 0usize;
    for element in elements {
        bytes = bytes.saturating_add(element_bytes(element));
    }
    bytes
}

fn element_bytes(element: &Element) -> usize
    ensures { result ≡ element_bytes element.now }
{
    match element {
        Element::Item(Item::Text(text)) => text.as_str().len(),
        _ => 0,
    }
}
