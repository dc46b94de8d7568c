//! Templates, read from JSON trees.
ghost use Rattle.std.specs.Prelude.{◌≡◌, ◌≢◌, Ok, Err, IfOk, IfErr, option_map};
ghost use Rattle.serde_json.specs.View.{view, items_view};
ghost use Rattle.template_trees.specs.declared.fault.TemplateFault.{TemplateFault};
ghost use Rattle.template_trees.specs.Trees.{
  member_count,
  alone_at,
  text_alone,
  all_of,
  item_of,
  element_of,
  elements_at,
  loop_of,
  node_of,
  node_in,
  tree_of,
  template_of,
};

use crate::fault::TemplateFault;
use crate::names::{is_part_name, is_template_name, part_named, tag_named};
use crate::size::fits;
use crate::tree::{Element, Item, Node, Template};
use plain_data::{Listed, Text, is_hook_name};
use serde_json::Value;
use std::alloc::{AllocError, Global};

/// Reads a JSON tree as the template of that name. A fault anywhere in the tree is refused as
/// `BadTemplate`; only a tree without one is refused as `TooLarge`. The bytes of texts are counted
/// after JSON's escapes are read.
#[tactic(auto, unfolding(crate::specs::Trees::template_of))]
pub fn read_template(alloc: Global, name: &str, value: &Value) -> Result<Template, TemplateFault>
    ensures ok { IfOk result (λ template. template_of name.now (view value.now) ≡ Ok template) }
    ensures err { IfErr result (λ fault. fault ≢ TemplateFault.OutOfMemory
        → template_of name.now (view value.now) ≡ Err fault) }
{
    let Some(nodes) = read_tree(alloc, name, value)? else {
        return Err(TemplateFault::BadTemplate);
    };
    if !fits(nodes.as_slice()) {
        return Err(TemplateFault::TooLarge);
    }
    Ok(Template { nodes })
}

#[tactic(auto, unfolding(crate::specs::Trees::tree_of))]
fn read_tree(alloc: Global, name: &str, value: &Value) -> Result<Option<Listed<Node>>, AllocError>
    ensures { IfOk result (λ nodes. nodes ≡ tree_of name.now (view value.now)) }
{
    if !is_template_name(name) {
        return Ok(None);
    }
    match value.as_array() {
        Some(list) => read_nodes(alloc, is_part_name(name), list),
        None => Ok(None),
    }
}

fn read_nodes(
    alloc: Global,
    in_part: bool,
    list: &[Value],
) -> Result<Option<Listed<Node>>, AllocError>
    ensures { IfOk result (λ nodes. nodes ≡ all_of (node_in in_part) (items_view list.now)) }
{
    let mut nodes = Listed::empty(alloc);
    for value in list {
        let Some(node) = read_node_in(alloc, in_part, value)? else {
            return Ok(None);
        };
        nodes.push(node)?;
    }
    Ok(Some(nodes))
}

fn read_elements(alloc: Global, list: &[Value]) -> Result<Option<Listed<Element>>, AllocError>
    ensures { IfOk result (λ elements. elements ≡ all_of element_of (items_view list.now)) }
{
    let mut elements = Listed::empty(alloc);
    for value in list {
        let Some(element) = read_element(alloc, value)? else {
            return Ok(None);
        };
        elements.push(element)?;
    }
    Ok(Some(elements))
}

/// Reads what a template holds: in a part only items.
#[tactic(auto, unfolding(crate::specs::Trees::node_in))]
fn read_node_in(alloc: Global, in_part: bool, value: &Value) -> Result<Option<Node>, AllocError>
    ensures { IfOk result (λ node. node ≡ node_in in_part (view value.now)) }
{
    if !in_part {
        return read_node(alloc, value);
    }
    match read_item(alloc, value)? {
        Some(item) => Ok(Some(Node::Element(Element::Item(item)))),
        None => Ok(None),
    }
}

#[tactic(auto, unfolding(crate::specs::Trees::node_of))]
fn read_node(alloc: Global, value: &Value) -> Result<Option<Node>, AllocError>
    ensures { IfOk result (λ node. node ≡ node_of (view value.now)) }
{
    match read_element(alloc, value)? {
        Some(element) => Ok(Some(Node::Element(element))),
        None => read_loop(alloc, value),
    }
}

#[tactic(auto, unfolding(crate::specs::Trees::loop_of))]
fn read_loop(alloc: Global, value: &Value) -> Result<Option<Node>, AllocError>
    ensures { IfOk result (λ node. node ≡ loop_of (view value.now)) }
{
    let Some(body) = read_elements_at(alloc, value, "loop")? else {
        return Ok(None);
    };
    let otherwise = match member_count(value) {
        1 => Some(Listed::empty(alloc)),
        2 => read_elements_at(alloc, value, "else")?,
        _ => None,
    };
    match otherwise {
        Some(otherwise) => Ok(Some(Node::Loop { body, otherwise })),
        None => Ok(None),
    }
}

fn read_elements_at(
    alloc: Global,
    value: &Value,
    key: &str,
) -> Result<Option<Listed<Element>>, AllocError>
    ensures { IfOk result (λ elements. elements ≡ elements_at key.now (view value.now)) }
{
    match value.get(key).and_then(Value::as_array) {
        Some(list) => read_elements(alloc, list),
        None => Ok(None),
    }
}

#[tactic(auto, unfolding(crate::specs::Trees::element_of))]
fn read_element(alloc: Global, value: &Value) -> Result<Option<Element>, AllocError>
    ensures { IfOk result (λ element. element ≡ element_of (view value.now)) }
{
    if let Some(item) = read_item(alloc, value)? {
        return Ok(Some(Element::Item(item)));
    }
    Ok(
        text_alone(value, "part")
            .and_then(part_named)
            .map(Element::Part),
    )
}

#[tactic(auto, unfolding(crate::specs::Trees::item_of))]
fn read_item(alloc: Global, value: &Value) -> Result<Option<Item>, AllocError>
    ensures { IfOk result (λ item. item ≡ item_of (view value.now)) }
{
    if let Some(text) = value.as_str() {
        return Ok(Some(Item::Text(Text::copied(alloc, text)?)));
    }
    if let Some(tag) = text_alone(value, "tag").and_then(tag_named) {
        return Ok(Some(Item::Tag(tag)));
    }
    match text_alone(value, "action") {
        Some(hook) if is_hook_name(hook) => Ok(Some(Item::Action(Text::copied(alloc, hook)?))),
        _ => Ok(None),
    }
}

/// Returns the text at a key, if it is the only key of the object.
#[tactic(auto, unfolding(crate::specs::Trees::text_alone))]
fn text_alone<'v>(value: &'v Value, key: &str) -> Option<&'v str>
    ensures { option_map (λ s. s.now) result ≡ text_alone key.now (view value.now) }
{
    match alone_at(value, key) {
        Some(found) => found.as_str(),
        None => None,
    }
}

fn alone_at<'v>(value: &'v Value, key: &str) -> Option<&'v Value>
    ensures { option_map (λ v. view v.now) result ≡ alone_at key.now (view value.now) }
{
    if member_count(value) == 1 {
        value.get(key)
    } else {
        None
    }
}

/// Returns how many members an object has; 0 if the value isn't an object.
fn member_count(value: &Value) -> usize
    ensures { result ≡ member_count (view value.now) }
{
    match value.as_object() {
        Some(members) => members.len(),
        None => 0,
    }
}
