//! The steps of a page: the places of its items, each with its post, in order.
ghost use Rattle.std.specs.Prelude.{◌≡◌, ◌++◌, List, None, Some, IfOk};
ghost use Rattle.std.specs.Prelude.{OnOk, map, flat_map, option_and_then, slice_get};
ghost use Rattle.site_records.specs.declared.post.Post.{Post};
ghost use Rattle.template_parts.specs.Pages.{over, stored_part_items, part_items, element_items};
ghost use Rattle.template_parts.specs.Pages.{elements_items, node_items, page_items};
ghost use Rattle.template_parts.specs.Places.{elements_in, template_of, item_at, element_item};
ghost use Rattle.template_parts.specs.Places.{items_of, items_left, post_at};

use crate::place::{ItemPlace, Side, TreePlace, template_of};
use crate::settings::Settings;
use hook_machine::Left;
use plain_data::{CoreHook, Shared};
use site_records::Post;
use std::alloc::{AllocError, Global};
use template_trees::{Element, Node, Part, Template};

/// What a page does next: the item at a place, over a post.
#[derive(Clone, Copy)]
pub struct Step {
    /// The post's place among those found, counted from 0; outside a loop there is none.
    pub post: Option<usize>,
    pub place: ItemPlace,
}

/// Adds the nodes of a part's template.
fn push_nodes(
    places: &mut Vec<ItemPlace>,
    settings: &Settings,
    part: Part,
    template: &Shared<Template>,
) -> Result<(), AllocError>
    requires { template_of settings.now part ≡ Some template.now }
    ensures { OnOk result (items_of settings.now places.new.items
        ≡ items_of settings.now places.old.items
        ++ stored_part_items (Some template.now)) }
{
    for at in 0..template.get().nodes.as_slice().len() {
        places.push(ItemPlace::Stored(TreePlace::Part { part, at }))?;
    }
    Ok(())
}

/// Adds the template of a part, if one is stored.
fn push_stored(
    places: &mut Vec<ItemPlace>,
    settings: &Settings,
    part: Part,
) -> Result<(), AllocError>
    ensures { OnOk result (items_of settings.now places.new.items
        ≡ items_of settings.now places.old.items
        ++ stored_part_items (template_of settings.now part)) }
{
    match template_of(settings, part) {
        None => Ok(()),
        Some(template) => push_nodes(places, settings, part, template),
    }
}

/// Adds a part: the action that announces it, if one does, and then its template.
fn push_part(places: &mut Vec<ItemPlace>, settings: &Settings, part: Part) -> Result<(), AllocError>
    ensures { OnOk result (items_of settings.now places.new.items
        ≡ items_of settings.now places.old.items
        ++ part_items settings.now part) }
{
    match part {
        Part::Header => places.push(ItemPlace::Hook(CoreHook::GetHeader))?,
        Part::Footer => places.push(ItemPlace::Hook(CoreHook::GetFooter))?,
        Part::Content => {}
    }
    push_stored(places, settings, part)
}

/// Adds an element that is at a place.
fn push_element(
    places: &mut Vec<ItemPlace>,
    settings: &Settings,
    place: ItemPlace,
    element: &Element,
) -> Result<(), AllocError>
    requires { item_at settings.now place ≡ element_item element.now }
    ensures { OnOk result (items_of settings.now places.new.items
        ≡ items_of settings.now places.old.items
        ++ element_items settings.now element.now) }
{
    match element {
        Element::Item(_) => {
            places.push(place)?;
            Ok(())
        }
        Element::Part(part) => push_part(places, settings, *part),
    }
}

/// Adds the elements in a body of the loop that a node is.
fn push_elements(
    places: &mut Vec<ItemPlace>,
    settings: &Settings,
    node: usize,
    side: Side,
    elements: &[Element],
) -> Result<(), AllocError>
    requires { option_and_then (elements_in side) (slice_get settings.now.template.nodes node)
        ≡ Some elements.now }
    ensures { OnOk result (items_of settings.now places.new.items
        ≡ items_of settings.now places.old.items
        ++ elements_items settings.now elements.now) }
{
    for (at, element) in elements.iter().enumerate() {
        let place = ItemPlace::Stored(TreePlace::Element { node, side, at });
        push_element(places, settings, place, element)?;
    }
    Ok(())
}

/// Adds some places over a post.
fn push_over(
    steps: &mut Vec<Step>,
    post: Option<usize>,
    places: &[ItemPlace],
) -> Result<(), AllocError>
    ensures { OnOk result (steps.new.items ≡ steps.old.items
        ++ map (λ place. record { post = post; place = place }) places.now) }
{
    for place in places {
        steps.push(Step {
            post,
            place: *place,
        })?;
    }
    Ok(())
}

/// Adds some places over each post.
fn push_over_each(
    steps: &mut Vec<Step>,
    settings: &Settings,
    posts: &[Post],
    places: &[ItemPlace],
) -> Result<(), AllocError>
    ensures { OnOk result (items_left settings.now posts.now steps.new.items
        ≡ items_left settings.now posts.now
        steps.old.items ++ flat_map (λ p. over (Some p) (items_of settings.now places.now))
        posts.now) }
{
    for post in 0..posts.len() {
        push_over(steps, Some(post), places)?;
    }
    Ok(())
}

/// Adds a node of the template.
fn push_node(
    alloc: Global,
    steps: &mut Vec<Step>,
    settings: &Settings,
    posts: &[Post],
    at: usize,
    node: &Node,
) -> Result<(), AllocError>
    requires { slice_get settings.now.template.nodes at ≡ Some node.now }
    ensures { OnOk result (items_left settings.now posts.now steps.new.items
        ≡ items_left settings.now posts.now
        steps.old.items ++ node_items settings.now posts.now node.now) }
{
    let mut places = Vec::new(alloc);
    match node {
        Node::Element(element) => {
            let place = ItemPlace::Stored(TreePlace::Node(at));
            push_element(&mut places, settings, place, element)?;
            push_over(steps, None, places.as_slice())?;
            Ok(())
        }
        Node::Loop { body, otherwise } => {
            if posts.is_empty() {
                let elements = otherwise.as_slice();
                push_elements(&mut places, settings, at, Side::Otherwise, elements)?;
                push_over(steps, None, places.as_slice())?;
                Ok(())
            } else {
                push_elements(&mut places, settings, at, Side::Body, body.as_slice())?;
                push_over_each(steps, settings, posts, places.as_slice())
            }
        }
    }
}

/// Adds the nodes of the template.
fn push_template(
    alloc: Global,
    steps: &mut Vec<Step>,
    settings: &Settings,
    posts: &[Post],
) -> Result<(), AllocError>
    ensures { OnOk result (items_left settings.now posts.now steps.new.items
        ≡ items_left settings.now posts.now
        steps.old.items ++ flat_map (node_items settings.now posts.now)
        settings.now.template.nodes) }
{
    for (at, node) in settings.template.get().nodes.as_slice().iter().enumerate() {
        push_node(alloc, steps, settings, posts, at, node)?;
    }
    Ok(())
}

/// Makes the steps of a page: the actions of a request, and then its template.
pub(crate) fn steps_of_page(
    alloc: Global,
    settings: &Settings,
    posts: &[Post],
) -> Result<Left<Step>, AllocError>
    ensures { IfOk result (λ steps. items_left settings.now posts.now steps
        ≡ page_items settings.now posts.now) }
{
    let mut steps = Vec::new(alloc);
    let actions = [
        ItemPlace::Hook(CoreHook::PluginsLoaded),
        ItemPlace::Hook(CoreHook::Init),
        ItemPlace::Hook(CoreHook::WpLoaded),
        ItemPlace::Hook(CoreHook::Wp),
        ItemPlace::Hook(CoreHook::TemplateRedirect),
    ];
    push_over(&mut steps, None, &actions)?;
    push_template(alloc, &mut steps, settings, posts)?;
    Ok(Left::new(steps))
}
