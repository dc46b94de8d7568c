//! Names of templates, and the names that appear in them.
ghost use Rattle.std.specs.Prelude.{◌≡◌};
ghost use Rattle.template_trees.specs.Trees.{tag_named, part_named, is_part_name, is_template_name};

use crate::tree::{Part, PostTag, Tag};

/// Returns whether a site can store a template under that name: those of whole pages (Theme
/// Handbook, Template Hierarchy) and those of the parts.
#[tactic(auto, unfolding(crate::specs::Trees::is_template_name))]
pub fn is_template_name(name: &str) -> bool
    ensures { result ≡ is_template_name name.now }
{
    let is_of_a_page = matches!(
        name,
        "index"
            | "home"
            | "front-page"
            | "single"
            | "page"
            | "singular"
            | "date"
            | "archive"
            | "404"
    );
    is_of_a_page || is_part_name(name)
}

pub(crate) fn is_part_name(name: &str) -> bool
    ensures { result ≡ is_part_name name.now }
{
    part_named(name).is_some()
}

#[tactic(auto, unfolding(crate::specs::Trees::part_named))]
pub(crate) fn part_named(name: &str) -> Option<Part>
    ensures { result ≡ part_named name.now }
{
    match name {
        "header" => Some(Part::Header),
        "footer" => Some(Part::Footer),
        "content" => Some(Part::Content),
        _ => None,
    }
}

#[tactic(auto, unfolding(crate::specs::Trees::tag_named))]
pub(crate) fn tag_named(name: &str) -> Option<Tag>
    ensures { result ≡ tag_named name.now }
{
    match name {
        "the_title" => Some(Tag::OfPost(PostTag::TheTitle)),
        "title_escaped" => Some(Tag::OfPost(PostTag::TitleEscaped)),
        "the_content" => Some(Tag::OfPost(PostTag::TheContent)),
        "the_ID" => Some(Tag::OfPost(PostTag::TheId)),
        "the_permalink" => Some(Tag::OfPost(PostTag::ThePermalink)),
        "post_date" => Some(Tag::OfPost(PostTag::PostDate)),
        "site_name" => Some(Tag::SiteName),
        "wp_head" => Some(Tag::WpHead),
        "wp_footer" => Some(Tag::WpFooter),
        _ => None,
    }
}
