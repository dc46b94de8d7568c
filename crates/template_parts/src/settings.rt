//! What a site says of its pages.
use plain_data::{Shared, Text};
use template_trees::Template;

/// What a page needs from its site, apart from the posts that were found.
#[derive(Drop)]
pub struct Settings {
    /// The option `blogname`, empty if it isn't set.
    pub site_name: Text,
    /// The template that was chosen for what was found.
    pub template: Shared<Template>,
    /// The stored parts. Of a part only the items are printed.
    pub header: Option<Shared<Template>>,
    pub footer: Option<Shared<Template>>,
    pub content: Option<Shared<Template>>,
}
