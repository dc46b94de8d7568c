//! The trees of templates, and how they are read from JSON and stored.
#![tactic(auto)]

mod defaults;
mod fault;
mod names;
mod read;
mod size;
mod stored;
mod tree;
mod worked;

pub use defaults::default_index;
pub use fault::TemplateFault;
pub use names::is_template_name;
pub use read::read_template;
pub use stored::{read_stored, template_text};
pub use tree::{Element, Item, Node, Part, PostTag, Tag, Template};
pub use worked::worked_templates;
