//! The tree of a template.
use plain_data::{Listed, Text};

/// A template tag: a page prints something in its place (Theme Handbook, Template Tags).
#[derive(Clone, Copy, PartialEq, Eq)]
pub enum Tag {
    /// A tag that prints something of the loop's post; outside a loop it prints nothing.
    OfPost(PostTag),
    /// The option `blogname`, escaped.
    SiteName,
    /// What callbacks of the action `wp_head` print.
    WpHead,
    /// What callbacks of the action `wp_footer` print.
    WpFooter,
}

/// A template tag about a post.
#[derive(Clone, Copy, PartialEq, Eq)]
pub enum PostTag {
    /// The title, after the filter `the_title`.
    TheTitle,
    /// The same, with the characters that HTML reads as its own escaped.
    TitleEscaped,
    /// The content, after the filter `the_content`.
    TheContent,
    /// The post's ID.
    TheId,
    /// The post's path.
    ThePermalink,
    /// The post's date.
    PostDate,
}

/// A part of a template that a site stores under its own name (Theme Handbook, Template Parts).
#[derive(Clone, Copy, PartialEq, Eq)]
pub enum Part {
    /// It is preceded by the action `get_header`.
    Header,
    /// It is preceded by the action `get_footer`.
    Footer,
    Content,
}

/// What may appear anywhere in a template.
#[derive(Drop)]
pub enum Item {
    /// A text, printed as it is.
    Text(Text),
    Tag(Tag),
    /// An action of that name, fired with no arguments.
    Action(Text),
}

/// What may appear in a loop: anything but another loop.
#[derive(Drop)]
pub enum Element {
    Item(Item),
    Part(Part),
}

/// What a template is a list of.
#[derive(Drop)]
pub enum Node {
    Element(Element),
    /// The body once for each post that was found, in order, or the other body once if none was.
    Loop {
        body: Listed<Element>,
        otherwise: Listed<Element>,
    },
}

/// A template. That of a part holds only items.
#[derive(Drop)]
pub struct Template {
    pub nodes: Listed<Node>,
}
