//! What a site has for a query.
use crate::post::Post;
use plain_data::Listed;

/// The kind of what is found, by which its template is chosen (Theme Handbook, Template Hierarchy).
#[derive(Clone, Copy, PartialEq, Eq)]
pub enum FoundKind {
    /// A front that lists posts, unless it is a `Home`.
    Front,
    /// A front that shows a page.
    FrontPage,
    /// A front that lists posts while the option `show_on_front` is `page`.
    Home,
    Single,
    /// A page that was asked for by its ID.
    Page,
    Month,
    NotFound,
}

/// What a query finds.
#[derive(Drop)]
pub struct Found {
    pub kind: FoundKind,
    /// In the order in which they are shown.
    pub posts: Listed<Post>,
    /// 404 if nothing is found, and else 200 (RFC 9110).
    pub status: u16,
}
