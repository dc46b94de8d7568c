//! Posts, and the records of a whole site.
ghost use Rattle.std.specs.Prelude.{◌≡◌};
ghost use Rattle.site_records.specs.Kinds.{kind_text, status_text};

use crate::date::PostDate;
use plain_data::{Listed, Text};

/// The largest ID that a post can have: clients with signed 32-bit numbers can name no larger one.
pub const MAX_ID: u32 = 2_147_483_647;

/// The kind of an entry (Theme Handbook, Post Types): posts are listed by date, a page is shown by
/// itself.
#[derive(Clone, Copy, PartialEq, Eq)]
pub enum PostKind {
    Post,
    Page,
}

/// Returns the name of a kind, as commands and the database have it (`post_type`).
pub fn kind_text(kind: PostKind) -> &'static str
    ensures { result.now ≡ kind_text kind }
{
    match kind {
        PostKind::Post => "post",
        PostKind::Page => "page",
    }
}

/// Whether a visitor sees an entry (WordPress documentation, Post Status).
#[derive(Clone, Copy, PartialEq, Eq)]
pub enum PostStatus {
    /// It is shown.
    Publish,
    /// It is kept, and shown to nobody.
    Draft,
}

/// Returns the name of a status, as commands and the database have it (`post_status`).
pub fn status_text(status: PostStatus) -> &'static str
    ensures { result.now ≡ status_text status }
{
    match status {
        PostStatus::Publish => "publish",
        PostStatus::Draft => "draft",
    }
}

/// A stored post or page.
#[derive(Drop)]
pub struct Post {
    /// From 1 to [`MAX_ID`], and never given twice.
    pub id: u32,
    pub kind: PostKind,
    pub status: PostStatus,
    pub title: Text,
    /// The text as it was entered, with its shortcodes.
    pub content: Text,
    pub date: PostDate,
}

/// All that a site file holds, to be added to a site at once.
#[derive(Drop)]
pub struct SiteRecords {
    pub posts: Listed<Post>,
    /// Names and values. If a name is repeated, the later value counts.
    pub options: Listed<(Text, Text)>,
    /// Names and compact JSON texts. If a name is repeated, the later text counts.
    pub templates: Listed<(Text, Text)>,
    /// The names of the plugins that become active.
    pub active: Listed<Text>,
}
