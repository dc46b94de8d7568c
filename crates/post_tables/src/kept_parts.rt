//! The IDs of parts of the posts that were listed, as long as they would be listed alike.
ghost use Rattle.std.specs.Prelude.{◌≡◌, true, map, List, ℕ, IfOk, IfSome};
ghost use Rattle.std.specs.Option.{option_copied};
ghost use Rattle.site_records.specs.declared.post.Post.{Post};
ghost use Rattle.post_tables.specs.Kept.{AreListed, HasIds, IsPart};
ghost use Rattle.post_tables.specs.Page.{page_of};
ghost use Rattle.post_tables.specs.Rows.{PostEdit, edited_posts};

use site_records::{Post, PostDate, PostKind, PostStatus};
use std::alloc::{AllocError, Global};

/// The maximum number of parts that are kept.
const MOST_PARTS: usize = 64;

/// The maximum number of posts in each of them.
const MOST_IDS: usize = 100;

/// A part that was listed, and the IDs of its posts in their order.
#[derive(Drop)]
pub struct KeptPart {
    pub(crate) kind: PostKind,
    pub(crate) from: PostDate,
    pub(crate) to: PostDate,
    pub(crate) limit: u32,
    pub(crate) offset: u32,
    pub(crate) ids: Vec<u32>,
}

/// Parts that were listed and would be listed alike: at most 64, each of at most 100 posts. If one more
/// has no room, all others are forgotten.
#[derive(Drop)]
pub struct KeptParts {
    pub(crate) parts: Vec<KeptPart>,
}

impl KeptPart {
    /// Copies what was asked for, and the IDs of the posts that were listed.
    fn of(
        alloc: Global,
        kind: PostKind,
        from: &PostDate,
        to: &PostDate,
        limit: u32,
        offset: u32,
        posts: &[Post],
    ) -> Result<KeptPart, AllocError>
        ensures { IfOk result (λ part. (stored : List Post)
            → posts.now ≡ page_of kind from.now to.now limit offset stored → HasIds stored part) }
    {
        let mut ids = Vec::with_capacity(alloc, posts.len())?;
        for post in posts {
            ids.push(post.id)?;
        }
        Ok(KeptPart {
            kind,
            from: from.clone()?,
            to: to.clone()?,
            limit,
            offset,
            ids,
        })
    }

    /// Returns whether this is the part that is asked for.
    fn is(&self, kind: PostKind, from: &PostDate, to: &PostDate, limit: u32, offset: u32) -> bool
        ensures { result ≡ true → IsPart self.now kind from.now to.now limit offset }
    {
        self.offset == offset
            && self.limit == limit
            && self.kind == kind
            && self.from.as_str() == from.as_str()
            && self.to.as_str() == to.as_str()
    }
}

impl KeptParts {
    /// Keeps nothing. Does not allocate.
    pub(crate) fn new(alloc: Global) -> Self
        ensures { (posts : List Post) → AreListed result posts }
    {
        KeptParts {
            parts: Vec::new(alloc),
        }
    }

    /// Returns the IDs of a part, if they are kept.
    pub(crate) fn at(
        &self,
        kind: PostKind,
        from: &PostDate,
        to: &PostDate,
        limit: u32,
        offset: u32,
    ) -> Option<&[u32]>
        ensures { IfSome result (λ ids. (posts : List Post) → AreListed self.now posts
            → ids.now ≡ map (λ p. p.id) (page_of kind from.now to.now limit offset posts)) }
    {
        for part in &self.parts {
            if part.is(kind, from, to, limit, offset) {
                return Some(&part.ids);
            }
        }
        None
    }

    /// Keeps the IDs of a part that was listed, if it is small and there is memory for it.
    pub(crate) fn keep(
        &mut self,
        alloc: Global,
        kind: PostKind,
        from: &PostDate,
        to: &PostDate,
        limit: u32,
        offset: u32,
        posts: &[Post],
    )
        ensures { (stored : List Post)
            → posts.now ≡ page_of kind from.now to.now limit offset stored
            → AreListed self.old stored → AreListed self.new stored }
    {
        if posts.len() > MOST_IDS {
            return;
        }
        let Ok(part) = KeptPart::of(alloc, kind, from, to, limit, offset, posts) else {
            return;
        };
        if self.parts.len() >= MOST_PARTS {
            self.clear();
        }
        let _ = self.parts.push(part);
    }

    /// Forgets what an edit of a post may change: all parts if it gives a status or a date, and none
    /// if it gives a title or a content alone, since neither decides what is listed.
    pub(crate) fn before_edit(&mut self, status: Option<PostStatus>, date: Option<&PostDate>)
        ensures same { (posts : List Post) → AreListed self.old posts → AreListed self.new posts }
        ensures edited { (posts : List Post) (id : ℕ) (e : PostEdit) → e.status ≡ status
            → e.date ≡ option_copied date.entry → AreListed self.old posts
            → AreListed self.new (edited_posts id e posts) }
    {
        if status.is_some() || date.is_some() {
            self.clear();
        }
    }

    /// Forgets all parts.
    pub(crate) fn clear(&mut self)
        ensures { (posts : List Post) → AreListed self.new posts }
    {
        self.parts.clear();
    }
}
