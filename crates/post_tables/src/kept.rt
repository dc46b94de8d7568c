//! Posts that were read, as long as they haven't changed.
ghost use Rattle.std.specs.Prelude.{◌≡◌, ◌⊎◌, ℕ, List, All, Some, IfOk, IfSome, unwrap_or};
ghost use Rattle.std.specs.Option.{option_copied};
ghost use Rattle.site_records.specs.declared.post.Post.{Post};
ghost use Rattle.post_tables.specs.Kept.{AreEdited, AreStored, IsWithin, Keeps};
ghost use Rattle.post_tables.specs.Rows.{edit_by, edited_post, post_with};

use plain_data::Text;
use site_records::{Post, PostDate, PostStatus};
use std::alloc::{AllocError, Global};
use std::collections::BTreeMap;

/// The maximum number of posts that are kept.
const MOST_POSTS: usize = 4_096;

/// The maximum number of bytes of their titles and contents.
const MOST_BYTES: usize = 16_777_216;

/// Posts that were read and are still what the tables hold, by their IDs: at most 4,096, whose titles
/// and contents have at most 16 MiB in all. If one more has no room, all others are forgotten.
#[derive(Drop)]
pub struct KeptPosts {
    pub(crate) posts: BTreeMap<u32, Post>,
    bytes: usize,
}

impl KeptPosts {
    /// Keeps nothing. Does not allocate.
    pub(crate) fn new(alloc: Global) -> Self
        ensures { (id : ℕ) (p : Post) → ¬ Keeps result id p }
    {
        KeptPosts {
            posts: BTreeMap::new(alloc),
            bytes: 0,
        }
    }

    /// Returns whether no post is kept.
    pub(crate) fn is_empty(&self) -> bool {
        self.posts.is_empty()
    }

    /// Returns a copy of the post that is kept under the ID, unless memory for it runs out.
    pub(crate) fn at(&self, id: u32) -> Option<Post>
        ensures { IfSome result (λ p. Keeps self.now id p) }
    {
        match copy_of(self.posts.get(&id)?) {
            Ok(post) => Some(post),
            Err(_) => None,
        }
    }

    /// Returns whether no post is kept under the ID. That decides nothing but how the post is read.
    pub(crate) fn lacks(&self, id: u32) -> bool {
        !self.posts.contains_key(&id)
    }

    /// Keeps a post that was read by its ID, if there is room and memory for it.
    pub(crate) fn keep(&mut self, id: u32, post: &Post)
        ensures { (n : ℕ) (p : Post) → Keeps self.new n p
            → Keeps self.old n p ⊎ ((n ≡ id) × (p ≡ post.now)) }
    {
        if let Ok(copy) = copy_of(post) {
            self.put(id, copy);
        }
    }

    /// Keeps a post under its ID, if there is room and memory for it.
    fn put(&mut self, id: u32, post: Post)
        ensures { (n : ℕ) (p : Post) → Keeps self.new n p
            → Keeps self.old n p ⊎ ((n ≡ id) × (p ≡ post)) }
    {
        let size = size_of(&post);
        if size > MOST_BYTES {
            return;
        }
        if self.posts.len() >= MOST_POSTS || size > MOST_BYTES.saturating_sub(self.bytes) {
            self.clear();
        }
        if let Ok(before) = self.posts.insert(id, post) {
            let freed = match &before {
                Some(post) => size_of(post),
                None => 0,
            };
            self.bytes = self.bytes.saturating_add(size).saturating_sub(freed);
        }
    }

    /// Keeps posts that were read.
    pub(crate) fn keep_all(&mut self, posts: &[Post])
        ensures { (stored : List Post) → All (λ p. post_with p.id stored ≡ Some p) posts.now
            → AreStored self.old stored → AreStored self.new stored }
    {
        for post in posts {
            self.keep(post.id, post);
        }
    }

    /// Takes the post that is kept under the ID, and forgets it.
    fn take(&mut self, id: u32) -> Option<Post>
        ensures gone { (p : Post) → ¬ Keeps self.new id p }
        ensures within { IsWithin self.new self.old }
        ensures taken { IfSome result (λ p. Keeps self.old id p) }
    {
        let post = self.posts.remove(&id)?;
        self.bytes = self.bytes.saturating_sub(size_of(&post));
        Some(post)
    }

    /// Forgets the post with the ID.
    pub(crate) fn forget(&mut self, id: u32)
        ensures gone { (p : Post) → ¬ Keeps self.new id p }
        ensures within { IsWithin self.new self.old }
    {
        drop(self.take(id));
    }

    /// Replaces the given fields of the post that is kept under the ID, if there is one, and forgets
    /// it if memory runs out or it has no room any more.
    pub(crate) fn edit(
        &mut self,
        alloc: Global,
        id: u32,
        status: Option<PostStatus>,
        title: Option<&str>,
        content: Option<&str>,
        date: Option<&PostDate>,
    )
        ensures { AreEdited id (edit_by status title.entry content.entry date.entry) self.old
            self.new }
    {
        if let Some(post) = self.take(id) {
            if let Ok(post) = edited(alloc, post, status, title, content, date) {
                self.put(id, post);
            }
        }
    }

    /// Forgets all posts.
    pub(crate) fn clear(&mut self)
        ensures { (id : ℕ) (p : Post) → ¬ Keeps self.new id p }
    {
        self.posts.clear();
        self.bytes = 0;
    }
}

/// Copies a post. The texts of one that was read share their memory.
fn copy_of(post: &Post) -> Result<Post, AllocError>
    ensures { IfOk result (λ copy. copy ≡ post.now) }
{
    Ok(Post {
        id: post.id,
        kind: post.kind,
        status: post.status,
        title: post.title.clone()?,
        content: post.content.clone()?,
        date: post.date.clone()?,
    })
}

/// Returns the post with the fields that are given, which replace its own.
fn edited(
    alloc: Global,
    post: Post,
    status: Option<PostStatus>,
    title: Option<&str>,
    content: Option<&str>,
    date: Option<&PostDate>,
) -> Result<Post, AllocError>
    ensures { IfOk result (λ p. p
        ≡ edited_post (edit_by status title.entry content.entry date.entry) post) }
{
    Ok(Post {
        id: post.id,
        kind: post.kind,
        status: status.unwrap_or(post.status),
        title: text_or(alloc, title, post.title)?,
        content: text_or(alloc, content, post.content)?,
        date: date_or(date, post.date)?,
    })
}

/// Copies the text that is given, or returns the one before. Copies of either share its memory.
fn text_or(alloc: Global, given: Option<&str>, before: Text) -> Result<Text, AllocError>
    ensures { IfOk result (λ text. text ≡ unwrap_or (option_copied given.entry) before) }
{
    let Some(given) = given else {
        return Ok(before);
    };
    let mut text = Text::copied(alloc, given)?;
    text.share()?;
    Ok(text)
}

/// Copies the date that is given, or returns the one before.
fn date_or(given: Option<&PostDate>, before: PostDate) -> Result<PostDate, AllocError>
    ensures { IfOk result (λ date. date ≡ unwrap_or (option_copied given.entry) before) }
{
    match given {
        Some(given) => given.clone(),
        None => Ok(before),
    }
}

/// Returns how many bytes the title and the content of a post have. That decides nothing but how much
/// is kept.
fn size_of(post: &Post) -> usize {
    let title = post.title.as_str().len();
    title.saturating_add(post.content.as_str().len())
}
