//! The posts of a site file.
ghost use Rattle.std.specs.Prelude.{◌≡◌, Some, IfOk, map, option_map, codes};
ghost use Rattle.serde_json.specs.View.{view};
ghost use Rattle.site_values.specs.Tree.{with_found, text_at};
ghost use Rattle.site_import.specs.Walks.{Reads, each_from, section_of};
ghost use Rattle.site_import.specs.Posts.{post_by, shape_of, post_at, posts_in, posts_of};

use crate::fault::{ImportFault, Place, Section};
use plain_data::{Listed, Text};
use serde_json::Value;
use site_records::{Post, PostDate, PostKind, PostStatus};
use site_values::{MAX_CONTENT, MAX_TITLE, id_at, kind_named, status_named, text_at};
use std::alloc::{AllocError, Global};

const MAX_POSTS: usize = 10_000;

// A post, over the texts of its tree.
#[derive(Clone, Copy)]
pub(crate) struct PostRow<'v> {
    id: u32,
    kind: PostKind,
    status: PostStatus,
    title: &'v str,
    content: &'v str,
    date: &'v str,
}

#[tactic(auto, unfolding(crate::specs::Posts::shape_of))]
fn read_row(value: &Value) -> Option<PostRow<'_>>
    ensures { option_map post_by result ≡ shape_of (view value.now) }
{
    let id = id_at(value, "id")?;
    let kind = kind_named(text_at(value, "kind")?)?;
    let status = status_named(text_at(value, "status")?)?;
    read_texts(value, id, kind, status)
}

// Reads the texts of a post with that ID, kind and status.
fn read_texts(value: &Value, id: u32, kind: PostKind, status: PostStatus) -> Option<PostRow<'_>>
    ensures { option_map post_by result
        ≡ with_found (text_at (codes "title") (view value.now)) (λ title.
        with_found (text_at (codes "content") (view value.now)) (λ content.
        with_found (text_at (codes "date") (view value.now)) (λ date.
        Some (record {
          id = id;
          kind = kind;
          status = status;
          title = title;
          content = content;
          date = date;
        })))) }
{
    let title = text_at(value, "title")?;
    let content = text_at(value, "content")?;
    let date = text_at(value, "date")?;
    Some(PostRow {
        id,
        kind,
        status,
        title,
        content,
        date,
    })
}

// Makes the post of a row, its texts copied.
fn copied(alloc: Global, row: &PostRow<'_>, date: PostDate) -> Result<Post, AllocError>
    requires { date ≡ row.now.date.now }
    ensures { IfOk result (λ post. post ≡ post_by row.now) }
{
    Ok(Post {
        id: row.id,
        kind: row.kind,
        status: row.status,
        title: Text::copied(alloc, row.title)?,
        content: Text::copied(alloc, row.content)?,
        date,
    })
}

fn read_post(alloc: Global, value: &Value, entry: usize) -> Result<Post, ImportFault>
    ensures { Reads (post_at entry (view value.now)) result }
{
    let place = Place::entry_of(Section::Posts, entry);
    let Some(row) = read_row(value) else {
        return Err(ImportFault::BadImport(place));
    };
    if row.title.len() > MAX_TITLE || row.content.len() > MAX_CONTENT {
        return Err(ImportFault::TooLarge(place));
    }
    let Some(date) = PostDate::read(row.date) else {
        return Err(ImportFault::BadDate(place));
    };
    Ok(copied(alloc, &row, date)?)
}

fn read_each(alloc: Global, values: &[Value]) -> Result<Listed<Post>, ImportFault>
    ensures { Reads (each_from post_at 0 (map view values.now)) result }
{
    let mut posts = Listed::empty(alloc);
    for (entry, value) in values.iter().enumerate() {
        posts.push(read_post(alloc, value, entry)?)?;
    }
    Ok(posts)
}

fn read_list(alloc: Global, values: &[Value]) -> Result<Listed<Post>, ImportFault>
    ensures { Reads (posts_in (map view values.now)) result }
{
    if values.len() > MAX_POSTS {
        return Err(ImportFault::TooLarge(Place::whole(Section::Posts)));
    }
    read_each(alloc, values)
}

#[tactic(auto, using(crate::proofs::Walks::list_of_view), unfolding(crate::specs::Posts::posts_of))]
fn read_section(alloc: Global, value: &Value) -> Result<Listed<Post>, ImportFault>
    ensures { Reads (posts_of (view value.now)) result }
{
    let Some(values) = value.as_array() else {
        return Err(ImportFault::BadImport(Place::whole(Section::Posts)));
    };
    read_list(alloc, values.as_slice())
}

/// Reads the section `posts` of a site file, which may be missing.
pub(crate) fn read_posts(alloc: Global, found: Option<&Value>) -> Result<Listed<Post>, ImportFault>
    ensures { Reads (section_of posts_of (option_map (λ v. view v.now) found.entry)) result }
{
    match found {
        Some(value) => read_section(alloc, value),
        None => Ok(Listed::empty(alloc)),
    }
}
