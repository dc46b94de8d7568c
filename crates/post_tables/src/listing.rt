//! A part of the published posts.
ghost use Rattle.std.specs.Prelude.{◌≡◌, ◌++◌, map, All, IfOk, IfErr, OnOk};
ghost use Rattle.std.specs.List.{flat_map};
ghost use Rattle.std.specs.Option.{option_to_list};
ghost use Rattle.post_tables.specs.Kept.{AreListed, AreStored};
ghost use Rattle.post_tables.specs.Page.{page_of};
ghost use Rattle.post_tables.specs.Reading.{IsId, IsStopped};
ghost use Rattle.post_tables.specs.Rows.{IsReadFault, post_with};
ghost use Rattle.post_tables.specs.Stored.{IsSite, Reads, rows_of, magnitude};
ghost use Rattle.sqlite_rules.specs.Edit.{id_in};
ghost use Rattle.sqlite_value.specs.Order.{column};

use crate::fault::TablesFault;
use crate::kept::KeptPosts;
use crate::kept_parts::KeptParts;
use crate::posts::{largest_id, page_rows, post_rows};
use crate::read::{push, read_found, read_ids, read_posts};
use site_records::{Post, PostDate, PostKind, kind_text};
use sqlite::{Connection, Error, MemStore, Row, params};
use std::alloc::Global;

/// How many posts of a part are read one by one, if the others are kept. If more aren't, one statement
/// that reads all of them takes less.
const FEW: usize = 4;

/// Returns the published entries of a kind and a span of dates, newest first: without the first
/// `offset`, and at most `limit`.
pub(crate) fn part(
    conn: &mut Connection<MemStore>,
    kept: &mut KeptPosts,
    parts: &mut KeptParts,
    alloc: Global,
    kind: PostKind,
    from: &PostDate,
    to: &PostDate,
    limit: u32,
    offset: u64,
) -> Result<Vec<Post>, TablesFault>
    requires site { IsSite conn.old }
    requires stored { AreStored kept.old (rows_of conn.old).posts }
    requires listed { AreListed parts.old (rows_of conn.old).posts }
    ensures reads { Reads conn.old conn.new }
    ensures posts { IfOk result (λ posts. posts.items
        ≡ page_of kind from.now to.now limit offset (rows_of conn.old).posts) }
    ensures stored { AreStored kept.new (rows_of conn.old).posts }
    ensures listed { AreListed parts.new (rows_of conn.old).posts }
    ensures stopped { IfErr result (IsReadFault (rows_of conn.old).step_limit) }
{
    // There are fewer IDs than that.
    let Ok(offset) = u32::try_from(offset) else {
        return Ok(Vec::new(alloc));
    };
    if let Some(ids) = parts.at(kind, from, to, limit, offset) {
        return known_part(conn, kept, alloc, kind, from, to, limit, offset, ids);
    }
    let posts = new_part(conn, kept, alloc, kind, from, to, limit, offset)?;
    parts.keep(alloc, kind, from, to, limit, offset, &posts);
    Ok(posts)
}

/// Returns the same part, whose IDs aren't kept.
fn new_part(
    conn: &mut Connection<MemStore>,
    kept: &mut KeptPosts,
    alloc: Global,
    kind: PostKind,
    from: &PostDate,
    to: &PostDate,
    limit: u32,
    offset: u32,
) -> Result<Vec<Post>, TablesFault>
    requires site { IsSite conn.old }
    requires stored { AreStored kept.old (rows_of conn.old).posts }
    ensures reads { Reads conn.old conn.new }
    ensures posts { IfOk result (λ posts. posts.items
        ≡ page_of kind from.now to.now limit offset (rows_of conn.old).posts) }
    ensures stored { AreStored kept.new (rows_of conn.old).posts }
    ensures stopped { IfErr result (IsReadFault (rows_of conn.old).step_limit) }
{
    if offset > 0 {
        return later_part(conn, kept, alloc, kind, from, to, limit, offset);
    }
    if kept.is_empty() {
        return first_part(conn, kept, alloc, kind, from, to, limit);
    }
    part_by_ids(conn, kept, alloc, kind, from, to, limit, offset)
}

/// Returns the same part, whose IDs are known.
fn known_part(
    conn: &mut Connection<MemStore>,
    kept: &mut KeptPosts,
    alloc: Global,
    kind: PostKind,
    from: &PostDate,
    to: &PostDate,
    limit: u32,
    offset: u32,
    ids: &[u32],
) -> Result<Vec<Post>, TablesFault>
    requires site { IsSite conn.old }
    requires stored { AreStored kept.old (rows_of conn.old).posts }
    requires ids { ids.now
        ≡ map (λ p. p.id) (page_of kind from.now to.now limit offset (rows_of conn.old).posts) }
    ensures reads { Reads conn.old conn.new }
    ensures posts { IfOk result (λ posts. posts.items
        ≡ page_of kind from.now to.now limit offset (rows_of conn.old).posts) }
    ensures stored { AreStored kept.new (rows_of conn.old).posts }
    ensures stopped { IfErr result (IsReadFault (rows_of conn.old).step_limit) }
{
    if offset == 0 && !lacks_few(kept, ids) {
        return first_part(conn, kept, alloc, kind, from, to, limit);
    }
    posts_with(conn, kept, alloc, ids)
}

/// Returns the same part, of which nothing is left out: one statement reads what is returned and no
/// more.
fn first_part(
    conn: &mut Connection<MemStore>,
    kept: &mut KeptPosts,
    alloc: Global,
    kind: PostKind,
    from: &PostDate,
    to: &PostDate,
    limit: u32,
) -> Result<Vec<Post>, TablesFault>
    requires site { IsSite conn.old }
    requires stored { AreStored kept.old (rows_of conn.old).posts }
    ensures reads { Reads conn.old conn.new }
    ensures posts { IfOk result (λ posts. posts.items
        ≡ page_of kind from.now to.now limit 0 (rows_of conn.old).posts) }
    ensures stored { AreStored kept.new (rows_of conn.old).posts }
    ensures stopped { IfErr result (IsReadFault (rows_of conn.old).step_limit) }
{
    let rows = page_rows(conn, kind, from, to, limit, 0)?;
    let posts = read_posts(alloc, &rows)?;
    kept.keep_all(&posts);
    Ok(posts)
}

/// Returns whether all posts with these IDs are kept, but for a few. That decides nothing but how
/// they are read.
fn lacks_few(kept: &KeptPosts, ids: &[u32]) -> bool {
    let mut lacking: usize = 0;
    for id in ids {
        if kept.lacks(*id) {
            lacking = lacking.saturating_add(1);
        }
    }
    lacking <= FEW
}

/// Returns the same part, which is empty if the largest ID ever given is below `offset`: each post
/// has an ID of its own.
fn later_part(
    conn: &mut Connection<MemStore>,
    kept: &mut KeptPosts,
    alloc: Global,
    kind: PostKind,
    from: &PostDate,
    to: &PostDate,
    limit: u32,
    offset: u32,
) -> Result<Vec<Post>, TablesFault>
    requires site { IsSite conn.old }
    requires stored { AreStored kept.old (rows_of conn.old).posts }
    ensures reads { Reads conn.old conn.new }
    ensures posts { IfOk result (λ posts. posts.items
        ≡ page_of kind from.now to.now limit offset (rows_of conn.old).posts) }
    ensures stored { AreStored kept.new (rows_of conn.old).posts }
    ensures stopped { IfErr result (IsReadFault (rows_of conn.old).step_limit) }
{
    let largest = largest_id(conn)?;
    if largest < offset {
        return Ok(Vec::new(alloc));
    }
    part_by_ids(conn, kept, alloc, kind, from, to, limit, offset)
}

/// Returns the same part, whose IDs are read first: of the posts that are left out no row is read,
/// only their places in the index.
fn part_by_ids(
    conn: &mut Connection<MemStore>,
    kept: &mut KeptPosts,
    alloc: Global,
    kind: PostKind,
    from: &PostDate,
    to: &PostDate,
    limit: u32,
    offset: u32,
) -> Result<Vec<Post>, TablesFault>
    requires site { IsSite conn.old }
    requires stored { AreStored kept.old (rows_of conn.old).posts }
    ensures reads { Reads conn.old conn.new }
    ensures posts { IfOk result (λ posts. posts.items
        ≡ page_of kind from.now to.now limit offset (rows_of conn.old).posts) }
    ensures stored { AreStored kept.new (rows_of conn.old).posts }
    ensures stopped { IfErr result (IsReadFault (rows_of conn.old).step_limit) }
{
    let rows = id_rows(conn, kind, from, to, limit, offset)?;
    let ids = read_ids(alloc, &rows)?;
    known_part(conn, kept, alloc, kind, from, to, limit, offset, &ids)
}

/// Returns the IDs of a part, in its order. All that the statement reads is in the index of dates.
fn id_rows(
    conn: &mut Connection<MemStore>,
    kind: PostKind,
    from: &PostDate,
    to: &PostDate,
    limit: u32,
    offset: u32,
) -> Result<Vec<Row>, Error>
    requires { IsSite conn.old }
    ensures reads { Reads conn.old conn.new }
    ensures ids { IfOk result (λ rows. map (λ r. magnitude (id_in (column r 0))) rows.items
        ≡ map (λ p. p.id) (page_of kind from.now to.now limit offset (rows_of conn.old).posts)) }
    ensures readable { IfOk result (λ rows. All (λ r. IsId (column r 0)) rows.items) }
    ensures stopped { IfErr result (IsStopped (rows_of conn.old).step_limit) }
{
    conn.query_all(
        "SELECT id FROM post \
         WHERE kind = ?1 AND status = 'publish' AND date BETWEEN ?2 AND ?3 \
         ORDER BY date DESC, id DESC LIMIT ?4 OFFSET ?5",
        params![kind_text(kind), from.as_str(), to.as_str(), limit, offset],
    )
}

/// Returns the posts that have the IDs, in the order of the IDs.
fn posts_with(
    conn: &mut Connection<MemStore>,
    kept: &mut KeptPosts,
    alloc: Global,
    ids: &[u32],
) -> Result<Vec<Post>, TablesFault>
    requires site { IsSite conn.old }
    requires stored { AreStored kept.old (rows_of conn.old).posts }
    ensures reads { Reads conn.old conn.new }
    ensures posts { IfOk result (λ posts. posts.items
        ≡ flat_map (λ id. option_to_list (post_with id (rows_of conn.old).posts)) ids.now) }
    ensures stored { AreStored kept.new (rows_of conn.old).posts }
    ensures stopped { IfErr result (IsReadFault (rows_of conn.old).step_limit) }
{
    let mut posts = Vec::new(alloc);
    for id in ids {
        push_post(conn, kept, &mut posts, *id)?;
    }
    Ok(posts)
}

/// Appends the post with the ID, if there is one.
fn push_post(
    conn: &mut Connection<MemStore>,
    kept: &mut KeptPosts,
    posts: &mut Vec<Post>,
    id: u32,
) -> Result<(), Error>
    requires site { IsSite conn.old }
    requires stored { AreStored kept.old (rows_of conn.old).posts }
    ensures reads { Reads conn.old conn.new }
    ensures posts { OnOk result (posts.new.items
        ≡ posts.old.items ++ option_to_list (post_with id (rows_of conn.old).posts)) }
    ensures stored { AreStored kept.new (rows_of conn.old).posts }
    ensures stopped { IfErr result (IsStopped (rows_of conn.old).step_limit) }
{
    if let Some(post) = post_at(conn, kept, id)? {
        push(posts, post)?;
    }
    Ok(())
}

/// Returns the post with the ID, if there is one. It is read only if it isn't kept.
pub(crate) fn post_at(
    conn: &mut Connection<MemStore>,
    kept: &mut KeptPosts,
    id: u32,
) -> Result<Option<Post>, Error>
    requires site { IsSite conn.old }
    requires stored { AreStored kept.old (rows_of conn.old).posts }
    ensures reads { Reads conn.old conn.new }
    ensures post { IfOk result (λ post. post ≡ post_with id (rows_of conn.old).posts) }
    ensures stored { AreStored kept.new (rows_of conn.old).posts }
    ensures stopped { IfErr result (IsStopped (rows_of conn.old).step_limit) }
{
    if let Some(post) = kept.at(id) {
        return Ok(Some(post));
    }
    let rows = post_rows(conn, id)?;
    let found = read_found(&rows)?;
    if let Some(post) = &found {
        kept.keep(id, post);
    }
    Ok(found)
}
