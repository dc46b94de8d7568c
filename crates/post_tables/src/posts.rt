//! The statements on posts.
ghost use Rattle.std.specs.Prelude.{
  ◌≡◌,
  ◌≤◌,
  true,
  option_map,
  not,
  nat_eq,
  length,
  map,
  All,
  IfOk,
  IfErr,
  IfSome,
  IsUtf8,
};
ghost use Rattle.std.specs.Option.{option_to_list, option_copied};
ghost use Rattle.site_records.specs.Dates.{is_post_date};
ghost use Rattle.post_tables.specs.Page.{page_of};
ghost use Rattle.post_tables.specs.Reading.{post_from, post_with_id, IsStopped, IsPostRow, IsTop};
ghost use Rattle.post_tables.specs.Reading.{IsTopRow};
ghost use Rattle.post_tables.specs.Rows.{
  with_new,
  without_post,
  has_post,
  post_with,
  posts_after,
  edited_posts,
  edit_by,
};
ghost use Rattle.post_tables.specs.Stored.{
  IsSite,
  IsOpen,
  Makes,
  MakesInside,
  Reads,
  rows_of,
};
ghost use Rattle.site_records.specs.Kinds.{status_text};

use crate::read::read_top;
use site_records::{PostDate, PostKind, PostStatus, kind_text, status_text};
use sqlite::{Connection, Error, MemStore, Row, Transaction, params};

const INSERT_POST: &str = "INSERT INTO post (id, kind, status, title, content, date) \
     VALUES (?1, ?2, ?3, ?4, ?5, ?6)";

const FIND_POST: &str = "SELECT id FROM post WHERE id = ?1";

/// A post that is to be stored.
#[derive(Clone, Copy)]
pub(crate) struct NewPost<'a> {
    pub(crate) id: u32,
    pub(crate) kind: PostKind,
    pub(crate) status: PostStatus,
    pub(crate) title: &'a str,
    pub(crate) content: &'a str,
    pub(crate) date: &'a PostDate,
}

fn given_status(status: Option<PostStatus>) -> Option<&'static str>
    ensures { option_copied result ≡ option_map status_text status }
{
    match status {
        Some(status) => Some(status_text(status)),
        None => None,
    }
}

/// Returns the text unchanged. Its contract states what every `&str` is by its type, UTF-8: rows
/// are read back by that.
fn as_text(text: &str) -> &str
    ensures same { result.now ≡ text.now }
    ensures utf8 { IsUtf8 text.now }
{
    text
}

fn given_text(text: Option<&str>) -> Option<&str>
    ensures value { option_copied result ≡ option_copied text.entry }
    ensures utf8 { IfSome (option_copied text.entry) IsUtf8 }
{
    match text {
        Some(text) => Some(as_text(text)),
        None => None,
    }
}

fn given_date(date: Option<&PostDate>) -> Option<&str>
    ensures value { option_copied result ≡ option_copied date.entry }
    ensures utf8 { IfSome (option_copied date.entry) IsUtf8 }
    ensures dated { IfSome (option_copied date.entry) (λ d. is_post_date d ≡ true) }
{
    match date {
        Some(date) => Some(date.as_str()),
        None => None,
    }
}

pub(crate) fn insert_post(
    conn: &mut Connection<MemStore>,
    post: &NewPost<'_>,
) -> Result<usize, Error>
    requires { IsSite conn.old }
    ensures { Makes (with_new (post_with_id post.now)) conn.old conn.new result }
{
    conn.execute(
        INSERT_POST,
        params![
            post.id,
            kind_text(post.kind),
            status_text(post.status),
            as_text(post.title),
            as_text(post.content),
            post.date.as_str()
        ],
    )
}

pub(crate) fn insert_post_in(
    tx: &mut Transaction<'_, MemStore>,
    post: &NewPost<'_>,
) -> Result<usize, Error>
    requires { IsOpen tx.old }
    ensures { MakesInside (with_new (post_with_id post.now)) tx.old tx.new result }
{
    tx.execute(
        INSERT_POST,
        params![
            post.id,
            kind_text(post.kind),
            status_text(post.status),
            as_text(post.title),
            as_text(post.content),
            post.date.as_str()
        ],
    )
}

/// Deletes the post with the ID, if there is one, and returns how many it has deleted.
pub(crate) fn delete_post(conn: &mut Connection<MemStore>, id: u32) -> Result<usize, Error>
    requires { IsSite conn.old }
    ensures makes { Makes (λ s. record s { posts = without_post id s.posts })
        conn.old conn.new result }
    ensures found { IfOk result (λ count. not (nat_eq count 0)
        ≡ has_post id (rows_of conn.old).posts) }
{
    conn.execute("DELETE FROM post WHERE id = ?1", params![id])
}

/// Edits the post with the ID, if there is one, and returns how many it has edited.
// What is not given is NULL in the statement, and the column then keeps what it has.
pub(crate) fn edit_post(
    conn: &mut Connection<MemStore>,
    id: u32,
    status: Option<PostStatus>,
    title: Option<&str>,
    content: Option<&str>,
    date: Option<&PostDate>,
) -> Result<usize, Error>
    requires { IsSite conn.old }
    ensures makes { Makes
        (λ s. record s {
          posts = edited_posts id
              (edit_by status title.entry content.entry date.entry) s.posts;
        })
        conn.old conn.new result }
    ensures found { IfOk result (λ count. not (nat_eq count 0)
        ≡ has_post id (rows_of conn.old).posts) }
{
    conn.execute(
        "UPDATE post SET status = coalesce(?2, status), title = coalesce(?3, title), \
         content = coalesce(?4, content), date = coalesce(?5, date) WHERE id = ?1",
        params![
            id,
            given_status(status),
            given_text(title),
            given_text(content),
            given_date(date)
        ],
    )
}

/// Returns the row that AUTOINCREMENT keeps, which has the largest ID ever given.
fn top_rows(conn: &mut Connection<MemStore>) -> Result<Vec<Row>, Error>
    requires { IsSite conn.old }
    ensures reads { Reads conn.old conn.new }
    ensures rows { IfOk result (λ rows. IsTop rows.items (rows_of conn.old).largest) }
    ensures readable { IfOk result (λ rows. IsTopRow rows.items) }
    ensures stopped { IfErr result (IsStopped (rows_of conn.old).step_limit) }
{
    conn.query_all("SELECT seq FROM sqlite_sequence WHERE name = 'post'", &[])
}

/// Returns the largest ID ever given, or 0 before the first.
pub(crate) fn largest_id(conn: &mut Connection<MemStore>) -> Result<u32, Error>
    requires { IsSite conn.old }
    ensures reads { Reads conn.old conn.new }
    ensures largest { IfOk result (λ id. id ≡ (rows_of conn.old).largest) }
    ensures stopped { IfErr result (IsStopped (rows_of conn.old).step_limit) }
{
    read_top(&top_rows(conn)?)
}

pub(crate) fn post_rows(conn: &mut Connection<MemStore>, id: u32) -> Result<Vec<Row>, Error>
    requires { IsSite conn.old }
    ensures reads { Reads conn.old conn.new }
    ensures rows { IfOk result (λ rows. map post_from rows.items
        ≡ option_to_list (post_with id (rows_of conn.old).posts)) }
    ensures readable { IfOk result (λ rows. All IsPostRow rows.items × (length rows.items ≤ 1)) }
    ensures stopped { IfErr result (IsStopped (rows_of conn.old).step_limit) }
{
    conn.query_all(
        "SELECT id, kind, status, title, content, date FROM post WHERE id = ?1",
        params![id],
    )
}

/// Returns the posts and pages with an ID above this one, `limit` of them at most.
pub(crate) fn later_rows(
    conn: &mut Connection<MemStore>,
    id: u32,
    limit: u32,
) -> Result<Vec<Row>, Error>
    requires { IsSite conn.old }
    ensures reads { Reads conn.old conn.new }
    ensures rows { IfOk result (λ rows. map post_from rows.items
        ≡ posts_after id limit (rows_of conn.old).posts) }
    ensures readable { IfOk result (λ rows. All IsPostRow rows.items) }
    ensures stopped { IfErr result (IsStopped (rows_of conn.old).step_limit) }
{
    conn.query_all(
        "SELECT id, kind, status, title, content, date FROM post WHERE id > ?1 ORDER BY id LIMIT ?2",
        params![id, limit],
    )
}

pub(crate) fn page_rows(
    conn: &mut Connection<MemStore>,
    kind: PostKind,
    from: &PostDate,
    to: &PostDate,
    limit: u32,
    offset: u32,
) -> Result<Vec<Row>, Error>
    requires { IsSite conn.old }
    ensures reads { Reads conn.old conn.new }
    ensures rows { IfOk result (λ rows. map post_from rows.items
        ≡ page_of kind from.now to.now limit offset (rows_of conn.old).posts) }
    ensures readable { IfOk result (λ rows. All IsPostRow rows.items) }
    ensures stopped { IfErr result (IsStopped (rows_of conn.old).step_limit) }
{
    conn.query_all(
        "SELECT id, kind, status, title, content, date FROM post \
         WHERE kind = ?1 AND status = 'publish' AND date BETWEEN ?2 AND ?3 \
         ORDER BY date DESC, id DESC LIMIT ?4 OFFSET ?5",
        params![kind_text(kind), from.as_str(), to.as_str(), limit, offset],
    )
}

fn id_rows(conn: &mut Connection<MemStore>, id: u32) -> Result<Vec<Row>, Error>
    requires { IsSite conn.old }
    ensures reads { Reads conn.old conn.new }
    ensures found { IfOk result (λ rows. not (nat_eq (length rows.items) 0)
        ≡ has_post id (rows_of conn.old).posts) }
    ensures stopped { IfErr result (IsStopped (rows_of conn.old).step_limit) }
{
    conn.query_all(FIND_POST, params![id])
}

/// Returns whether a post has the ID.
pub(crate) fn has_post(conn: &mut Connection<MemStore>, id: u32) -> Result<bool, Error>
    requires { IsSite conn.old }
    ensures reads { Reads conn.old conn.new }
    ensures found { IfOk result (λ found. found ≡ has_post id (rows_of conn.old).posts) }
    ensures stopped { IfErr result (IsStopped (rows_of conn.old).step_limit) }
{
    let rows = id_rows(conn, id)?;
    Ok(!rows.is_empty())
}
