//! Reading values from the rows of a query's result.
ghost use Rattle.std.specs.Prelude.{
  ◌≡◌,
  ◌<◌,
  ◌≤◌,
  ◌++◌,
  ◌∷◌,
  [],
  ℕ,
  true,
  length,
  map,
  All,
  IfOk,
  IfErr,
  OnOk,
};
ghost use Rattle.std.specs.Option.{option_to_list};
ghost use Rattle.site_records.specs.Dates.{is_post_date};
ghost use Rattle.post_tables.specs.Reading.{
  post_from,
  pair_from,
  name_from,
  IsId,
  IsNoMemory,
  IsPostRow,
  IsPairRow,
  IsNameRow,
  IsTop,
  IsTopRow,
};
ghost use Rattle.post_tables.specs.Stored.{IsText, magnitude, kind_of, status_of};
ghost use Rattle.sqlite_rules.specs.Edit.{id_in};
ghost use Rattle.sqlite_value.specs.Order.{column, bytes};

use plain_data::Text;
use site_records::{Post, PostDate, PostKind, PostStatus};
use sqlite::{Error, ErrorCode, Row};
use std::alloc::Global;

fn read_kind(text: &str) -> PostKind
    ensures { result ≡ kind_of text.now }
{
    if text == "page" {
        PostKind::Page
    } else {
        PostKind::Post
    }
}

fn read_status(text: &str) -> PostStatus
    ensures { result ≡ status_of text.now }
{
    if text == "publish" {
        PostStatus::Publish
    } else {
        PostStatus::Draft
    }
}

fn read_text(row: &Row, at: usize) -> Result<Text, Error>
    requires place { at < length row.now }
    requires text { IsText (column row.now at) }
    ensures ok { IfOk result (λ text. text ≡ bytes (column row.now at)) }
    ensures memory { IfErr result IsNoMemory }
{
    let text: String = row.get(at)?;
    Ok(Text::new(text))
}

// Reads a text that is kept and copied for each page: copies of one that isn't empty share its
// memory.
fn read_shared(row: &Row, at: usize) -> Result<Text, Error>
    requires place { at < length row.now }
    requires text { IsText (column row.now at) }
    ensures ok { IfOk result (λ text. text ≡ bytes (column row.now at)) }
    ensures memory { IfErr result IsNoMemory }
{
    let mut text = read_text(row, at)?;
    if text.as_str().is_empty() {
        return Ok(text);
    }
    match text.share() {
        Ok(()) => Ok(text),
        Err(_) => Err(Error::SqliteFailure(ErrorCode::OutOfMemory)),
    }
}

// Reads the date in a column.
fn read_date(text: &str) -> PostDate
    requires { is_post_date text.now ≡ true }
    ensures { result ≡ text.now }
{
    match PostDate::read(text) {
        Some(date) => date,
        None => unreachable!(),
    }
}

// Reads the ID that a row begins with.
fn read_id(row: &Row) -> Result<u32, Error>
    requires { IsId (column row.now 0) }
    ensures ok { IfOk result (λ id. id ≡ magnitude (id_in (column row.now 0))) }
    ensures memory { IfErr result IsNoMemory }
{
    row.get(0)
}

/// Reads the IDs that rows begin with.
pub(crate) fn read_ids(alloc: Global, rows: &[Row]) -> Result<Vec<u32>, Error>
    requires { All (λ r. IsId (column r 0)) rows.now }
    ensures ok { IfOk result (λ ids. ids.items
        ≡ map (λ r. magnitude (id_in (column r 0))) rows.now) }
    ensures memory { IfErr result IsNoMemory }
{
    let mut ids = Vec::new(alloc);
    for row in rows {
        push(&mut ids, read_id(row)?)?;
    }
    Ok(ids)
}

// Reads the kind in a post's row.
fn kind_in(row: &Row) -> Result<PostKind, Error>
    requires { IsPostRow row.now }
    ensures memory { IfErr result IsNoMemory }
    ensures ok { IfOk result (λ kind. kind ≡ kind_of (bytes (column row.now 1))) }
{
    Ok(read_kind(read_text(row, 1)?.as_str()))
}

// Reads the status in a post's row.
fn status_in(row: &Row) -> Result<PostStatus, Error>
    requires { IsPostRow row.now }
    ensures memory { IfErr result IsNoMemory }
    ensures ok { IfOk result (λ status. status ≡ status_of (bytes (column row.now 2))) }
{
    Ok(read_status(read_text(row, 2)?.as_str()))
}

// Reads the date in a post's row.
fn date_in(row: &Row) -> Result<PostDate, Error>
    requires { IsPostRow row.now }
    ensures memory { IfErr result IsNoMemory }
    ensures ok { IfOk result (λ date. date ≡ bytes (column row.now 5)) }
{
    Ok(read_date(read_text(row, 5)?.as_str()))
}

fn read_post(row: &Row) -> Result<Post, Error>
    requires { IsPostRow row.now }
    ensures memory { IfErr result IsNoMemory }
    ensures ok { IfOk result (λ post. post ≡ post_from row.now) }
{
    Ok(Post {
        id: read_id(row)?,
        kind: kind_in(row)?,
        status: status_in(row)?,
        title: read_shared(row, 3)?,
        content: read_shared(row, 4)?,
        date: date_in(row)?,
    })
}

/// Appends a value.
pub(crate) fn push<T: Drop>(values: &mut Vec<T>, value: T) -> Result<(), Error>
    ensures ok { OnOk result (values.new.items ≡ values.old.items ++ value ∷ []) }
    ensures memory { IfErr result IsNoMemory }
{
    if values.push(value).is_err() {
        return Err(Error::SqliteFailure(ErrorCode::OutOfMemory));
    }
    Ok(())
}

pub(crate) fn read_posts(alloc: Global, rows: &[Row]) -> Result<Vec<Post>, Error>
    requires { All IsPostRow rows.now }
    ensures memory { IfErr result IsNoMemory }
    ensures ok { IfOk result (λ posts. posts.items ≡ map post_from rows.now) }
{
    let mut posts = Vec::new(alloc);
    for row in rows {
        push(&mut posts, read_post(row)?)?;
    }
    Ok(posts)
}

// Reads a name and its value.
fn read_pair(row: &Row) -> Result<(Text, Text), Error>
    requires { IsPairRow row.now }
    ensures memory { IfErr result IsNoMemory }
    ensures ok { IfOk result (λ pair. pair ≡ pair_from row.now) }
{
    let name = read_shared(row, 0)?;
    Ok((name, read_shared(row, 1)?))
}

pub(crate) fn read_pairs(alloc: Global, rows: &[Row]) -> Result<Vec<(Text, Text)>, Error>
    requires { All IsPairRow rows.now }
    ensures memory { IfErr result IsNoMemory }
    ensures ok { IfOk result (λ pairs. pairs.items ≡ map pair_from rows.now) }
{
    let mut pairs = Vec::new(alloc);
    for row in rows {
        push(&mut pairs, read_pair(row)?)?;
    }
    Ok(pairs)
}

// Reads a name.
fn read_name(row: &Row) -> Result<Text, Error>
    requires { IsNameRow row.now }
    ensures memory { IfErr result IsNoMemory }
    ensures ok { IfOk result (λ name. name ≡ name_from row.now) }
{
    read_shared(row, 0)
}

pub(crate) fn read_names(alloc: Global, rows: &[Row]) -> Result<Vec<Text>, Error>
    requires { All IsNameRow rows.now }
    ensures memory { IfErr result IsNoMemory }
    ensures ok { IfOk result (λ names. names.items ≡ map name_from rows.now) }
{
    let mut names = Vec::new(alloc);
    for row in rows {
        push(&mut names, read_name(row)?)?;
    }
    Ok(names)
}

/// Reads the post in a result of at most one row.
pub(crate) fn read_found(rows: &[Row]) -> Result<Option<Post>, Error>
    requires readable { All IsPostRow rows.now }
    requires few { length rows.now ≤ 1 }
    ensures ok { IfOk result (λ found. map post_from rows.now ≡ option_to_list found) }
    ensures memory { IfErr result IsNoMemory }
{
    match rows {
        [] => Ok(None),
        [row] => Ok(Some(read_post(row)?)),
        _ => unreachable!(),
    }
}

/// Reads the largest ID, which is 0 before the first was given.
pub(crate) fn read_top(rows: &[Row]) -> Result<u32, Error>
    requires { IsTopRow rows.now }
    ensures ok { IfOk result (λ top. (largest : ℕ) → IsTop rows.now largest → top ≡ largest) }
    ensures memory { IfErr result IsNoMemory }
{
    match rows {
        [] => Ok(0),
        [row] => row.get(0),
        _ => unreachable!(),
    }
}
