//! Queries, and how the path of a request says one.
ghost use Rattle.std.specs.Prelude.{◌≡◌, true, codes, Some, IfOk, if◌then◌else◌, option_map};
ghost use Rattle.std.specs.Prelude.{nat_lt};
ghost use Rattle.std.specs.Option.{option_map_or};
ghost use Rattle.std.specs.Str.{bytes_eq};
ghost use Rattle.std.specs.Cow.{cow_str_bytes};
ghost use Rattle.std.specs.List.{before_first, after_first, list_all};
ghost use Rattle.std.specs.Str.Lossy.{utf8_lossy};
ghost use Rattle.form_urlencoded.specs.Form.{parse};
ghost use Rattle.permalink_query.specs.Numbers.{whole_number, year_and_month};
ghost use Rattle.permalink_query.specs.Paths.{
  is_question_mark,
  last_value,
  part_number,
  part_of,
  asks,
  query_by,
  query_of,
};

use crate::number::{whole_number, year_and_month};
use std::alloc::{AllocError, Global};
use std::borrow::CowStr;

/// What a request asks for (class WP_Query). Parts are counted from 1; part 0 is the first too.
#[derive(Clone, Copy, PartialEq, Eq)]
pub enum Query {
    /// The page that the site has at its front, or else a part of all posts, newest first. The part
    /// is `None` if `paged` isn't a number, which finds nothing if posts are listed.
    Front { part: Option<u32> },
    /// One post.
    Single { id: u32 },
    /// One page.
    Page { id: u32 },
    /// A part of the posts of a month, newest first. Months are counted from 1.
    Month { year: u16, month: u8, part: u32 },
    /// A request that no post or page matches.
    Nothing,
}

/// Reads the path of a request: `/` or `/index.php`, and after its first `?` the pairs of a form
/// (URL Standard, `application/x-www-form-urlencoded`). The first of `p`, `page_id` and `m` that is
/// there decides alone, by its last value; `paged` counts with `m` and with the front, which is
/// asked for if none of the three is there. Any other path asks for nothing, and so does a value
/// that doesn't have its form, except `paged` with the front. It fails only if memory runs out.
pub fn read(alloc: Global, path: &str) -> Result<Query, AllocError>
    ensures { IfOk result (λ query. query ≡ query_of path.now) }
{
    let (script, form) = split_path(path);
    match script {
        "/" | "/index.php" => read_form(alloc, form),
        _ => Ok(Query::Nothing),
    }
}

/// Splits a path into what comes before its first `?` and what comes after it.
fn split_path(path: &str) -> (&str, &str)
    ensures before { result.0.now ≡ before_first is_question_mark path.now }
    ensures after { result.1.now ≡ after_first is_question_mark path.now }
{
    path.split_once('?').unwrap_or((path, ""))
}

fn read_form(alloc: Global, form: &str) -> Result<Query, AllocError>
    ensures { IfOk result (λ query. query ≡ query_by (parse form.now)) }
{
    if let Some(id) = last_value(alloc, form, "p")? {
        return Ok(single(id.as_str()));
    }
    if let Some(id) = last_value(alloc, form, "page_id")? {
        return Ok(page(id.as_str()));
    }
    read_list(alloc, form)
}

/// Reads the list that `m` and `paged` ask for.
fn read_list(alloc: Global, form: &str) -> Result<Query, AllocError>
    ensures { IfOk result (λ query. query ≡
        let part = part_of (last_value (codes "paged") (parse form.now)) in
        option_map_or (λ month. asks (λ m. asks (Query.Month m.0 m.1) part) (year_and_month month))
        (last_value (codes "m") (parse form.now)) (Query.Front part)) }
{
    let part = read_part(alloc, form)?;
    match last_value(alloc, form, "m")? {
        Some(text) => Ok(month(text.as_str(), part)),
        None => Ok(Query::Front { part }),
    }
}

fn single(id: &str) -> Query
    ensures { result ≡ asks Query.Single (whole_number id.now) }
{
    match whole_number(id) {
        Some(id) => Query::Single { id },
        None => Query::Nothing,
    }
}

fn page(id: &str) -> Query
    ensures { result ≡ asks Query.Page (whole_number id.now) }
{
    match whole_number(id) {
        Some(id) => Query::Page { id },
        None => Query::Nothing,
    }
}

fn month(text: &str, part: Option<u32>) -> Query
    ensures { result ≡ asks (λ m. asks (Query.Month m.0 m.1) part) (year_and_month text.now) }
{
    match (year_and_month(text), part) {
        (Some((year, month)), Some(part)) => Query::Month { year, month, part },
        _ => Query::Nothing,
    }
}

/// Returns the part that `paged` asks for, or `None` if it isn't a number. Without `paged` it is
/// part 1.
fn read_part(alloc: Global, form: &str) -> Result<Option<u32>, AllocError>
    ensures { IfOk result (λ part. part ≡ part_of (last_value (codes "paged") (parse form.now))) }
{
    match last_value(alloc, form, "paged")? {
        Some(text) => Ok(part_number(text.as_str())),
        None => Ok(Some(1)),
    }
}

fn part_number(text: &str) -> Option<u32>
    ensures { result ≡ part_number text.now }
{
    whole_number(text).map(|n| n.max(1))
}

/// Returns the last value under a name, with U+FFFD for what is not UTF-8 in it.
fn last_value<'a>(
    alloc: Global,
    form: &'a str,
    name: &str,
) -> Result<Option<CowStr<'a>>, AllocError>
    requires { list_all (λ b. nat_lt b 128) name.now ≡ true }
    ensures { IfOk result (λ value. option_map cow_str_bytes value
        ≡ option_map utf8_lossy (last_value name.now (parse form.now))) }
{
    let mut last = None;
    for pair in form_urlencoded::parse(alloc, form.as_bytes()) {
        let pair = pair?;
        last = value_under(name, pair, last);
    }
    Ok(last)
}

/// Returns the value of a pair that has the name, or else what was found before.
fn value_under<'a>(
    name: &str,
    pair: (CowStr<'a>, CowStr<'a>),
    before: Option<CowStr<'a>>,
) -> Option<CowStr<'a>>
    ensures { option_map cow_str_bytes result ≡ (if bytes_eq (cow_str_bytes pair.entry.0) name.now
        then Some (cow_str_bytes pair.entry.1) else option_map cow_str_bytes before.entry) }
{
    let (other, value) = pair;
    if other.as_str() == name {
        Some(value)
    } else {
        before
    }
}
