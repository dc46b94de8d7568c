//! Finding what a site has for a query.
ghost use Rattle.std.specs.Prelude.{
  codes,
  ◌≡◌,
  ◌≤◌,
  ◌-◌,
  ◌*◌,
  ◌&&◌,
  true,
  false,
  Ok,
  None,
  is_some,
  IfSome,
  IfOk,
  IfErr,
  filter,
};
ghost use Rattle.std.specs.List.{list_all};
ghost use Rattle.std.specs.Option.{option_to_list};
ghost use Rattle.post_tables.specs.Faults.{IsStoreReadFault};
ghost use Rattle.post_tables.specs.Page.{is_kind, is_published, page_of};
ghost use Rattle.site_records.specs.Dates.{is_post_date};
ghost use Rattle.permalink_query.specs.Found.{
  posts_per_page,
  part_of_posts,
  published_posts,
  posts_of_month,
  published_with,
  unless_empty,
  fronts_a_page,
  page_on_front,
  list_kind,
  front_of,
  listed_front,
  nothing,
  is_void,
  query_result,
};
ghost use Rattle.permalink_query.specs.Months.{is_month};
ghost use Rattle.site_records.specs.Sorted.{AreSorted};

use crate::month::month_span;
use crate::number::whole_number;
use crate::query::Query;
use plain_data::{Listed, Text};
use post_tables::{StoreFault, Tables};
use site_records::{Found, FoundKind, Post, PostDate, PostKind, PostStatus, sorted_named};
use std::alloc::{AllocError, Global};

/// How many posts make a part if the option doesn't say.
const DEFAULT_SIZE: u32 = 10;

/// Finds what a site has for a query: only published posts and pages, and of a list the part that
/// the query names, newest first (class WP_Query). A part has as many posts as the option
/// `posts_per_page` says, if that is a number from 1 to 100, and otherwise 10. If the option
/// `show_on_front` is `page` and `page_on_front` is a number other than 0, the front shows the page
/// with that ID, whatever the part. The options are in ascending order of their names, each once.
///
/// Nothing is found if there is no such post or page, or if a part is empty, except the first part
/// of a front that lists posts. A part of it that isn't a number finds nothing, and neither does a
/// month that the calendar doesn't have.
///
/// It fails if memory runs out, or if a statement would go past the limit on its steps, and never
/// if there is nothing to look for.
pub fn find(
    alloc: Global,
    tables: &mut Tables,
    query: &Query,
    options: &[(Text, Text)],
) -> Result<Found, StoreFault>
    requires { AreSorted options.now }
    ensures ok { IfOk result (λ f. f ≡ query_result tables.old.posts options.now query.now) }
    ensures same { tables.new ≡ tables.old }
    ensures err { IfErr result (IsStoreReadFault tables.old.step_limit) }
    ensures void { is_void options.now query.now ≡ true → result ≡ Ok nothing }
{
    match *query {
        Query::Front { part } => find_front(alloc, tables, options, part),
        Query::Single { id } => {
            let posts = published(alloc, tables, PostKind::Post, id)?;
            Ok(unless_empty(alloc, FoundKind::Single, posts))
        }
        Query::Page { id } => {
            let posts = published(alloc, tables, PostKind::Page, id)?;
            Ok(unless_empty(alloc, FoundKind::Page, posts))
        }
        Query::Month { year, month, part } => {
            find_month(alloc, tables, options, year, month, part)
        }
        Query::Nothing => Ok(nothing(alloc)),
    }
}

/// Finds the page that the front shows, or else a part of all posts.
fn find_front(
    alloc: Global,
    tables: &mut Tables,
    options: &[(Text, Text)],
    part: Option<u32>,
) -> Result<Found, StoreFault>
    requires { AreSorted options.now }
    ensures ok { IfOk result (λ f. f ≡ query_result tables.old.posts options.now
        (Query.Front part)) }
    ensures same { tables.new ≡ tables.old }
    ensures err { IfErr result (IsStoreReadFault tables.old.step_limit) }
    ensures void { is_void options.now (Query.Front part) ≡ true → result ≡ Ok nothing }
{
    match page_on_front(options) {
        Some(id) => {
            let posts = published(alloc, tables, PostKind::Page, id)?;
            Ok(unless_empty(alloc, FoundKind::FrontPage, posts))
        }
        None => list_front(alloc, tables, options, part),
    }
}

/// Finds a part of all posts, or nothing if the part isn't a number.
fn list_front(
    alloc: Global,
    tables: &mut Tables,
    options: &[(Text, Text)],
    part: Option<u32>,
) -> Result<Found, StoreFault>
    requires { AreSorted options.now }
    ensures ok { IfOk result (λ f. f ≡ listed_front tables.old.posts options.now part) }
    ensures same { tables.new ≡ tables.old }
    ensures err { IfErr result (IsStoreReadFault tables.old.step_limit) }
    ensures void { is_some part ≡ false → result ≡ Ok nothing }
{
    match part {
        Some(part) => {
            let posts = front_part(tables, posts_per_page(options), part)?;
            Ok(front(alloc, list_kind(options), part, posts))
        }
        None => Ok(nothing(alloc)),
    }
}

/// Finds a part of the posts of a month.
fn find_month(
    alloc: Global,
    tables: &mut Tables,
    options: &[(Text, Text)],
    year: u16,
    month: u8,
    part: u32,
) -> Result<Found, StoreFault>
    requires { AreSorted options.now }
    ensures ok { IfOk result (λ f. f
        ≡ query_result tables.old.posts options.now (Query.Month year month part)) }
    ensures same { tables.new ≡ tables.old }
    ensures err { IfErr result (IsStoreReadFault tables.old.step_limit) }
    ensures void { is_month year month ≡ false → result ≡ Ok nothing }
{
    let Some(posts) = month_part(alloc, tables, posts_per_page(options), year, month, part)? else {
        return Ok(nothing(alloc));
    };
    Ok(unless_empty(alloc, FoundKind::Month, posts))
}

/// Returns a part of the published posts of a month, or `None` if the calendar has no such month.
fn month_part(
    alloc: Global,
    tables: &mut Tables,
    size: u32,
    year: u16,
    month: u8,
    part: u32,
) -> Result<Option<Listed<Post>>, StoreFault>
    requires { size ≤ 100 }
    ensures there { IfOk result (λ posts. is_some posts ≡ is_month year month) }
    ensures none { is_month year month ≡ false → result ≡ Ok None }
    ensures posts { IfOk result (λ found. IfSome found (λ posts. posts
        ≡ part_of_posts size part (posts_of_month year month (published_posts tables.old.posts)))) }
    ensures same { tables.new ≡ tables.old }
    ensures err { IfErr result (IsStoreReadFault tables.old.step_limit) }
{
    let Some((from, to)) = month_span(alloc, year, month)? else {
        return Ok(None);
    };
    let posts = part_of(tables, &from, &to, size, part)?;
    Ok(Some(posts))
}

/// Returns a part of all published posts. Each has a date between the first and the last possible
/// one.
fn front_part(tables: &mut Tables, size: u32, part: u32) -> Result<Listed<Post>, StoreFault>
    requires { size ≤ 100 }
    ensures ok { IfOk result (λ posts. posts
        ≡ part_of_posts size part (published_posts tables.old.posts)) }
    ensures same { tables.new ≡ tables.old }
    ensures err { IfErr result (IsStoreReadFault tables.old.step_limit) }
{
    let (from, to) = all_dates();
    part_of(tables, &from, &to, size, part)
}

/// Returns the first and the last moment that a post can have.
#[tactic(auto, unfolding(site_records::specs::Dates::is_post_date))]
fn all_dates() -> (PostDate, PostDate)
    ensures from { result.0 ≡ codes "0001-01-01 00:00:00" }
    ensures to { result.1 ≡ codes "9999-12-31 23:59:59" }
{
    match (
        PostDate::read("0001-01-01 00:00:00"),
        PostDate::read("9999-12-31 23:59:59"),
    ) {
        (Some(from), Some(to)) => (from, to),
        _ => unreachable!(),
    }
}

/// Returns the posts of a span of dates that a part has.
fn part_of(
    tables: &mut Tables,
    from: &PostDate,
    to: &PostDate,
    size: u32,
    part: u32,
) -> Result<Listed<Post>, StoreFault>
    requires { size ≤ 100 }
    ensures ok { IfOk result (λ posts. posts
        ≡ page_of PostKind.Post from.now to.now size ((part - 1) * size) tables.old.posts) }
    ensures dated { list_all (λ p. is_post_date p.date) tables.old.posts ≡ true }
    ensures same { tables.new ≡ tables.old }
    ensures err { IfErr result (IsStoreReadFault tables.old.step_limit) }
{
    let offset = u64::from(part.saturating_sub(1)) * u64::from(size);
    Ok(tables.posts_of(PostKind::Post, from, to, size, offset)?)
}

/// Returns the published entry of a kind with the ID, if there is one.
fn published(
    alloc: Global,
    tables: &mut Tables,
    kind: PostKind,
    id: u32,
) -> Result<Listed<Post>, StoreFault>
    ensures ok { IfOk result (λ posts. posts ≡ published_with kind id tables.old.posts) }
    ensures same { tables.new ≡ tables.old }
    ensures err { IfErr result (IsStoreReadFault tables.old.step_limit) }
{
    let found = tables.post(id)?;
    Ok(if_published(alloc, kind, found)?)
}

/// Returns the entry, if it is published and of the kind.
fn if_published(
    alloc: Global,
    kind: PostKind,
    found: Option<Post>,
) -> Result<Listed<Post>, AllocError>
    ensures { IfOk result (λ posts. posts
        ≡ filter (λ p. is_kind p.kind kind && is_published p.status) (option_to_list found)) }
{
    let mut posts = Listed::empty(alloc);
    if let Some(post) = found {
        if post.kind == kind && post.status == PostStatus::Publish {
            posts.push(post)?;
        }
    }
    Ok(posts)
}

fn front(alloc: Global, kind: FoundKind, part: u32, posts: Listed<Post>) -> Found
    ensures { result ≡ front_of kind part posts }
{
    if part <= 1 {
        Found {
            kind,
            posts,
            status: 200,
        }
    } else {
        unless_empty(alloc, kind, posts)
    }
}

fn unless_empty(alloc: Global, kind: FoundKind, posts: Listed<Post>) -> Found
    ensures { result ≡ unless_empty kind posts }
{
    if posts.as_slice().is_empty() {
        nothing(alloc)
    } else {
        Found {
            kind,
            posts,
            status: 200,
        }
    }
}

fn nothing(alloc: Global) -> Found
    ensures { result ≡ nothing }
{
    Found {
        kind: FoundKind::NotFound,
        posts: Listed::empty(alloc),
        status: 404,
    }
}

/// Returns how many posts make a part.
fn posts_per_page(options: &[(Text, Text)]) -> u32
    requires { AreSorted options.now }
    ensures value { result ≡ posts_per_page options.now }
    ensures few { result ≤ 100 }
{
    match sorted_named(options, "posts_per_page").and_then(whole_number) {
        Some(size) if (1..=100).contains(&size) => size,
        _ => DEFAULT_SIZE,
    }
}

/// Returns the ID of the page that the front shows, if it shows one.
fn page_on_front(options: &[(Text, Text)]) -> Option<u32>
    requires { AreSorted options.now }
    ensures { result ≡ page_on_front options.now }
{
    if !fronts_a_page(options) {
        return None;
    }
    match sorted_named(options, "page_on_front").and_then(whole_number) {
        Some(id) if id > 0 => Some(id),
        _ => None,
    }
}

/// Returns the kind of a front that lists posts.
fn list_kind(options: &[(Text, Text)]) -> FoundKind
    requires { AreSorted options.now }
    ensures { result ≡ list_kind options.now }
{
    if fronts_a_page(options) {
        FoundKind::Home
    } else {
        FoundKind::Front
    }
}

/// Returns whether the front is to show a page.
fn fronts_a_page(options: &[(Text, Text)]) -> bool
    requires { AreSorted options.now }
    ensures { result ≡ fronts_a_page options.now }
{
    matches!(sorted_named(options, "show_on_front"), Some("page"))
}
