//! A limit on the steps of a site's statements: a command is refused as `Store` under each limit
//! that is too small, and leaves every page as it was.
use crate::climbing::Climbing;
use crate::replies::{Wanted, is_reply};
use crate::sites::{Trial, are_replies, passes};
use site_program::{Refusal, Site, SiteReply};
use std::alloc::{AllocError, Global};

const FRONT: &[u8] = br#"{"cmd":"get","path":"/"}"#;

const PUT: &[u8] = br#"{"cmd":"put","title":"T","content":"C","date":"2024-05-01 10:00:00"}"#;

const NOTHING: Wanted = Wanted::Page(404, "<p>Nothing found.</p>");

/// As many posts as a page shows.
const TEN: &str = "<h2>T</h2>C<h2>T</h2>C<h2>T</h2>C<h2>T</h2>C<h2>T</h2>C\
    <h2>T</h2>C<h2>T</h2>C<h2>T</h2>C<h2>T</h2>C<h2>T</h2>C";

const STORE: Wanted = Wanted::No(Refusal::Store);

/// Commands of each kind that run statements, on a site with 11 posts. Some of them are refused.
static COMMANDS: [(&[u8], Wanted); 18] = [
    (PUT, Wanted::Id(12)),
    (FRONT, Wanted::Page(200, TEN)),
    (
        br#"{"cmd":"get","path":"/?paged=2"}"#,
        Wanted::Page(200, "<h2>T</h2>C<h2>T</h2>C"),
    ),
    (
        br#"{"cmd":"get","path":"/?m=202405"}"#,
        Wanted::Page(200, TEN),
    ),
    (
        br#"{"cmd":"begin","path":"/?m=202405&paged=2"}"#,
        Wanted::Id(1),
    ),
    (
        br#"{"cmd":"turns","page":1,"count":1000000}"#,
        Wanted::Page(200, "<h2>T</h2>C<h2>T</h2>C"),
    ),
    (br#"{"cmd":"get","path":"/?p=99"}"#, NOTHING),
    (
        br#"{"cmd":"edit","id":3,"title":"E","date":"2024-05-02 10:00:00"}"#,
        Wanted::Ok,
    ),
    (
        br#"{"cmd":"edit","id":99,"title":"E"}"#,
        Wanted::No(Refusal::NoSuchPost),
    ),
    (br#"{"cmd":"delete","id":4}"#, Wanted::Ok),
    (
        br#"{"cmd":"delete","id":4}"#,
        Wanted::No(Refusal::NoSuchPost),
    ),
    (
        br#"{"cmd":"option","name":"posts_per_page","value":"3"}"#,
        Wanted::Ok,
    ),
    (br#"{"cmd":"activate","plugin":"climb"}"#, Wanted::Ok),
    (
        br#"{"cmd":"template","name":"single","body":["<p>",{"tag":"site_name"},"</p>"]}"#,
        Wanted::Ok,
    ),
    (IMPORT, Wanted::Ok),
    (IMPORT, Wanted::No(Refusal::DuplicateId)),
    (br#"{"cmd":"deactivate","plugin":"climb"}"#, Wanted::Ok),
    (
        br#"{"cmd":"template","name":"single","body":null}"#,
        Wanted::Ok,
    ),
];

const IMPORT: &[u8] = b"{\"cmd\":\"import\",\"site\":{\"version\":1,\"posts\":[\
    {\"id\":40,\"kind\":\"page\",\"status\":\"publish\",\
    \"title\":\"P\",\"content\":\"Q\",\"date\":\"2024-05-03 10:00:00\"},\
    {\"id\":41,\"kind\":\"post\",\"status\":\"publish\",\
    \"title\":\"R\",\"content\":\"S\",\"date\":\"2024-05-04 10:00:00\"}\
    ],\"options\":{\"blogname\":\"B\"},\
    \"templates\":{\"page\":[{\"tag\":\"site_name\"}]},\"active\":[\"climb\"]}}";

/// Commands that are refused before a statement is run.
static EARLY: [(&[u8], Wanted); 4] = [
    (br#"{"cmd":"x"}"#, Wanted::No(Refusal::BadCommand)),
    (
        br#"{"cmd":"edit","id":3,"date":"2024"}"#,
        Wanted::No(Refusal::BadDate),
    ),
    (
        br#"{"cmd":"activate","plugin":"x"}"#,
        Wanted::No(Refusal::UnknownPlugin),
    ),
    (
        br#"{"cmd":"template","name":"x","body":[]}"#,
        Wanted::No(Refusal::BadTemplate),
    ),
];

/// Pages that show all that is stored.
static PAGES: [&[u8]; 6] = [
    FRONT,
    br#"{"cmd":"get","path":"/?paged=2"}"#,
    br#"{"cmd":"get","path":"/?p=3"}"#,
    br#"{"cmd":"get","path":"/?p=4"}"#,
    br#"{"cmd":"get","path":"/?p=41"}"#,
    br#"{"cmd":"get","path":"/?page_id=40"}"#,
];

/// Returns the pages, one after another.
fn shown(alloc: Global, site: &mut Site<'_, Climbing>) -> Result<Vec<u8>, AllocError> {
    let mut all = Vec::new(alloc);
    for page in &PAGES {
        if let SiteReply::Page { body, .. } = site.command(page) {
            all.extend_from_slice(body.as_slice())?;
        }
    }
    Ok(all)
}

fn is_shown(alloc: Global, site: &mut Site<'_, Climbing>, pages: &[u8]) -> bool {
    match shown(alloc, site) {
        Ok(all) => all.as_slice() == pages,
        Err(_) => false,
    }
}

/// Carries out a line under a limit, which is then removed. Returns whether the reply is the
/// expected one, and whether it is the refusal `Store`.
fn is_done(site: &mut Site<'_, Climbing>, limit: u32, line: &[u8], wanted: Wanted) -> (bool, bool) {
    site.limit_steps(Some(limit));
    let reply = site.command(line);
    site.limit_steps(None);
    (is_reply(&reply, wanted), is_reply(&reply, STORE))
}

/// Returns whether a command is refused as `Store` under each limit that is too small, with all
/// pages as before, and then gets the expected reply.
fn is_stopped_or_done(
    alloc: Global,
    site: &mut Site<'_, Climbing>,
    line: &[u8],
    wanted: Wanted,
) -> bool {
    match shown(alloc, site) {
        Ok(pages) => is_stopped_with(alloc, site, line, wanted, pages.as_slice()),
        Err(_) => false,
    }
}

fn is_stopped_with(
    alloc: Global,
    site: &mut Site<'_, Climbing>,
    line: &[u8],
    wanted: Wanted,
    pages: &[u8],
) -> bool {
    for limit in 0..200 {
        let (is_done, is_stopped) = is_done(site, limit, line, wanted);
        if is_done {
            return true;
        }
        if !is_stopped || !is_shown(alloc, site, pages) {
            return false;
        }
    }
    false
}

/// Returns whether each command is refused under each limit that is too small, and then carried
/// out.
pub fn are_limited(alloc: Global, site: &mut Site<'_, Climbing>) -> bool {
    for (line, wanted) in &COMMANDS {
        if !is_stopped_or_done(alloc, site, line, *wanted) {
            return false;
        }
    }
    true
}

#[test]
fn each_command_is_stopped_or_done(rt: HostRuntime) {
    assert!(rt; passes(rt.alloc(), 10_000, 11, Trial::EachLimit));
}

/// Returns whether commands that need no statement are refused for their own reason under a limit
/// of no rows.
pub fn are_refused_early(site: &mut Site<'_, Climbing>) -> bool {
    site.limit_steps(Some(0));
    are_replies(site, &EARLY)
}

#[test]
fn no_row_is_enough_without_a_statement(rt: HostRuntime) {
    assert!(rt; passes(rt.alloc(), 10_000, 3, Trial::Early));
}

/// Returns whether a post is shown under its ID.
fn has_post(alloc: Global, site: &mut Site<'_, Climbing>, id: u32) -> bool {
    match format!(in alloc; "{{\"cmd\":\"get\",\"path\":\"/?p={id}\"}}") {
        Ok(line) => !is_reply(&site.command(line.as_bytes()), NOTHING),
        Err(_) => false,
    }
}

/// Returns whether a limit of one row stops the front of a site of 1,000 posts, and the site then
/// has exactly the posts that were stored.
pub fn one_row(alloc: Global, site: &mut Site<'_, Climbing>) -> bool {
    site.limit_steps(Some(1));
    let is_front_stopped = is_reply(&site.command(FRONT), STORE);
    let reply = site.command(PUT);
    let is_put = is_reply(&reply, Wanted::Id(1_001));
    site.limit_steps(None);
    is_front_stopped && (is_put || is_reply(&reply, STORE)) && has_thousand(alloc, site, is_put)
}

/// Returns whether there are the 1,000 posts, and a further one exactly if `and_one`.
fn has_thousand(alloc: Global, site: &mut Site<'_, Climbing>, and_one: bool) -> bool {
    for id in 1..=1_000 {
        if !has_post(alloc, site, id) {
            return false;
        }
    }
    has_post(alloc, site, 1_001) == and_one
}

#[test]
fn one_row_is_too_few_for_a_page(rt: HostRuntime) {
    assert!(rt; passes(rt.alloc(), 10_000, 1_000, Trial::OneRow));
}
