//! Pages by turns, each with the number of turns that the rules give it.
ghost use Rattle.std.specs.Prelude.{IfOk};
ghost use Rattle.template_parts.specs.Page.{CanGoOn};

use crate::callbacks::Tested;
use crate::plugins::{Given, Hook, Load, plugins};
use crate::runs::{Answer, loaded};
use callback_store::{PluginFault, Plugins};
use content_cache::PieceCache;
use hook_changes::{Listed, Shared, Text};
use hook_machine::RunFault;
use site_records::{Found, FoundKind, Post, PostDate, PostKind, PostStatus};
use std::alloc::{AllocError, Global};
use template_parts::{Page, PageTurn, Settings};
use template_trees::default_index;

/// The active plugin, or two with a space between them, the title and content of the one post if
/// there is one, how many calls a page has, how many turns stop after a callback, and what the next
/// turn returns: a page, or a fault that each later turn returns too.
pub struct Case(
    &'static str,
    Option<(&'static str, &'static str)>,
    u32,
    pub u32,
    pub Answer,
);

pub static CASES: [Case; 16] = [
    // Nothing is invoked.
    Case("", None, 10_000, 0, Ok("<p>Nothing found.</p>")),
    // Two callbacks of the title, and core's of the content.
    Case("marks", Some(("T", "")), 10_000, 3, Ok("<h2>TX1Y</h2>")),
    // Core's callback, and a handler.
    Case(
        "bold",
        Some(("", "[b]x[/b]")),
        10_000,
        2,
        Ok("<h2></h2><b>x</b>"),
    ),
    // Core's callback, a handler, and the callback of the filter on its answer; and one call too
    // few.
    Case(
        "bold tagmark",
        Some(("", "[b]x[/b]")),
        10_000,
        3,
        Ok("<h2></h2><b>x</b>{b}"),
    ),
    Case("bold tagmark", Some(("", "[b]x[/b]")), 2, 2, TOO_MANY),
    // Core's callback, a handler that asks for the text within, the handler in there, and the first
    // again.
    Case(
        "bold",
        Some(("", "[i]a[b]c[/b][/i]")),
        10_000,
        4,
        Ok("<h2></h2><i>a<b>c</b></i>"),
    ),
    // Calls that are enough for a page, and one too few.
    Case("deep", Some(("d", "")), 4, 4, Ok("<h2>()</h2>")),
    Case("deep", Some(("d", "")), 3, 3, TOO_MANY),
    // As deep as passes may nest, and one level deeper.
    Case(
        "deep",
        Some(("dddddddddddddddddddddddddddddddd", "")),
        10_000,
        66,
        Ok("<h2>(((((((((((((((((((((((((((((((())))))))))))))))))))))))))))))))</h2>"),
    ),
    Case(
        "deep",
        Some(("ddddddddddddddddddddddddddddddddd", "")),
        10_000,
        33,
        Err(RunFault::TooDeep),
    ),
    // No calls at all.
    Case("marks", Some(("T", "")), 0, 0, TOO_MANY),
    // A callback that adds itself at a larger priority while the title is shorter than 3 bytes, and
    // then core's.
    Case("climb", Some(("", "")), 5, 5, Ok("<h2>xxxx</h2>")),
    Case("climb", Some(("", "")), 4, 4, TOO_MANY),
    // One that always does.
    Case("climb-on", Some(("", "")), 5, 5, TOO_MANY),
    Case("climb-on", Some(("", "")), 1000, 1000, TOO_MANY),
    // A callback that fails on every call, as if memory had run out.
    Case(
        "fail",
        Some(("T", "")),
        10_000,
        0,
        Err(RunFault::OutOfMemory),
    ),
];

const TOO_MANY: Answer = Err(RunFault::TooManyCalls);

/// Makes the bundle's plugins, and some for tests.
pub fn all_plugins(alloc: Global) -> Result<Plugins<Tested>, PluginFault> {
    let given = [
        Given("climb", &[104], &[Load::On(Hook::Title, 10, 104, 1)]),
        Given("climb-on", &[107], &[Load::On(Hook::Title, 10, 107, 1)]),
        Given("fail", &[106], &[Load::On(Hook::Title, 10, 106, 1)]),
    ];
    plugins(alloc, true, &given)
}

fn post(alloc: Global, title: &str, content: &str) -> Result<Option<Post>, AllocError> {
    let Some(date) = PostDate::read("2024-05-01 10:00:00") else {
        return Ok(None);
    };
    Ok(Some(Post {
        id: 1,
        kind: PostKind::Post,
        status: PostStatus::Publish,
        title: Text::copied(alloc, title)?,
        content: Text::copied(alloc, content)?,
        date: date.clone()?,
    }))
}

fn found(alloc: Global, case: &Case) -> Result<Found, AllocError> {
    let mut posts = Listed::empty(alloc);
    if let Some((title, content)) = case.1 {
        if let Some(post) = post(alloc, title, content)? {
            posts.push(post)?;
        }
    }
    Ok(Found {
        kind: FoundKind::Front,
        posts,
        status: 200,
    })
}

fn settings(alloc: Global) -> Result<Settings, AllocError> {
    Ok(Settings {
        site_name: Text::empty(alloc),
        template: Shared::new(alloc, default_index(alloc)?)?,
        header: None,
        footer: None,
        content: None,
    })
}

/// Makes the page of a case, before its first turn.
pub fn begun<'p>(
    alloc: Global,
    plugins: &'p Plugins<Tested>,
    case: &Case,
) -> Result<Page<'p, Tested>, RunFault>
    ensures { IfOk result (λ page. CanGoOn page) }
{
    let found = found(alloc, case)?;
    let settings = settings(alloc)?;
    let (first, second) = case.0.split_once(' ').unwrap_or((case.0, ""));
    let run = loaded(alloc, plugins, &[first, second], case.2)?;
    Ok(Page::begin(alloc, Shared::new(alloc, found)?, settings, run))
}

/// Returns whether a turn returned that page, or that fault.
pub fn is_end(turned: Result<PageTurn, RunFault>, wanted: Answer) -> bool {
    match turned {
        Ok(PageTurn::Done(status, bytes)) => is_page(status, bytes.as_slice(), wanted),
        Ok(PageTurn::More) => false,
        Err(fault) => wanted == Err(fault),
    }
}

fn is_page(status: u16, bytes: &[u8], wanted: Answer) -> bool {
    match wanted {
        Ok(text) => status == 200 && bytes == text.as_bytes(),
        Err(_) => false,
    }
}

/// Returns whether the whole page is that one, or is refused by that fault.
fn is_whole(finished: Result<(u16, Vec<u8>), RunFault>, wanted: Answer) -> bool {
    match finished {
        Ok((status, bytes)) => is_page(status, bytes.as_slice(), wanted),
        Err(fault) => wanted == Err(fault),
    }
}

/// Makes that many turns, and returns whether all of them stop before the page's end.
fn is_stopped(page: &mut Page<'_, Tested>, cache: &mut PieceCache, turns: u32) -> bool
    requires { CanGoOn page.old }
    ensures { CanGoOn page.new }
{
    for _turn in 0..turns {
        match page.turn(cache) {
            Ok(PageTurn::More) => {}
            _ => return false,
        }
    }
    true
}

/// Returns whether the case's page stops as often as the case says and then ends as it says, and
/// each later call returns the fault of a refused one.
fn is_case(alloc: Global, plugins: &Plugins<Tested>, case: &Case, cache: &mut PieceCache) -> bool {
    match begun(alloc, plugins, case) {
        Ok(mut page) => {
            let is_ended = is_stopped(&mut page, cache, case.3) && is_end(page.turn(cache), case.4);
            let later = page.finish(cache);
            is_ended && (case.4.is_ok() || is_whole(later, case.4))
        }
        Err(_) => false,
    }
}

/// Returns whether the case's page, finished after some turns, is what the case says.
fn is_finished(
    alloc: Global,
    plugins: &Plugins<Tested>,
    case: &Case,
    turns: u32,
    cache: &mut PieceCache,
) -> bool {
    match begun(alloc, plugins, case) {
        Ok(mut page) => {
            let is_stopped = is_stopped(&mut page, cache, turns);
            is_whole(page.finish(cache), case.4) && is_stopped
        }
        Err(_) => false,
    }
}

fn are_cases(alloc: Global, plugins: &Plugins<Tested>) -> bool {
    let Ok(mut cache) = PieceCache::new(alloc, 2) else {
        return false;
    };
    for case in &CASES {
        let is_case = is_case(alloc, plugins, case, &mut cache)
            && is_finished(alloc, plugins, case, 0, &mut cache)
            && is_finished(alloc, plugins, case, case.3, &mut cache);
        if !is_case {
            return false;
        }
    }
    true
}

#[test]
fn pages_stop_after_each_callback(rt: HostRuntime) {
    let alloc = rt.alloc();
    match all_plugins(alloc) {
        Ok(plugins) => assert!(rt; are_cases(alloc, &plugins)),
        Err(_) => assert!(rt; false),
    }
}
