//! Sites over the test plugins: how many posts they begin with, and what they are told to do.
ghost use Rattle.std.specs.Prelude.{◌≤◌};

use crate::climbing::{Climbing, plugins};
use crate::limits::{are_limited, are_refused_early, one_row};
use crate::replies::{Wanted, is_reply};
use callback_store::Plugins;
use site_program::Site;
use std::alloc::Global;

/// What is tried on a site.
#[derive(Clone, Copy)]
pub enum Trial {
    /// Replies to lines, one after another.
    Replies(&'static [(&'static [u8], Wanted)]),
    /// Each command under each limit, up to the first under which it is carried out.
    EachLimit,
    /// Commands that run no statement, with no step left.
    Early,
    /// A limit of one row.
    OneRow,
}

const PUT: &[u8] = br#"{"cmd":"put","title":"T","content":"C","date":"2024-05-01 10:00:00"}"#;

/// Returns whether a new site with `count` posts, each of whose pages has `calls` calls, passes a
/// trial.
pub fn passes(alloc: Global, calls: u32, count: u32, trial: Trial) -> bool
    requires { (1 ≤ calls) × (calls ≤ 100000) }
{
    match plugins(alloc) {
        Some(plugins) => passes_over(alloc, &plugins, calls, count, trial),
        None => false,
    }
}

fn passes_over(
    alloc: Global,
    plugins: &Plugins<Climbing>,
    calls: u32,
    count: u32,
    trial: Trial,
) -> bool
    requires { (1 ≤ calls) × (calls ≤ 100000) }
{
    match Site::new(alloc, plugins, calls, 64) {
        Ok(mut site) => is_filled(&mut site, count) && is_passed(alloc, &mut site, trial),
        Err(_) => false,
    }
}

/// Stores `count` posts, the first of which gets the ID 1. Returns whether each is stored.
fn is_filled(site: &mut Site<'_, Climbing>, count: u32) -> bool {
    for number in 0..count {
        if !is_reply(&site.command(PUT), Wanted::Id(number + 1)) {
            return false;
        }
    }
    true
}

fn is_passed(alloc: Global, site: &mut Site<'_, Climbing>, trial: Trial) -> bool {
    match trial {
        Trial::Replies(lines) => are_replies(site, lines),
        Trial::EachLimit => are_limited(alloc, site),
        Trial::Early => are_refused_early(site),
        Trial::OneRow => one_row(alloc, site),
    }
}

/// Returns whether a site's replies to lines, one after another, are the expected ones.
pub fn are_replies(site: &mut Site<'_, Climbing>, lines: &[(&[u8], Wanted)]) -> bool {
    for (line, wanted) in lines {
        if !is_reply(&site.command(line), *wanted) {
            return false;
        }
    }
    true
}
