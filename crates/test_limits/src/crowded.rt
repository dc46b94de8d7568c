//! A site over as many plugins as a bundle may have, one of them with as many changes in its load
//! list: all are active, and every registration has its call in the page.
ghost use Rattle.std.specs.Prelude.{◌≤◌};

use crate::climbing::first_argument;
use crate::replies::{Wanted, is_reply};
use callback_store::{Plugin, Plugins, Stated};
use hook_changes::{Call, CallbackId, Change, Listed, Reply, Text};
use site_program::{Refusal, Site};
use std::alloc::{AllocError, Global};

const PLUGINS: u32 = 64;

/// How many changes the first plugin has in its load list, and each of the others.
const MOST: i32 = 256;

const FEW: i32 = 4;

/// A call for each registration, and core's own of the content.
const CALLS: u32 = 509;

/// A callback that answers its first argument.
#[derive(Clone, Copy)]
struct Still {
    number: u32,
}

impl Stated for Still {
    ghost use Rattle.test_limits.specs.Switched.{says};

    ghost says = { says };

    ghost number = { λ callback. callback.number };

    fn id(&self) -> CallbackId {
        CallbackId::new(self.number)
    }

    fn answer(&self, alloc: Global, call: &Call) -> Result<Reply, AllocError> {
        Ok(Reply::answer(alloc, Text::copied(alloc, first_argument(call))?))
    }
}

/// Makes the plugin of a number, which registers its callback on `the_title` at `count` priorities,
/// from 0 on.
fn plugin(alloc: Global, number: u32, count: i32) -> Result<Plugin<Still>, AllocError> {
    let mut load = Listed::empty(alloc);
    for priority in 0..count {
        load.push(Change::Add {
            hook: Text::copied(alloc, "the_title")?,
            priority,
            callback: CallbackId::new(number),
            accepted: 1,
        })?;
    }
    let mut callbacks = Listed::empty(alloc);
    callbacks.push(Still { number })?;
    Ok(Plugin {
        name: Text::new(format!(in alloc; "still-{number}")?),
        load,
        callbacks,
    })
}

fn listed(alloc: Global) -> Result<Listed<Plugin<Still>>, AllocError> {
    let mut list = Listed::empty(alloc);
    for number in 1..=PLUGINS {
        list.push(plugin(alloc, number, if number == 1 { MOST } else { FEW })?)?;
    }
    Ok(list)
}

const PUT: &[u8] = br#"{"cmd":"put","title":"T","date":"2024-05-01 10:00:00"}"#;

const GET: &[u8] = br#"{"cmd":"get","path":"/"}"#;

/// Returns whether a new site whose pages have `calls` calls replies so to a request, once each
/// plugin is active.
fn passes(alloc: Global, calls: u32, wanted: Wanted) -> Result<bool, AllocError>
    requires { (1 ≤ calls) × (calls ≤ 100000) }
{
    let Ok(plugins) = Plugins::new(alloc, listed(alloc)?) else {
        return Ok(false);
    };
    let Ok(mut site) = Site::new(alloc, &plugins, calls, 1) else {
        return Ok(false);
    };
    if !is_reply(&site.command(PUT), Wanted::Id(1)) {
        return Ok(false);
    }
    for number in 1..=PLUGINS {
        let line = format!(in alloc; "{{\"cmd\":\"activate\",\"plugin\":\"still-{number}\"}}")?;
        if !is_reply(&site.command(line.as_bytes()), Wanted::Ok) {
            return Ok(false);
        }
    }
    Ok(is_reply(&site.command(GET), wanted))
}

#[test]
fn a_bundle_may_be_full(rt: HostRuntime) {
    let alloc = rt.alloc();
    assert!(rt; passes(alloc, CALLS, Wanted::Page(200, "<h2>T</h2>")) == Ok(true));
    assert!(rt; passes(alloc, CALLS - 1, Wanted::No(Refusal::TooManyCalls)) == Ok(true));
}
