//! Which lists of plugins are refused, and why.
ghost use Rattle.std.specs.Prelude.{◌≤◌};

use crate::plugins::{Given, Load, plugins};
use callback_store::PluginFault;
use std::alloc::Global;

const SAME_NAME: Option<PluginFault> = Some(PluginFault::SameName);

const SAME_CALLBACK: Option<PluginFault> = Some(PluginFault::SameCallback);

const BAD_NAME: Option<PluginFault> = Some(PluginFault::BadName);

const TOO_MANY: Option<PluginFault> = Some(PluginFault::TooMany);

/// Two names, the number of a callback of each, and how a list of two such plugins is refused.
static PAIRS: [([&str; 2], [u32; 2], Option<PluginFault>); 8] = [
    (["a", "b"], [101, 102], None),
    // Each name appears once.
    (["a", "a"], [101, 102], SAME_NAME),
    (["a", "a"], [101, 101], SAME_NAME),
    // Each number appears once, and 0 is core's.
    (["a", "b"], [101, 0], SAME_CALLBACK),
    (["a", "b"], [0, 101], SAME_CALLBACK),
    (["a", "b"], [101, 101], SAME_CALLBACK),
    // A bad name is reported before a repeated one, and before numbers.
    (["a", "a b"], [101, 101], BAD_NAME),
    (["", ""], [101, 102], BAD_NAME),
];

/// Returns the fault by which a list of two plugins with a callback each is refused, if it is.
fn fault_of_pair(alloc: Global, names: &[&str; 2], numbers: &[u32; 2]) -> Option<PluginFault> {
    let first = Given(names[0], &numbers[..1], &[]);
    let second = Given(names[1], &numbers[1..], &[]);
    plugins(alloc, false, &[first, second]).err()
}

#[test]
fn pairs_are_refused(rt: HostRuntime) {
    for (names, numbers, fault) in &PAIRS {
        assert!(rt; fault_of_pair(rt.alloc(), names, numbers) == *fault);
    }
}

/// How many plugins of one name, how many callbacks of one number each has, how many changes, and
/// how they are refused.
static SIZES: [(usize, usize, usize, Option<PluginFault>); 7] = [
    (0, 0, 0, None),
    (1, 1, 256, None),
    // Too many of anything is reported before all else.
    (64, 0, 0, SAME_NAME),
    (65, 0, 0, TOO_MANY),
    (1, 256, 256, SAME_CALLBACK),
    (1, 257, 0, TOO_MANY),
    (1, 0, 257, TOO_MANY),
];

/// Returns the fault of a list of `count` plugins, each with `callbacks` callbacks and `changes`
/// changes, if it has one.
fn fault_of_many(
    alloc: Global,
    count: usize,
    callbacks: usize,
    changes: usize,
) -> Option<PluginFault>
    requires count { count ≤ 65 }
    requires callbacks { callbacks ≤ 257 }
    requires changes { changes ≤ 257 }
{
    let numbers = [101; 257];
    let load = [Load::Tag(101); 257];
    let given = [Given("a", &numbers[..callbacks], &load[..changes]); 65];
    plugins(alloc, false, &given[..count]).err()
}

#[test]
fn sizes_are_refused(rt: HostRuntime) {
    for (count, callbacks, changes, fault) in &SIZES {
        assert!(rt; *count <= 65 && *callbacks <= 257 && *changes <= 257);
        assert!(rt; fault_of_many(rt.alloc(), *count, *callbacks, *changes) == *fault);
    }
}
