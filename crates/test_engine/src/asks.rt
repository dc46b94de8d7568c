//! Asks with arguments, about hooks that have callbacks and about texts that aren't hook names,
//! each worked out from the rules.
use crate::names::{LONGEST, TOO_LONG};
use crate::plugins::{Given, Hook, Load};
use crate::runs::{Setting, Step, are_answered};
use Load::{No, On};
use hook_machine::RunFault;
use std::alloc::Global;

/// What the plugin's load list adds, the value and the further arguments of a pass of the filter
/// `the_title`, what it answers, and what is printed meanwhile. A callback that asks does so of the
/// hook that the first of these arguments names, and hands on those after it; callback 207 prints
/// and answers what it is called with.
struct Case(
    [Load; 3],
    &'static str,
    &'static [&'static str],
    Result<&'static str, RunFault>,
    &'static str,
);

/// Asks what a filter makes of the value.
const APPLIES: Load = On(Hook::Title, 10, 201, 16);

/// Fires an action.
const ACTS: Load = On(Hook::Title, 10, 202, 16);

/// Asks whether a hook has callbacks.
const HAS: Load = On(Hook::Title, 10, 203, 16);

/// Asks at which priority a hook has callback 207.
const HAS_207: Load = On(Hook::Title, 10, 204, 16);

/// Asks whether a hook runs.
const DOING: Load = On(Hook::Title, 10, 205, 16);

/// Asks how often an action was fired.
const DID: Load = On(Hook::Title, 20, 206, 16);

/// Fires an action, and then asks whether its hook runs.
const ACTS_THEN_DOING: Load = On(Hook::Title, 10, 208, 16);

/// Asks what its own hook makes of the value with one byte more while it is shorter than 32 bytes,
/// and then what the named one makes of it with one byte more.
const DEEPER: Load = On(Hook::Title, 10, 209, 16);

/// The callbacks that ask, and the one that shows.
static NUMBERS: [u32; 9] = [201, 202, 203, 204, 205, 206, 207, 208, 209];

const XS: &str = "xxxxxxxxxxxxxxxxxxxxxxxxxxxxxxxxx";

const _: () = prove!(XS.len() == 33);

/// Asks for a filter and for an action: their callbacks get the arguments that they accept.
static PASSES: [Case; 13] = [
    // The value counts as an argument of a filter.
    Case(
        [APPLIES, On(Hook::In, 10, 207, 16), No],
        "v",
        &["in", "p", "q"],
        Ok("v;p;q;"),
        "v;p;q;",
    ),
    Case(
        [APPLIES, On(Hook::In, 10, 207, 3), No],
        "v",
        &["in", "p", "q"],
        Ok("v;p;q;"),
        "v;p;q;",
    ),
    Case(
        [APPLIES, On(Hook::In, 10, 207, 2), No],
        "v",
        &["in", "p", "q"],
        Ok("v;p;"),
        "v;p;",
    ),
    Case(
        [APPLIES, On(Hook::In, 10, 207, 1), No],
        "v",
        &["in", "p", "q"],
        Ok("v;"),
        "v;",
    ),
    Case(
        [APPLIES, On(Hook::In, 10, 207, 0), No],
        "v",
        &["in", "p", "q"],
        Ok(""),
        "",
    ),
    // A change with an accepted count above 16 does nothing.
    Case(
        [APPLIES, On(Hook::In, 10, 207, 17), No],
        "v",
        &["in", "p", "q"],
        Ok("v"),
        "",
    ),
    // An action has no value, and its answer is `Nothing`.
    Case(
        [ACTS, On(Hook::In, 10, 207, 16), No],
        "v",
        &["in", "p", "q"],
        Ok("-"),
        "p;q;",
    ),
    Case(
        [ACTS, On(Hook::In, 10, 207, 2), No],
        "v",
        &["in", "p", "q"],
        Ok("-"),
        "p;q;",
    ),
    Case(
        [ACTS, On(Hook::In, 10, 207, 1), No],
        "v",
        &["in", "p", "q"],
        Ok("-"),
        "p;",
    ),
    Case(
        [ACTS, On(Hook::In, 10, 207, 0), No],
        "v",
        &["in", "p", "q"],
        Ok("-"),
        "",
    ),
    // An action without arguments has one empty text.
    Case(
        [ACTS, On(Hook::In, 10, 207, 16), No],
        "v",
        &["in"],
        Ok("-"),
        ";",
    ),
    Case(
        [ACTS, On(Hook::In, 10, 207, 0), No],
        "v",
        &["in"],
        Ok("-"),
        "",
    ),
    // Each callback of the action has the arguments.
    Case(
        [ACTS, On(Hook::In, 10, 207, 16), On(Hook::In, 20, 207, 1)],
        "v",
        &["in", "p", "q"],
        Ok("-"),
        "p;q;p;",
    ),
];

/// Asks that are answered from what is registered, runs and was fired.
static QUESTIONS: [Case; 12] = [
    Case([HAS, No, No], "v", &["the_title"], Ok("1"), ""),
    Case([HAS, No, No], "v", &["in"], Ok("0"), ""),
    Case(
        [HAS, On(Hook::In, 5, 207, 1), No],
        "v",
        &["in"],
        Ok("1"),
        "",
    ),
    // Core's own callback.
    Case([HAS, No, No], "v", &["the_content"], Ok("1"), ""),
    // The smallest priority, and no number if only another callback of the hook is registered.
    Case(
        [HAS_207, On(Hook::In, 20, 207, 1), On(Hook::In, -5, 207, 1)],
        "v",
        &["in"],
        Ok("-5"),
        "",
    ),
    Case(
        [HAS_207, On(Hook::In, 7, 202, 1), No],
        "v",
        &["in"],
        Ok("0"),
        "",
    ),
    // A hook runs until its pass has ended.
    Case([DOING, No, No], "v", &["the_title"], Ok("1"), ""),
    Case([DOING, No, No], "v", &["in"], Ok("0"), ""),
    Case(
        [ACTS_THEN_DOING, On(Hook::In, 10, 207, 1), No],
        "v",
        &["in", "p"],
        Ok("0"),
        "p;",
    ),
    Case([ACTS_THEN_DOING, No, No], "v", &["the_title"], Ok("1"), ""),
    // An action is counted whether or not it has callbacks.
    Case([ACTS, DID, No], "v", &["in"], Ok("1"), ""),
    Case([DID, No, No], "v", &["in"], Ok("0"), ""),
];

/// Asks about a text that isn't a hook name: nothing is registered, run or counted, and a filter
/// answers the value unchanged.
static NAMES: [Case; 16] = [
    Case(
        [APPLIES, On(Hook::TooLong, 10, 207, 1), No],
        "v",
        &[TOO_LONG, "p"],
        Ok("v"),
        "",
    ),
    Case(
        [ACTS, On(Hook::TooLong, 10, 207, 1), No],
        "v",
        &[TOO_LONG, "p"],
        Ok("-"),
        "",
    ),
    Case(
        [HAS, On(Hook::TooLong, 10, 207, 1), No],
        "v",
        &[TOO_LONG],
        Ok("0"),
        "",
    ),
    Case(
        [HAS_207, On(Hook::TooLong, 10, 207, 1), No],
        "v",
        &[TOO_LONG],
        Ok("0"),
        "",
    ),
    Case([ACTS, DID, No], "v", &[TOO_LONG], Ok("0"), ""),
    Case([ACTS_THEN_DOING, No, No], "v", &[TOO_LONG], Ok("0"), ""),
    // Empty text isn't a name either.
    Case(
        [APPLIES, On(Hook::Empty, 10, 207, 1), No],
        "v",
        &["", "p"],
        Ok("v"),
        "",
    ),
    Case(
        [ACTS, On(Hook::Empty, 10, 207, 1), No],
        "v",
        &["", "p"],
        Ok("-"),
        "",
    ),
    Case(
        [HAS, On(Hook::Empty, 10, 207, 1), No],
        "v",
        &[""],
        Ok("0"),
        "",
    ),
    Case(
        [HAS_207, On(Hook::Empty, 10, 207, 1), No],
        "v",
        &[""],
        Ok("0"),
        "",
    ),
    Case([ACTS, DID, No], "v", &[""], Ok("0"), ""),
    // One byte shorter, it is a hook's name.
    Case(
        [APPLIES, On(Hook::Longest, 10, 207, 1), No],
        "v",
        &[LONGEST, "p"],
        Ok("v;"),
        "v;",
    ),
    Case(
        [HAS_207, On(Hook::Longest, 10, 207, 1), No],
        "v",
        &[LONGEST],
        Ok("10"),
        "",
    ),
    Case([ACTS, DID, No], "v", &[LONGEST], Ok("1"), ""),
    // It is asked one level deeper like any other hook: 32 levels down, and one too many.
    Case([DEEPER, No, No], "x", &[TOO_LONG], Ok(XS), ""),
    Case(
        [DEEPER, No, No],
        "",
        &[TOO_LONG],
        Err(RunFault::TooDeep),
        "",
    ),
];

fn is_run(alloc: Global, case: &Case) -> bool {
    let given = [Given("a-b", &NUMBERS, &case.0)];
    let steps = [
        Step::Filters("the_title", case.1, case.2, case.3),
        Step::Prints(case.4),
    ];
    // A run that was refused prints nothing.
    let count = if case.3.is_ok() { 2 } else { 1 };
    are_answered(
        alloc,
        &Setting(false, &given, &["a-b"], 100),
        &steps[..count],
    )
}

#[test]
fn passes_that_are_asked_for_have_arguments(rt: HostRuntime) {
    for case in &PASSES {
        assert!(rt; is_run(rt.alloc(), case));
    }
}

#[test]
fn questions_are_answered(rt: HostRuntime) {
    for case in &QUESTIONS {
        assert!(rt; is_run(rt.alloc(), case));
    }
}

#[test]
fn bad_names_name_no_hook(rt: HostRuntime) {
    for case in &NAMES {
        assert!(rt; is_run(rt.alloc(), case));
    }
}

/// Names, what a filter of that name makes of `v` beside the argument `p`, and what it and an
/// action of that name with the same argument print: the longest name has callback 207, and a
/// longer one can have none.
static PAGES: [(&str, &str, &str); 3] = [
    (LONGEST, "v;p;", "v;p;p;"),
    (TOO_LONG, "v", ""),
    ("", "v", ""),
];

/// Returns whether a page's own passes over that name answer and print this.
fn is_named(
    alloc: Global,
    name: &'static str,
    answer: &'static str,
    printed: &'static str,
) -> bool {
    let load = [
        On(Hook::Longest, 10, 207, 16),
        On(Hook::TooLong, 10, 207, 16),
        On(Hook::Empty, 10, 207, 16),
    ];
    let given = [Given("a-b", &NUMBERS, &load)];
    let steps = [
        Step::Filters(name, "v", &["p"], Ok(answer)),
        Step::Acts(name, &["p"]),
        Step::Prints(printed),
    ];
    are_answered(alloc, &Setting(false, &given, &["a-b"], 2), &steps)
}

#[test]
fn pages_call_no_bad_name(rt: HostRuntime) {
    for (name, answer, printed) in &PAGES {
        assert!(rt; is_named(rt.alloc(), name, answer, printed));
    }
}
