//! Passes over the test plugins, each worked out from the rules.
use crate::plugins::{Given, Hook, Load};
use crate::runs::{Answer, Setting, Step, are_answered};
use Hook::Title;
use Load::{No, On, Tag};
use hook_machine::RunFault;
use std::alloc::Global;

/// What the load lists of the plugins `a-b` and `B` add, whether `B` is active beside `a-b`, how
/// many calls a run has, and what is answered: two passes of the filter `the_title` over empty
/// text, and `TEXT` with its shortcodes replaced. All callbacks but 103 are those of `a-b`.
struct Case([Load; 3], [Load; 2], bool, u32, Answer, Answer, Answer);

const TEXT: &str = "x[t] [[t]";

const PLAIN: Answer = Ok(TEXT);

const TOO_MANY: Answer = Err(RunFault::TooManyCalls);

const NO_MEMORY: Answer = Err(RunFault::OutOfMemory);

const NONE: [Load; 2] = [No, No];

static CASES: [Case; 23] = [
    // A hook that is emptied: the list that the pass reached is run to its end, and the next pass
    // has no callbacks.
    Case(
        [
            On(Title, 10, 101, 1),
            On(Title, 10, 102, 1),
            On(Title, 20, 102, 1),
        ],
        NONE,
        false,
        10,
        Ok("ab"),
        Ok(""),
        PLAIN,
    ),
    // The largest and the smallest priority.
    Case(
        [
            On(Title, 2147483647, 102, 1),
            On(Title, -2147483648, 105, 1),
            No,
        ],
        NONE,
        false,
        10,
        Ok("rb"),
        Ok("rb"),
        PLAIN,
    ),
    // A load list adds the callback of another plugin while that one is active, and one that no
    // plugin has never.
    Case(
        [On(Title, 10, 103, 1), On(Title, 20, 999, 1), No],
        NONE,
        false,
        10,
        Ok(""),
        Ok(""),
        PLAIN,
    ),
    Case(
        [On(Title, 10, 103, 1), On(Title, 20, 999, 1), No],
        NONE,
        true,
        10,
        Ok("c"),
        Ok("c"),
        PLAIN,
    ),
    // A plugin that isn't active has no say: `B` would add its own callback and that of `a-b`.
    Case(
        [No, No, No],
        [On(Title, 10, 103, 1), On(Title, 20, 102, 1)],
        false,
        10,
        Ok(""),
        Ok(""),
        PLAIN,
    ),
    Case(
        [No, No, No],
        [On(Title, 10, 103, 1), On(Title, 20, 102, 1)],
        true,
        10,
        Ok("cb"),
        Ok("cb"),
        PLAIN,
    ),
    // Load lists are carried out in the order of the plugins' names by bytes.
    Case(
        [On(Title, 10, 102, 1), No, No],
        [On(Title, 10, 103, 1), No],
        true,
        10,
        Ok("cb"),
        Ok("cb"),
        PLAIN,
    ),
    // A callback that adds itself one priority higher until the value has 3 bytes: four calls.
    Case(
        [On(Title, 10, 104, 1), No, No],
        NONE,
        false,
        8,
        Ok("xxxx"),
        Ok("xxxx"),
        PLAIN,
    ),
    Case(
        [On(Title, 10, 104, 1), No, No],
        NONE,
        false,
        7,
        Ok("xxxx"),
        TOO_MANY,
        TOO_MANY,
    ),
    Case(
        [On(Title, 10, 104, 1), No, No],
        NONE,
        false,
        3,
        TOO_MANY,
        TOO_MANY,
        TOO_MANY,
    ),
    // A callback that removes itself is run to the end of this pass, and is in no later one: at a
    // smaller priority than another, at the same one before and after it, and at a larger one.
    Case(
        [On(Title, 10, 105, 1), On(Title, 20, 102, 1), No],
        NONE,
        false,
        10,
        Ok("rb"),
        Ok("b"),
        PLAIN,
    ),
    Case(
        [On(Title, 10, 105, 1), On(Title, 10, 102, 1), No],
        NONE,
        false,
        10,
        Ok("rb"),
        Ok("b"),
        PLAIN,
    ),
    Case(
        [On(Title, 10, 102, 1), On(Title, 10, 105, 1), No],
        NONE,
        false,
        10,
        Ok("br"),
        Ok("b"),
        PLAIN,
    ),
    Case(
        [On(Title, 5, 102, 1), On(Title, 10, 105, 1), No],
        NONE,
        false,
        10,
        Ok("br"),
        Ok("b"),
        PLAIN,
    ),
    // Its registration at a larger priority is gone when the pass would reach it, and that at a
    // smaller one stays.
    Case(
        [On(Title, 5, 105, 1), On(Title, 10, 105, 1), No],
        NONE,
        false,
        10,
        Ok("r"),
        Ok("r"),
        PLAIN,
    ),
    // Its registration at another priority stays.
    Case(
        [On(Title, 10, 105, 1), On(Title, 15, 105, 1), No],
        NONE,
        false,
        10,
        Ok("rr"),
        Ok("r"),
        PLAIN,
    ),
    // A callback that runs out of memory ends the run.
    Case(
        [On(Title, 10, 106, 1), On(Title, 20, 102, 1), No],
        NONE,
        false,
        10,
        NO_MEMORY,
        NO_MEMORY,
        NO_MEMORY,
    ),
    // A handler has no arguments; a tag that is added again takes the later one; a handler takes a
    // call.
    Case(
        [Tag(102), No, No],
        NONE,
        false,
        2,
        Ok(""),
        Ok(""),
        Ok("xb [b"),
    ),
    Case(
        [Tag(102), Tag(105), No],
        NONE,
        false,
        2,
        Ok(""),
        Ok(""),
        Ok("xr [r"),
    ),
    Case([Tag(102), No, No], NONE, false, 1, Ok(""), Ok(""), TOO_MANY),
    // The handler of a plugin that isn't active isn't registered, and its shortcode stays plain
    // text.
    Case([Tag(103), No, No], NONE, false, 2, Ok(""), Ok(""), PLAIN),
    Case(
        [Tag(103), No, No],
        NONE,
        true,
        2,
        Ok(""),
        Ok(""),
        Ok("xc [c"),
    ),
    // Without a callback no call is taken.
    Case([No, No, No], NONE, false, 0, Ok(""), Ok(""), PLAIN),
];

fn is_run(alloc: Global, case: &Case) -> bool {
    let given = [
        Given("a-b", &[101, 102, 104, 105, 106], &case.0),
        Given("B", &[103], &case.1),
    ];
    let steps = [
        Step::Filters("the_title", "", &[], case.4),
        Step::Filters("the_title", "", &[], case.5),
        Step::Replaces(TEXT, case.6),
    ];
    let names = ["a-b", "B"];
    let count = if case.2 { 2 } else { 1 };
    are_answered(
        alloc,
        &Setting(false, &given, &names[..count], case.3),
        &steps,
    )
}

#[test]
fn passes_are_as_the_rules_have_them(rt: HostRuntime) {
    for case in &CASES {
        assert!(rt; is_run(rt.alloc(), case));
    }
}
