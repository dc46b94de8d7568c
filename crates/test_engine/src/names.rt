//! Which texts are names of hooks, and which of shortcodes.
use hook_changes::{HookName, NameFault, TagName};
use std::alloc::Global;

/// A name of 64 bytes.
pub const LONGEST: &str = "aaaaaaaaaaaaaaaaaaaaaaaaaaaaaaaaaaaaaaaaaaaaaaaaaaaaaaaaaaaaaaaa";

/// A text of 65 bytes.
pub const TOO_LONG: &str = "aaaaaaaaaaaaaaaaaaaaaaaaaaaaaaaaaaaaaaaaaaaaaaaaaaaaaaaaaaaaaaaaa";

const _: () = prove!(LONGEST.len() == 64);

const _: () = prove!(TOO_LONG.len() == 65);

const NO: Option<NameFault> = Some(NameFault::BadName);

/// Texts, each with how it is refused as the name of a hook, and as that of a shortcode.
static TEXTS: [(&str, Option<NameFault>, Option<NameFault>); 12] = [
    // 1 to 64 bytes.
    ("", NO, NO),
    ("a", None, None),
    (LONGEST, None, None),
    (TOO_LONG, NO, NO),
    // Letters, digits, `_` and `-` may appear in both.
    ("a-B_9", None, None),
    ("-", None, None),
    // Any other character may appear only in names of hooks.
    ("a b", None, NO),
    ("a.b", None, NO),
    ("a/b", None, NO),
    ("[a]", None, NO),
    ("é", None, NO),
    ("the é [content]", None, NO),
];

/// Returns whether a text is refused by that fault as the name of a hook, or else is read as one
/// unchanged.
fn is_hook(alloc: Global, text: &str, fault: Option<NameFault>) -> bool {
    match HookName::read(alloc, text) {
        Ok(name) => fault.is_none() && name.as_str() == text,
        Err(found) => fault == Some(found),
    }
}

/// Returns whether a text is refused by that fault as the name of a shortcode, or else is read as
/// one unchanged.
fn is_tag(alloc: Global, text: &str, fault: Option<NameFault>) -> bool {
    match TagName::read(alloc, text) {
        Ok(name) => fault.is_none() && name.as_str() == text,
        Err(found) => fault == Some(found),
    }
}

#[test]
fn texts_are_names(rt: HostRuntime) {
    let alloc = rt.alloc();
    for (text, hook, tag) in &TEXTS {
        assert!(rt; is_hook(alloc, text, *hook) && is_tag(alloc, text, *tag));
    }
}
