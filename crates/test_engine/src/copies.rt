//! Copies of values that the program itself doesn't make.
use shortcode_atts::{Atts, parse};
use site_records::PostDate;
use std::alloc::{AllocError, Global};

/// Reads a text's attributes, and copies them.
fn copied(alloc: Global, text: &str) -> Result<Atts, AllocError> {
    parse(alloc, text)?.clone()
}

fn attributes_are_copied(alloc: Global) -> bool {
    match copied(alloc, " A='x y' six") {
        Ok(copy) => copy.named("a") == Some("x y") && copy.positional().len() == 1,
        Err(_) => false,
    }
}

/// Returns whether the copy of a date has the same text.
fn date_is_copied(text: &str) -> bool {
    let Some(date) = PostDate::read(text) else {
        return false;
    };
    let copy: Result<PostDate, AllocError> = date.clone();
    match copy {
        Ok(copy) => copy.as_str() == text,
        Err(_) => false,
    }
}

#[test]
fn values_are_copied(rt: HostRuntime) {
    assert!(rt; attributes_are_copied(rt.alloc()) && date_is_copied("2024-02-29 10:00:00"));
}
