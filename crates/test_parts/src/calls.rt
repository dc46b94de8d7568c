//! Calls of shortcodes' handlers.
use hook_changes::{Answer, Call, Listed, Reply, Text, Then};
use shortcode_atts::parse;
use std::alloc::{AllocError, Global};

/// Returns the call of a handler with the attributes of a text.
pub(crate) fn call_with(
    alloc: Global,
    atts: &str,
    answers: Listed<Answer>,
) -> Result<Call, AllocError> {
    Ok(Call {
        hook: Text::empty(alloc),
        args: Listed::empty(alloc),
        tag: Text::empty(alloc),
        atts: parse(alloc, atts)?,
        content: Text::empty(alloc),
        answers,
    })
}

/// Returns whether a reply answers this text.
pub(crate) fn is_answered(reply: &Reply, wanted: &str) -> bool {
    match &reply.next {
        Then::Answer(text) => text.as_str() == wanted,
        Then::Ask(_) => false,
    }
}
