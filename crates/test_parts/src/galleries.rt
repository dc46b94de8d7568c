//! What the handler of `gallery` draws for some attributes.
use crate::calls::{call_with, is_answered};
use callback_store::Stated;
use example_gallery::Callback;
use hook_changes::Listed;
use std::alloc::{AllocError, Global};

/// Attribute texts, and what is drawn for them.
const GALLERIES: [(&str, &str); 6] = [
    (
        "ids=\"3,1\" columns=2",
        "<img src=\"/media/3.jpg\" style=\"width:50%\"><img src=\"/media/1.jpg\" style=\"width:50%\">",
    ),
    ("ids=7", "<img src=\"/media/7.jpg\" style=\"width:33%\">"),
    (
        "ids=7 columns=0",
        "<img src=\"/media/7.jpg\" style=\"width:33%\">",
    ),
    (
        "ids=',7,,' columns=10",
        "<img src=\"/media/7.jpg\" style=\"width:33%\">",
    ),
    (
        "ids='a\"b' columns=9",
        "<img src=\"/media/a&quot;b.jpg\" style=\"width:11%\">",
    ),
    ("columns=4", ""),
];

/// Returns whether the handler draws these pictures for an attribute text.
fn is_drawn(alloc: Global, text: &str, pictures: &str) -> Result<bool, AllocError> {
    let call = call_with(alloc, text, Listed::empty(alloc))?;
    let reply = Callback::Gallery.answer(alloc, &call)?;
    let wanted = format!(in alloc; "<div class=\"gallery\">{pictures}</div>")?;
    Ok(is_answered(&reply, wanted.as_str()))
}

#[test]
fn galleries_are_drawn(rt: HostRuntime) {
    let alloc = rt.alloc();
    for (text, pictures) in &GALLERIES {
        assert!(rt; is_drawn(alloc, text, pictures).unwrap_or(false));
    }
}
