//! What the log says of a page.
use hook_changes::{Call, CallbackId, Reply};

/// A page, by what a command names it by.
#[derive(Clone, Copy)]
pub enum PageName<'a> {
    /// The page of a `get`, by its path.
    Path(&'a str),
    /// An open page, by its number.
    Open(u32),
}

/// An invocation that was made, with its reply.
#[derive(Drop)]
pub struct Told<'a> {
    /// How many invocations the page has made, this one included.
    pub count: u32,
    /// The item of the page under way, counted from 1, and the ID of the post that it is about, if
    /// it is about one. If memory ran out as they were worked out, there is none.
    pub item: Option<usize>,
    pub post: Option<u32>,
    /// How deep in asks it was made.
    pub depth: u32,
    /// The priority that its pass has reached; a shortcode's handler has none.
    pub priority: Option<i32>,
    pub callback: CallbackId,
    /// The plugin that has the callback; core's own has none.
    pub plugin: Option<&'a str>,
    pub call: &'a Call,
    /// Core's callback has no reply.
    pub reply: Option<&'a Reply>,
}

/// How a page ended.
#[derive(Clone, Copy)]
pub enum PageEnd {
    /// It is printed, with this status and as many bytes.
    Printed { status: u16, bytes: usize },
    /// It is refused, with this number and name.
    Refused { number: u8, name: &'static str },
}
