//! What a callback is called with, and what it replies.
ghost use Rattle.std.specs.Prelude.{◌≡◌};
ghost use Rattle.hook_changes.specs.Replies.{answers_text, asks};

use plain_data::{CallbackId, Listed, Text};
use shortcode_atts::Atts;
use std::alloc::Global;

/// A change of the registrations or of the shortcodes.
///
/// A change does nothing if it names no hook or no tag, or a callback of a plugin that isn't
/// active, or has an accepted count above 16.
#[derive(Clone, PartialEq, Drop)]
pub enum Change {
    /// `add_filter` or `add_action`: hooks share one table. `accepted` is how many arguments the
    /// callback takes.
    Add {
        hook: Text,
        priority: i32,
        callback: CallbackId,
        accepted: u8,
    },
    /// `remove_filter`: the one registration of that callback at that priority.
    Remove {
        hook: Text,
        priority: i32,
        callback: CallbackId,
    },
    /// `remove_all_filters`: those of one priority, or all of the hook.
    RemoveAll {
        hook: Text,
        priority: Option<i32>,
    },
    /// `add_shortcode`: the callback becomes the handler of the tag.
    AddTag {
        tag: Text,
        callback: CallbackId,
    },
    /// `remove_shortcode`.
    RemoveTag {
        tag: Text,
    },
    /// `remove_all_shortcodes`.
    RemoveAllTags,
}

/// What a callback asks of the engine in the midst of its work.
#[derive(Drop)]
pub enum Ask {
    /// `apply_filters`: the value after the callbacks of the hook. Answered by a text.
    Apply {
        hook: Text,
        value: Text,
        args: Listed<Text>,
    },
    /// `do_action`. Answered by nothing.
    Act {
        hook: Text,
        args: Listed<Text>,
    },
    /// `do_shortcode`: the text with its shortcodes replaced. Answered by a text.
    Shortcodes {
        text: Text,
    },
    /// `did_action`: how often the action was fired. Answered by a number.
    Did {
        hook: Text,
    },
    /// `current_filter`: the innermost running hook, or empty text. Answered by a text.
    Current,
    /// `doing_filter`: whether the hook is anywhere among the running ones. Answered by a flag.
    Doing {
        hook: Text,
    },
    /// `has_filter`: without a callback whether the hook has any registration, answered by a flag;
    /// with one the smallest priority of that callback there, answered by a number, or by the flag
    /// `false`.
    Has {
        hook: Text,
        callback: Option<CallbackId>,
    },
    /// `shortcode_exists`. Answered by a flag.
    TagExists {
        tag: Text,
    },
    /// `get_option`: the option as the request began, answered by a text, or by the flag `false`.
    GetOption {
        name: Text,
    },
}

/// What the engine answers to an ask.
#[derive(Drop)]
pub enum Answer {
    Text(Text),
    Number(i64),
    Flag(bool),
    Nothing,
}

/// What a callback is called with.
#[derive(Drop)]
pub struct Call {
    /// The hook that runs the callback; empty for the handler of a shortcode.
    pub hook: Text,
    /// The first of the pass's arguments, as many as the callback accepts; in a filter the value
    /// comes first.
    pub args: Listed<Text>,
    /// The tag whose handler this is; empty for the callback of a hook, as `atts` and `content`
    /// are.
    pub tag: Text,
    /// The shortcode's attributes.
    pub atts: Atts,
    /// The text between the shortcode's tags; empty if it has no closing tag.
    pub content: Text,
    /// What the engine answered so far to the asks of this callback in this place, in order.
    pub answers: Listed<Answer>,
}

/// How a callback goes on.
#[derive(Drop)]
pub enum Then {
    /// It is done. In a filter this is the next value, in a shortcode what replaces it; an action
    /// drops it.
    Answer(Text),
    /// It is called again, with the engine's answer after those that it was given before.
    Ask(Ask),
}

/// What a callback replies.
#[derive(Drop)]
pub struct Reply {
    /// Carried out in order, right after the echo.
    pub changes: Listed<Change>,
    /// Appended to the page at this moment.
    pub echo: Text,
    pub next: Then,
}

impl Reply {
    /// Makes a reply that answers a text, changes nothing and prints nothing. Does not allocate.
    pub fn answer(alloc: Global, text: Text) -> Self
        ensures { result ≡ answers_text text }
    {
        Reply {
            changes: Listed::empty(alloc),
            echo: Text::empty(alloc),
            next: Then::Answer(text),
        }
    }

    /// Makes a reply that asks, changes nothing and prints nothing. Does not allocate.
    pub fn ask(alloc: Global, ask: Ask) -> Self
        ensures { result ≡ asks ask }
    {
        Reply {
            changes: Listed::empty(alloc),
            echo: Text::empty(alloc),
            next: Then::Ask(ask),
        }
    }

    /// Returns the same reply, with these changes in place of its own.
    pub fn with_changes(self, changes: Listed<Change>) -> Self
        ensures { result ≡ record self { changes = changes } }
    {
        let Reply { echo, next, .. } = self;
        Reply {
            changes,
            echo,
            next,
        }
    }

    /// Returns the same reply, with this text to print in place of its own.
    pub fn with_echo(self, echo: Text) -> Self
        ensures { result ≡ record self { echo = echo } }
    {
        let Reply { changes, next, .. } = self;
        Reply {
            changes,
            echo,
            next,
        }
    }
}
