//! What is read in one step, and the place that the next one goes on from.
ghost use Rattle.std.specs.Prelude.{◌≡◌, None, Option, ℤ};

use std::marker::Model;

/// A place in a log: the start, or after a line. Contracts see the number of that line.
#[derive(Clone, Copy)]
pub struct LogPlace {
    last: Option<i64>,
}

impl Model for LogPlace {
    ghost Value = { Option ℤ };

    ghost view = { λ p. p.last };

    ghost inverse = { λ last. record { last = last } };
}

impl LogPlace {
    /// The place before all lines.
    pub fn start() -> LogPlace
        ensures { result ≡ None }
    {
        LogPlace { last: None }
    }

    pub(crate) fn after(last: Option<i64>) -> LogPlace
        ensures { result ≡ last }
    {
        LogPlace { last }
    }

    pub(crate) fn last(self) -> Option<i64>
        ensures { result ≡ self }
    {
        self.last
    }
}

/// Lines that follow one another, and the place after them.
#[derive(Drop)]
pub struct Batch {
    /// The lines, in order.
    pub lines: Vec<String>,
    /// Where the next batch goes on. It is the place that the batch was read at if there are no
    /// lines.
    pub next: LogPlace,
}
