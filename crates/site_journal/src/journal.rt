//! The journal.
ghost use Rattle.std.specs.Prelude.{◌≡◌, ◌||◌, Some, IsSome, IsTrue, List, ℕ, [], map, is_some};
ghost use Rattle.std.specs.String.{string_bytes};
ghost use Rattle.byte_io.specs.Journal.{IsSettled};
ghost use Rattle.command_log.specs.Lines.{MayHold};
ghost use Rattle.site_journal.specs.Known.{IsOpenIfClean, fault_in, known_lines};

use crate::commit::{commit, hold};
use crate::steady::Steady;
use crate::waiting::{Waiting, flush};
use byte_io::{EndFault, Journal, Message};
use command_log::{CommandLog, LogFault};
use sqlite_trees::store::Alter;
use std::alloc::Global;

// How many bytes of replies may wait after a call.
const MAX_WAITING: usize = 1_048_576;

/// A journal over a log and a sink.
///
/// While no line waits to be committed, a reply goes straight to the sink. From the first line that
/// is noted on, each reply waits until `settle` has committed the lines. More than 1,048,576
/// waiting bytes settle the journal at once.
///
/// If a commit fails, none of the replies that wait is written, and [`fault`](LogJournal::fault)
/// says why.
pub struct LogJournal<S: Alter, W> {
    log: CommandLog<S>,
    sink: W,
    lines: Vec<String>,
    waiting: Waiting,
    fault: Option<LogFault>,
    alloc: Global,
}

impl<S: Alter + Drop, W: Drop> Drop for LogJournal<S, W> {
    fn drop(self) {
        let LogJournal {
            log: _,
            sink: _,
            lines: _,
            waiting: _,
            fault: _,
            alloc: _,
        } = self;
    }
}

impl<S: Alter, W: Steady> LogJournal<S, W> {
    /// Makes a journal in which nothing waits.
    pub fn new(alloc: Global, log: CommandLog<S>, sink: W) -> Self
        ensures written { ⟦<LogJournal<S, W> as Journal>⟧.written result ≡ W.contents sink }
        ensures noted { ⟦<LogJournal<S, W> as Journal>⟧.noted result ≡ known_lines S.Store log [] }
        ensures sound { ⟦<LogJournal<S, W> as Journal>⟧.has_failed result ≡ W.has_failed sink }

        // Over an open log it is settled.
        ensures settled { IsOpenIfClean S.Store log → IsSettled
            ⟦<LogJournal<S, W> as Journal>⟧.written ⟦<LogJournal<S, W> as Journal>⟧.contents
            ⟦<LogJournal<S, W> as Journal>⟧.is_open ⟦<LogJournal<S, W> as Journal>⟧.may_hold
            ⟦<LogJournal<S, W> as Journal>⟧.noted result }
    {
        log.law_left_by_a_crash();
        LogJournal {
            log,
            sink,
            lines: Vec::new(alloc),
            waiting: Waiting::new(alloc),
            fault: None,
            alloc,
        }
    }

    /// Returns why lines could not be committed, or `OutOfMemory` if a line or a reply could not
    /// wait. It is `None` as long as no call has failed, and if only the sink has.
    pub fn fault(&self) -> Option<LogFault>
        ensures kept { result ≡ fault_in self.now }
        ensures failed { IsSome result
            → IsTrue (⟦<LogJournal<S, W> as Journal>⟧.has_failed self.now) }
    {
        self.fault
    }
}

impl<S: Alter, W: Steady> LogJournal<S, W> {
    /// Returns the log and the sink. What waits is lost.
    pub fn into_parts(self) -> (CommandLog<S>, W)
        ensures opened { ⟦<LogJournal<S, W> as Journal>⟧.is_open self
            → IsOpenIfClean S.Store result.0 }
        ensures held { (held : List (List ℕ)) → MayHold S.Store result.0 held
            → ⟦<LogJournal<S, W> as Journal>⟧.may_hold self held }
        ensures written { W.contents result.1
            ≡ ⟦<LogJournal<S, W> as Journal>⟧.written self }
    {
        let LogJournal {
            log,
            sink,
            lines: _,
            waiting: _,
            fault: _,
            alloc: _,
        } = self;
        (log, sink)
    }
}

impl<S: Alter, W: Steady> Journal for LogJournal<S, W> {
    ghost use Rattle.std.specs.Io.KnownBytes.{append_known};

    ghost contents = { λ j. append_known (W.contents j.sink) j.waiting.bytes.items };

    ghost has_failed = { λ j. is_some (fault_in j) || (W.has_failed j.sink || j.waiting.failed) };

    ghost noted = { λ j. known_lines S.Store j.log (map string_bytes j.lines.items) };

    ghost written = { λ j. W.contents j.sink };

    ghost is_open = { λ j. IsOpenIfClean S.Store j.log };

    ghost may_hold = { λ j. MayHold S.Store j.log };

    fn note(&mut self, line: &[u8]) -> Result<(), EndFault> {
        match hold(self.alloc, &mut self.lines, line) {
            Ok(()) => Ok(()),
            Err(fault) => {
                self.fault = Some(fault);
                Err(EndFault)
            }
        }
    }

    fn take<M: Message>(&mut self, message: &M) -> Result<(), EndFault> {
        if self.lines.is_empty() && self.waiting.bytes.is_empty() {
            self.log.law_left_by_a_crash();
            return message.write_to(&mut self.sink);
        }
        if let Err(EndFault) = message.write_to(&mut self.waiting) {
            self.fault = Some(LogFault::OutOfMemory);
            return Err(EndFault);
        }
        if self.waiting.bytes.len() <= MAX_WAITING {
            return Ok(());
        }
        self.settle()
    }

    fn settle(&mut self) -> Result<(), EndFault> {
        if let Err(fault) = commit(&mut self.log, &mut self.lines) {
            self.fault = Some(fault);
            return Err(EndFault);
        }
        self.log.law_left_by_a_crash();
        flush(&mut self.sink, &mut self.waiting)
    }
}
