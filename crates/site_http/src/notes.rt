//! Lines that wait for the next commit.
ghost use Rattle.std.specs.Prelude.{◌≡◌, ◌++◌, ◌∷◌, [], false, is_err, map, OnOk};
ghost use Rattle.byte_io.specs.Journal.{Grows, IsQuiet};

use byte_io::{EndFault, Journal};
use std::alloc::{AllocError, Global};

/// Appends a copy of a line. On `Err` the lines are as they were.
pub(crate) fn hold(alloc: Global, waiting: &mut Vec<Vec<u8>>, line: &[u8]) -> Result<(), AllocError>
    ensures { OnOk result (map (λ l. l.items) waiting.new.items
        ≡ map (λ l. l.items) waiting.old.items ++ line.now ∷ []) }
{
    let mut copy = Vec::new(alloc);
    copy.extend_from_slice(line)?;
    waiting.push(copy)?;
    Ok(())
}

/// Notes the lines, one after another. Nothing is committed.
pub(crate) fn note_all<J: Journal>(journal: &mut J, lines: &[Vec<u8>]) -> Result<(), EndFault>
    requires { J.has_failed journal.old ≡ false }
    ensures ok { OnOk result (Grows (J.noted journal.old) (J.noted journal.new)
        (map (λ l. l.items) lines.now)) }
    ensures contents { J.contents journal.new ≡ J.contents journal.old }
    ensures quiet { IsQuiet J.written J.contents J.is_open J.may_hold journal.old journal.new }
    ensures stays { J.is_open journal.old → J.is_open journal.new }
    ensures fault { J.has_failed journal.new ≡ is_err result }
{
    for line in lines {
        journal.note(line)?;
    }
    Ok(())
}
