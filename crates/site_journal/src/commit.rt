//! The lines that wait to be committed.
ghost use Rattle.std.specs.Prelude.{◌≡◌, ◌⊎◌, ◌∷◌, ◌++◌, [], List, ℕ, Some, map, OnOk};
ghost use Rattle.std.specs.String.{string_bytes};
ghost use Rattle.byte_io.specs.Journal.{Grows};
ghost use Rattle.command_log.specs.Lines.{MayHold};
ghost use Rattle.site_journal.specs.Known.{IsOpenIfClean, known_lines};

use command_log::{CommandLog, LogFault};
use sqlite_trees::store::Alter;
use std::alloc::Global;

/// Appends a copy of the line. The fault is `NotText` if it is not UTF-8, as the line of an edit
/// that was done always is.
pub(crate) fn hold(alloc: Global, lines: &mut Vec<String>, line: &[u8]) -> Result<(), LogFault>
    ensures ok { OnOk result (map string_bytes lines.new.items
        ≡ map string_bytes lines.old.items ++ line.now ∷ []) }
{
    let Ok(text) = str::from_utf8(line) else {
        return Err(LogFault::NotText);
    };
    match lines.push(String::from_str(alloc, text)?) {
        Ok(()) => Ok(()),
        Err(_) => Err(LogFault::OutOfMemory),
    }
}

/// Commits the lines to the log, all or none. On `Ok` they wait no longer.
pub(crate) fn commit<S: Alter>(
    log: &mut CommandLog<S>,
    lines: &mut Vec<String>,
) -> Result<(), LogFault>
    ensures none { OnOk result (lines.new.items ≡ []) }
    ensures noted { Grows (known_lines S.Store log.old (map string_bytes lines.old.items))
        (known_lines S.Store log.new (map string_bytes lines.new.items)) [] }
    ensures stays { IsOpenIfClean S.Store log.old → OnOk result (IsOpenIfClean S.Store log.new) }

    // Whatever a crash leaves was left before, or it is the log with all of the lines.
    ensures commits { (held : List (List ℕ)) → MayHold S.Store log.new held
        → MayHold S.Store log.old held
        ⊎ (known_lines S.Store log.old (map string_bytes lines.old.items)
        ≡ Some held) }
{
    if lines.is_empty() {
        return Ok(());
    }
    log.append(lines)?;
    lines.clear();
    Ok(())
}
