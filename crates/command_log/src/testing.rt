//! Testing the digests of the lines.
ghost use Rattle.std.specs.Prelude.{◌≡◌, ◌≢◌, ◌++◌, [], true, false, All, map};
ghost use Rattle.std.specs.Prelude.{IfOk, IfErr, IsTrue, OnOk};
ghost use Rattle.sha2.specs.Sha256.{sha256};
ghost use Rattle.command_log.specs.Digests.{digest_of};
ghost use Rattle.sqlite.specs.Held.{state};
ghost use Rattle.sqlite.specs.State.{HasCleanDisk, Survives};
ghost use Rattle.command_log.specs.Faults.{IsCaused, IsPlain, Unsealed};
ghost use Rattle.command_log.specs.Lines.{AreSealed, IsLineRow, IsLog, IsOpen, IsTabled};
ghost use Rattle.command_log.specs.Lines.{line_in, lines_of, rows_after, rows_of, sum_in, text_in};
ghost use Rattle.command_log.specs.Testing.{EndsTest, IsTested, Tests};

use crate::digest::LineDigest;
use crate::fault::LogFault;
use crate::lines::{number_of, read_rows};
use sqlite::{Connection, Row};
use sqlite_trees::store::Alter;
use sqlite_value::value::ValueRef;

// How many rows are read at a time.
const STEP: i64 = 1_000;

/// How far the rows of a log have been tested.
#[derive(Clone, Copy)]
pub(crate) struct Tested {
    // The number of the last of them.
    pub(crate) place: Option<i64>,
    // Of their lines.
    pub(crate) digest: LineDigest,
    lines: u64,
}

/// Returns whether a row, as a query shows it, has the digest of its line and those before it. The
/// digest goes on after the line.
fn has_digest(row: &Row, digest: &mut LineDigest) -> bool
    ensures yes { IsTrue result → sum_in row.now ≡ sha256 (digest.old ++ text_in row.now) }
    ensures next { IsTrue result → digest.new ≡ sha256 (digest.old ++ text_in row.now) }
    ensures no { IsLineRow row.now → result ≡ false
        → sum_in row.now ≢ sha256 (digest.old ++ text_in row.now) }
{
    match (row.get_ref(1), row.get_ref(2)) {
        (Ok(ValueRef::Text(line)), Ok(ValueRef::Blob(sum))) => {
            digest.add(line);
            digest.is(sum)
        }
        _ => false,
    }
}

/// Tests rows, as a query shows them, that follow those that were tested.
fn test_rows(rows: &[Row], tested: &mut Tested) -> Result<(), LogFault>
    ensures ok { OnOk result (Tests tested.old rows.now tested.new) }
    ensures err { All IsLineRow rows.now → IfErr result (EndsTest tested.old rows.now) }
    ensures fault { IfErr result IsPlain }
{
    for row in rows {
        tested.place = Some(number_of(row)?);
        tested.lines = match tested.lines.checked_add(1) {
            Some(lines) => lines,
            None => return Err(LogFault::OutOfMemory),
        };
        if !has_digest(row, &mut tested.digest) {
            return Err(LogFault::Altered(tested.lines));
        }
    }
    Ok(())
}

/// Tests the rows after those that were tested, some of them, and returns whether there were any.
fn test_more<S: Alter>(conn: &mut Connection<S>, tested: &mut Tested) -> Result<bool, LogFault>
    requires { IsTabled S.Store conn.old }
    ensures table { IsTabled S.Store conn.new }
    ensures committed { IsOpen S.Store conn.new
        → (state S.Store conn.new).committed ≡ (state S.Store conn.old).committed }
    ensures shut { IsOpen S.Store conn.new → IsOpen S.Store conn.old }
    ensures stays { HasCleanDisk (state S.Store conn.new) → OnOk result (IsOpen S.Store conn.new) }
    ensures survives { Survives (state S.Store conn.old) (state S.Store conn.new) (λ _. ⊥) }
    ensures tested { HasCleanDisk (state S.Store conn.new)
        → IsTested (rows_of S.Store conn.old) tested.old
        → OnOk result (IsTested (rows_of S.Store conn.old) tested.new) }
    ensures end { HasCleanDisk (state S.Store conn.new) → IfOk result (λ more. more ≡ false
        → rows_after tested.new.place (rows_of S.Store conn.old) ≡ []) }
    ensures cause { HasCleanDisk (state S.Store conn.new) → IsOpen S.Store conn.old
        → IsTested (rows_of S.Store conn.old) tested.old
        → IfErr result (IsCaused (state S.Store conn.old) (state S.Store conn.new)
        (Unsealed (rows_of S.Store conn.old))) }
    ensures fault { IfErr result IsPlain }
{
    // Called for its clause alone: what an open connection knows of its tables.
    let _schema = conn.schema();
    let rows = read_rows(conn, tested.place, STEP)?;
    test_rows(&rows, tested)?;
    Ok(!rows.is_empty())
}

/// Tests the digests of all lines. It reads each line once, some at a time.
pub(crate) fn test_all<S: Alter>(conn: &mut Connection<S>) -> Result<Tested, LogFault>
    requires { IsTabled S.Store conn.old }
    ensures log { OnOk result (IsLog S.Store conn.new) }
    ensures digest { IfOk result (λ tested. IsOpen S.Store conn.new
        → tested.digest ≡ digest_of (lines_of S.Store conn.new)) }
    ensures committed { IsOpen S.Store conn.new
        → (state S.Store conn.new).committed ≡ (state S.Store conn.old).committed }
    ensures shut { IsOpen S.Store conn.new → IsOpen S.Store conn.old }
    ensures stays { HasCleanDisk (state S.Store conn.new) → IsOpen S.Store conn.old
        → OnOk result (IsOpen S.Store conn.new) }
    ensures survives { Survives (state S.Store conn.old) (state S.Store conn.new) (λ _. ⊥) }
    ensures cause { HasCleanDisk (state S.Store conn.new) → IsOpen S.Store conn.old
        → IfErr result (IsCaused (state S.Store conn.old) (state S.Store conn.new)
        (Unsealed (rows_of S.Store conn.old))) }
    ensures fault { IfErr result IsPlain }
{
    let mut tested = Tested {
        place: None,
        digest: LineDigest::new(),
        lines: 0,
    };
    // There are no more lines than there are numbers for them.
    'rows: for _ in 0..u64::MAX {
        if !test_more(conn, &mut tested)? {
            return Ok(tested);
        }
    }
    Err(LogFault::OutOfMemory)
}
