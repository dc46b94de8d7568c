//! The statements on lines.
ghost use Rattle.std.specs.Prelude.{ℕ, pos, drop, ◌≡◌, ◌<◌, ◌∷◌, ◌++◌, [], length, map, Some, None};
ghost use Rattle.std.specs.Prelude.{All, IsUtf8, List, ◌⊎◌, IfErr, IfOk, OnOk, OnErr};
ghost use Rattle.std.specs.String.{string_bytes};
ghost use Rattle.sqlite_value.specs.declared.value.Value.TheVariants.{Int};
ghost use Rattle.sqlite_value.specs.Order.{column};
ghost use Rattle.sqlite.specs.Query.{as_count, limited};
ghost use Rattle.sqlite.specs.Held.{state};
ghost use Rattle.sqlite.specs.State.{HasCleanDisk, Survives};
ghost use Rattle.command_log.specs.Faults.{fault_of, IsCaused, Nothing, Unreadable, Unstorable};
ghost use Rattle.command_log.specs.Faults.{AreText};
ghost use Rattle.command_log.specs.Inside.{IsInside, InLog, ReadsRows};
ghost use Rattle.sha2.specs.Sha256.{sha256};
ghost use Rattle.command_log.specs.Digests.{digest_after, digest_of};
ghost use Rattle.command_log.specs.Lines.{IsLineRow, IsOpen, IsLog, IsTabled, Makes, Puts, PutsAny};
ghost use Rattle.command_log.specs.Lines.{HasRoom, PutsAnyAt, PutsAt};
ghost use Rattle.command_log.specs.Lines.{IsAppended, IsReplaced, GivesRows, text_in, place_after};
ghost use Rattle.command_log.specs.Lines.{rows_of, lines_of, lines_left};

use crate::digest::LineDigest;
use sqlite::{Connection, Error, ErrorCode, Row, Transaction, params};
use sqlite_trees::store::Alter;
use std::alloc::Global;

const INSERT: &str = "INSERT INTO command (line, digest) VALUES (?1, ?2)";

const INSERT_AT: &str = "INSERT INTO command (number, line, digest) VALUES (?1, ?2, ?3)";

const CLEAR: &str = "DELETE FROM command";

const FIRST: &str = "SELECT number, line, digest FROM command ORDER BY number LIMIT ?1";

const LATER: &str =
    "SELECT number, line, digest FROM command WHERE number > ?1 ORDER BY number LIMIT ?2";

/// The LIMIT that sets no limit.
pub(crate) const NO_LIMIT: i64 = -1;

/// Lines that were read, and the place after them: the number of the last one, if there is any.
pub(crate) struct ReadLines {
    pub(crate) lines: Vec<String>,
    pub(crate) next: Option<i64>,
}

/// Appends one line with its digest.
fn put_sealed<S: Alter>(
    tx: &mut Transaction<'_, S>,
    line: &str,
    digest: &[u8],
) -> Result<usize, Error>
    requires inside { IsInside S.Store tx.old }
    requires digest { length digest.now ≡ 32 }
    ensures { (before : List ℕ) → digest.now ≡ sha256 (before ++ line.now)
        → InLog S.Store tx.old tx.new result
        (λ _. Puts S.Store tx.old.conn.now tx.new.conn.now before (line.now ∷ []))
        (Unstorable (rows_of S.Store tx.old.conn.now) (line.now ∷ [])) }
{
    tx.execute(INSERT, params![line, digest])
}

/// Appends one line, which the digest goes on after.
fn put_line<S: Alter>(
    tx: &mut Transaction<'_, S>,
    line: &str,
    digest: &mut LineDigest,
) -> Result<usize, Error>
    requires { IsInside S.Store tx.old }
    ensures puts { InLog S.Store tx.old tx.new result
        (λ _. Puts S.Store tx.old.conn.now tx.new.conn.now digest.old (line.now ∷ []))
        (Unstorable (rows_of S.Store tx.old.conn.now) (line.now ∷ [])) }
    ensures digest { digest.new ≡ sha256 (digest.old ++ line.now) }
{
    digest.add(line.as_bytes());
    put_sealed(tx, line, digest.as_bytes())
}

/// Appends the lines, in order, up to the first that fails. The digest goes on after them.
fn put_lines<S: Alter>(
    tx: &mut Transaction<'_, S>,
    lines: &[String],
    digest: &mut LineDigest,
) -> Result<(), Error>
    requires { IsInside S.Store tx.old }
    ensures puts { InLog S.Store tx.old tx.new result
        (λ _. PutsAny S.Store tx.old.conn.now tx.new.conn.now digest.old (map string_bytes lines.now))
        (Unstorable (rows_of S.Store tx.old.conn.now) (map string_bytes lines.now)) }
    ensures digest { OnOk result
        (digest.new ≡ digest_after digest.old (map string_bytes lines.now)) }
{
    for line in lines {
        put_line(tx, line.as_str(), digest)?;
    }
    Ok(())
}

/// Puts one line with its digest and this number into a table that has none.
fn put_sealed_at<S: Alter>(
    tx: &mut Transaction<'_, S>,
    number: i64,
    line: &str,
    digest: &[u8],
) -> Result<usize, Error>
    requires inside { IsInside S.Store tx.old }
    requires none { IsOpen S.Store tx.old.conn.now → rows_of S.Store tx.old.conn.now ≡ [] }
    requires digest { length digest.now ≡ 32 }
    ensures { (before : List ℕ) → digest.now ≡ sha256 (before ++ line.now)
        → InLog S.Store tx.old tx.new result
        (λ _. PutsAt S.Store number tx.old.conn.now tx.new.conn.now before (line.now ∷ []))
        (Unstorable [] (line.now ∷ [])) }
{
    tx.execute(INSERT_AT, params![number, line, digest])
}

/// Puts the first line, which the digest goes on after, with this number into a table that has none.
fn put_line_at<S: Alter>(
    tx: &mut Transaction<'_, S>,
    number: i64,
    first: &str,
    digest: &mut LineDigest,
) -> Result<usize, Error>
    requires inside { IsInside S.Store tx.old }
    requires none { IsOpen S.Store tx.old.conn.now → rows_of S.Store tx.old.conn.now ≡ [] }
    ensures puts { InLog S.Store tx.old tx.new result
        (λ _. PutsAt S.Store number tx.old.conn.now tx.new.conn.now digest.old (first.now ∷ []))
        (Unstorable [] (first.now ∷ [])) }
    ensures digest { digest.new ≡ sha256 (digest.old ++ first.now) }
{
    digest.add(first.as_bytes());
    put_sealed_at(tx, number, first, digest.as_bytes())
}

/// Puts the lines, in order, into a table that has none, up to the first that fails. The first gets
/// this number. The digest goes on after them.
fn put_lines_at<S: Alter>(
    tx: &mut Transaction<'_, S>,
    number: i64,
    lines: &[String],
    digest: &mut LineDigest,
) -> Result<(), Error>
    requires inside { IsInside S.Store tx.old }
    requires none { IsOpen S.Store tx.old.conn.now → rows_of S.Store tx.old.conn.now ≡ [] }
    requires room { HasRoom number (length lines.now) }
    ensures puts { InLog S.Store tx.old tx.new result
        (λ _. PutsAnyAt S.Store number tx.old.conn.now tx.new.conn.now digest.old
        (map string_bytes lines.now)) (Unstorable [] (map string_bytes lines.now)) }
    ensures digest { OnOk result
        (digest.new ≡ digest_after digest.old (map string_bytes lines.now)) }
{
    let [first, rest @ ..] = lines else {
        return Ok(());
    };
    put_line_at(tx, number, first.as_str(), digest)?;
    put_lines(tx, rest, digest)
}

/// Appends all of the lines, or none. There is at least one. The digest, which is that of the lines
/// so far, goes on after them.
pub(crate) fn put_all<S: Alter>(
    conn: &mut Connection<S>,
    more: &[String],
    digest: &mut LineDigest,
) -> Result<(), Error>
    requires log { IsLog S.Store conn.old }
    requires some { 0 < length more.now }
    requires digest { IsOpen S.Store conn.old → digest.old ≡ digest_of (lines_of S.Store conn.old) }
    ensures log { IsLog S.Store conn.new }
    ensures ok { IsOpen S.Store conn.new → OnOk result
        (lines_of S.Store conn.new ≡ lines_of S.Store conn.old ++ map string_bytes more.now) }
    ensures err { IsOpen S.Store conn.new → OnErr result
        (lines_of S.Store conn.new ≡ lines_of S.Store conn.old) }
    ensures stays { HasCleanDisk (state S.Store conn.new) → OnOk result (IsOpen S.Store conn.new) }
    ensures shut { IsOpen S.Store conn.new → IsOpen S.Store conn.old }
    ensures survives { Survives (state S.Store conn.old) (state S.Store conn.new)
        (IsAppended S.Store conn.old (map string_bytes more.now)) }
    ensures cause { HasCleanDisk (state S.Store conn.new) → IsOpen S.Store conn.old
        → IfErr result (λ e. IsCaused (state S.Store conn.old) (state S.Store conn.new)
        (Unstorable (rows_of S.Store conn.old) (map string_bytes more.now)) (fault_of e)) }
    ensures digest { OnOk result
        (digest.new ≡ digest_after digest.old (map string_bytes more.now)) }
{
    let mut tx = conn.transaction();
    put_lines(&mut tx, more, digest)?;
    tx.commit()
}

/// Deletes all lines.
fn clear<S: Alter>(tx: &mut Transaction<'_, S>) -> Result<usize, Error>
    requires { IsInside S.Store tx.old }
    ensures { InLog S.Store tx.old tx.new result
        (λ _. Makes S.Store tx.old.conn.now tx.new.conn.now) Nothing }
{
    tx.execute(CLEAR, &[])
}

/// Replaces all lines with these, of which the first gets this number, or changes nothing. The
/// digest, which is that of no line, goes on after them.
pub(crate) fn replace_all<S: Alter>(
    conn: &mut Connection<S>,
    number: i64,
    lines: &[String],
    digest: &mut LineDigest,
) -> Result<(), Error>
    requires log { IsLog S.Store conn.old }
    requires room { HasRoom number (length lines.now) }
    requires digest { digest.old ≡ digest_of [] }
    ensures log { IsLog S.Store conn.new }
    ensures ok { IsOpen S.Store conn.new → OnOk result
        (lines_of S.Store conn.new ≡ map string_bytes lines.now) }
    ensures err { IsOpen S.Store conn.new → OnErr result
        (lines_of S.Store conn.new ≡ lines_of S.Store conn.old) }
    ensures stays { HasCleanDisk (state S.Store conn.new) → OnOk result (IsOpen S.Store conn.new) }
    ensures shut { IsOpen S.Store conn.new → IsOpen S.Store conn.old }
    ensures survives { Survives (state S.Store conn.old) (state S.Store conn.new)
        (IsReplaced S.Store conn.old (map string_bytes lines.now)) }
    ensures cause { HasCleanDisk (state S.Store conn.new) → IsOpen S.Store conn.old
        → IfErr result (λ e. IsCaused (state S.Store conn.old) (state S.Store conn.new)
        (Unstorable [] (map string_bytes lines.now)) (fault_of e)) }
    ensures digest { OnOk result (digest.new ≡ digest_of (map string_bytes lines.now)) }
{
    let mut tx = conn.transaction();
    clear(&mut tx)?;
    put_lines_at(&mut tx, number, lines, digest)?;
    tx.commit()
}

/// Reads the rows of the first lines, within a transaction.
fn first_rows<S: Alter>(tx: &mut Transaction<'_, S>, limit: i64) -> Result<Vec<Row>, Error>
    requires { IsInside S.Store tx.old }
    ensures { InLog S.Store tx.old tx.new result
        (λ rows. ReadsRows S.Store tx.old.conn.now tx.new.conn.now None limit rows.items) Nothing }
{
    tx.query_all(FIRST, params![limit])
}

/// Reads the rows of the lines after the one with this number, within a transaction.
fn later_rows<S: Alter>(
    tx: &mut Transaction<'_, S>,
    number: i64,
    limit: i64,
) -> Result<Vec<Row>, Error>
    requires { IsInside S.Store tx.old }
    ensures { InLog S.Store tx.old tx.new result (λ rows.
        ReadsRows S.Store tx.old.conn.now tx.new.conn.now (Some number) limit rows.items) Nothing }
{
    tx.query_all(LATER, params![number, limit])
}

/// Reads the rows of the lines after a place, within a transaction.
fn rows_after<S: Alter>(
    tx: &mut Transaction<'_, S>,
    place: Option<i64>,
    limit: i64,
) -> Result<Vec<Row>, Error>
    requires { IsInside S.Store tx.old }
    ensures { InLog S.Store tx.old tx.new result
        (λ rows. ReadsRows S.Store tx.old.conn.now tx.new.conn.now place limit rows.items) Nothing }
{
    match place {
        None => first_rows(tx, limit),
        Some(number) => later_rows(tx, number, limit),
    }
}

/// Reads the rows of the lines after a place. The transaction commits nothing: a commit returns an
/// error if a fault has shut the connection, and a rollback does not.
pub(crate) fn read_rows<S: Alter>(
    conn: &mut Connection<S>,
    place: Option<i64>,
    limit: i64,
) -> Result<Vec<Row>, Error>
    requires { IsTabled S.Store conn.old }
    ensures table { IsTabled S.Store conn.new }
    ensures log { IsLog S.Store conn.old → IsLog S.Store conn.new }
    ensures committed { IsOpen S.Store conn.new
        → (state S.Store conn.new).committed ≡ (state S.Store conn.old).committed }
    ensures shut { IsOpen S.Store conn.new → IsOpen S.Store conn.old }
    ensures stays { HasCleanDisk (state S.Store conn.new) → OnOk result (IsOpen S.Store conn.new) }
    ensures rows { HasCleanDisk (state S.Store conn.new)
        → IfOk result (λ rows. GivesRows S.Store conn.old place limit rows.items) }
    ensures survives { Survives (state S.Store conn.old) (state S.Store conn.new) (λ _. ⊥) }
    ensures cause { HasCleanDisk (state S.Store conn.new) → IsOpen S.Store conn.old
        → IfErr result (λ e. IsCaused (state S.Store conn.old) (state S.Store conn.new)
        Nothing (fault_of e)) }
{
    let mut tx = conn.transaction();
    let rows = rows_after(&mut tx, place, limit)?;
    tx.commit()?;
    Ok(rows)
}

pub(crate) fn number_of(row: &Row) -> Result<i64, Error>
    ensures ok { IfOk result (λ number. column row.now 0 ≡ Int number) }
    ensures err { IsLineRow row.now
        → IfErr result (λ e. e ≡ Error.SqliteFailure ErrorCode.OutOfMemory) }
{
    row.get(0)
}

fn text_of(row: &Row) -> Result<String, Error>
    ensures ok { IfOk result (λ text. string_bytes text ≡ text_in row.now) }
    ensures err { IsLineRow row.now
        → IfErr result (λ e. (e ≡ Error.SqliteFailure ErrorCode.OutOfMemory)
        ⊎ ((e ≡ Error.Utf8Error 1) × ¬ IsUtf8 (text_in row.now))) }
{
    row.get(1)
}

/// Reads the rows as lines. If there is no row, the place after them is the argument.
fn lines_from(alloc: Global, rows: &[Row], place: Option<i64>) -> Result<ReadLines, Error>
    ensures lines { IfOk result (λ read. map string_bytes read.lines.items ≡ map text_in rows.now) }
    ensures next { IfOk result (λ read. read.next ≡ place_after place rows.now) }
    ensures err { All IsLineRow rows.now
        → IfErr result (λ e. (e ≡ Error.SqliteFailure ErrorCode.OutOfMemory)
        ⊎ ((e ≡ Error.Utf8Error 1) × ¬ AreText (map text_in rows.now))) }
{
    let mut lines = Vec::new(alloc);
    let mut next = place;
    for row in rows {
        next = Some(number_of(row)?);
        lines.push(text_of(row)?)?;
    }
    Ok(ReadLines { lines, next })
}

/// Reads the first lines after a place. A negative limit is no limit.
pub(crate) fn read_after<S: Alter>(
    alloc: Global,
    conn: &mut Connection<S>,
    place: Option<i64>,
    limit: i64,
) -> Result<ReadLines, Error>
    requires { IsLog S.Store conn.old }
    ensures log { IsLog S.Store conn.new }
    ensures committed { IsOpen S.Store conn.new
        → (state S.Store conn.new).committed ≡ (state S.Store conn.old).committed }
    ensures stays { HasCleanDisk (state S.Store conn.new) → OnOk result (IsOpen S.Store conn.new) }
    ensures shut { IsOpen S.Store conn.new → IsOpen S.Store conn.old }
    ensures lines { HasCleanDisk (state S.Store conn.new) → IfOk result (λ read.
        map string_bytes read.lines.items
        ≡ limited (as_count (Int limit)) (lines_left S.Store conn.old place)) }
    ensures left { HasCleanDisk (state S.Store conn.new)
        → IfOk result (λ read. (n : ℕ) → limit ≡ pos n
        → lines_left S.Store conn.old read.next ≡ drop n (lines_left S.Store conn.old place)) }
    ensures survives { Survives (state S.Store conn.old) (state S.Store conn.new) (λ _. ⊥) }
    ensures cause { HasCleanDisk (state S.Store conn.new) → IsOpen S.Store conn.old
        → IfErr result (λ e. IsCaused (state S.Store conn.old) (state S.Store conn.new)
        (Unreadable (lines_left S.Store conn.old place)) (fault_of e)) }
{
    // Called for its clause alone: what an open connection knows of its tables.
    let _schema = conn.schema();
    let rows = read_rows(conn, place, limit)?;
    lines_from(alloc, &rows, place)
}
