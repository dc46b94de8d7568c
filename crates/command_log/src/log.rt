//! The log.
ghost use Rattle.std.specs.Prelude.{
  ◌≡◌,
  ◌↔◌,
  ◌⊎◌,
  ◌++◌,
  [],
  List,
  ℕ,
  map,
  take,
  drop,
  IfOk,
  IfErr,
  OnOk,
  OnErr,
  IsTrue,
  IfSome,
  IsErrAnd,
};
ghost use Rattle.std.specs.String.{string_bytes};
ghost use Rattle.sqlite.specs.Effect.{IsDatabase};
ghost use Rattle.sqlite.specs.Tree.{Trees};
ghost use Rattle.sqlite.specs.Held.{AreDatabases, state};
ghost use Rattle.sqlite.specs.State.{HasCleanDisk, Survives};
ghost use Rattle.sqlite.specs.Files.{over_files};
ghost use Rattle.sqlite.specs.Steps.{over_memory};
ghost use Rattle.command_log.specs.Lines.{
  IsOpen,
  IsIdle,
  IsLog,
  IsOrderly,
  IsAppended,
  IsReplaced,
  IsMade,
  KeepsLines,
  FallsShort,
  HoldsLines,
  HoldsRows,
  MayHold,
  MayLeave,
  Reaches,
  committed_rows,
  lines_of,
  lines_left,
  rows_of,
};
ghost use Rattle.command_log.specs.Digests.{digest_of};
ghost use Rattle.log_tails.specs.Rows.{IsNumber};
ghost use Rattle.command_log.specs.Table.{log_schema, IsOther};
ghost use Rattle.command_log.specs.Faults.{IsCaused, IsCloseFault, IsPlain, Unreadable, Unsealed, Unstorable};
ghost use Rattle.sqlite.specs.WalReads.{AreClean};
ghost use Rattle.sqlite.specs.View.{IsClean};
ghost use Rattle.sqlite_trees.specs.View.{IsQuiet, IsRolledBack as IsUndone};
ghost use Rattle.sqlite.specs.FileStore.{view};
ghost use Rattle.command_log.specs.Found.{FindsOnlySuch, IsFoundAgain, IsKeptAlone, store_of};

use crate::batch::{Batch, LogPlace};
use crate::closed::LogFiles;
use crate::digest::LineDigest;
use crate::fault::LogFault;
use crate::lines::{NO_LIMIT, ReadLines, put_all, read_after, replace_all};
use crate::numbering::{last_after, number_after};
use crate::table::{Holds, held_by, make};
use crate::testing::{Tested, test_all};
use sqlite::{Connection, FileStore, MemStore};
use sqlite_disk::{Disk, Files};
use sqlite_trees::store::Alter;
use std::alloc::Global;
use std::marker::Model;

/// A log of text lines in a database. Contracts see the connection that it holds, and of it the
/// lines that were committed, whether it is open, and what a crash may leave.
pub struct CommandLog<S: Alter> {
    conn: Connection<S>,
    alloc: Global,
    // Of the lines of an open log.
    digest: LineDigest,
    // The number of its last line. Contracts don't see it: it decides alone which numbers new lines
    // get when all are replaced.
    last: i64,
}

impl<S: Alter> Model for CommandLog<S> {
    ghost use Rattle.sqlite.specs.Held.{Held, held_code};
    ghost use Rattle.std.specs.Prelude.{◌≡◌};
    ghost use Rattle.command_log.specs.Digests.{digest_of};
    ghost use Rattle.command_log.specs.Lines.{IsLog, IsOpen, lines_of};

    ghost Value = { Held S };

    ghost coded = { held_code S.code };

    ghost view = { λ l. l.conn };

    ghost invariant = { λ l. IsLog S.Store l.conn
        × (IsOpen S.Store l.conn → l.digest ≡ digest_of (lines_of S.Store l.conn)) };
}

impl<S: Alter + Drop> Drop for CommandLog<S> {
    fn drop(self) {
        let CommandLog {
            conn: _,
            alloc: _,
            digest: _,
            last: _,
        } = self;
    }
}

impl CommandLog<MemStore> {
    /// Makes a new log in memory.
    pub fn open_in_memory(alloc: Global) -> Result<CommandLog<MemStore>, LogFault>
        ensures empty { IfOk result (λ log. IsOpen over_memory log → lines_of over_memory log
            ≡ []) }
    {
        let conn = Connection::open_in_memory(alloc)?;
        match CommandLog::over(alloc, conn) {
            Ok(log) => Ok(log),
            Err((fault, _)) => Err(fault),
        }
    }
}

impl<S: Alter + Drop> CommandLog<S> {
    /// Takes the log that the database holds, or makes one in a database that holds nothing. The
    /// digest of each line is tested. A fault comes with the connection.
    pub fn over(
        alloc: Global,
        mut conn: Connection<S>,
    ) -> Result<CommandLog<S>, (LogFault, Connection<S>)>
        requires idle { IsIdle S.Store conn }
        requires orderly { IsOrderly S.Store conn }

        // It has the lines of the table, each of which has its digest, or none if the database held
        // nothing.
        ensures lines { IfOk result (λ log. IsOpen S.Store log
            → HoldsLines (state S.Store conn).now (lines_of S.Store log)) }

        ensures rows { IfOk result (λ log. IsOpen S.Store log
            → HoldsRows (state S.Store conn).now (committed_rows S.Store log)) }

        // A crash leaves what it could leave before, or an empty log where there was nothing.
        ensures survives { IfOk result (λ log. Survives (state S.Store conn) (state S.Store log)
            (IsMade S.Store conn)) }

        // A database with another schema is refused as that, and no other is.
        ensures other { IsErrAnd result (λ e. e.0 ≡ LogFault.NotALog)
            ↔ IsOther (state S.Store conn).now.schema }
        ensures plain { IfErr result (λ e. (e.0 ≡ LogFault.NotALog) ⊎ IsPlain e.0) }

        // A log is refused only if memory runs out, by a fault of the disk, or if a line doesn't
        // have its digest.
        ensures taken { IfErr result (λ e. (state S.Store conn).now.schema ≡ log_schema
            → IsOpen S.Store conn → HasCleanDisk (state S.Store e.1)
            → IsCaused (state S.Store conn) (state S.Store e.1) (Unsealed (rows_of S.Store conn)) e.0) }

        // A connection that comes back has what it had, and a crash leaves what it could leave before.
        ensures kept { IfErr result (λ e. (state S.Store conn).now.schema ≡ log_schema
            → IsOpen S.Store e.1
            → (state S.Store e.1).committed ≡ (state S.Store conn).committed) }
        ensures refused { IfErr result (λ e. Survives (state S.Store conn) (state S.Store e.1)
            (IsMade S.Store conn)) }

        // The log of an open connection is open.
        ensures stays { IfOk result (λ log. HasCleanDisk (state S.Store log) → IsOpen S.Store conn
            → IsOpen S.Store log) }
    {
        match held_by(conn.schema()) {
            Holds::Log => match test_all(&mut conn) {
                Ok(Tested { place, digest, .. }) => Ok(CommandLog {
                    conn,
                    alloc,
                    digest,
                    last: place.unwrap_or(0),
                }),
                Err(fault) => Err((fault, conn)),
            },
            Holds::Nothing => match make(&mut conn) {
                Ok(()) => Ok(CommandLog {
                    conn,
                    alloc,
                    digest: LineDigest::new(),
                    last: 0,
                }),
                Err(error) => Err((error.into(), conn)),
            },
            Holds::Other => Err((LogFault::NotALog, conn)),
        }
    }

    /// Takes the log as [`over`](CommandLog::over) does, if it has a line with this number or a larger
    /// one, and else refuses it as [`OlderLog`](LogFault::OlderLog). A connection that isn't taken is
    /// dropped. It is over any store: each call of such a function over the store of files takes the
    /// prover long.
    pub(crate) fn taken(
        alloc: Global,
        conn: Connection<S>,
        number: Option<u64>,
    ) -> Result<CommandLog<S>, LogFault>
        requires idle { IsIdle S.Store conn }
        requires orderly { IsOrderly S.Store conn }
        requires number { IfSome number IsNumber }
        ensures lines { IfOk result (λ log. IsOpen S.Store log
            → HoldsLines (state S.Store conn).now (lines_of S.Store log)) }
        ensures reaches { IfOk result (λ log. IsOpen S.Store log → Reaches S.Store log number) }
        ensures survives { IfOk result (λ log. Survives (state S.Store conn) (state S.Store log)
            (IsMade S.Store conn)) }
        ensures other { IfErr result (λ fault. fault ≡ LogFault.NotALog
            → IsOther (state S.Store conn).now.schema) }
        ensures older { IfErr result (λ fault. fault ≡ LogFault.OlderLog → FallsShort S.Store conn number) }
        ensures plain { IfErr result (λ fault. (fault ≡ LogFault.NotALog)
            ⊎ ((fault ≡ LogFault.OlderLog) ⊎ IsPlain fault)) }
        ensures stays { IfOk result (λ log. HasCleanDisk (state S.Store log) → IsOpen S.Store conn
            → IsOpen S.Store log) }
    {
        let mut log = match CommandLog::over(alloc, conn) {
            Ok(log) => log,
            Err((fault, _)) => return Err(fault),
        };
        if log.reaches(number)? {
            Ok(log)
        } else {
            Err(LogFault::OlderLog)
        }
    }

    /// Returns whether the log has a line with this number or a larger one, if there is a number.
    fn reaches(&mut self, number: Option<u64>) -> Result<bool, LogFault>
        requires { IfSome number IsNumber }
        ensures reaches { HasCleanDisk (state S.Store self.new)
            → IfOk result (λ it. IsTrue it ↔ Reaches S.Store self.old number) }
        ensures committed { IsOpen S.Store self.new
            → (state S.Store self.new).committed ≡ (state S.Store self.old).committed }
        ensures stays { HasCleanDisk (state S.Store self.new) → OnOk result
            (IsOpen S.Store self.old → IsOpen S.Store self.new) }
        ensures shut { IsOpen S.Store self.new → IsOpen S.Store self.old }
        ensures survives { Survives (state S.Store self.old) (state S.Store self.new) (λ _. ⊥) }
        ensures plain { IfErr result IsPlain }
    {
        let Some(number) = number else {
            return Ok(true);
        };
        let place = i64::try_from(number - 1).ok();
        let ReadLines { lines, next: _ } = read_after(self.alloc, &mut self.conn, place, 1)?;
        Ok(!lines.is_empty())
    }

    /// Returns the store of a log, in which nothing is under way.
    fn settled_store(self) -> S
        ensures log { IsLog S.Store self }
        ensures live { IsOpen S.Store self → IsDatabase (state S.Store self).committed }
        ensures numbered { IsClean (S.Store.view result)
            → IsTrue (S.Store.view result).is_numbered }
        ensures sound { IsClean (S.Store.view result) → AreDatabases (S.Store.recovers result) }
        ensures undone { IsUndone (S.Store.view self.store) (S.Store.view result) }
        ensures quiet { IsQuiet S.Store.view S.Store.faults S.Store.recovers S.Store.is_shielded
            self.store result }
    {
        let CommandLog {
            conn,
            alloc: _,
            digest: _,
            last: _,
        } = self;
        // Called for its clause alone: what an open connection knows of its tables.
        let _schema = conn.schema();
        conn.into_store()
    }
}

impl<D: Disk + Drop> CommandLog<FileStore<D>> {
    /// Copies the last commit into the database file, and returns both files. From then on the
    /// database file alone has the lines, as it is and after a crash. A file beside it, SQLite's
    /// log, stays. An error comes with the store.
    pub fn close(self) -> Result<Files<D>, (LogFault, LogFiles<D>)>
        ensures alone { IfOk result (λ files. AreClean D.Disk files.log files.db
            → IsKeptAlone self files) }
        ensures usable { IfOk result (λ files. IsTrue (D.Disk.is_usable files.log)
            × IsTrue (D.Disk.is_usable files.db)) }
        ensures cause { IfErr result (λ e. IsClean (view (store_of e.1))
            → IsCloseFault self (store_of e.1) e.0) }
    {
        let CommandLog {
            conn,
            alloc: _,
            digest: _,
            last: _,
        } = self;
        // Called for its clause alone: what an open connection knows of its tables.
        let _schema = conn.schema();
        match conn.close_files() {
            Ok(files) => Ok(files),
            Err((error, store)) => Err((error.into(), LogFiles::new(store))),
        }
    }

    /// Drops a log, if there is one. It is called in place of a drop: that of a store is then proved in
    /// this crate alone.
    pub fn end(log: Option<Self>) {
        drop(log);
    }

    /// Gives the log up, whether it is open or a failed commit has shut it, and returns its files as
    /// a store in which nothing is under way.
    pub fn into_store(self) -> LogFiles<D>
        // Whatever a crash then leaves of the files, an open of them as a log finds lines that this
        // log might have been found to hold.
        ensures found { IsClean (view (store_of result))
            → FindsOnlySuch (store_of result) (MayHold over_files self) }

        // Of a log that is open these are its lines.
        ensures again { IsClean (view (store_of result)) → IsFoundAgain self }
    {
        LogFiles::new(self.settled_store())
    }
}

impl<S: Alter> CommandLog<S> {
    /// Appends the lines, all or none.
    pub fn append(&mut self, lines: &[String]) -> Result<(), LogFault>
        ensures ok { IsOpen S.Store self.new → OnOk result
            (lines_of S.Store self.new ≡ lines_of S.Store self.old ++ map string_bytes lines.now) }
        ensures err { IsOpen S.Store self.new → OnErr result
            (lines_of S.Store self.new ≡ lines_of S.Store self.old) }

        // A call that succeeds leaves an open log open. A log that is shut stays shut.
        ensures stays { HasCleanDisk (state S.Store self.new) → OnOk result
            (IsOpen S.Store self.old → IsOpen S.Store self.new) }
        ensures shut { IsOpen S.Store self.new → IsOpen S.Store self.old }

        // An open log fails if memory runs out, by a fault of the disk, or if a line cannot be
        // stored after the others.
        ensures cause { HasCleanDisk (state S.Store self.new) → IsOpen S.Store self.old
            → IfErr result (IsCaused (state S.Store self.old) (state S.Store self.new)
            (Unstorable (rows_of S.Store self.old) (map string_bytes lines.now))) }

        // A crash leaves what it could leave before, or the lines with the new ones appended.
        ensures survives { Survives (state S.Store self.old) (state S.Store self.new)
            (IsAppended S.Store self.old (map string_bytes lines.now)) }
    {
        if lines.is_empty() {
            return Ok(());
        }
        let mut digest = self.digest;
        put_all(&mut self.conn, lines, &mut digest)?;
        self.digest = digest;
        self.last = last_after(self.last, lines.len());
        Ok(())
    }

    /// Replaces all lines with these, or changes nothing. They are numbered on from the old ones,
    /// unless too few numbers are left. So a database file that has a line with a larger number than
    /// each line of its log is newer than the log.
    pub fn replace(&mut self, lines: &[String]) -> Result<(), LogFault>
        ensures ok { IsOpen S.Store self.new → OnOk result
            (lines_of S.Store self.new ≡ map string_bytes lines.now) }
        ensures err { IsOpen S.Store self.new → OnErr result
            (lines_of S.Store self.new ≡ lines_of S.Store self.old) }
        ensures stays { HasCleanDisk (state S.Store self.new)
            → OnOk result (IsOpen S.Store self.new) }

        ensures cause { HasCleanDisk (state S.Store self.new) → IsOpen S.Store self.old
            → IfErr result (IsCaused (state S.Store self.old) (state S.Store self.new)
            (Unstorable [] (map string_bytes lines.now))) }

        // A crash leaves what it could leave before, or the new lines alone.
        ensures survives { Survives (state S.Store self.old) (state S.Store self.new)
            (IsReplaced S.Store self.old (map string_bytes lines.now)) }
    {
        let mut digest = LineDigest::new();
        let number = number_after(self.last, lines.len());
        replace_all(&mut self.conn, number, lines, &mut digest)?;
        self.digest = digest;
        self.last = last_after(number.saturating_sub(1), lines.len());
        Ok(())
    }

    /// Reads all lines in order, and holds them all in memory.
    /// [`read_batch`](CommandLog::read_batch) reads in steps.
    pub fn read(&mut self) -> Result<Vec<String>, LogFault>
        ensures ok { HasCleanDisk (state S.Store self.new) → IfOk result (λ read.
            map string_bytes read.items ≡ lines_of S.Store self.old) }
        ensures same { IsOpen S.Store self.new → lines_of S.Store self.new
            ≡ lines_of S.Store self.old }
        ensures committed { IsOpen S.Store self.new
            → (state S.Store self.new).committed ≡ (state S.Store self.old).committed }
        ensures stays { HasCleanDisk (state S.Store self.new)
            → OnOk result (IsOpen S.Store self.new) }
        ensures survives { Survives (state S.Store self.old) (state S.Store self.new) (λ _. ⊥) }
        ensures cause { HasCleanDisk (state S.Store self.new) → IsOpen S.Store self.old
            → IfErr result (IsCaused (state S.Store self.old) (state S.Store self.new)
            (Unreadable (lines_of S.Store self.old))) }
    {
        let ReadLines { lines, next: _ } = read_after(self.alloc, &mut self.conn, None, NO_LIMIT)?;
        Ok(lines)
    }

    /// Reads the first lines after the place, `limit` of them at most, and returns them with the
    /// place after them. If they are fewer than the limit, they are the last ones. A place is the
    /// number of a line, so a `replace` since is not noticed.
    pub fn read_batch(&mut self, place: LogPlace, limit: u32) -> Result<Batch, LogFault>
        ensures ok { HasCleanDisk (state S.Store self.new) → IfOk result (λ batch.
            map string_bytes batch.lines.items ≡ take limit (lines_left S.Store self.old place)) }

        // What is left after it is all that it did not return, so batches read one after the other
        // are the lines.
        ensures left { HasCleanDisk (state S.Store self.new) → IfOk result (λ batch.
            lines_left S.Store self.old batch.next
            ≡ drop limit (lines_left S.Store self.old place)) }
        ensures same { IsOpen S.Store self.new → lines_of S.Store self.new
            ≡ lines_of S.Store self.old }
        ensures committed { IsOpen S.Store self.new
            → (state S.Store self.new).committed ≡ (state S.Store self.old).committed }
        ensures stays { HasCleanDisk (state S.Store self.new)
            → OnOk result (IsOpen S.Store self.new) }
        ensures survives { Survives (state S.Store self.old) (state S.Store self.new) (λ _. ⊥) }
        ensures cause { HasCleanDisk (state S.Store self.new) → IsOpen S.Store self.old
            → IfErr result (IsCaused (state S.Store self.old) (state S.Store self.new)
            (Unreadable (lines_left S.Store self.old place))) }
    {
        let ReadLines { lines, next } = read_after(
            self.alloc,
            &mut self.conn,
            place.last(),
            i64::from(limit),
        )?;
        Ok(Batch {
            lines,
            next: LogPlace::after(next),
        })
    }

    /// The digest of the lines, by which two logs are compared. Of a log that is shut it says
    /// nothing.
    pub fn digest(&self) -> LineDigest
        ensures { IsOpen S.Store self.now → result ≡ digest_of (lines_of S.Store self.now) }
    {
        self.digest
    }

    /// A law: while the log is open, a crash leaves its lines and nothing else. The call changes
    /// nothing: it carries this fact.
    pub fn law_left_by_a_crash(&self)
        ensures keeps { IsOpen S.Store self.now → (db : Trees) → MayLeave S.Store self.now db
            → KeepsLines (lines_of S.Store self.now) db }
        ensures holds { IsOpen S.Store self.now → (lines : List (List ℕ))
            → MayHold S.Store self.now lines → lines_of S.Store self.now ≡ lines }
    {
        // Called for its clause alone: what an open connection knows of its tables.
        let _schema = self.conn.schema();
    }
}
