//! Opening the log in files.
ghost use Rattle.std.specs.Prelude.{◌≡◌, ◌≢◌, true, false, IfOk, IfErr, IsTrue};
ghost use Rattle.sqlite.specs.Files.{over_files, image_of};
ghost use Rattle.sqlite.specs.Held.{state};
ghost use Rattle.sqlite.specs.State.{HasCleanDisk};
ghost use Rattle.sqlite.specs.WalFiles.{image_at};
ghost use Rattle.sqlite_std_file.specs.File.{file_is_usable, IsFresh};
ghost use Rattle.command_log.specs.Lines.{IsOpen, lines_of};
ghost use Rattle.command_log.specs.Found.{FindsLines, ReadsLines, RefusesOther};
ghost use Rattle.command_log.specs.Faults.{IsPlain};
ghost use Rattle.command_log.specs.Found.{CoversFile, EndsWhole, IsCutShort, ReachesFile};

use crate::fault::LogFault;
use crate::log::CommandLog;
use log_tails::{last_row, outgrows, tail_of};
use sqlite::{Connection, FileFrom, FileStore, Start};
use sqlite_disk::{Disk, Files};
use sqlite_pager::Options;
use sqlite_std_file::open;
use std::alloc::Global;
use std::fs::OpenOptions;
use std::hash::{BuildHasher, RandomState};
use std::os::unix::fs::OpenOptionsExt;

impl<S: Start> CommandLog<FileStore<FileFrom<S>>> {
    /// Opens the log in a file, or makes it, as [`open_files`](CommandLog::open_files) does. What the
    /// files held as they were opened is `S`, and so is what a torn write may leave of them:
    /// [`Unknown`](sqlite_disk::Unknown) or [`Wary`](sqlite_disk::Wary).
    pub fn open(
        rt: &HostRuntime,
        path: &str,
        start: S,
    ) -> Result<CommandLog<FileStore<FileFrom<S>>>, LogFault>
        ensures found { IfOk result (λ log. IsOpen over_files log
            → FindsLines (image_at S.Start) (lines_of over_files log)) }
        ensures read { IfOk result (λ log. IsOpen over_files log
            → ReadsLines (image_at S.Start) (lines_of over_files log)) }
        ensures whole { IfOk result (λ log. IsOpen over_files log → EndsWhole (image_at S.Start)) }
        ensures covers { IfOk result (λ log. IsOpen over_files log → CoversFile (image_at S.Start)) }
        ensures newest { IfOk result (λ log. IsOpen over_files log
            → ReachesFile (image_at S.Start) log) }
        ensures cut { IsCutShort (image_at S.Start) result }
        ensures other { RefusesOther (image_at S.Start) result }

        // It is open, as long as the disk returns what was written.
        ensures opened { IfOk result (λ log. HasCleanDisk (state over_files log)
            → IsOpen over_files log) }
    {
        let options = options(rt)?;
        let files = open_pair(rt, path, start)?;
        CommandLog::open_files(rt.alloc(), files, options)
    }
}

/// Opens a database file and SQLite's log beside it, or makes them.
fn open_pair<S: Start>(
    rt: &HostRuntime,
    path: &str,
    start: S,
) -> Result<Files<FileFrom<S>>, LogFault>
    ensures usable { IfOk result (λ files. IsTrue (file_is_usable S.Start files.log)
        × IsTrue (file_is_usable S.Start files.db)) }
    ensures fresh { IfOk result (λ files. IsFresh true files.log × IsFresh false files.db) }
    ensures fault { IfErr result IsPlain }
{
    // SQLite takes these names for something else than a path.
    if path == ":memory:" || path.starts_with("file:") {
        return Err(LogFault::CannotOpen);
    }
    make_private(rt, path);
    Ok(open(rt, path, start)?)
}

/// Makes the file if it is not there, for its owner alone: a site has drafts and addresses that
/// nobody else is to read. SQLite gives its log the mode of the file. An error is left to the open.
fn make_private(rt: &HostRuntime, path: &str) {
    let _ = OpenOptions::new()
        .write(true)
        .create_new(true)
        .mode(0o600)
        .open(rt, path);
}

/// Returns the options of a database, with a seed for its tables.
fn options(rt: &HostRuntime) -> Result<Options, LogFault>
    ensures fault { IfErr result IsPlain }
{
    match RandomState::new(rt) {
        Ok(seeds) => Ok(Options::new(seeds.hash_one(&0u8))),
        Err(_) => Err(LogFault::CannotOpen),
    }
}

impl<D: Disk + Drop> CommandLog<FileStore<D>> {
    /// Takes the log in a database file and SQLite's log beside it, or makes one in files that hold
    /// nothing. A log beside the file that ends otherwise than a crash leaves it is refused as
    /// [`DamagedTail`](LogFault::DamagedTail), and one that leaves the database shorter than the
    /// file is, or without a line that the file alone has, as [`OlderLog`](LogFault::OlderLog). Then
    /// no line is written.
    pub fn open_files(
        alloc: Global,
        mut files: Files<D>,
        options: Options,
    ) -> Result<CommandLog<FileStore<D>>, LogFault>
        requires log { IsTrue (D.Disk.is_usable files.log) }
        requires db { IsTrue (D.Disk.is_usable files.db) }
        ensures found { IfOk result (λ log. IsOpen over_files log
            → FindsLines (image_of D.Disk files) (lines_of over_files log)) }
        ensures read { IfOk result (λ log. IsOpen over_files log
            → ReadsLines (image_of D.Disk files) (lines_of over_files log)) }

        // What follows the last commit is what a crash leaves, and the file is no longer than that
        // commit leaves it. Files are refused for that only if it isn't so.
        ensures whole { IfOk result (λ log. IsOpen over_files log
            → EndsWhole (image_of D.Disk files)) }
        ensures covers { IfOk result (λ log. IsOpen over_files log
            → CoversFile (image_of D.Disk files)) }

        // The log has the number of the last line that the database file alone has, or a larger one.
        ensures newest { IfOk result (λ log. IsOpen over_files log
            → ReachesFile (image_of D.Disk files) log) }
        ensures cut { IsCutShort (image_of D.Disk files) result }
        ensures other { RefusesOther (image_of D.Disk files) result }
        ensures opened { IfOk result (λ log. HasCleanDisk (state over_files log)
            → IsOpen over_files log) }
    {
        let tail = tail_of(alloc, &mut files.log)?;
        if !tail.is_whole {
            return Err(LogFault::DamagedTail {
                commits: tail.commits,
                following: tail.following,
            });
        }
        let is_older = outgrows(&mut files.db, tail)?;
        if is_older {
            return Err(LogFault::OlderLog);
        }
        let number = last_row(alloc, &mut files.db)?;
        let conn = match Connection::open_files(alloc, files, options) {
            Ok(conn) => conn,
            Err((error, _)) => return Err(error.into()),
        };
        CommandLog::taken(alloc, conn, number)
    }
}
