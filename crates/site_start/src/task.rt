//! Doing something with the log of a file, whatever it is.
ghost use Rattle.std.specs.Prelude.{ℕ, List, IfOk};
ghost use Rattle.command_log.specs.Found.{FindsOnlySuch, store_of};
ghost use Rattle.command_log.specs.Lines.{MayHold};
ghost use Rattle.site_start.specs.Started.{IsOpenedFrom};
ghost use Rattle.sqlite.specs.FileStore.{view};
ghost use Rattle.sqlite.specs.Files.{image_of, over_files};
ghost use Rattle.sqlite.specs.Recovery.{Image};
ghost use Rattle.sqlite.specs.View.{IsClean};
ghost use Rattle.sqlite.specs.WalFiles.{image_at};
ghost use Rattle.std.specs.Prelude.{IsTrue};

use command_log::{CommandLog, LogFault, LogFiles};
use sqlite::{FileFrom, FileStore, Options, Start};
use sqlite_disk::{Disk, Files};
use sqlite_trees::store::Alter;
use std::alloc::Global;

/// What is done with a log that was opened.
pub trait LogTask {
    /// What comes of it, beside the log.
    type Left;

    /// Whether it can begin.
    ghost is_ready: { Self → Type 0 };

    /// If this came of it, an open of the files, which had this image as the log was opened, may find
    /// these lines.
    ghost leaves: { Self → Self.Left → Image → List (List ℕ) → Type 0 };

    /// Does it. It is over any store, since a call of such a function over the store of files takes
    /// the prover long: [`with_opened`] alone has one.
    fn run<S: Alter>(self, log: CommandLog<S>) -> (Self::Left, CommandLog<S>)
        requires { is_ready self }
        ensures { (image : Image) → IsOpenedFrom S.Store image log
            → (lines : List (List ℕ)) → MayHold S.Store result.1 lines
            → leaves self result.0 image lines };
}

/// Opens the log in a file, or makes it, and does the task with it. What the files held as they were
/// opened is `S`, and so is what a torn write may leave of them. However the task ends, the log's files
/// come back.
pub fn with_log<T: LogTask + Drop, S: Start>(
    rt: &HostRuntime,
    path: &str,
    files: S,
    task: T,
) -> Result<(T::Left, LogFiles<FileFrom<S>>), LogFault>
    requires { T.is_ready task }

    // Whatever a crash leaves of the files, an open of them finds lines that the task leaves.
    ensures { IfOk result (λ done. IsClean (view (store_of done.1))
        → FindsOnlySuch (store_of done.1) (T.leaves task done.0 (image_at S.Start))) }
{
    let log = CommandLog::open(rt, path, files)?;
    Ok(with_opened(log, task))
}

/// Opens the log in a database file and SQLite's log beside it, on any disk, and does the task with it,
/// as [`with_log`] does.
pub fn with_files<T: LogTask + Drop, D: Disk + Drop>(
    alloc: Global,
    files: Files<D>,
    options: Options,
    task: T,
) -> Result<(T::Left, LogFiles<D>), LogFault>
    requires log { IsTrue (D.Disk.is_usable files.log) }
    requires db { IsTrue (D.Disk.is_usable files.db) }
    requires ready { T.is_ready task }
    ensures { IfOk result (λ done. IsClean (view (store_of done.1))
        → FindsOnlySuch (store_of done.1) (T.leaves task done.0 (image_of D.Disk files))) }
{
    let log = CommandLog::open_files(alloc, files, options)?;
    Ok(with_opened(log, task))
}

/// Does the task with a log that an open of files has made.
fn with_opened<T: LogTask, D: Disk + Drop>(
    log: CommandLog<FileStore<D>>,
    task: T,
) -> (T::Left, LogFiles<D>)
    requires { T.is_ready task }
    ensures { (image : Image) → IsOpenedFrom over_files image log → IsClean (view (store_of result.1))
        → FindsOnlySuch (store_of result.1) (T.leaves task result.0 image) }
{
    let (left, log) = task.run(log);
    (left, log.into_store())
}
