//! Serving files until a moment.
ghost use Rattle.std.specs.Prelude.{◌≡◌, false, IfOk, IsTrue};
ghost use Rattle.std.specs.Result.{MatchResult};
ghost use Rattle.command_log.specs.Found.{FindsOnlySuch, store_of};
ghost use Rattle.crash_points.specs.Stopped.{inner_image, sink_of};
ghost use Rattle.site_start.specs.Started.{IsLeftBy};
ghost use Rattle.site_tasks.specs.Lasting.{Lasts};
ghost use Rattle.sqlite.specs.FileStore.{view};
ghost use Rattle.sqlite.specs.View.{IsClean};

use crate::stopping::Stopping;
use byte_io::{Sink, Source};
use command_log::{LogFault, LogFiles};
use page_trace::Watch;
use site_journal::Steady;
use site_serving::Commands;
use site_start::{StartFault, with_files};
use site_tasks::{ServeLines, Served};
use sqlite::Options;
use sqlite_disk::{Disk, Files, Fuse};
use std::alloc::Global;

/// Serves an input into files over a disk and a sink that stop: each of the two files passes on the
/// calls that its fuse has left, and the sink the writes that it has left.
pub fn serve_until<
    C: Commands + Drop,
    D: Disk + Drop,
    R: Source + Drop,
    W: Steady + Drop,
    V: Watch,
>(
    alloc: Global,
    files: Files<Fuse<D>>,
    options: Options,
    task: ServeLines<'_, C, R, Stopping<W>, V>,
) -> Result<
    (
        Result<Served<C, R, Stopping<W>>, StartFault>,
        LogFiles<Fuse<D>>,
    ),
    LogFault,
>
    requires log { IsTrue (⟦<Fuse<D> as Disk>⟧.is_usable files.log) }
    requires db { IsTrue (⟦<Fuse<D> as Disk>⟧.is_usable files.db) }
    requires reader { R.has_failed task.reader ≡ false }
    requires sink { ⟦<Stopping<W> as Sink>⟧.has_failed task.sink ≡ false }

    // Whatever a crash leaves of the files, an open of them finds the lines that they held, or the
    // identity alone, and then the edits done at some first lines of the input; and what was written to
    // the client is the beginning of the replies to exactly these lines.
    ensures { IfOk result (λ done. IsClean (view (store_of done.1))
        → FindsOnlySuch (store_of done.1) (λ lines. MatchResult done.0
        (λ served. Lasts (C.steps (C.fixed task.entry.site)) (C.replies (C.fixed task.entry.site)) C.keeps
        (inner_image D.Disk files) task.entry.identity.now (C.state task.entry.site) (C.state served.site)
        (R.remaining task.entry.reader) (W.contents (sink_of task.entry.sink)) (W.contents (sink_of served.sink))
        served.result lines)
        (λ fault. IsLeftBy (inner_image D.Disk files) task.entry.identity.now lines))) }
{
    with_files(alloc, files, options, task)
}
