//! Serving an input into the log in a file.
ghost use Rattle.std.specs.Prelude.{◌≡◌, ◌||◌, is_err, if◌then◌else◌};
ghost use Rattle.std.specs.Process.{exit_status};

use crate::status::{failed, failed_at};
use byte_io::Source;
use command_log::{CommandLog, LogFault, LogFiles};
use page_trace::Watch;
use site_journal::{LogJournal, Steady};
use site_replies::ServeFault;
use site_serving::{Commands, serve};
use site_start::{LogTask, StartFault, start};
use sqlite_disk::Disk;
use sqlite_trees::store::Alter;
use std::alloc::Global;
use std::fmt::Display;
use std::process::ExitCode;

/// Why serving ends before the input if the file was removed or replaced.
const FILE_IS_GONE: &str = "the file or its log was removed or replaced while it was in use";

/// Making a site anew by a log, whose first line has to be the identity, and serving an input into that
/// log: edits are committed before the replies to them are written.
#[derive(Drop)]
pub struct ServeLines<'a, C, R, W, V> {
    pub alloc: Global,
    /// The site, before the lines of the log are carried out.
    pub site: C,
    pub identity: &'a str,
    pub reader: R,
    /// The client's end, to which the replies are written.
    pub sink: W,
    pub watch: V,
}

/// What is left after an input was served into a log.
#[derive(Drop)]
pub struct Served<C, R, W> {
    /// How serving ended.
    pub result: Result<(), ServeFault>,
    /// Why edits could not be committed, if that ended it.
    pub fault: Option<LogFault>,
    pub site: C,
    pub reader: R,
    pub sink: W,
}

/// A start that is refused reads no line of the input.
impl<'a, C: Commands + Drop, R: Source + Drop, W: Steady + Drop, V: Watch> LogTask
    for ServeLines<'a, C, R, W, V> {
    ghost use Rattle.std.specs.Prelude.{◌≡◌, false};
    ghost use Rattle.std.specs.Result.{MatchResult};
    ghost use Rattle.site_start.specs.Started.{IsLeftBy};
    ghost use Rattle.site_tasks.specs.Lasting.{Lasts};

    type Left = Result<Served<C, R, W>, StartFault>;

    ghost is_ready = { λ task. (R.has_failed task.reader ≡ false) × (W.has_failed task.sink ≡ false) };

    // Of the lines that the files held, if the log was not taken over. Else they are these and then the
    // edits done at some first lines of the input; and what was written to the sink is the beginning of
    // the replies to exactly these lines.
    ghost leaves = { λ task left image lines. MatchResult left
        (λ served. Lasts (C.steps (C.fixed task.site)) (C.replies (C.fixed task.site)) C.keeps
        image task.identity.now (C.state task.site) (C.state served.site) (R.remaining task.reader)
        (W.contents task.sink) (W.contents served.sink) served.result lines)
        (λ fault. IsLeftBy image task.identity.now lines) };

    fn run<S: Alter>(
        self,
        mut log: CommandLog<S>,
    ) -> (Result<Served<C, R, W>, StartFault>, CommandLog<S>) {
        let ServeLines {
            alloc,
            mut site,
            identity,
            mut reader,
            sink,
            mut watch,
        } = self;
        log.law_left_by_a_crash();
        match start(alloc, &mut site, &mut log, identity) {
            Ok(()) => {
                let mut journal = LogJournal::new(alloc, log, sink);
                let result = serve(alloc, &mut site, &mut reader, &mut journal, &mut watch);
                let fault = journal.fault();
                let (log, sink) = journal.into_parts();
                let served = Served {
                    result,
                    fault,
                    site,
                    reader,
                    sink,
                };
                (Ok(served), log)
            }
            Err(fault) => (Err(fault), log),
        }
    }
}

/// Ends the program after a file was served, and returns its exit status. If serving came to its end,
/// what was committed is copied into the database file. If the file or its log is gone, that is what
/// is said; else why edits could not be committed, if that is known, or how serving ended.
pub fn ended<D: Disk + Drop, E: Display + Drop>(
    rt: &HostRuntime,
    path: &str,
    mut files: LogFiles<D>,
    is_gone: bool,
    served: Result<(), E>,
    fault: Option<LogFault>,
) -> ExitCode
    ensures { exit_status result ≡ (if is_gone || is_err served then 1 else 0) }
{
    if is_gone {
        return failed_at(rt, path, FILE_IS_GONE);
    }
    match served {
        Ok(()) => {
            let _ = files.checkpoint();
            ExitCode::SUCCESS
        }
        Err(error) => match fault {
            Some(cause) => failed_at(rt, "the database failed", cause),
            None => failed(rt, error),
        },
    }
}
