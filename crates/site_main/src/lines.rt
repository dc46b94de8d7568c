//! Serving lines over a new site.
ghost use Rattle.std.specs.Prelude.{◌≡◌, ◌++◌, ◌≤◌, ℕ, List, Some, false, is_some, IfNone, IfOk, IfSome, OnOk};
ghost use Rattle.callback_store.specs.Shape.{shapes_of};
ghost use Rattle.command_log.specs.Found.{FindsOnlySuch, store_of};
ghost use Rattle.site_main.specs.Steps.{steps_over};
ghost use Rattle.site_program.specs.History.{is_kept};
ghost use Rattle.site_program.specs.Serving.{IsReplies, IsServed};
ghost use Rattle.site_program.specs.Site.{state_of};
ghost use Rattle.site_program.specs.State.{State, empty_site};
ghost use Rattle.site_program.specs.Step.{IsReply};
ghost use Rattle.site_serving.specs.Lines.{lines_of};
ghost use Rattle.site_start.specs.Identity.{identity_line};
ghost use Rattle.site_tasks.specs.Lasting.{Lasts};
ghost use Rattle.sqlite.specs.FileStore.{view};
ghost use Rattle.sqlite.specs.View.{IsClean};
ghost use Rattle.sqlite.specs.WalFiles.{image_at};

use byte_io::{Journal, Source};
use callback_store::{Plugins, Stated};
use command_log::{LogFault, LogFiles};
use page_trace::Watch;
use site_journal::Steady;
use site_program::{Site, StoreFault};
use site_serving::{KeptPages, serve};
use site_start::{StartFault, identity_of, with_log};
use site_tasks::{ServeLines, Served};
use sqlite::{FileFrom, Start};
use std::alloc::AllocError;
use thiserror::Error;

/// How many calls each page may make, from 1 to 100,000, and of how many texts the pieces are kept for
/// later pages, from 1 to 4,096.
#[derive(Clone, Copy, Drop)]
pub struct Limits {
    pub calls: u32,
    pub cache: u32,
    ghost calls_in: { (1 ≤ calls) × (calls ≤ 100000) },
    ghost cache_in: { (1 ≤ cache) × (cache ≤ 4096) },
}

/// Why no line was served.
#[derive(Clone, Copy, Debug, Drop, Error)]
pub enum NotServed {
    /// The site can't be made.
    #[error("{0}")]
    Site(StoreFault),
    /// The site can't be started from its log.
    #[error("{0}")]
    Start(StartFault),
}

impl From<StoreFault> for NotServed {
    fn from(fault: StoreFault) -> NotServed {
        NotServed::Site(fault)
    }
}

impl From<StartFault> for NotServed {
    fn from(fault: StartFault) -> NotServed {
        NotServed::Start(fault)
    }
}

impl From<LogFault> for NotServed {
    fn from(fault: LogFault) -> NotServed {
        NotServed::Start(StartFault::Log(fault))
    }
}

impl From<AllocError> for NotServed {
    fn from(_error: AllocError) -> NotServed {
        NotServed::Site(StoreFault::OutOfMemory)
    }
}

/// What a run of lines leaves: how serving ended, with the site and its ends; and the files of its log,
/// if it has one.
pub type Run<'p, S, R, W, F> = (
    Served<KeptPages<Site<'p, S>>, R, W>,
    Option<LogFiles<FileFrom<F>>>,
);

/// Makes an empty site over these plugins, carries out the lines of the log in a file, if a path is
/// given, and serves an input over it: into that log, or in memory. A page is kept until a line changes
/// something. The watch is told each invocation; no clause speaks of it, since it changes no reply.
///
/// Each run of lines that a program makes goes through here. What the file and its log hold as they are
/// opened is `F`, and so is what a torn write may leave of them.
#[inline(never)]
pub fn serve_lines<'p, S: Stated, R: Source + Drop, W: Steady + Drop, V: Watch, F: Start>(
    rt: &HostRuntime,
    plugins: &'p Plugins<S>,
    limits: Limits,
    log: Option<(&str, F)>,
    reader: R,
    sink: W,
    watch: V,
) -> Result<Run<'p, S, R, W, F>, NotServed>
    requires reader { R.has_failed reader ≡ false }
    requires sink { W.has_failed sink ≡ false }
    ensures way { IfOk result (λ run. is_some run.1 ≡ is_some log.entry) }

    // In memory the sink takes the replies to an input that is read to its end, and nothing else: those
    // of the empty site over these plugins.
    ensures replied { IfOk result (λ run. IfNone run.1 (OnOk run.0.result
        (IfSome (R.remaining reader) (λ input. IfSome (W.contents sink) (λ before.
        (out : List ℕ) × (last : State)
        × IsReplies (steps_over S.says S.number plugins.entry.now limits.calls) empty_site
        (lines_of input) out last
        × (W.contents run.0.sink ≡ Some (before ++ out))))))) }

    // What else holds of it, after each fault too.
    ensures served { IfOk result (λ run. IfNone run.1
        (IsServed (steps_over S.says S.number plugins.entry.now limits.calls)
        ⟦<W as Journal>⟧ empty_site (R.remaining reader) (R.remaining run.0.reader)
        (R.has_failed run.0.reader) sink run.0.sink run.0.result
        (state_of S.says S.number run.0.site))) }

    // With a log the file is the site: whatever a crash leaves of it, an open finds the lines that it
    // held and then the edits done at some first lines of the input; and what the sink took is the
    // beginning of the replies to exactly these lines, or all of them if serving ended well.
    ensures lasts { IfOk result (λ run. IfSome run.1 (λ files. IsClean (view (store_of files))
        → FindsOnlySuch (store_of files)
        (Lasts (steps_over S.says S.number plugins.entry.now limits.calls)
        (IsReply (steps_over S.says S.number plugins.entry.now limits.calls)) is_kept
        (image_at F.Start) (identity_line (shapes_of S.number plugins.entry.now))
        empty_site (state_of S.says S.number run.0.site) (R.remaining reader) (W.contents sink)
        (W.contents run.0.sink) run.0.result))) }
{
    let alloc = rt.alloc();
    let site = Site::new(alloc, plugins, limits.calls, limits.cache)?;
    let mut site = KeptPages::new(alloc, site)?;
    let Some((path, files)) = log else {
        let (mut reader, mut sink, mut watch) = (reader, sink, watch);
        let result = serve(alloc, &mut site, &mut reader, &mut sink, &mut watch);
        let served = Served {
            result,
            fault: None,
            site,
            reader,
            sink,
        };
        return Ok((served, None));
    };
    let identity = identity_of(alloc, plugins)?;
    let task = ServeLines {
        alloc,
        site,
        identity: identity.as_str(),
        reader,
        sink,
        watch,
    };
    let (left, files) = with_log(rt, path, files, task)?;
    Ok((left?, Some(files)))
}
