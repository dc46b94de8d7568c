//! Serving clients of HTTP into the log in a file.
use crate::reader::SourceReader;
use crate::serving::{Clients, serve_pages};
use byte_io::{Reading, Writing};
use command_log::{CommandLog, LogFault};
use page_trace::Watch;
use site_journal::LogJournal;
use site_replies::ServeFault;
use site_serving::Commands;
use site_start::{LogTask, StartFault, start, with_log};
use site_tasks::{WhileThere, ended, failed, not_started};
use sqlite::Wary;
use sqlite_trees::store::Alter;
use std::io;
use std::io::{Read, Write};
use std::process::ExitCode;

/// Making a site anew by a log, whose first line has to be the identity, and serving clients into that
/// log: edits are committed to it before a response tells of them.
#[derive(Drop)]
pub struct ServeClients<'a, C, R, W, V> {
    pub rt: HostRuntime,
    /// The site, before the lines of the log are carried out.
    pub site: C,
    pub identity: &'a str,
    pub clients: Clients,
    pub reader: R,
    /// The end that is written to.
    pub writer: W,
    pub watch: V,
}

/// What is left after clients were served into a log.
#[derive(Drop)]
pub struct Served<R, W> {
    /// How serving ended.
    pub result: io::Result<()>,
    /// Why edits could not be committed, if that ended it.
    pub fault: Option<LogFault>,
    pub reader: R,
    pub writer: W,
}

/// A start that is refused serves no client.
impl<'a, C: Commands + Drop, R: Read + Drop, W: Write + Drop, V: Watch> LogTask
    for ServeClients<'a, C, R, W, V> {
    ghost use Rattle.std.specs.Prelude.{⊤, option_map};
    ghost use Rattle.std.specs.Result.{MatchResult};
    ghost use Rattle.std.specs.String.{string_bytes};
    ghost use Rattle.http_tasks.specs.Lasting.{Lasts};
    ghost use Rattle.site_start.specs.Started.{IsLeftBy};

    type Left = Result<Served<R, W>, StartFault>;

    ghost is_ready = { λ _. ⊤ };

    // The lines that the files held, if the log was not taken over. Else they are these and then the
    // edits that were done at the first calls; and no byte that was written tells of another edit.
    ghost leaves = { λ task left image lines. MatchResult left
        (λ served. Lasts (C.steps (C.fixed task.site)) (C.replies (C.fixed task.site)) C.keeps image
        task.identity.now task.clients.framed (option_map string_bytes task.clients.token)
        (C.state task.site) (R.remaining task.reader) (R.remaining served.reader)
        (W.contents task.writer) (W.contents served.writer) served.result lines)
        (λ fault. IsLeftBy image task.identity.now lines) };

    fn run<S: Alter>(
        self,
        mut log: CommandLog<S>,
    ) -> (Result<Served<R, W>, StartFault>, CommandLog<S>) {
        let ServeClients {
            rt,
            mut site,
            identity,
            clients,
            mut reader,
            writer,
            watch,
        } = self;
        let alloc = rt.alloc();
        log.law_left_by_a_crash();
        match start(alloc, &mut site, &mut log, identity) {
            Ok(()) => {
                let journal = LogJournal::new(alloc, log, Writing::new(Vec::new(alloc)));
                let (journal, writer, result) = serve_pages(
                    &rt,
                    site,
                    journal,
                    watch,
                    clients,
                    &mut reader,
                    writer,
                );
                let fault = journal.fault();
                let (log, _) = journal.into_parts();
                let served = Served {
                    result,
                    fault,
                    reader,
                    writer,
                };
                (Ok(served), log)
            }
            Err(fault) => (Err(fault), log),
        }
    }
}

/// Serves clients on standard input and output into a file, and returns the program's exit status. What
/// was committed is then copied into the database file, which has the history by itself from then on.
/// Serving ends once the file or its log is removed or replaced.
///
/// A line on standard error says why a start was refused, or what failed.
pub fn serve_path<C: Commands + Drop, V: Watch>(
    rt: &HostRuntime,
    path: &str,
    site: C,
    identity: &str,
    clients: Clients,
    watch: V,
) -> ExitCode {
    let Ok(source) = WhileThere::new(rt, Some(path), Reading::new(rt.reader())) else {
        return failed(rt, ServeFault::OutOfMemory);
    };
    let task = ServeClients {
        rt: *rt,
        site,
        identity,
        clients,
        reader: SourceReader { source },
        writer: io::writer(rt),
        watch,
    };
    match with_log(rt, path, Wary, task) {
        Ok((left, files)) => match left {
            Ok(served) => {
                let is_gone = served.reader.source.is_gone();
                ended(rt, path, files, is_gone, served.result, served.fault)
            }
            Err(fault) => not_started(rt, path, fault),
        },
        Err(fault) => not_started(rt, path, StartFault::Log(fault)),
    }
}
