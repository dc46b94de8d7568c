//! Printing the history in a file, making it shorter, and reading it alone.
use crate::status::{failed, failed_at, not_started};
use crate::summary::{Summary, summary_of};
use command_log::{CommandLog, LogFault};
use site_replies::{Refusal, ServeFault};
use site_serving::Commands;
use site_start::{CompactLog, Compaction, LogTask, StartFault, start, with_log};
use sqlite::Wary;
use sqlite_trees::store::Alter;
use std::alloc::Global;
use std::io;
use std::process::ExitCode;

/// Making a site anew by a log, whose first line has to be the identity, and counting its edits.
#[derive(Drop)]
pub struct Rebuild<'a, C> {
    pub alloc: Global,
    /// The site, before the lines of the log are carried out.
    pub site: C,
    pub identity: &'a str,
}

/// A site that the lines of a log have made.
#[derive(Drop)]
pub struct Rebuilt<C> {
    pub site: C,
    /// How many edits the log has, or why they could not be counted.
    pub summary: Result<Summary, LogFault>,
}

impl<'a, C: Commands + Drop> LogTask for Rebuild<'a, C> {
    ghost use Rattle.std.specs.Prelude.{⊤};
    ghost use Rattle.std.specs.Result.{MatchResult};
    ghost use Rattle.site_start.specs.Started.{IsLeftBy, IsRefusedStart};
    ghost use Rattle.site_tasks.specs.Rebuilt.{IsRebuilt};

    type Left = Result<Rebuilt<C>, StartFault>;

    ghost is_ready = { λ _. ⊤ };

    // The site is what the lines make of it, and it is these lines that were counted; or a line among
    // those that the files held is why there is none.
    ghost leaves = { λ task left image lines. MatchResult left
        (λ built. IsRebuilt (C.steps (C.fixed task.site)) C.edits image task.identity.now
        (C.state task.site) (C.state built.site) built.summary lines)
        (λ fault. IsLeftBy image task.identity.now lines
        × IsRefusedStart (C.steps (C.fixed task.site)) (C.replies (C.fixed task.site)) C.keeps image
        (C.state task.site) task.identity.now fault) };

    fn run<S: Alter>(
        self,
        mut log: CommandLog<S>,
    ) -> (Result<Rebuilt<C>, StartFault>, CommandLog<S>) {
        let Rebuild {
            alloc,
            mut site,
            identity,
        } = self;
        log.law_left_by_a_crash();
        match start(alloc, &mut site, &mut log, identity) {
            Ok(()) => {
                log.law_left_by_a_crash();
                let summary = summary_of(&mut log);
                (Ok(Rebuilt { site, summary }), log)
            }
            Err(fault) => (Err(fault), log),
        }
    }
}

/// Opens the log in a file, and makes the site anew by it. If that fails, says why, and returns the
/// program's exit status.
fn site_in_file<C: Commands + Drop>(
    rt: &HostRuntime,
    site: C,
    identity: &str,
    path: &str,
) -> Result<Rebuilt<C>, ExitCode> {
    let task = Rebuild {
        alloc: rt.alloc(),
        site,
        identity,
    };
    match with_log(rt, path, Wary, task) {
        Ok((left, _files)) => match left {
            Ok(built) => Ok(built),
            Err(fault) => Err(not_started(rt, path, fault)),
        },
        Err(fault) => Err(not_started(rt, path, StartFault::Log(fault))),
    }
}

/// Writes the short lines of the site of a file to standard output, and then says on standard error
/// how many edits the file itself has, and their digest.
pub fn export<C: Commands + Drop>(
    rt: &HostRuntime,
    site: C,
    identity: &str,
    path: &str,
) -> ExitCode {
    match site_in_file(rt, site, identity, path) {
        Ok(built) => {
            let Rebuilt { mut site, summary } = built;
            let lines = site.short_history();
            print_history(rt, path, lines, summary)
        }
        Err(status) => status,
    }
}

/// Writes short lines to standard output, and then how many edits the file itself has to standard
/// error. Nothing is printed of a history that could not be counted.
fn print_history(
    rt: &HostRuntime,
    path: &str,
    lines: Result<Vec<String>, Refusal>,
    summary: Result<Summary, LogFault>,
) -> ExitCode {
    let lines = match lines {
        Ok(lines) => lines,
        Err(Refusal::OutOfMemory) => return failed(rt, "out of memory"),
        Err(_) => return failed(rt, "store failed"),
    };
    let summary = match summary {
        Ok(summary) => summary,
        Err(fault) => return failed_at(rt, path, fault),
    };
    if print_lines(rt, &lines).is_err() {
        return failed(rt, ServeFault::Write);
    }
    let _ = eprintln!(rt; "site: {path}: {summary}");
    ExitCode::SUCCESS
}

/// Writes lines to standard output.
fn print_lines(rt: &HostRuntime, lines: &[String]) -> io::Result<()> {
    for line in lines {
        println!(rt; "{line}")?;
    }
    Ok(())
}

/// Carries out the history in a file, and says on standard output how many edits it has, and their
/// digest. Nothing is served.
pub fn check<C: Commands + Drop>(
    rt: &HostRuntime,
    site: C,
    identity: &str,
    path: &str,
) -> ExitCode {
    match site_in_file(rt, site, identity, path) {
        Ok(built) => {
            let Rebuilt { site: _, summary } = built;
            print_summary(rt, path, summary)
        }
        Err(status) => status,
    }
}

/// Writes what a log has to standard output, or says on standard error why it could not be read.
fn print_summary(rt: &HostRuntime, path: &str, summary: Result<Summary, LogFault>) -> ExitCode {
    match summary {
        Ok(summary) if println!(rt; "{summary}").is_err() => failed(rt, ServeFault::Write),
        Ok(_) => ExitCode::SUCCESS,
        Err(fault) => failed_at(rt, path, fault),
    }
}

/// Puts the short lines of the site of a file in the place of its history. The copy is an empty
/// site.
pub fn compact<C: Commands + Drop>(
    rt: &HostRuntime,
    site: C,
    copy: C,
    identity: &str,
    path: &str,
) -> ExitCode {
    let task = CompactLog {
        alloc: rt.alloc(),
        site,
        copy,
        identity,
    };
    match with_log(rt, path, Wary, task) {
        Ok((left, _files)) => {
            let Compaction {
                result,
                site: _,
                copy: _,
            } = left;
            match result {
                Ok(()) => ExitCode::SUCCESS,
                Err(fault) => not_started(rt, path, fault),
            }
        }
        Err(fault) => not_started(rt, path, StartFault::Log(fault)),
    }
}
