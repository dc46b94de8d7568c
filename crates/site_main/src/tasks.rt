//! Doing what the command-line arguments ask for.
ghost use Rattle.std.specs.Prelude.{◌≡◌, false, is_err};
ghost use Rattle.std.specs.Process.{exit_status};
ghost use Rattle.std.specs.Result.{MatchResult};

use crate::arguments::Asked;
use crate::files::unfit_file;
use crate::lines::{Limits, NotServed, Run, serve_lines};
use crate::trace::Trace;
use byte_io::{Reading, Source, Writing};
use callback_store::{Plugins, Stated};
use http_tasks::{Clients, read_token, serve, serve_path};
use site_args::{Flags, Task};
use site_program::{Site, StoreFault};
use site_serving::KeptPages;
use site_start::identity_of;
use site_tasks::{WhileThere, check, compact, ended, export, failed, failed_at, not_started};
use sqlite::{Start, Wary};
use std::alloc::Global;
use std::io;
use std::process::ExitCode;

/// Does what is asked for, with a site over these plugins, and returns the program's exit status: 0
/// if all went well, 1 after a fault, which a line on standard error names.
pub fn run<S: Stated>(rt: &HostRuntime, plugins: &Plugins<S>, asked: Asked) -> ExitCode {
    let Asked {
        limits,
        flags,
        token_file,
        task,
    } = asked;
    if let Some(status) = unfit_file(rt, &task, flags) {
        return status;
    }
    let path = match &task {
        Task::Serve => None,
        Task::ServeFile(path) => Some(path.as_str()),
        Task::Export(path) => return exported(rt, plugins, limits, path.as_str()),
        Task::Check(path) => return checked(rt, plugins, limits, path.as_str()),
        Task::Compact(path) => return compacted(rt, plugins, limits, path.as_str()),
    };
    let trace = Trace::new(rt, flags.trace);
    match clients_of(rt, flags, token_file) {
        Ok(None) => {
            let Ok(reader) = WhileThere::new(rt, path, Reading::new(rt.reader())) else {
                return failed(rt, StoreFault::OutOfMemory);
            };
            let log = match path {
                Some(path) => Some((path, Wary)),
                None => None,
            };
            let sink = Writing::new(io::writer(rt));
            let run = serve_lines(rt, plugins, limits, log, reader, sink, trace);
            status_of(rt, path, run)
        }
        Ok(Some(clients)) => over_http(rt, plugins, limits, path, clients, trace),
        Err(status) => status,
    }
}

/// Returns who is served over HTTP, with the token from its file, or `None` if lines are served. If the
/// token can't be read, says so, and returns the program's exit status.
fn clients_of(
    rt: &HostRuntime,
    flags: Flags,
    token_file: Option<String>,
) -> Result<Option<Clients>, ExitCode> {
    if !flags.http {
        return Ok(None);
    }
    let token = match token_file {
        Some(path) => match read_token(rt, path.as_str()) {
            Ok(token) => Some(token),
            Err(error) => return Err(failed_at(rt, path.as_str(), error)),
        },
        None => None,
    };
    Ok(Some(Clients {
        framed: flags.framed,
        token,
    }))
}

/// Ends the program after a run of lines, and returns its exit status: 0 only if serving ended well.
fn status_of<S: Stated, R: Source + Drop, W: Drop, F: Start>(
    rt: &HostRuntime,
    path: Option<&str>,
    run: Result<Run<'_, S, WhileThere<R>, W, F>, NotServed>,
) -> ExitCode
    ensures { exit_status result ≡ 0
        → MatchResult run.entry (λ it. is_err it.0.result ≡ false) (λ _. ⊥) }
{
    match run {
        Ok((served, files)) => match (path, files) {
            (Some(path), Some(files)) => {
                let is_gone = served.reader.is_gone();
                ended(rt, path, files, is_gone, served.result, served.fault)
            }
            _ => match served.result {
                Ok(()) => ExitCode::SUCCESS,
                Err(fault) => failed(rt, fault),
            },
        },
        Err(NotServed::Site(fault)) => failed(rt, fault),
        Err(NotServed::Start(fault)) => match path {
            Some(path) => not_started(rt, path, fault),
            None => failed(rt, fault),
        },
    }
}

/// Serves clients over HTTP, into the log in a file or in memory, and returns the program's exit status.
/// A page is kept until something changes.
#[inline(never)]
fn over_http<S: Stated>(
    rt: &HostRuntime,
    plugins: &Plugins<S>,
    limits: Limits,
    path: Option<&str>,
    clients: Clients,
    trace: Trace,
) -> ExitCode {
    let alloc = rt.alloc();
    let (site, identity) = match new_site(alloc, plugins, limits) {
        Ok(made) => made,
        Err(fault) => return failed(rt, fault),
    };
    let Ok(site) = KeptPages::new(alloc, site) else {
        return failed(rt, StoreFault::OutOfMemory);
    };
    match path {
        Some(path) => serve_path(rt, path, site, identity.as_str(), clients, trace),
        None => serve(rt, site, clients, trace),
    }
}

/// Makes an empty site, and the line that names the program in a log.
fn new_site<'p, S: Stated>(
    alloc: Global,
    plugins: &'p Plugins<S>,
    limits: Limits,
) -> Result<(Site<'p, S>, String), StoreFault> {
    let site = Site::new(alloc, plugins, limits.calls, limits.cache)?;
    Ok((site, identity_of(alloc, plugins)?))
}

/// Prints the short history of the site in a file, and returns the program's exit status.
#[inline(never)]
fn exported<S: Stated>(
    rt: &HostRuntime,
    plugins: &Plugins<S>,
    limits: Limits,
    path: &str,
) -> ExitCode {
    match new_site(rt.alloc(), plugins, limits) {
        Ok((site, identity)) => export(rt, site, identity.as_str(), path),
        Err(fault) => failed(rt, fault),
    }
}

/// Says how many edits a file has, and returns the program's exit status.
#[inline(never)]
fn checked<S: Stated>(
    rt: &HostRuntime,
    plugins: &Plugins<S>,
    limits: Limits,
    path: &str,
) -> ExitCode {
    match new_site(rt.alloc(), plugins, limits) {
        Ok((site, identity)) => check(rt, site, identity.as_str(), path),
        Err(fault) => failed(rt, fault),
    }
}

/// Puts the short history of the site in a file in the place of its history, and returns the program's
/// exit status.
#[inline(never)]
fn compacted<S: Stated>(
    rt: &HostRuntime,
    plugins: &Plugins<S>,
    limits: Limits,
    path: &str,
) -> ExitCode {
    let alloc = rt.alloc();
    let copy = Site::new(alloc, plugins, limits.calls, limits.cache);
    match (new_site(alloc, plugins, limits), copy) {
        (Ok((site, identity)), Ok(copy)) => compact(rt, site, copy, identity.as_str(), path),
        (Err(fault), _) | (_, Err(fault)) => failed(rt, fault),
    }
}
