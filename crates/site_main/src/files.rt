//! What a database file has to be before it is opened.
use site_args::{Flags, Task};
use site_program::StoreFault;
use site_tasks::failed;
use std::alloc::AllocError;
use std::fs::File;
use std::io::Read;
use std::process::ExitCode;
use std::{fmt, fs, io};

/// A file that is not there, or has nothing in it.
#[derive(Drop)]
struct MissingFile<'a> {
    path: &'a str,
    why: &'a str,
}

impl fmt::Display for MissingFile<'_> {
    fn fmt<W: fmt::Write>(&self, f: &mut fmt::Formatter<W>) -> fmt::Result {
        write!(f, "{}: {}", self.path, self.why)
    }
}

/// A file without SQLite's log beside it.
#[derive(Drop)]
struct LoneFile<'a> {
    path: &'a str,
    log: &'a str,
}

impl fmt::Display for LoneFile<'_> {
    fn fmt<W: fmt::Write>(&self, f: &mut fmt::Formatter<W>) -> fmt::Result {
        write!(
            f,
            "{}: {} is not there: put it back, or give --without-wal if the file is whole without it",
            self.path, self.log
        )
    }
}

/// Says why the file of a task is not opened, and returns the program's exit status: it is not there
/// or is empty, where it has to have a site; or SQLite's log is not beside it, and no option says that
/// the file is whole without it. No file is made.
pub(crate) fn unfit_file(rt: &HostRuntime, task: &Task, flags: Flags) -> Option<ExitCode> {
    let (path, must_exist) = match task {
        Task::Serve => return None,
        Task::Check(path) => (path.as_str(), true),
        Task::ServeFile(path) | Task::Export(path) | Task::Compact(path) => (
            path.as_str(),
            flags.must_exist,
        ),
    };
    if must_exist {
        if let Some(why) = absence(rt, path) {
            return Some(failed(rt, MissingFile { path, why }));
        }
    }
    if flags.without_wal {
        return None;
    }
    match missing_log(rt, path) {
        Ok(None) => None,
        Ok(Some(log)) => Some(failed(
            rt,
            LoneFile {
                path,
                log: log.as_str(),
            },
        )),
        Err(AllocError) => Some(failed(rt, StoreFault::OutOfMemory)),
    }
}

/// Returns why there is no database at a path, or `None` if a file is there, or something that the
/// open refuses.
fn absence(rt: &HostRuntime, path: &str) -> Option<&'static str> {
    match fs::metadata(rt, path) {
        Ok(found) if found.len() == 0 => Some("the file is empty"),
        Ok(_) => None,
        Err(error) if error.kind() == io::ErrorKind::NotFound => Some("there is no such file"),
        Err(_) => None,
    }
}

/// Returns the path of SQLite's log beside a file, if the file is a database of SQLite's and the log is
/// not there. Whoever opens a file as a site makes that log, and leaves it: it is gone if the file was
/// copied or restored without it, and then edits may be gone too, or if `sqlite3` has closed the file,
/// which is then whole. What is no such file is left to the open.
fn missing_log(rt: &HostRuntime, path: &str) -> Result<Option<String>, AllocError> {
    if !begins_as_database(rt, path) {
        return Ok(None);
    }
    // The log is beside the file that a link leads to.
    let real = match fs::canonicalize(rt, path) {
        Ok(real) => real,
        Err(error) => return left_to_the_open(&error),
    };
    let mut log = String::from_str(rt.alloc(), real.as_str())?;
    log.push_str("-wal")?;
    match fs::metadata(rt, log.as_str()) {
        Ok(_) => Ok(None),
        Err(error) if error.kind() == io::ErrorKind::NotFound => Ok(Some(log)),
        Err(error) => left_to_the_open(&error),
    }
}

/// What can't be looked at is refused by the open, unless there was no memory to look at it.
fn left_to_the_open(error: &io::Error) -> Result<Option<String>, AllocError> {
    match error.kind() {
        io::ErrorKind::OutOfMemory => Err(AllocError),
        _ => Ok(None),
    }
}

/// Returns whether a file begins as SQLite's databases do.
fn begins_as_database(rt: &HostRuntime, path: &str) -> bool {
    // To open a pipe would be to wait for its other end.
    match fs::metadata(rt, path) {
        Ok(found) if found.is_file() => {}
        _ => return false,
    }
    let Ok(mut file) = File::open(rt, path) else {
        return false;
    };
    let mut head = [0; 16];
    file.read_exact(&mut head).is_ok() && head == *b"SQLite format 3\0"
}
