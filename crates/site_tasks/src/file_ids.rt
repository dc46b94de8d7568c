//! Whether a site's file is still the one that was opened.
ghost use Rattle.std.specs.Prelude.{◌≡◌, ◌⊎◌, ◌||◌, None, false, IfErr, IfOk, IsTrue, is_err};
ghost use Rattle.std.specs.Io.{ReadsAtMost};
ghost use Rattle.std.specs.Io.KnownBytes.{ReadConsumes};

use byte_io::{EndFault, Source};
use std::alloc::{AllocError, Global};
use std::fs;
use std::os::unix::fs::MetadataExt;

/// A file, by its device and its number there.
#[derive(Clone, Copy, PartialEq, Eq)]
struct FileId {
    device: u64,
    number: u64,
}

/// The files at a path and beside it, as far as there are any.
#[derive(Clone, Copy, PartialEq, Eq)]
struct FileIds {
    file: Option<FileId>,
    log: Option<FileId>,
}

/// The path of a database file, and that of SQLite's log beside it.
#[derive(Drop)]
struct Paths {
    file: String,
    log: String,
}

/// A source over another one that fails once a database file, or SQLite's log beside it, is no
/// longer the one that was there at the first read: edits committed from then on would be in a file
/// that no start finds. What such a read has read is lost, so that no line of it is carried out.
/// Without a file it fails only as the other one does.
///
/// It does not tell its bytes.
#[derive(Drop)]
pub struct WhileThere<R> {
    rt: HostRuntime,
    paths: Option<Paths>,
    opened: Option<FileIds>,
    inner: R,
    has_failed: bool,
    is_gone: bool,
}

impl<R: Source + Drop> WhileThere<R> {
    /// Makes a source over a source, for the path of a file, if there is one. Nothing is read yet, and
    /// no read has failed.
    pub fn new(rt: &HostRuntime, path: Option<&str>, inner: R) -> Result<Self, AllocError>
        ensures sound { IfOk result (λ it. ⟦<WhileThere<R> as Source>⟧.has_failed it ≡ false) }
    {
        let paths = match path {
            Some(path) => Some(paths_of(rt.alloc(), path)?),
            None => None,
        };
        Ok(WhileThere {
            rt: *rt,
            paths,
            opened: None,
            inner,
            has_failed: false,
            is_gone: false,
        })
    }

    /// Returns whether a read has failed because one of the files was removed or replaced.
    pub fn is_gone(&self) -> bool {
        self.is_gone
    }

    /// Finds the files that are there now.
    fn ids(&self) -> FileIds {
        match &self.paths {
            Some(paths) => FileIds {
                file: id_of(&self.rt, paths.file.as_str()),
                log: id_of(&self.rt, paths.log.as_str()),
            },
            None => FileIds {
                file: None,
                log: None,
            },
        }
    }
}

/// Returns the path of a file, and that of its log.
fn paths_of(alloc: Global, path: &str) -> Result<Paths, AllocError> {
    let file = String::from_str(alloc, path)?;
    let mut log = String::from_str(alloc, path)?;
    log.push_str("-wal")?;
    Ok(Paths { file, log })
}

/// Finds the file at a path.
fn id_of(rt: &HostRuntime, path: &str) -> Option<FileId> {
    match fs::metadata(rt, path) {
        Ok(found) => Some(FileId {
            device: found.dev(),
            number: found.ino(),
        }),
        Err(_) => None,
    }
}

impl<R: Source + Drop> Source for WhileThere<R> {
    ghost remaining = { λ _. None };

    ghost has_failed = { λ it. it.has_failed };

    fn read(&mut self, buf: &mut [u8]) -> Result<usize, EndFault>
        ensures bound { ReadsAtMost result buf.new }
        ensures bytes { ReadConsumes None None result buf.new }
        ensures fault { self.new.has_failed ≡ self.old.has_failed || is_err result }

        // It fails only if the source that it is over does, or if one of the files is gone.
        ensures cause { IfErr result (λ _. IsTrue self.new.is_gone
            ⊎ IsTrue (R.has_failed self.new.inner)) }
    {
        let opened = match self.opened {
            Some(opened) => opened,
            None => self.ids(),
        };
        self.opened = Some(opened);
        match self.inner.read(buf) {
            Ok(count) if self.ids() == opened => return Ok(count),
            Ok(_) => self.is_gone = true,
            Err(EndFault) => {}
        }
        self.has_failed = true;
        Err(EndFault)
    }
}
