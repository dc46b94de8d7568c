//! The end of a log.
ghost use Rattle.std.specs.Prelude.{◌≡◌, ◌≢◌, ◌+◌, ◌<◌, ◌≤◌, ◌↔◌, IfOk, IsTrue, length, slice_index};
ghost use Rattle.sqlite_wal.specs.Format.{be32, IsSigned, commit_size};
ghost use Rattle.sqlite_wal.specs.PageSize.{bytes_of};
ghost use Rattle.sqlite_wal.specs.Reads.{IsClean, OnlyReads};
ghost use Rattle.sqlite_wal.specs.Recovery.{frame_at, frame, header, Replays};
ghost use Rattle.log_tails.specs.Tails.{
  shut_by,
  commits_in,
  size_after,
  IsWhole,
  IsRead,
  IsTailOf,
  Outgrows,
};

use crate::bytes::{frame_offset, get_be32, is_signed, other_than};
use sqlite_disk::Disk;
use sqlite_wal::{Error, PageSize, probe_frames};
use std::alloc::Global;
use std::io;

/// A header, and the next frame's bytes up to its gate.
const SHORTEST: usize = 41;

/// Where a header has its salt, whose first byte opens a gate.
const SALT: usize = 16;

/// Where a frame has its gate.
const GATE: usize = 8;

/// Where a frame has the size of the database after it, if it ends a commit, or else 0.
const SIZE: usize = 4;

/// The last page number of a database, and so the number of frames at which a log is full.
const MOST_FRAMES: usize = 0xffff_fffe;

/// The end of a log.
#[derive(Clone, Copy, Debug, PartialEq, Eq)]
pub struct Tail {
    /// How many commits an open takes.
    pub commits: usize,
    /// How many bytes of the file they end at.
    pub bytes: usize,
    /// How many bytes follow.
    pub following: usize,
    /// How many bytes the last of them leaves the database with, or 0 if there is none.
    pub database: usize,
    /// Whether what follows is what a crash may leave there.
    pub is_whole: bool,
}

/// Finds the last commit that an open of the database takes, and whether what follows it in the log
/// is what a crash may leave. Nothing is written.
///
/// Damage before the last commit is found by the gate: a commit is written behind a byte that is
/// wrong, and that byte is made right only once all others are on the disk. A gate that is open in
/// front of a frame that is not sound was open in front of a sound one.
pub fn tail_of<D: Disk>(alloc: Global, log: &mut D) -> Result<Tail, Error>
    requires usable { IsTrue (D.Disk.is_usable log.old) }
    ensures tail { IfOk result (λ tail. IsClean D.Disk log.new
        → IsTailOf (D.Disk.seen log.old) tail) }
    ensures same { OnlyReads D.Disk log.old log.new }
{
    let len = log.len()?;
    if len < SHORTEST {
        return Ok(unread(len, true));
    }
    let mut head = [0; 32];
    log.read_at(0, &mut head)?;
    if is_signed(&head) {
        tail_under(alloc, log, &head, len)
    } else {
        Ok(unread(len, head[0] == 0))
    }
}

/// Returns whether a database file is longer than the last commit in its log leaves it. A file is
/// never made shorter, so such a log is older than the file, or another file's.
pub fn outgrows<D: Disk>(db: &mut D, tail: Tail) -> Result<bool, Error>
    requires { IsTrue (D.Disk.is_usable db.old) }
    ensures longer { IfOk result (λ it. IsClean D.Disk db.new
        → (IsTrue it ↔ Outgrows (length (D.Disk.seen db.old)) tail)) }
    ensures same { OnlyReads D.Disk db.old db.new }
{
    let len = db.len()?;
    Ok(tail.commits > 0 && len > tail.database)
}

/// Returns the end of a log of which no frame is read.
fn unread(following: usize, is_whole: bool) -> Tail
    ensures commits { result.commits ≡ 0 }
    ensures bytes { result.bytes ≡ 0 }
    ensures following { result.following ≡ following }
    ensures database { result.database ≡ 0 }
    ensures whole { result.is_whole ≡ is_whole }
{
    Tail {
        commits: 0,
        bytes: 0,
        following,
        database: 0,
        is_whole,
    }
}

/// Finds the end of a log with this header and length.
fn tail_under<D: Disk>(
    alloc: Global,
    log: &mut D,
    head: &[u8; 32],
    len: usize,
) -> Result<Tail, Error>
    requires usable { IsTrue (D.Disk.is_usable log.old) }
    requires len { IsClean D.Disk log.old → len ≡ length (D.Disk.seen log.old) }
    requires head { IsClean D.Disk log.old → head.now ≡ header (D.Disk.seen log.old) }
    requires signed { IsSigned head.now }
    ensures tail { IfOk result (λ tail. IsClean D.Disk log.new → IsRead (D.Disk.seen log.old) tail) }
    ensures same { OnlyReads D.Disk log.old log.new }
{
    let Some(size) = PageSize::new(get_be32(head, 8) as usize) else {
        return Err(Error::Corrupt);
    };
    let frames = frames_of(alloc, log, size)?;
    let commits = commits_of(log, size.bytes(), frames)?;
    let is_whole = ends_whole(log, size.bytes(), frames, len, head[SALT])?;
    let database = size_of(log, size.bytes(), frames)?;
    let bytes = frame_offset(size.bytes(), frames);
    Ok(Tail {
        commits,
        bytes,
        following: len.saturating_sub(bytes),
        database,
        is_whole,
    })
}

/// Returns how many frames an open takes.
fn frames_of<D: Disk>(alloc: Global, log: &mut D, size: PageSize) -> Result<usize, Error>
    requires { IsTrue (D.Disk.is_usable log.old) }
    ensures frames { IfOk result (λ frames. IsClean D.Disk log.new
        → Replays (bytes_of size) (D.Disk.seen log.old) frames) }
    ensures few { IfOk result (λ frames. frames ≤ 0xffff_fffe) }
    ensures same { OnlyReads D.Disk log.old log.new }
{
    let pages = probe_frames(alloc, log, size)?;
    if pages.len() > MOST_FRAMES {
        return Err(Error::Full);
    }
    Ok(pages.len())
}

/// Counts the frames that end a commit, among the first ones.
fn commits_of<D: Disk>(log: &mut D, page_size: usize, frames: usize) -> io::Result<usize>
    requires usable { IsTrue (D.Disk.is_usable log.old) }
    requires size { page_size ≤ 65536 }
    requires few { frames ≤ 0xffff_fffe }
    ensures count { IfOk result (λ count. IsClean D.Disk log.new
        → count ≡ commits_in page_size (D.Disk.seen log.old) frames) }
    ensures same { OnlyReads D.Disk log.old log.new }
{
    let mut count = 0;
    for i in 0..frames {
        if ends_commit(log, page_size, i)? {
            count += 1;
        }
    }
    Ok(count)
}

/// Returns whether a frame ends a commit.
fn ends_commit<D: Disk>(log: &mut D, page_size: usize, i: usize) -> io::Result<bool>
    requires usable { IsTrue (D.Disk.is_usable log.old) }
    requires size { page_size ≤ 65536 }
    requires few { i ≤ 0xffff_fffe }
    ensures ends { IfOk result (λ ends. IsClean D.Disk log.new
        → (IsTrue ends ↔ commit_size (frame page_size (D.Disk.seen log.old) i) ≢ 0)) }
    ensures same { OnlyReads D.Disk log.old log.new }
{
    Ok(pages_of(log, page_size, i)? != 0)
}

/// Returns how many bytes the database has after the first frames, the last of which ends a commit.
fn size_of<D: Disk>(log: &mut D, page_size: usize, frames: usize) -> io::Result<usize>
    requires usable { IsTrue (D.Disk.is_usable log.old) }
    requires size { page_size ≤ 65536 }
    requires few { frames ≤ 0xffff_fffe }
    ensures size { IfOk result (λ size. IsClean D.Disk log.new
        → size ≡ size_after page_size (D.Disk.seen log.old) frames) }
    ensures same { OnlyReads D.Disk log.old log.new }
{
    if frames == 0 {
        return Ok(0);
    }
    Ok(pages_of(log, page_size, frames - 1)? as usize * page_size)
}

/// Returns how many pages the database has after a frame, if that ends a commit, or else 0.
fn pages_of<D: Disk>(log: &mut D, page_size: usize, i: usize) -> io::Result<u32>
    requires usable { IsTrue (D.Disk.is_usable log.old) }
    requires size { page_size ≤ 65536 }
    requires few { i ≤ 0xffff_fffe }
    ensures pages { IfOk result (λ pages. IsClean D.Disk log.new
        → pages ≡ commit_size (frame page_size (D.Disk.seen log.old) i)) }
    ensures same { OnlyReads D.Disk log.old log.new }
{
    let mut field = [0; 4];
    log.read_at(frame_offset(page_size, i) + SIZE, &mut field)?;
    Ok(get_be32(&field, 0))
}

/// Returns whether nothing follows the first frames, or a gate that is shut.
fn ends_whole<D: Disk>(
    log: &mut D,
    page_size: usize,
    frames: usize,
    len: usize,
    key: u8,
) -> io::Result<bool>
    requires usable { IsTrue (D.Disk.is_usable log.old) }
    requires size { page_size ≤ 65536 }
    requires few { frames ≤ 0xffff_fffe }
    requires len { IsClean D.Disk log.old → len ≡ length (D.Disk.seen log.old) }
    requires key { IsClean D.Disk log.old → key ≡ slice_index (D.Disk.seen log.old) 16 }
    ensures whole { IfOk result (λ whole. IsClean D.Disk log.new
        → (IsTrue whole ↔ IsWhole page_size (D.Disk.seen log.old) frames)) }
    ensures same { OnlyReads D.Disk log.old log.new }
{
    let at = frame_offset(page_size, frames);
    if len <= at {
        return Ok(true);
    }
    is_shut(log, len, at + GATE, key)
}

/// Returns whether the file has a gate there, and it is shut.
fn is_shut<D: Disk>(log: &mut D, len: usize, gate: usize, key: u8) -> io::Result<bool>
    requires usable { IsTrue (D.Disk.is_usable log.old) }
    requires len { IsClean D.Disk log.old → len ≡ length (D.Disk.seen log.old) }
    ensures shut { IfOk result (λ shut. IsClean D.Disk log.new
        → (IsTrue shut ↔ (gate < length (D.Disk.seen log.old))
        × (slice_index (D.Disk.seen log.old) gate ≡ shut_by key))) }
    ensures same { OnlyReads D.Disk log.old log.new }
{
    if len <= gate {
        return Ok(false);
    }
    let mut byte = [0];
    log.read_at(gate, &mut byte)?;
    Ok(byte[0] == other_than(key))
}
