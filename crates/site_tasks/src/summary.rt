//! How many edits a log has, and their digest.
ghost use Rattle.std.specs.Prelude.{◌≡◌, ◌-◌, length, IfOk, OnOk};
ghost use Rattle.sqlite.specs.Held.{state};
ghost use Rattle.sqlite.specs.State.{HasCleanDisk, Survives};
ghost use Rattle.command_log.specs.Lines.{IsOpen, lines_of};
ghost use Rattle.command_log.specs.Digests.{digest_of};

use command_log::{CommandLog, LineDigest, LogFault, LogPlace};
use sqlite_trees::store::Alter;
use std::fmt;

// How many lines are read at a time.
const BATCH: u32 = 1_000;

/// How many edits a log has, and the digest of its history.
#[derive(Clone, Copy, Drop)]
pub struct Summary {
    /// The lines but the first, which names the program.
    pub edits: usize,
    /// The digest of all lines.
    pub digest: LineDigest,
}

impl fmt::Display for Summary {
    fn fmt<W: fmt::Write>(&self, f: &mut fmt::Formatter<W>) -> fmt::Result {
        write!(f, "{} edits, digest {}", self.edits, self.digest)
    }
}

/// Counts the edits of a log, whose lines it reads once, and returns them with the digest.
pub fn summary_of<S: Alter>(log: &mut CommandLog<S>) -> Result<Summary, LogFault>
    ensures edits { HasCleanDisk (state S.Store log.new)
        → IfOk result (λ s. s.edits ≡ length (lines_of S.Store log.old) - 1) }
    ensures digest { HasCleanDisk (state S.Store log.new)
        → IfOk result (λ s. s.digest ≡ digest_of (lines_of S.Store log.old)) }

    // A crash leaves what it could leave before.
    ensures survives { Survives (state S.Store log.old) (state S.Store log.new) (λ _. ⊥) }
{
    let lines = count_lines(log)?;
    Ok(Summary {
        edits: lines.saturating_sub(1),
        digest: log.digest(),
    })
}

/// Counts the lines of a log.
fn count_lines<S: Alter>(log: &mut CommandLog<S>) -> Result<usize, LogFault>
    ensures count { HasCleanDisk (state S.Store log.new)
        → IfOk result (λ count. count ≡ length (lines_of S.Store log.old)) }
    ensures opened { HasCleanDisk (state S.Store log.new) → OnOk result (IsOpen S.Store log.new) }
    ensures same { HasCleanDisk (state S.Store log.new)
        → OnOk result ((state S.Store log.new).committed ≡ (state S.Store log.old).committed) }
    ensures survives { Survives (state S.Store log.old) (state S.Store log.new) (λ _. ⊥) }
{
    let mut place = LogPlace::start();
    let mut count: usize = 0;
    // There are no more lines than there are numbers for them.
    'batches: for _ in 0..u64::MAX {
        let batch = log.read_batch(place, BATCH)?;
        if batch.lines.is_empty() {
            return Ok(count);
        }
        let Some(more) = count.checked_add(batch.lines.len()) else {
            return Err(LogFault::Damaged);
        };
        count = more;
        place = batch.next;
    }
    Err(LogFault::Damaged)
}
