//! Carrying out the lines of a log once more.
ghost use Rattle.std.specs.Prelude.{◌≡◌, ◌≢◌, ◌⊎◌, ◌+◌, ℕ, length, map, true};
ghost use Rattle.std.specs.Prelude.{IfErr, IfOk, OnOk};
ghost use Rattle.std.specs.String.{string_bytes};
ghost use Rattle.sqlite.specs.Held.{state};
ghost use Rattle.sqlite.specs.State.{HasCleanDisk, Survives};
ghost use Rattle.command_log.specs.Faults.{IsCaused};
ghost use Rattle.command_log.specs.Lines.{IsOpen, lines_left};
ghost use Rattle.site_replies.specs.Reply.{refused};
ghost use Rattle.site_replies.specs.declared.reply.Refusal.TheVariants.{BadCommand};
ghost use Rattle.site_serving.specs.Served.{state_after};
ghost use Rattle.site_start.specs.Started.{AreDone, AreEdits, IsDone, IsNumber, IsReplayFault};
ghost use Rattle.site_start.specs.Started.{StopsAmong, StopsAt, Unread};
ghost use Rattle.site_start.specs.declared.fault.StartFault.TheVariants.{OtherProgram};

use crate::fault::StartFault;
use command_log::{CommandLog, LogFault, LogPlace};
use page_trace::Unwatched;
use site_replies::{Refusal, SiteReply};
use site_serving::Commands;
use sqlite_trees::store::Alter;

// How many lines are read at a time.
const BATCH: u32 = 1_000;

/// Carries out the first line of a log, which has to be the identity. No site takes it for a
/// command.
pub(crate) fn introduce<C: Commands>(
    site: &mut C,
    line: &str,
    identity: &str,
) -> Result<(), StartFault>
    ensures done { OnOk result (C.state site.new
        ≡ (C.steps (C.fixed site.old) (C.state site.old) line.now).0) }
    ensures same { OnOk result (line.now ≡ identity.now) }
    ensures other { IfErr result (λ fault. fault ≡ OtherProgram → line.now ≢ identity.now) }

    // A line that is the identity stops by any other reply than that it is no command.
    ensures cause { IfErr result (λ fault. ((fault ≡ OtherProgram) × (line.now ≢ identity.now))
        ⊎ ((line.now ≡ identity.now) × StopsAt (C.steps (C.fixed site.old))
        (C.replies (C.fixed site.old)) C.keeps (C.state site.old) 1 line.now
        (λ reply. reply ≡ refused BadCommand) fault)) }
    ensures fixed { C.fixed site.new ≡ C.fixed site.old }
{
    if line != identity {
        return Err(StartFault::OtherProgram);
    }
    match site.carry_out(line.as_bytes(), &mut Unwatched).reply {
        SiteReply::Refused(refusal) => match refusal {
            Refusal::BadCommand => Ok(()),
            _ => Err(StartFault::refused(1, refusal)),
        },
        _ => Err(StartFault::NotAnEdit { line: 1 }),
    }
}

/// Carries out one more line of a log, which has to be an edit that is done.
fn redo<C: Commands>(site: &mut C, number: u64, line: &str) -> Result<(), StartFault>
    ensures done { OnOk result (C.state site.new
        ≡ (C.steps (C.fixed site.old) (C.state site.old) line.now).0) }
    ensures edit { OnOk result (C.edits line.now ≡ true) }
    ensures kept { OnOk result (IsDone C.keeps line.now
        (C.steps (C.fixed site.old) (C.state site.old) line.now).1) }
    ensures fault { IfErr result (λ fault. fault ≢ OtherProgram) }
    ensures cause { (n : ℕ) → IsNumber n number → IfErr result
        (StopsAt (C.steps (C.fixed site.old)) (C.replies (C.fixed site.old)) C.keeps
        (C.state site.old) n line.now (IsDone C.keeps line.now)) }
    ensures fixed { C.fixed site.new ≡ C.fixed site.old }
{
    let replied = site.carry_out(line.as_bytes(), &mut Unwatched);
    match replied.reply {
        SiteReply::Ok | SiteReply::OkId(_) if replied.is_kept => Ok(()),
        SiteReply::Refused(refusal) => Err(StartFault::refused(number, refusal)),
        _ => Err(StartFault::NotAnEdit { line: number }),
    }
}

/// Carries out lines that follow `count` others, and counts them.
pub(crate) fn redo_all<C: Commands>(
    site: &mut C,
    count: &mut u64,
    lines: &[String],
) -> Result<(), StartFault>
    ensures done { OnOk result (C.state site.new
        ≡ state_after (C.steps (C.fixed site.old))
        (C.state site.old)
        (map string_bytes lines.now)) }
    ensures edits { OnOk result (AreEdits C.edits (map string_bytes lines.now)) }
    ensures kept { OnOk result (AreDone (C.steps (C.fixed site.old)) C.keeps (C.state site.old)
        (map string_bytes lines.now)) }
    ensures counted { (n : ℕ) → IsNumber n count.old
        → OnOk result (IsNumber (n + length lines.now) count.new) }
    ensures fault { IfErr result (λ fault. fault ≢ OtherProgram) }
    ensures cause { (n : ℕ) → IsNumber n count.old → IfErr result
        (StopsAmong (C.steps (C.fixed site.old)) (C.replies (C.fixed site.old)) C.keeps
        (C.state site.old) n (map string_bytes lines.now)) }
    ensures fixed { C.fixed site.new ≡ C.fixed site.old }
{
    for line in lines {
        *count = count.saturating_add(1);
        redo(site, *count, line.as_str())?;
    }
    Ok(())
}

/// Carries out the lines of a log after its first, which the place follows.
pub(crate) fn replay<C: Commands, S: Alter>(
    site: &mut C,
    log: &mut CommandLog<S>,
    first: LogPlace,
) -> Result<(), StartFault>
    ensures done { HasCleanDisk (state S.Store log.new)
        → OnOk result (C.state site.new
        ≡ state_after (C.steps (C.fixed site.old))
        (C.state site.old)
        (lines_left S.Store log.old first)) }
    ensures edits { HasCleanDisk (state S.Store log.new) → OnOk result
        (AreEdits C.edits (lines_left S.Store log.old first)) }
    ensures fault { IfErr result (λ fault. fault ≢ OtherProgram) }
    ensures cause { HasCleanDisk (state S.Store log.new) → IsOpen S.Store log.old
        → IfErr result (IsReplayFault (C.steps (C.fixed site.old)) (C.replies (C.fixed site.old))
        C.keeps (IsCaused (state S.Store log.old) (state S.Store log.new)
        (Unread 1 (lines_left S.Store log.old first))) (C.state site.old)
        (lines_left S.Store log.old first)) }
    ensures fixed { C.fixed site.new ≡ C.fixed site.old }
    ensures opened { HasCleanDisk (state S.Store log.new) → OnOk result (IsOpen S.Store log.new) }
    ensures same { IsOpen S.Store log.new
        → (state S.Store log.new).committed ≡ (state S.Store log.old).committed }
    ensures survives { Survives (state S.Store log.old) (state S.Store log.new) (λ _. ⊥) }
{
    let mut place = first;
    let mut count = 1;
    // There are no more lines than there are numbers for them.
    'batches: for _ in 0..u64::MAX {
        let batch = log.read_batch(place, BATCH)?;
        if batch.lines.is_empty() {
            return Ok(());
        }
        redo_all(site, &mut count, &batch.lines)?;
        place = batch.next;
    }
    Err(StartFault::Log(LogFault::NumbersUsedUp))
}
