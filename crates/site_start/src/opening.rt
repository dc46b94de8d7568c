//! Making a site anew by the lines of its log.
ghost use Rattle.std.specs.Prelude.{◌≡◌, ◌≢◌, ◌∷◌, ◌++◌, [], IfErr, OnOk, OnErr};
ghost use Rattle.sqlite.specs.Held.{state};
ghost use Rattle.sqlite.specs.State.{HasCleanDisk, Survives};
ghost use Rattle.command_log.specs.Faults.{IsCaused, Unstorable};
ghost use Rattle.command_log.specs.Lines.{IsOpen, IsAppended, KeepsLines, lines_of, rows_of};
ghost use Rattle.command_log.specs.declared.fault.LogFault.{LogFault};
ghost use Rattle.site_serving.specs.Served.{state_after};
ghost use Rattle.site_start.specs.Started.{HasEdits, IsOfAnother, IsStartFault, IsTakenOver, Untaken};
ghost use Rattle.site_start.specs.declared.fault.StartFault.TheVariants.{Log, OtherProgram};

use crate::fault::StartFault;
use crate::replay::{introduce, replay};
use command_log::{CommandLog, LogFault, LogPlace};
use site_serving::Commands;
use sqlite_trees::store::Alter;
use std::alloc::Global;

/// Carries out the lines of a log in a site, with no limit on their number. The first has to be the
/// identity, and each later one an edit that is done; a log without a line gets the identity.
///
/// On `Err` some of the lines were carried out, so the site is of no further use.
pub fn start<C: Commands, S: Alter>(
    alloc: Global,
    site: &mut C,
    log: &mut CommandLog<S>,
    identity: &str,
) -> Result<(), StartFault>
    // The site is what the lines of the log make of it.
    ensures replayed { HasCleanDisk (state S.Store log.new)
        → OnOk result (C.state site.new
        ≡ state_after (C.steps (C.fixed site.old))
        (C.state site.old)
        (lines_of S.Store log.new)) }
    ensures lines { HasCleanDisk (state S.Store log.new) → OnOk result
        (IsTakenOver identity.now (lines_of S.Store log.old) (lines_of S.Store log.new)) }
    ensures edits { HasCleanDisk (state S.Store log.new) → OnOk result
        (HasEdits C.edits identity.now (lines_of S.Store log.new)) }
    ensures opened { HasCleanDisk (state S.Store log.new) → OnOk result (IsOpen S.Store log.new) }

    // It is another program's log only if its first line is another one.
    ensures other { HasCleanDisk (state S.Store log.new)
        → IfErr result (λ fault. fault ≡ OtherProgram
        → IsOfAnother identity.now (lines_of S.Store log.old)) }

    // Each fault has its cause: what the log met, another first line, or the first line by number
    // that isn't done.
    ensures cause { HasCleanDisk (state S.Store log.new) → IsOpen S.Store log.old
        → IfErr result (IsStartFault (C.steps (C.fixed site.old)) (C.replies (C.fixed site.old))
        C.keeps (IsCaused (state S.Store log.old) (state S.Store log.new)
        (Untaken identity.now (lines_of S.Store log.old))) (C.state site.old) identity.now
        (lines_of S.Store log.old)) }

    // After a fault the log has the lines that it had.
    ensures err { IsOpen S.Store log.new
        → OnErr result (lines_of S.Store log.new ≡ lines_of S.Store log.old) }

    // A crash leaves what it could leave before, or a log that had no line has the identity alone.
    ensures survives { Survives (state S.Store log.old) (state S.Store log.new)
        (λ db. (lines_of S.Store log.old ≡ []) × KeepsLines (identity.now ∷ []) db) }
    ensures fixed { C.fixed site.new ≡ C.fixed site.old }
{
    let first = log.read_batch(LogPlace::start(), 1)?;
    match first.lines.as_slice() {
        [] => {
            introduce(site, identity, identity)?;
            append_first(alloc, log, identity)
        }
        [line, ..] => {
            introduce(site, line.as_str(), identity)?;
            replay(site, log, first.next)
        }
    }
}

/// Appends the first line to a log.
fn append_first<S: Alter>(
    alloc: Global,
    log: &mut CommandLog<S>,
    line: &str,
) -> Result<(), StartFault>
    requires { HasCleanDisk (state S.Store log.old) → IsOpen S.Store log.old }
    ensures ok { HasCleanDisk (state S.Store log.new) → OnOk result
        (lines_of S.Store log.new ≡ lines_of S.Store log.old ++ line.now ∷ []) }
    ensures err { IsOpen S.Store log.new
        → OnErr result (lines_of S.Store log.new ≡ lines_of S.Store log.old) }
    ensures opened { HasCleanDisk (state S.Store log.new) → OnOk result (IsOpen S.Store log.new) }
    ensures fault { IfErr result (λ fault. fault ≢ OtherProgram) }
    ensures cause { HasCleanDisk (state S.Store log.new) → IsOpen S.Store log.old
        → IfErr result (λ fault. (met : LogFault) × (fault ≡ Log met)
        × IsCaused (state S.Store log.old) (state S.Store log.new)
        (Unstorable (rows_of S.Store log.old) (line.now ∷ [])) met) }
    ensures survives { Survives (state S.Store log.old) (state S.Store log.new)
        (IsAppended S.Store log.old (line.now ∷ [])) }
{
    let mut first = Vec::new(alloc);
    if first.push(String::from_str(alloc, line)?).is_err() {
        return Err(StartFault::Log(LogFault::OutOfMemory));
    }
    log.append(&first)?;
    Ok(())
}
