//! Putting a short history in the place of a long one.
ghost use Rattle.std.specs.Prelude.{◌≡◌, ◌↔◌, ◌∷◌, List, ℕ, IsTrue, map};
ghost use Rattle.std.specs.Prelude.{OnOk, OnErr, IfOk};
ghost use Rattle.std.specs.String.{string_bytes};
ghost use Rattle.sqlite.specs.Held.{state};
ghost use Rattle.sqlite.specs.State.{HasCleanDisk, Survives};
ghost use Rattle.command_log.specs.Lines.{IsOpen, KeepsLines, lines_of};
ghost use Rattle.site_serving.specs.Served.{state_after};
ghost use Rattle.site_start.specs.Compacted.{IsShort, IsShortIn};

use crate::fault::StartFault;
use crate::opening::start;
use crate::replay::{introduce, redo_all};
use crate::task::LogTask;
use command_log::{CommandLog, LogFault};
use site_replies::Refusal;
use site_serving::Commands;
use sqlite_trees::store::Alter;
use std::alloc::Global;

/// Making a site anew by a log, as [`start`] does, and putting short lines in the place of the log's, as
/// [`compact`] does.
#[derive(Drop)]
pub struct CompactLog<'a, C> {
    pub alloc: Global,
    /// The site, before the lines of the log are carried out.
    pub site: C,
    /// An empty site, on which the short lines are tried.
    pub copy: C,
    pub identity: &'a str,
}

/// What is left after a try to put short lines in the place of a log's.
#[derive(Drop)]
pub struct Compaction<C> {
    pub result: Result<(), StartFault>,
    pub site: C,
    pub copy: C,
}

impl<'a, C: Commands + Drop> LogTask for CompactLog<'a, C> {
    ghost use Rattle.std.specs.Prelude.{◌⊎◌, ⊤};
    ghost use Rattle.std.specs.Result.{MatchResult};
    ghost use Rattle.site_start.specs.Compacted.{IsCompacted, IsShortIn};
    ghost use Rattle.site_start.specs.Started.{IsLeftBy};

    type Left = Compaction<C>;

    ghost is_ready = { λ _. ⊤ };

    // Short lines of the site that the lines of the log have made. After a fault they are those lines, or
    // short ones all the same: the disk may fail once these are written.
    ghost leaves = { λ task left image lines. MatchResult left.result
        (λ _. IsCompacted C.Commands image task.identity.now task.site task.copy left.site left.copy lines)
        (λ _. IsLeftBy image task.identity.now lines
        ⊎ IsShortIn C.Commands task.identity.now left.site lines) };

    fn run<S: Alter>(self, mut log: CommandLog<S>) -> (Compaction<C>, CommandLog<S>) {
        let CompactLog {
            alloc,
            mut site,
            mut copy,
            identity,
        } = self;
        log.law_left_by_a_crash();
        match start(alloc, &mut site, &mut log, identity) {
            Ok(()) => {
                log.law_left_by_a_crash();
                match compact(alloc, &mut site, &mut copy, &mut log, identity) {
                    Ok(()) => {
                        log.law_left_by_a_crash();
                        let result = Ok(());
                        (Compaction { result, site, copy }, log)
                    }
                    Err(fault) => {
                        let result = Err(fault);
                        (Compaction { result, site, copy }, log)
                    }
                }
            }
            Err(fault) => {
                let result = Err(fault);
                (Compaction { result, site, copy }, log)
            }
        }
    }
}

/// Puts the short lines of a site in the place of all lines of its log, after the identity. They are
/// tried first: carried out in `copy`, which has to be an empty site, they leave a site with the
/// same short lines.
///
/// On `Err` the log has the lines that it had.
pub fn compact<C: Commands, S: Alter>(
    alloc: Global,
    site: &mut C,
    copy: &mut C,
    log: &mut CommandLog<S>,
    identity: &str,
) -> Result<(), StartFault>
    // The copy is what the lines of the log now make of it.
    ensures replayed { HasCleanDisk (state S.Store log.new)
        → OnOk result (C.state copy.new
        ≡ state_after (C.steps (C.fixed copy.old))
        (C.state copy.old)
        (lines_of S.Store log.new)) }

    // They are short lines of the site, and of the copy.
    ensures short { HasCleanDisk (state S.Store log.new) → OnOk result
        (IsShort C.Commands identity.now site.old copy.new (lines_of S.Store log.new)) }
    ensures err { IsOpen S.Store log.new
        → OnErr result (lines_of S.Store log.new ≡ lines_of S.Store log.old) }
    ensures opened { HasCleanDisk (state S.Store log.new) → OnOk result (IsOpen S.Store log.new) }

    // A crash leaves what it could leave before, or short lines of the site.
    ensures survives { Survives (state S.Store log.old) (state S.Store log.new)
        (λ db. (lines : List (List ℕ)) × KeepsLines lines db
        × IsShortIn C.Commands identity.now site.old lines) }

    // The site stays as it is.
    ensures same { C.state site.new ≡ C.state site.old }
    ensures fixed { C.fixed site.new ≡ C.fixed site.old }
{
    let lines = short_history(site)?;
    introduce(copy, identity, identity)?;
    let mut count = 1;
    redo_all(copy, &mut count, &lines)?;
    if !are_equal(&short_history(copy)?, &lines) {
        return Err(StartFault::NotRebuilt);
    }
    let lines = with_first(alloc, identity, lines)?;
    log.replace(&lines)?;
    Ok(())
}

/// Returns the short lines of a site.
fn short_history<C: Commands>(site: &mut C) -> Result<Vec<String>, StartFault>
    ensures lines { IfOk result
        (λ lines. C.rebuilds (C.state site.old) (map string_bytes lines.items)) }
    ensures same { C.state site.new ≡ C.state site.old }
    ensures fixed { C.fixed site.new ≡ C.fixed site.old }
{
    match site.short_history() {
        Ok(lines) => Ok(lines),
        Err(Refusal::OutOfMemory) => Err(StartFault::Log(LogFault::OutOfMemory)),
        Err(_) => Err(StartFault::Log(LogFault::Store)),
    }
}

/// Returns whether two lists have the same lines.
fn are_equal(some: &[String], others: &[String]) -> bool
    ensures { IsTrue result ↔ map string_bytes some.now ≡ map string_bytes others.now }
{
    some == others
}

/// Puts a line before the others.
fn with_first(alloc: Global, line: &str, mut lines: Vec<String>) -> Result<Vec<String>, StartFault>
    ensures { IfOk result (λ whole. map string_bytes whole.items ≡ line.now
        ∷ map string_bytes lines.items) }
{
    let line = String::from_str(alloc, line)?;
    match lines.insert(0, line) {
        Ok(()) => Ok(lines),
        Err(_) => Err(StartFault::Log(LogFault::OutOfMemory)),
    }
}
