//! Loads of many plugins, each made as a page of a site makes it.
ghost use Rattle.hook_machine.specs.Runs.{IsReady};

use crate::crowd::{HOOK, active};
use crate::kept::Kept;
use callback_store::Plugins;
use content_cache::PieceCache;
use hook_changes::{Listed, SharedList, Text};
use hook_machine::{KeptLoad, Run, RunFault};
use std::alloc::Global;

/// Makes and ends `times` runs, each with what is kept of the load before, and then one more, in
/// which a filter is passed over. Returns how many callbacks that pass has called.
pub fn called_after(alloc: Global, plugins: &Plugins<Kept>, times: u32) -> Result<u32, RunFault> {
    let active = SharedList::new(active(alloc, plugins)?)?;
    let options = SharedList::new(Vec::new(alloc))?;
    let mut kept = KeptLoad::none();
    for _ in 0..times {
        let (active, options) = (active.share()?, options.share()?);
        Run::loaded(alloc, plugins, active, options, u32::MAX, &mut kept)?.end();
    }
    let run = Run::loaded(alloc, plugins, active, options, u32::MAX, &mut kept)?;
    called(alloc, run)
}

/// Passes over a filter, and returns how many callbacks were called.
fn called(alloc: Global, mut run: Run<'_, Kept>) -> Result<u32, RunFault>
    requires { IsReady run }
{
    let mut cache = PieceCache::new(alloc, 1)?;
    let value = Text::empty(alloc);
    run.apply_filters(HOOK, value, &Listed::empty(alloc), &mut cache)?;
    Ok(u32::MAX - run.pause().calls_left())
}
