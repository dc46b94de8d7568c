//! Pages that are put aside between their turns.
ghost use Rattle.std.specs.Prelude.{◌≡◌, None, IfOk, IfErr};
ghost use Rattle.hook_meaning.specs.Meaning.{Engine};
ghost use Rattle.hook_machine.specs.Outcomes.{engine_over};
ghost use Rattle.hook_machine.specs.Runs.{world_of, IsReady, IsPausedIdle};
ghost use Rattle.template_parts.specs.Left.{hand_in};
ghost use Rattle.template_parts.specs.Pages.{page_pass, IsPage, IsRefusedBy};

use crate::moves::PageRest;
use crate::page::{Page, PageTurn};
use crate::settings::Settings;
use callback_store::{Plugins, Stated};
use content_cache::PieceCache;
use hook_machine::{PausedRun, Run, RunFault};
use plain_data::Shared;
use site_records::Found;
use std::alloc::Global;

/// A page that was begun and has neither ended nor returned a fault. It owns all that it needs but
/// the plugins, which each call borrows: what its path found, what its site said of pages, and what
/// its run has. So nothing that its site does later reaches it.
#[derive(Drop)]
pub struct OpenPage {
    pub(crate) alloc: Global,
    pub(crate) found: Shared<Found>,
    pub(crate) settings: Settings,
    pub(crate) run: PausedRun,
    /// What is left of it, once its first turn has begun.
    pub(crate) ahead: Option<PageRest>,
    // No job is under way but one that the page waits for.
    ghost waits: { hand_in ahead ≡ None → IsPausedIdle run },
}

/// What an open page is after some turns.
#[derive(Drop)]
pub enum Turned {
    /// All the turns were made, and there is more to do.
    Open(OpenPage),
    /// The page is printed: its status, 200 or 404, and its bytes.
    Closed(u16, Vec<u8>),
}

impl OpenPage {
    ghost use Rattle.template_parts.specs.Open.{open_left, status_of, GoesOn, MakesOne};

    /// Opens a page over what was found. The run has loaded its plugins and done nothing else; this
    /// runs nothing.
    pub fn begin<S: Stated>(
        alloc: Global,
        found: Shared<Found>,
        settings: Settings,
        run: Run<'_, S>,
    ) -> Self
        requires { IsReady run }
        ensures left { (engine : Engine) → open_left engine result
            ≡ page_pass engine settings found.posts (world_of run.entry) }
        ensures status { status_of result ≡ found.status }
    {
        OpenPage {
            alloc,
            found,
            settings,
            run: run.pause(),
            ahead: None,
        }
    }

    /// Makes `count` turns, or as many as the page has left. The plugins are those that it was
    /// begun with. A page that is printed or refused is closed, and so is one at which memory runs
    /// out.
    pub fn turns<S: Stated>(
        self,
        plugins: &Plugins<S>,
        count: u32,
        cache: &mut PieceCache,
    ) -> Result<Turned, RunFault>
        ensures turns { GoesOn (engine_over S.says S.number plugins.now) count self result }
        ensures one { count ≡ 1 → MakesOne (engine_over S.says S.number plugins.now) self result }
        ensures cache { cache.new ≡ cache.old }
    {
        let mut page = Page::resume(self, plugins);
        match page.turns(count, cache) {
            Ok(PageTurn::More) => Ok(Turned::Open(page.pause())),
            Ok(PageTurn::Done(status, bytes)) => {
                page.end();
                Ok(Turned::Closed(status, bytes))
            }
            Err(fault) => {
                page.end();
                Err(fault)
            }
        }
    }

    /// Prints the page to its end, from wherever it is, over the plugins that it was begun with.
    /// Returns its status, 200 or 404, and its bytes.
    pub fn finish<S: Stated>(
        self,
        plugins: &Plugins<S>,
        cache: &mut PieceCache,
    ) -> Result<(u16, Vec<u8>), RunFault>
        ensures status { IfOk result (λ page. page.0 ≡ status_of self) }
        ensures bytes { IfOk result (λ page. IsPage
            (open_left (engine_over S.says S.number plugins.now) self) page.1.items) }
        ensures err { IfErr result
            (IsRefusedBy (open_left (engine_over S.says S.number plugins.now) self)) }
        ensures cache { cache.new ≡ cache.old }
    {
        Page::resume(self, plugins).finish(cache)
    }
}
