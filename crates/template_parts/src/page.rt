//! The page of a request.
ghost use Rattle.std.specs.Prelude.{◌≡◌, None, Err, IfOk, IfErr, IfSome, OnOk};
ghost use Rattle.plain_data.specs.Texts.{Text};
ghost use Rattle.hook_meaning.specs.World.{World};
ghost use Rattle.hook_meaning.specs.Trace.{Trace};
ghost use Rattle.hook_meaning.specs.Meaning.{Engine};
ghost use Rattle.hook_machine.specs.Runs.{world_of, last_event, fault_of, engine_of, CanBegin, IsIdle};
ghost use Rattle.template_parts.specs.Pages.{page_pass, IsPage, IsRefusedBy};
ghost use Rattle.template_parts.specs.Left.{ahead_of, left_at, hand_in};

use crate::moves::{PageRest, Stop, next_stop};
use crate::open_page::OpenPage;
use crate::settings::Settings;
use crate::steps::steps_of_page;
use callback_store::{Plugins, Stated};
use content_cache::PieceCache;
use hook_machine::{Pace, Run, RunFault};
use plain_data::Shared;
use site_records::{Found, Post};
use std::alloc::{AllocError, Global};

/// A page that is to be printed: what its path found, what its site says of pages, and the run of
/// its request.
///
/// It borrows the plugins, as the run does. Once a call has returned a fault, each later call
/// returns that same fault.
#[derive(Drop)]
pub struct Page<'p, S> {
    alloc: Global,
    found: Shared<Found>,
    settings: Settings,
    run: Run<'p, S>,
    /// What is left of it, once its first turn has begun.
    ahead: Option<PageRest>,
    fault: Option<RunFault>,
}

/// The result of a turn of a page.
#[derive(Drop)]
pub enum PageTurn {
    /// A callback was invoked, and its echo and changes were carried out. There is more to do.
    More,
    /// The page is printed: its status, 200 or 404, and its bytes.
    Done(u16, Vec<u8>),
}

/// Returns what is left of a page, and works it out in the first turn.
fn ahead_from(
    alloc: Global,
    settings: &Settings,
    posts: &[Post],
    ahead: Option<PageRest>,
) -> Result<PageRest, AllocError>
    ensures left { IfOk result (λ now. (engine : Engine) (world : World) (left : Trace Text)
        → left_at engine
        settings.now posts.now world left ahead
        ≡ ahead_of engine settings.now posts.now world left now) }
    ensures hand { IfOk result (λ now. now.hand ≡ hand_in ahead) }
{
    match ahead {
        Some(ahead) => Ok(ahead),
        None => Ok(PageRest {
            hand: None,
            steps: steps_of_page(alloc, settings, posts)?,
        }),
    }
}

impl<'p, S: Stated> Page<'p, S> {
    ghost use Rattle.template_parts.specs.Page.{found_in, settings_in, run_in, refusal_of};
    ghost use Rattle.template_parts.specs.Page.{page_left};
    ghost use Rattle.template_parts.specs.Page.{CanGoOn, IsSamePage, HasStatus, Goes, Turns};
    ghost use Rattle.template_parts.specs.Page.{TurnsBy, TurnsOnce};
    ghost use Rattle.template_parts.specs.Open.{open_left, event_of, status_of};
    ghost use Rattle.hook_machine.specs.Outcomes.{engine_over};

    /// Makes a page over what was found. The run has loaded its plugins and done nothing else; this
    /// runs nothing.
    pub fn begin(alloc: Global, found: Shared<Found>, settings: Settings, run: Run<'p, S>) -> Self
        requires idle { CanBegin run }
        ensures found { found_in result ≡ found }
        ensures left { page_left (engine_of S.says S.number run.entry) result ≡ page_pass
            (engine_of S.says S.number run.entry) settings found.posts (world_of run.entry) }
        ensures engine { engine_of S.says S.number (run_in result)
            ≡ engine_of S.says S.number run.entry }
        ensures refusal { refusal_of result ≡ fault_of run.entry }
        ensures ready { CanGoOn result }
    {
        let fault = run.fault();
        Page {
            alloc,
            found,
            settings,
            run,
            ahead: None,
            fault,
        }
    }

    /// Goes on with the page until one callback was invoked and its echo and changes were carried
    /// out, or until the page is printed. The first turn also fires the actions of a request. Once
    /// the page is printed, it is not specified what a further turn returns.
    pub fn turn(&mut self, cache: &mut PieceCache) -> Result<PageTurn, RunFault>
        requires { CanGoOn self.old }
        ensures turns { refusal_of self.old ≡ None →
            Turns (page_left (engine_of S.says S.number (run_in self.old)) self.old) result
            (last_event (run_in self.new))
            (page_left (engine_of S.says S.number (run_in self.old)) self.new) }
        ensures status { IfOk result (HasStatus (found_in self.old).status) }
        ensures ready { CanGoOn self.new }
        ensures same { IsSamePage self.new self.old }
        ensures sound { OnOk result (refusal_of self.new ≡ None) }
        ensures fault { IfErr result (λ fault. refusal_of self.new ≡ Some fault) }
        ensures again { IfSome (refusal_of self.old) (λ fault. result ≡ Err fault) }
        ensures engine { engine_of S.says S.number (run_in self.new)
            ≡ engine_of S.says S.number (run_in self.old) }
        ensures cache { cache.new ≡ cache.old }
    {
        self.advance(Pace::ByTurns, cache)
    }

    /// Goes on with the page to its end, or to an invocation after which there is more to do.
    fn advance(&mut self, pace: Pace, cache: &mut PieceCache) -> Result<PageTurn, RunFault>
        requires { CanGoOn self.old }
        ensures goes { refusal_of self.old ≡ None →
            Goes pace (page_left (engine_of S.says S.number (run_in self.old)) self.old) result
            (last_event (run_in self.new))
            (page_left (engine_of S.says S.number (run_in self.old)) self.new) }
        ensures status { IfOk result (HasStatus (found_in self.old).status) }
        ensures ready { CanGoOn self.new }
        ensures same { IsSamePage self.new self.old }
        ensures sound { OnOk result (refusal_of self.new ≡ None) }
        ensures fault { IfErr result (λ fault. refusal_of self.new ≡ Some fault) }
        ensures again { IfSome (refusal_of self.old) (λ fault. result ≡ Err fault) }
        ensures engine { engine_of S.says S.number (run_in self.new)
            ≡ engine_of S.says S.number (run_in self.old) }
        ensures cache { cache.new ≡ cache.old }
    {
        if let Some(fault) = self.fault {
            return Err(fault);
        }
        match self.go_on(pace, cache) {
            Ok(turned) => Ok(turned),
            Err(fault) => {
                self.fault = Some(fault);
                Err(fault)
            }
        }
    }

    /// Makes `count` turns, or as many as it takes until the page is printed.
    pub(crate) fn turns(&mut self, count: u32, cache: &mut PieceCache) -> Result<PageTurn, RunFault>
        requires ready { CanGoOn self.old }
        requires sound { refusal_of self.old ≡ None }
        ensures turns { TurnsBy count
            (page_left (engine_of S.says S.number (run_in self.old)) self.old) result
            (page_left (engine_of S.says S.number (run_in self.old)) self.new) }
        ensures one { count ≡ 1 → TurnsOnce
            (page_left (engine_of S.says S.number (run_in self.old)) self.old) result
            (last_event (run_in self.new))
            (page_left (engine_of S.says S.number (run_in self.old)) self.new) }
        ensures status { IfOk result (HasStatus (found_in self.old).status) }
        ensures ready { CanGoOn self.new }
        ensures same { IsSamePage self.new self.old }
        ensures sound { OnOk result (refusal_of self.new ≡ None) }
        ensures cache { cache.new ≡ cache.old }
    {
        let mut made = 0;
        'turns: while made < count {
            if let PageTurn::Done(status, bytes) = self.turn(cache)? {
                return Ok(PageTurn::Done(status, bytes));
            }
            made += 1;
        }
        Ok(PageTurn::More)
    }

    /// Puts the page aside, with all that it owns. Does not allocate.
    pub fn pause(self) -> OpenPage
        requires ready { CanGoOn self }
        requires sound { refusal_of self ≡ None }
        ensures left { (engine : Engine) → open_left engine result ≡ page_left engine self.entry }
        ensures event { event_of result ≡ last_event (run_in self.entry) }
        ensures status { status_of result ≡ (found_in self.entry).status }
    {
        let Page {
            alloc,
            found,
            settings,
            run,
            ahead,
            fault: _,
        } = self;
        OpenPage {
            alloc,
            found,
            settings,
            run: run.pause(),
            ahead,
        }
    }

    /// Goes on with a page, over the plugins that it was begun with. Does not allocate.
    pub fn resume(page: OpenPage, plugins: &'p Plugins<S>) -> Self
        ensures left { (engine : Engine) → page_left engine result ≡ open_left engine page }
        ensures status { (found_in result).status ≡ status_of page }
        ensures engine { engine_of S.says S.number (run_in result)
            ≡ engine_over S.says S.number plugins.entry.now }
        ensures ready { CanGoOn result }
        ensures sound { refusal_of result ≡ None }
    {
        let OpenPage {
            alloc,
            found,
            settings,
            run,
            ahead,
        } = page;
        Page {
            alloc,
            found,
            settings,
            run: run.resume(plugins),
            ahead,
            fault: None,
        }
    }

    /// Prints the page to its end, from wherever it is, and returns its status, 200 or 404, and its
    /// bytes. A page that is refused shows nothing.
    pub fn finish(self, cache: &mut PieceCache) -> Result<(u16, Vec<u8>), RunFault>
        requires { CanGoOn self }
        ensures status { IfOk result (λ page. page.0 ≡ (found_in self.entry).status) }
        ensures bytes { refusal_of self.entry ≡ None → IfOk result (λ page. IsPage (page_left
            (engine_of S.says S.number (run_in self.entry)) self.entry) page.1.items) }
        ensures err { refusal_of self.entry ≡ None → IfErr result (IsRefusedBy (page_left
            (engine_of S.says S.number (run_in self.entry)) self.entry)) }
        ensures again { IfSome (refusal_of self.entry) (λ fault. result ≡ Err fault) }
        ensures cache { cache.new ≡ cache.old }
    {
        let mut page = self;
        let printed = page.print(cache);
        page.end();
        printed
    }

    /// Goes on with a page that has returned no fault.
    fn go_on(&mut self, pace: Pace, cache: &mut PieceCache) -> Result<PageTurn, RunFault>
        requires ready { CanGoOn self.old }
        requires sound { refusal_of self.old ≡ None }
        ensures goes { Goes pace (page_left (engine_of S.says S.number (run_in self.old)) self.old)
            result
            (last_event (run_in self.new))
            (page_left (engine_of S.says S.number (run_in self.old)) self.new) }
        ensures status { IfOk result (HasStatus (found_in self.old).status) }
        ensures ready { OnOk result (CanGoOn self.new) }
        ensures same { IsSamePage self.new self.old }
        ensures sound { refusal_of self.new ≡ None }
        ensures engine { engine_of S.says S.number (run_in self.new)
            ≡ engine_of S.says S.number (run_in self.old) }
        ensures cache { cache.new ≡ cache.old }
    {
        let posts = self.found.get().posts.as_slice();
        let taken = self.ahead.take();
        let mut ahead = ahead_from(self.alloc, &self.settings, posts, taken)?;
        let stop = next_stop(
            self.alloc,
            &mut self.run,
            &self.settings,
            posts,
            &mut ahead,
            cache,
            pace,
        )?;
        self.ahead = Some(ahead);
        match stop {
            Stop::Turned => Ok(PageTurn::More),
            Stop::Over => {
                let text = self.run.take_output()?;
                let bytes = text.into_string()?.into_bytes();
                Ok(PageTurn::Done(self.found.get().status, bytes))
            }
        }
    }

    /// Prints the page to its end, without stopping where it needn't, and returns the page's status
    /// and bytes.
    fn print(&mut self, cache: &mut PieceCache) -> Result<(u16, Vec<u8>), RunFault>
        requires { CanGoOn self.old }
        ensures status { IfOk result (λ page. page.0 ≡ (found_in self.old).status) }
        ensures bytes { refusal_of self.old ≡ None → IfOk result (λ page. IsPage (page_left
            (engine_of S.says S.number (run_in self.old)) self.old) page.1.items) }
        ensures err { refusal_of self.old ≡ None → IfErr result (IsRefusedBy (page_left
            (engine_of S.says S.number (run_in self.old)) self.old)) }
        ensures again { IfSome (refusal_of self.old) (λ fault. result ≡ Err fault) }
        ensures cache { cache.new ≡ cache.old }
    {
        if let Some(fault) = self.fault {
            return Err(fault);
        }
        'turns: loop {
            let turned = self.advance(Pace::Through, cache)?;
            match turned {
                PageTurn::Done(status, bytes) => return Ok((status, bytes)),
                PageTurn::More => {}
            }
        }
    }

    /// Ends the page. All that a page owns is dropped here, so that what dropping does is proved
    /// once.
    pub(crate) fn end(self) {
        drop(self);
    }
}
