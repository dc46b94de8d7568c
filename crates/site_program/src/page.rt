//! The pages of a site: those of requests, and those that are open.
ghost use Rattle.std.specs.Prelude.{◌≡◌, ◌≢◌, IfOk, IfErr};
ghost use Rattle.site_replies.specs.Reply.{page, reply_data, refused};
ghost use Rattle.post_tables.specs.Faults.{IsStoreReadFault};
ghost use Rattle.site_edits.specs.Carried.{CarriesOut};
ghost use Rattle.site_program.specs.Requests.{requested, refusal_of};

use crate::settings::settings_for;
use crate::setup::Setup;
use crate::state::SiteState;
use bytes::Bytes;
use callback_store::Stated;
use content_cache::PieceCache;
use hook_machine::{KeptLoad, Run, RunFault};
use page_trace::{PageName, Watch};
use site_edits::StoreFault;
use site_replies::{Refusal, SiteReply};
use site_store::SiteStore;
use template_parts::{OpenPage, Turned};

// The most bytes that a path may have.
const MAX_PATH: usize = 8_192;

impl<'p, S: Stated> Setup<'p, S> {
    ghost use Rattle.std.specs.Prelude.{Some};
    ghost use Rattle.site_commands.specs.Asked.{begin, turns};
    ghost use Rattle.site_program.specs.Site.{engine_of, calls_of, opened_as, seen_by};
    ghost use Rattle.site_program.specs.Step.{got, begun, turned};
    ghost use Rattle.site_program.specs.Carried.{CarriesOn};
    ghost use Rattle.template_parts.specs.Open.{GoesOn};

    /// Replies to a request with the page of a path, over the site as it now is.
    #[tactic(auto, unfolding(crate::specs::Step::got))]
    pub(crate) fn get<V: Watch>(
        &self,
        stored: &mut SiteStore,
        path: &str,
        load: &mut KeptLoad,
        cache: &mut PieceCache,
        watch: &mut V,
    ) -> Result<SiteReply, StoreFault>
        ensures carried { CarriesOut stored.old
            (got (engine_of S.says S.number self.now) (calls_of self.now) stored.old
            path.now) result stored.new }
        ensures cache { cache.new ≡ cache.old }
    {
        if path.len() > MAX_PATH {
            return Ok(SiteReply::Refused(Refusal::TooLarge));
        }
        let page = self.page_at(stored, path, load)?;
        self.finish(page, path, cache, watch)
    }

    /// Opens the page of a path, over the site as it now is, and runs nothing of it.
    #[tactic(auto, unfolding(crate::specs::Step::begun))]
    pub(crate) fn begin<V: Watch>(
        &self,
        state: &mut SiteState,
        path: &str,
        watch: &mut V,
    ) -> Result<SiteReply, StoreFault>
        ensures carried { CarriesOn (Some (begin path.now))
            (seen_by S.says S.number self.now state.old)
            (begun (engine_of S.says S.number self.now) (calls_of self.now)
            (seen_by S.says S.number self.now state.old) path.now)
            result (seen_by S.says S.number self.now state.new) }
        ensures cache { state.new.cache ≡ state.old.cache }
    {
        if path.len() > MAX_PATH {
            return Ok(SiteReply::Refused(Refusal::TooLarge));
        }
        let Some(place) = state.pages.free_place() else {
            return Ok(SiteReply::Refused(Refusal::TooManyPages));
        };
        let page = self.page_at(&mut state.stored, path, &mut state.load)?;
        state.pages.put(place, page);
        watch.opened(place as u32 + 1, path);
        Ok(SiteReply::OkId(place as u32 + 1))
    }

    /// Gives the page of a number up to `count` turns. A page that is printed or refused is closed,
    /// and so is one at which memory runs out.
    #[tactic(auto, unfolding(crate::specs::Step::turned))]
    pub(crate) fn turns<V: Watch>(
        &self,
        state: &mut SiteState,
        number: u32,
        count: u32,
        watch: &mut V,
    ) -> Result<SiteReply, StoreFault>
        ensures carried { CarriesOn (Some (turns number count))
            (seen_by S.says S.number self.now state.old)
            (turned (seen_by S.says S.number self.now state.old) number count)
            result (seen_by S.says S.number self.now state.new) }
        ensures cache { state.new.cache ≡ state.old.cache }
    {
        let place = number.saturating_sub(1) as usize;
        let Some(page) = state.pages.take(place) else {
            return Ok(SiteReply::Refused(Refusal::NoSuchPage));
        };
        match self.give_turns(page, number, count, &mut state.cache, watch) {
            Ok(Turned::Open(page)) => {
                state.pages.put(place, page);
                Ok(SiteReply::Ok)
            }
            Ok(Turned::Closed(status, body)) => printed(status, body),
            Err(fault) => refused_by(fault),
        }
    }

    /// Opens the page of a path that is not too long.
    fn page_at(
        &self,
        stored: &mut SiteStore,
        path: &str,
        load: &mut KeptLoad,
    ) -> Result<OpenPage, StoreFault>
        ensures ok { IfOk result (λ page. opened_as (engine_of S.says S.number self.now) page
            ≡ requested
            (engine_of S.says S.number self.now) (calls_of self.now) stored.old path.now) }
        ensures same { stored.new ≡ stored.old }
        ensures stopped { IfErr result (IsStoreReadFault stored.old.step_limit) }
    {
        let options = stored.options()?;
        let found = stored.found(self.alloc, path, options.as_slice())?;
        let active = stored.active()?;
        let mut templates = stored.take_templates(self.alloc)?;
        let kind = found.get().kind;
        let settings = settings_for(self.alloc, kind, options.as_slice(), &mut templates);
        stored.keep_templates(templates);
        let settings = settings?;
        let run = Run::loaded(self.alloc, self.plugins, active, options, self.calls, load)?;
        Ok(OpenPage::begin(self.alloc, found, settings, run))
    }

    /// Prints a page to its end without stopping, and replies with it.
    pub(crate) fn finish_at_once(
        &self,
        page: OpenPage,
        cache: &mut PieceCache,
    ) -> Result<SiteReply, StoreFault>
        ensures ok { IfOk result (λ reply. reply_data reply
            ≡ (opened_as (engine_of S.says S.number self.now) page).answer) }
        ensures memory { IfErr result (λ fault. fault ≡ StoreFault.OutOfMemory) }
        ensures cache { cache.new ≡ cache.old }
    {
        match page.finish(self.plugins, cache) {
            Ok((status, body)) => printed(status, body),
            Err(fault) => refused_by(fault),
        }
    }

    /// Makes up to `count` turns of the page of a number. If it is watched, they are made one by
    /// one.
    fn give_turns<V: Watch>(
        &self,
        page: OpenPage,
        number: u32,
        count: u32,
        cache: &mut PieceCache,
        watch: &mut V,
    ) -> Result<Turned, RunFault>
        ensures turns { GoesOn (engine_of S.says S.number self.now) count page result }
        ensures cache { cache.new ≡ cache.old }
    {
        if watch.is_on() {
            return self.turns_watched(page, PageName::Open(number), count, cache, watch);
        }
        page.turns(self.plugins, count, cache)
    }
}

/// Replies with a page that was printed, whose bytes whoever keeps the page then shares.
pub(crate) fn printed(status: u16, mut body: Vec<u8>) -> Result<SiteReply, StoreFault>
    ensures ok { IfOk result (λ reply. reply_data reply ≡ page status body.items) }
    ensures memory { IfErr result (λ fault. fault ≡ StoreFault.OutOfMemory) }
{
    // A page that is kept has no room to grow.
    body.shrink_to_fit();
    match Bytes::from_vec(body) {
        Ok(body) => Ok(SiteReply::Page { status, body }),
        Err(_) => Err(StoreFault::OutOfMemory),
    }
}

/// Returns the refusal of a page that ends by a fault.
pub(crate) fn refusal_of(fault: RunFault) -> Refusal
    ensures { refused result ≡ refusal_of fault }
{
    match fault {
        RunFault::TooManyCalls => Refusal::TooManyCalls,
        RunFault::TooDeep => Refusal::TooDeep,
        RunFault::OutOfMemory => Refusal::OutOfMemory,
    }
}

/// Replies with the refusal of a page, unless memory ran out.
pub(crate) fn refused_by(fault: RunFault) -> Result<SiteReply, StoreFault>
    ensures ok { IfOk result (λ reply. (reply_data reply ≡ refusal_of fault)
        × (fault ≢ RunFault.OutOfMemory)) }
    ensures memory { IfErr result (λ why. why ≡ StoreFault.OutOfMemory) }
{
    match refusal_of(fault) {
        Refusal::OutOfMemory => Err(StoreFault::OutOfMemory),
        refusal => Ok(SiteReply::Refused(refusal)),
    }
}
