//! A site, and what it does at one line.
ghost use Rattle.std.specs.Prelude.{◌≡◌, ◌≤◌, IfOk};
ghost use Rattle.site_commands.specs.Asked.{asked_by};
ghost use Rattle.site_replies.specs.Reply.{reply_data};

use crate::edits::{is_done, is_edit, is_look};
use crate::setup::Setup;
use crate::state::SiteState;
use callback_store::{Plugins, Stated};
use content_cache::PieceCache;
use hook_machine::KeptLoad;
use page_trace::{Unwatched, Watch};
use post_tables::Tables;
use site_commands::{Command, CommandReader};
use site_edits::StoreFault;
use site_replies::{Refusal, SiteReply};
use site_serving::LineReply;
use site_store::SiteStore;
use std::alloc::Global;
use template_parts::OpenPages;

/// A site with its plugins: it carries out lines of JSON, each a command, and replies to each.
///
/// It borrows the plugins. Contracts see its stored rows, its open pages, and its setup, which no
/// command changes.
pub struct Site<'p, S> {
    pub(crate) setup: Setup<'p, S>,
    pub(crate) state: SiteState,
    /// Reads its lines. No contract speaks of it.
    pub(crate) reader: CommandReader,
}

impl<'p, S> Drop for Site<'p, S> {
    fn drop(self) {
        let Site {
            setup: _,
            state: _,
            reader: _,
        } = self;
    }
}

impl<'p, S: Stated> Site<'p, S> {
    ghost use Rattle.std.specs.Prelude.{◌≢◌, ℕ, Some, All, IfErr, map, string_bytes};
    ghost use Rattle.callback_store.specs.Shape.{shapes_of};
    ghost use Rattle.site_replies.specs.declared.reply.Refusal.{Refusal};
    ghost use Rattle.site_replies.specs.Reply.{refused};
    ghost use Rattle.post_tables.specs.Faults.{IsStoreReadFault};
    ghost use Rattle.site_export.specs.Lines.{IsHistory, IsShort, FitsLines};
    ghost use Rattle.site_program.specs.Requests.{Opened};
    ghost use Rattle.site_program.specs.Site.{engine_of, calls_of, setup_of, rows_of, state_of};
    ghost use Rattle.site_program.specs.Site.{cache_of};
    ghost use Rattle.site_program.specs.State.{empty_site, page_in};
    ghost use Rattle.site_program.specs.Step.{IsReply, steps_of, place_turned};

    /// Makes an empty site: nothing is stored, no plugin is active and no page is open. Each page
    /// may make up to `calls` calls of its callbacks, and the pieces of up to `cache` texts are
    /// kept for later pages.
    pub fn new(
        alloc: Global,
        plugins: &'p Plugins<S>,
        calls: u32,
        cache: u32,
    ) -> Result<Self, StoreFault>
        requires calls { (1 ≤ calls) × (calls ≤ 100000) }
        requires cache { (1 ≤ cache) × (cache ≤ 4096) }
        ensures empty { IfOk result (λ site. state_of S.says S.number site ≡ empty_site) }
        ensures engine { IfOk result (λ site. engine_of S.says S.number (setup_of site)
            ≡ record { says = S.says; plugins = shapes_of S.number plugins.entry.now }) }
        ensures calls { IfOk result (λ site. calls_of (setup_of site) ≡ calls) }
        ensures cache { IfOk result (λ site. cache_of site ≡ cache) }
    {
        let pages = OpenPages::new(alloc)?;
        let cache = PieceCache::new(alloc, cache as usize)?;
        let tables = Tables::open_in_memory(alloc)?;
        let setup = Setup {
            plugins,
            calls,
            alloc,
        };
        let state = SiteState {
            stored: SiteStore::new(alloc, tables),
            pages,
            cache,
            load: KeptLoad::none(),
        };
        let reader = CommandReader::new(alloc)?;
        Ok(Site {
            setup,
            state,
            reader,
        })
    }

    /// Limits how many rows each later statement on the site's tables may visit; with `None` there
    /// is no limit, as at first. A command whose statement would visit more may be refused as
    /// `Store`, which leaves every row as it was.
    pub fn limit_steps(&mut self, limit: Option<u32>)
        ensures rows { state_of S.says S.number self.new
            ≡ record (state_of S.says S.number self.old)
            { rows = record (rows_of self.old) { step_limit = limit } } }
        ensures setup { setup_of self.new ≡ setup_of self.old }
        ensures cache { cache_of self.new ≡ cache_of self.old }
    {
        self.state.stored.limit_steps(limit);
    }

    /// Returns the short lines of the site's rows, each without its newline. That a new site which
    /// carries them out stores the same posts, options, templates and active plugins, and has given
    /// the same largest ID, is tested. The site stays as it is. It fails as `OutOfMemory` if memory
    /// runs out, and as `Store` only under a limit on steps.
    pub fn history(&mut self) -> Result<Vec<String>, StoreFault>
        ensures lines { IfOk result
            (λ lines. IsHistory (rows_of self.old) (map string_bytes lines.items)) }
        ensures short { FitsLines (rows_of self.old)
            → IfOk result (λ lines. All IsShort (map string_bytes lines.items)) }
        ensures same { state_of S.says S.number self.new ≡ state_of S.says S.number self.old }
        ensures setup { setup_of self.new ≡ setup_of self.old }
        ensures cache { cache_of self.new ≡ cache_of self.old }
        ensures fault { IfErr result (IsStoreReadFault (rows_of self.old).step_limit) }
    {
        self.state.stored.history(self.setup.alloc)
    }

    /// Carries out one line, given without its newline. A line that isn't a command is refused as
    /// such. A refused command leaves the rows and the open pages as they were, but for the page
    /// that `turns` names: that one is closed if it is refused, or if memory runs out.
    ///
    /// Any command may be refused on allocation failure. The database may refuse any that would
    /// change rows and, if the steps of a statement are limited, any that needs a statement.
    pub fn command(&mut self, line: &[u8]) -> SiteReply
        ensures replies { IsReply (steps_of S.says S.number (setup_of self.old))
            (state_of S.says S.number self.old)
            line.now (reply_data result) (state_of S.says S.number self.new) }
        ensures refused { (r : Refusal) → reply_data result ≡ refused r
            → rows_of self.new ≡ rows_of self.old }
        ensures pages { (place : ℕ) (page : Opened)
            → page_in place (state_of S.says S.number self.old).pages ≡ Some page
            → place_turned line.now ≢ Some place
            → page_in place (state_of S.says S.number self.new).pages ≡ Some page }
        ensures limit { (rows_of self.new).step_limit ≡ (rows_of self.old).step_limit }
        ensures setup { setup_of self.new ≡ setup_of self.old }
        ensures cache { cache_of self.new ≡ cache_of self.old }
    {
        self.setup
            .command(&mut self.state, &mut self.reader, line, &mut Unwatched)
            .reply
    }
}

impl<'p, S: Stated> Setup<'p, S> {
    ghost use Rattle.std.specs.Prelude.{Some, true};
    ghost use Rattle.site_replies.specs.declared.reply.Refusal.{Refusal};
    ghost use Rattle.site_replies.specs.Reply.{refused};
    ghost use Rattle.site_program.specs.Site.{engine_of, calls_of, seen_by};
    ghost use Rattle.site_program.specs.Step.{IsReply, steps_of, carried_out, is_look};
    ghost use Rattle.site_program.specs.Carried.{CarriesOn};
    ghost use Rattle.site_program.specs.History.{is_kept};
    ghost use Rattle.site_commands.specs.Worked.{line_command};

    /// Carries out one line over a site's state, and says beside its reply whether the history has
    /// it.
    #[tactic(auto, unfolding(crate::specs::Step::step), using(crate::proofs::Carrying::left_rows))]
    pub(crate) fn command<V: Watch>(
        &self,
        state: &mut SiteState,
        reader: &mut CommandReader,
        line: &[u8],
        watch: &mut V,
    ) -> LineReply
        ensures replies { IsReply (steps_of S.says S.number self.now)
            (seen_by S.says S.number self.now state.old)
            line.now (reply_data result.reply) (seen_by S.says S.number self.now state.new) }
        ensures kept { result.is_kept
            ≡ is_kept (record { line = line.now; reply = reply_data result.reply }) }
        ensures look { result.is_look ≡ true → is_look (line_command line.now) ≡ true }
        ensures refused { (r : Refusal) → reply_data result.reply ≡ refused r → state.new.stored
            ≡ state.old.stored }
        ensures limit { state.new.stored.step_limit ≡ state.old.stored.step_limit }
        ensures cache { state.new.cache ≡ state.old.cache }
    {
        let Ok(read) = reader.read(self.alloc, line) else {
            return LineReply::refused(Refusal::OutOfMemory);
        };
        let Some(command) = read else {
            return LineReply::refused(Refusal::BadCommand);
        };
        let edits = is_edit(command);
        let looks = is_look(command);
        match self.carry_out(state, command, watch) {
            Ok(reply) => LineReply {
                is_kept: edits && is_done(&reply),
                is_look: looks,
                reply,
            },
            Err(StoreFault::OutOfMemory) => LineReply::refused(Refusal::OutOfMemory),
            Err(StoreFault::Store) => LineReply::refused(Refusal::Store),
        }
    }

    /// Carries out a command.
    #[tactic(auto, using(crate::proofs::Carrying::lifted))]
    fn carry_out<V: Watch>(
        &self,
        state: &mut SiteState,
        command: Command<'_>,
        watch: &mut V,
    ) -> Result<SiteReply, StoreFault>
        ensures carried { CarriesOn (Some (asked_by command.entry))
            (seen_by S.says S.number self.now state.old)
            (carried_out (engine_of S.says S.number self.now) (calls_of self.now)
            (seen_by S.says S.number self.now state.old) (Some (asked_by command.entry)))
            result (seen_by S.says S.number self.now state.new) }
        ensures cache { state.new.cache ≡ state.old.cache }
    {
        let stored = &mut state.stored;
        match command {
            Command::Put {
                kind,
                status,
                title,
                content,
                date,
            } => stored.put(self.alloc, kind, status, title, content, date),
            Command::Edit {
                id,
                status,
                title,
                content,
                date,
            } => stored.edit(self.alloc, id, status, title, content, date),
            Command::Delete { id } => stored.delete(self.alloc, id),
            Command::Option { name, value } => stored.set_option(self.alloc, name, value),
            Command::Activate { plugin } => stored.set_active(self.plugins, plugin, true),
            Command::Deactivate { plugin } => stored.set_active(self.plugins, plugin, false),
            Command::Template { name, body } => stored.set_template(self.alloc, name, body),
            Command::Import { site } => stored.import(self.alloc, self.plugins, site),
            Command::Get { path } => {
                self.get(stored, path, &mut state.load, &mut state.cache, watch)
            }
            Command::Begin { path } => self.begin(state, path, watch),
            Command::Turns { page, count } => self.turns(state, page, count, watch),
        }
    }
}
