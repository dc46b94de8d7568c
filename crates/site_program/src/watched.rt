//! Pages that are watched: they are printed turn by turn, and a log is given each invocation.
ghost use Rattle.std.specs.Prelude.{◌≡◌, IfOk, IfErr, option_map};
ghost use Rattle.callback_store.specs.Shape.{owner};
ghost use Rattle.site_replies.specs.Reply.{reply_data};
ghost use Rattle.template_parts.specs.Open.{GoesOn};

use crate::page::{printed, refusal_of, refused_by};
use crate::setup::Setup;
use callback_store::Stated;
use content_cache::PieceCache;
use hook_machine::RunFault;
use page_trace::{PageEnd, PageName, Told, Watch};
use plain_data::CallbackId;
use site_edits::StoreFault;
use site_replies::SiteReply;
use template_parts::{OpenPage, Turned};

/// Returns the end of a page that a fault refuses.
fn refused_end(fault: RunFault) -> PageEnd {
    let refusal = refusal_of(fault);
    PageEnd::Refused {
        number: refusal.number(),
        name: refusal.name(),
    }
}

/// Returns the step of a page that is under way, counted from 1, given the posts of all its steps.
fn step_of(page: &OpenPage, posts: &[Option<u32>]) -> Option<usize> {
    let begun = posts.len().checked_sub(page.steps_left()?)?;
    if begun == 0 { None } else { Some(begun) }
}

/// Returns the post that a step is about, if it is about one. Steps are counted from 1.
fn post_of(step: Option<usize>, posts: &[Option<u32>]) -> Option<u32> {
    *posts.get(step?.checked_sub(1)?)?
}

impl<'p, S: Stated> Setup<'p, S> {
    ghost use Rattle.site_program.specs.Site.{engine_of, opened_as};

    /// Returns the name of the plugin that has a callback, if one has it.
    fn plugin_of<'t>(&'t self, callback: CallbackId) -> Option<&'t str>
        ensures { option_map (λ name. name.now) result
            ≡ owner (engine_of S.says S.number self.entry.now).plugins
            callback }
    {
        self.plugins.owner(callback)
    }

    /// Gives the log the invocation that the last turn of a page has made. If memory runs out,
    /// nothing is told.
    fn tell_invocation<'t, V: Watch>(
        &'t self,
        page: &'t OpenPage,
        name: PageName<'_>,
        posts: &[Option<u32>],
        watch: &mut V,
    ) {
        let Some(invocation) = page.invocation() else {
            return;
        };
        let Ok(reply) = invocation.reply(self.plugins, self.alloc) else {
            return;
        };
        let item = step_of(page, posts);
        let told = Told {
            count: self.calls.saturating_sub(page.calls_left()),
            item,
            post: post_of(item, posts),
            depth: invocation.depth,
            priority: invocation.priority.map(|priority| priority.number()),
            callback: invocation.callback,
            plugin: self.plugin_of(invocation.callback),
            call: invocation.call,
            reply: reply.as_ref(),
        };
        watch.invoked(name, &told);
    }

    /// Makes one turn of a page, and tells what came of it.
    fn turn_watched<V: Watch>(
        &self,
        page: OpenPage,
        name: PageName<'_>,
        posts: &[Option<u32>],
        cache: &mut PieceCache,
        watch: &mut V,
    ) -> Result<Turned, RunFault>
        ensures turns { GoesOn (engine_of S.says S.number self.now) 1 page result }
        ensures cache { cache.new ≡ cache.old }
    {
        let made = self.calls.saturating_sub(page.calls_left());
        let turned = page.turns(self.plugins, 1, cache);
        match &turned {
            Ok(Turned::Open(page)) => self.tell_invocation(page, name, posts, watch),
            Ok(Turned::Closed(status, body)) => {
                let end = PageEnd::Printed {
                    status: *status,
                    bytes: body.len(),
                };
                watch.ended(name, end, made);
            }
            Err(fault) => watch.ended(name, refused_end(*fault), made),
        }
        turned
    }

    /// Makes `count` turns of a page, or as many as it has left, one by one, and tells what comes
    /// of each.
    pub(crate) fn turns_watched<V: Watch>(
        &self,
        page: OpenPage,
        name: PageName<'_>,
        count: u32,
        cache: &mut PieceCache,
        watch: &mut V,
    ) -> Result<Turned, RunFault>
        ensures turns { GoesOn (engine_of S.says S.number self.now) count page result }
        ensures cache { cache.new ≡ cache.old }
    {
        // If memory runs out here, nothing is told of the page's items and posts.
        let posts = match page.posts_of_steps() {
            Ok(posts) => posts,
            Err(_) => Vec::new(self.alloc),
        };
        let mut page = page;
        let mut made = 0;
        'turns: while made < count {
            match self.turn_watched(page, name, &posts, cache, watch)? {
                Turned::Open(later) => page = later,
                Turned::Closed(status, body) => return Ok(Turned::Closed(status, body)),
            }
            made += 1;
        }
        Ok(Turned::Open(page))
    }

    /// Prints a page to its end, and replies with it. A page that is watched is printed turn by
    /// turn.
    pub(crate) fn finish<V: Watch>(
        &self,
        page: OpenPage,
        path: &str,
        cache: &mut PieceCache,
        watch: &mut V,
    ) -> Result<SiteReply, StoreFault>
        ensures ok { IfOk result (λ reply. reply_data reply
            ≡ (opened_as (engine_of S.says S.number self.now) page).answer) }
        ensures memory { IfErr result (λ fault. fault ≡ StoreFault.OutOfMemory) }
        ensures cache { cache.new ≡ cache.old }
    {
        if !watch.is_on() {
            return self.finish_at_once(page, cache);
        }
        match self.turns_watched(page, PageName::Path(path), u32::MAX, cache, watch) {
            Ok(Turned::Closed(status, body)) => printed(status, body),
            // No page has so many turns.
            Ok(Turned::Open(page)) => self.finish_at_once(page, cache),
            Err(fault) => refused_by(fault),
        }
    }
}
