//! Serving an input over a site.
ghost use Rattle.std.specs.Prelude.{◌≡◌, ◌++◌, ℕ, List, Some, false, OnOk, IfSome};
ghost use Rattle.site_serving.specs.Lines.{lines_of};
ghost use Rattle.site_program.specs.Serving.{IsReplies, IsServed};
ghost use Rattle.site_program.specs.Site.{setup_of, state_of, cache_of};
ghost use Rattle.site_program.specs.Step.{steps_of};

use crate::site::Site;
use byte_io::{Journal, Source};
use callback_store::Stated;
use page_trace::{Unwatched, Watch};
use site_edits::StoreFault;
use site_replies::{Refusal, ServeFault};
use site_serving::{Commands, LineReply};

impl<'p, S: Stated> Commands for Site<'p, S> {
    ghost use Rattle.site_commands.specs.Worked.{line_command};
    ghost use Rattle.site_export.specs.Lines.{IsHistory};
    ghost use Rattle.site_program.specs.History.{is_kept};
    ghost use Rattle.site_program.specs.Site.{Fixed, fixed_of, state_of};
    ghost use Rattle.site_program.specs.State.{State};
    ghost use Rattle.site_program.specs.Step.{IsReply, is_edit, steps_of};

    ghost Fixed = { Fixed S };

    ghost State = { State };

    ghost fixed = { λ site. fixed_of site };

    ghost state = { λ site. state_of S.says S.number site };

    ghost steps = { λ fixed. steps_of S.says S.number fixed.setup };

    ghost replies = { λ fixed. IsReply (steps_of S.says S.number fixed.setup) };

    ghost edits = { λ line. is_edit (line_command line) };

    ghost keeps = { is_kept };

    ghost rebuilds = { λ site lines. IsHistory site.rows lines };

    fn carry_out<V: Watch>(&mut self, line: &[u8], watch: &mut V) -> LineReply {
        self.setup
            .command(&mut self.state, &mut self.reader, line, watch)
    }

    fn short_history(&mut self) -> Result<Vec<String>, Refusal> {
        match self.history() {
            Ok(lines) => Ok(lines),
            Err(StoreFault::OutOfMemory) => Err(Refusal::OutOfMemory),
            Err(StoreFault::Store) => Err(Refusal::Store),
        }
    }
}

impl<'p, S: Stated> Site<'p, S> {
    /// Serves an input as [`serve`](site_serving::serve) does: at most 1,000,000 lines of at most
    /// 1,048,576 bytes. It keeps no page, and is for programs of one's own: one that is to answer a
    /// line that comes again in less time serves a [`KeptPages`](site_serving::KeptPages) over the site.
    pub fn serve<R: Source, W: Journal>(
        &mut self,
        reader: &mut R,
        writer: &mut W,
    ) -> Result<(), ServeFault>
        requires reader { R.has_failed reader.old ≡ false }
        requires writer { W.has_failed writer.old ≡ false }

        // The writer takes the replies to an input that is read to its end, and nothing else.
        ensures replied { OnOk result (IfSome (R.remaining reader.old) (λ input.
            IfSome (W.contents writer.old) (λ before. (out : List ℕ)
            × IsReplies (steps_of S.says S.number (setup_of self.old))
            (state_of S.says S.number self.old) (lines_of input) out
            (state_of S.says S.number self.new)
            × (W.contents writer.new ≡ Some (before ++ out))))) }

        // What else holds, after each fault too.
        ensures served { IsServed (steps_of S.says S.number (setup_of self.old)) W.Journal
            (state_of S.says S.number self.old) (R.remaining reader.old) (R.remaining reader.new)
            (R.has_failed reader.new) writer.old writer.new result
            (state_of S.says S.number self.new) }
        ensures setup { setup_of self.new ≡ setup_of self.old }
        ensures cache { cache_of self.new ≡ cache_of self.old }
    {
        let alloc = self.setup.alloc;
        site_serving::serve(alloc, self, reader, writer, &mut Unwatched)
    }
}
