//! A site as the pages that HTTP shows.
ghost use Rattle.std.specs.Prelude.{◌≡◌, ◌∷◌, [], ℕ, false, OnOk};
ghost use Rattle.std.specs.Io.KnownBytes.{Appends};
ghost use Rattle.site_replies.specs.Reply.{ReplyData, bytes_of, reply_data};
ghost use Rattle.site_http.specs.Pages.{
  CarriesOutAll,
  CarriesOutSome,
  CommitsWaiting,
  Follows,
  ShowsPage,
};

use crate::notes::{hold, note_all};
use crate::page_line::page_line;
use crate::replies::Replies;
use byte_io::{EndFault, Journal, Message, Sink};
use http_pages::{EntityTag, Pages};
use memchr::memchr;
use page_trace::Watch;
use site_replies::{Refusal, SiteReply};
use site_serving::{Commands, LineReply};
use std::alloc::{AllocError, Global};

/// What carries out lines, with the journal that is handed each edit that was done, as the pages that
/// HTTP shows.
///
/// An edit that was done waits for the next commit. If memory for one that waits runs out, that commit
/// fails.
#[derive(Drop)]
pub struct SitePages<C, J, V> {
    /// What carries out lines.
    pub commands: C,
    /// The journal.
    pub journal: J,
    /// What sees each invocation of a page.
    pub watch: V,
    /// The tag of the pages that are shown now.
    pub tag: EntityTag,
    pub(crate) waiting: Vec<Vec<u8>>,
    pub(crate) is_lost: bool,
    pub(crate) alloc: Global,
}

impl<C: Commands, J: Journal, V: Watch> SitePages<C, J, V> {
    ghost use Rattle.site_http.specs.Pages.{waiting_of};

    /// Makes the pages of a site in which no edit was done. The number is one that was drawn for this
    /// start of the program.
    pub fn new(alloc: Global, commands: C, journal: J, watch: V, start: u64) -> Self
        ensures commands { result.commands ≡ commands }
        ensures journal { result.journal ≡ journal }
        ensures tag { result.tag ≡ record { start = start; edits = 0 } }
        ensures none { waiting_of result ≡ [] }
        ensures sound { result.is_lost ≡ false }
    {
        SitePages {
            commands,
            journal,
            watch,
            tag: EntityTag { start, edits: 0 },
            waiting: Vec::new(alloc),
            is_lost: false,
            alloc,
        }
    }

    /// Carries out one line. If it is an edit that was done, it is counted and waits for the next
    /// commit.
    fn follow(&mut self, line: &[u8]) -> SiteReply
        ensures { Follows C.Commands
            (record { line = line.now; reply = reply_data result } ∷ []) self.old self.new }
    {
        let LineReply {
            reply,
            is_kept,
            is_look: _,
        } = self.commands.carry_out(line, &mut self.watch);
        if is_kept {
            self.tag.edits = self.tag.edits.saturating_add(1);
            if hold(self.alloc, &mut self.waiting, line).is_err() {
                self.is_lost = true;
            }
        }
        reply
    }

    /// Carries out one line, and appends its reply. It fails if memory for the reply runs out.
    fn reply_to<W: Sink>(&mut self, line: &[u8], replies: &mut W) -> Result<(), AllocError>
        requires { W.has_failed replies.old ≡ false }
        ensures follows { (reply : ReplyData)
            × Follows C.Commands (record { line = line.now; reply = reply } ∷ []) self.old self.new
            × OnOk result (Appends (W.contents replies.old) (W.contents replies.new)
            (bytes_of reply)) }
        ensures sound { OnOk result (W.has_failed replies.new ≡ false) }
    {
        let reply = self.follow(line);
        match Message::write_to(&reply, replies) {
            Ok(()) => Ok(()),
            Err(EndFault) => Err(AllocError),
        }
    }
}

impl<C: Commands + Drop, J: Journal, V: Watch> SitePages<C, J, V> {
    /// Returns the journal. What waits is lost.
    pub fn into_journal(self) -> J
        ensures { result ≡ self.journal }
    {
        self.journal
    }
}

impl<C: Commands, J: Journal, V: Watch> Pages for SitePages<C, J, V> {
    ghost tag_of = { λ s. s.tag };

    ghost shows = { ShowsPage C.Commands };

    ghost carries_out = { CarriesOutAll C.Commands };

    ghost breaks_off = { CarriesOutSome C.Commands };

    ghost commits = { CommitsWaiting J.Journal };

    ghost is_sound = { λ s. J.has_failed s.journal ≡ false };

    fn tag(&self) -> EntityTag {
        self.tag
    }

    fn page(&mut self, path: &str) -> SiteReply {
        match page_line(self.alloc, path) {
            Ok(line) => self.follow(&line),
            Err(AllocError) => SiteReply::Refused(Refusal::OutOfMemory),
        }
    }

    fn carry_out(&mut self, lines: &[u8]) -> Result<Vec<u8>, AllocError> {
        let mut replies = Replies::new(self.alloc);
        let mut rest = lines;
        while let Some(end) = memchr(b'\n', rest) {
            self.reply_to(&rest[..end], &mut replies)?;
            rest = &rest[end..][1..];
        }
        if !rest.is_empty() {
            self.reply_to(rest, &mut replies)?;
        }
        Ok(replies.bytes)
    }

    fn commit(&mut self) -> bool {
        if self.is_lost {
            return false;
        }
        if note_all(&mut self.journal, &self.waiting).is_err() {
            return false;
        }
        self.waiting.clear();
        self.journal.settle().is_ok()
    }
}
