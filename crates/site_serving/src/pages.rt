//! Pages by the lines that asked for them.
ghost use Rattle.std.specs.Prelude.{◌≡◌, IfOk, IfSome};
ghost use Rattle.site_replies.specs.Reply.{page, reply_data};
ghost use Rattle.site_serving.specs.Kept.{Repeats};

use crate::commands::Commands;
use crate::line_reply::LineReply;
use bytes::Bytes;
use lru::LruCache;
use page_trace::Watch;
use site_replies::{Refusal, SiteReply};
use std::alloc::{AllocError, Global};
use std::marker::Model;
use std::num::NonZeroUsize;

/// How many pages are kept at most.
const MOST_PAGES: usize = 1_024;

/// How many bytes the pages that are kept have at most, with their lines.
const MOST_BYTES: usize = 4_194_304;

/// How many bytes a line has at most whose page is kept: that of a longer one isn't looked for.
const MOST_LINE: usize = 16_384;

/// A page that a line got.
#[derive(Drop)]
struct Page {
    status: u16,
    body: Bytes,
}

impl Page {
    /// Returns the page as a reply, which shares its bytes. Does not allocate; `None` says that they
    /// have too many owners to count.
    fn shared(&self) -> Option<SiteReply>
        ensures { IfSome result (λ reply. reply_data reply ≡ page self.now.status self.now.body) }
    {
        let body = self.body.clone().ok()?;
        Some(SiteReply::Page {
            status: self.status,
            body,
        })
    }
}

/// What carries out lines, with the pages that lines have got since one last changed something. A
/// line that is asked again gets its page again, byte by byte, unless a watch is to see what runs.
///
/// At most 1,024 pages of 4 MiB in all are kept, of lines of at most 16,384 bytes; the least recently
/// used one is dropped first. Contracts see what carries out lines alone: no reply depends on which
/// pages are kept.
#[derive(Drop)]
pub struct KeptPages<C: Commands> {
    commands: C,
    alloc: Global,
    pages: LruCache<Vec<u8>, Page>,
    // How many bytes the pages have, with their lines.
    bytes: usize,
}

impl<C: Commands> Model for KeptPages<C> {
    ghost use Rattle.site_serving.specs.Kept.{AllRepeat};

    ghost Value = { C };

    ghost coded = { C.code };

    ghost view = { λ k. k.commands };

    ghost invariant = { λ k. AllRepeat C.Commands k.commands k.pages.entries };
}

impl<C: Commands + Drop> KeptPages<C> {
    /// Keeps no page yet.
    pub fn new(alloc: Global, commands: C) -> Result<Self, AllocError>
        ensures { IfOk result (λ kept. kept ≡ commands) }
    {
        match NonZeroUsize::new(MOST_PAGES) {
            Some(most) => Ok(KeptPages {
                commands,
                alloc,
                pages: LruCache::new(alloc, most)?,
                bytes: 0,
            }),
            None => unreachable!(),
        }
    }
}

impl<C: Commands> KeptPages<C> {
    /// Returns the page that is kept for a line, if there is one.
    fn known(&mut self, line: &[u8]) -> Option<SiteReply>
        ensures known { IfSome result
            (λ reply. Repeats C.Commands self.old line.now (reply_data reply)) }
        ensures same { self.new ≡ self.old }
    {
        if line.len() > MOST_LINE || self.pages.is_empty() {
            return None;
        }
        if let Some(page) = self.pages.get(line) {
            return page.shared();
        }
        None
    }

    /// Keeps a page that a line got, and shares its bytes with the reply. A page with too many bytes
    /// isn't kept, and none is if memory for its line runs out.
    fn keep(&mut self, line: &[u8], reply: &SiteReply)
        requires { Repeats C.Commands self.old line.now (reply_data reply.now) }
        ensures { self.new ≡ self.old }
    {
        let SiteReply::Page { status, body } = reply else {
            return;
        };
        let size = line.len().saturating_add(body.len());
        if line.len() > MOST_LINE || size > MOST_BYTES {
            return;
        }
        self.make_room(size);
        let Ok(key) = Vec::from_slice(self.alloc, line) else {
            return;
        };
        let Ok(body) = body.clone() else {
            return;
        };
        let page = Page {
            status: *status,
            body,
        };
        if let Ok(dropped) = self.pages.push(key, page) {
            self.bytes = self.bytes.saturating_add(size);
            if let Some((line, page)) = dropped {
                self.bytes = self.bytes.saturating_sub(line.len() + page.body.len());
            }
        }
    }

    /// Drops the least recently used pages, until there is room for one with its line.
    fn make_room(&mut self, size: usize)
        ensures { self.new ≡ self.old }
    {
        for _ in 0..self.pages.len() {
            if size <= MOST_BYTES.saturating_sub(self.bytes) {
                return;
            }
            if let Some((line, page)) = self.pages.pop_lru() {
                self.bytes = self.bytes.saturating_sub(line.len() + page.body.len());
            }
        }
    }
}

impl<C: Commands> Commands for KeptPages<C> {
    ghost Fixed = { C.Fixed };

    ghost State = { C.State };

    ghost fixed = { λ kept. C.fixed kept };

    ghost state = { λ kept. C.state kept };

    ghost steps = { C.steps };

    ghost replies = { C.replies };

    ghost edits = { C.edits };

    ghost keeps = { C.keeps };

    ghost rebuilds = { C.rebuilds };

    fn carry_out<V: Watch>(&mut self, line: &[u8], watch: &mut V) -> LineReply {
        if !watch.is_on() {
            if let Some(reply) = self.known(line) {
                return LineReply {
                    reply,
                    is_kept: false,
                    is_look: true,
                };
            }
        }
        let replied = self.commands.carry_out(line, watch);
        if replied.is_look {
            if !replied.is_kept {
                self.keep(line, &replied.reply);
            }
        } else {
            self.pages.clear();
            self.bytes = 0;
        }
        replied
    }

    fn short_history(&mut self) -> Result<Vec<String>, Refusal> {
        self.commands.short_history()
    }
}
