//! The cache of pieces.
ghost use Rattle.std.specs.Prelude.{◌≡◌, ◌≤◌, IfOk, IfSome};
ghost use Rattle.std.specs.List.{AllByRecursion};
ghost use Rattle.shortcode_scan.specs.Pieces.{IsPieces, pieces_of};
ghost use Rattle.shortcode_scan.specs.Spans.{HasSpansOf};
ghost use Rattle.content_cache.specs.Opened.{tags_in, IsOpenedBy, IsCutOf};

use crate::cut_text::{CutText, Known, OpenedName, are_same};
use lru::LruCache;
use plain_data::{SharedList, TagName};
use shortcode_scan::{Piece, pieces};
use std::alloc::{AllocError, Global};
use std::marker::Model;
use std::num::NonZeroUsize;

/// The pieces of the texts that were asked for last, each with the live names that it was cut by.
///
/// Contracts see the maximum number of texts that it keeps, and not which these are: no result
/// depends on that.
#[derive(Drop)]
pub struct PieceCache {
    alloc: Global,
    kept: LruCache<String, CutText>,
}

impl Model for PieceCache {
    ghost use Rattle.std.specs.Prelude.{ℕ};
    ghost use Rattle.content_cache.specs.Kept.{AllKept};

    ghost Value = { ℕ };

    ghost view = { λ c. c.kept.cap };

    ghost invariant = { λ c. AllKept c.kept.entries };
}

impl PieceCache {
    /// Makes an empty cache for the pieces of at most `capacity` texts.
    pub fn new(alloc: Global, capacity: usize) -> Result<Self, AllocError>
        requires some { 1 ≤ capacity }
        requires most { capacity ≤ 4096 }
        ensures { IfOk result (λ cache. cache ≡ capacity) }
    {
        match NonZeroUsize::new(capacity) {
            Some(capacity) => Ok(PieceCache {
                alloc,
                kept: LruCache::new(alloc, capacity)?,
            }),
            None => unreachable!(),
        }
    }

    /// Returns the pieces of the text by the names in `live`, as `shortcode_scan::pieces` does.
    /// They are kept for the next time, unless memory for that runs out.
    pub fn pieces(&mut self, live: &[TagName], text: &str) -> Result<Vec<Piece>, AllocError>
        ensures pieces { IfOk result (λ pieces. IsPieces live.now text.now pieces.items) }
        ensures value { IfOk result (λ pieces. pieces.items ≡ pieces_of live.now text.now) }
        ensures spans { IfOk result (λ pieces. AllByRecursion (HasSpansOf text.now) pieces.items) }
        ensures capacity { self.new ≡ self.old }
    {
        let found = self.shared(live, text)?;
        Vec::from_slice(self.alloc, found.as_slice())
    }

    /// Returns the same pieces, shared with the cache and not copied.
    pub fn shared(&mut self, live: &[TagName], text: &str) -> Result<SharedList<Piece>, AllocError>
        ensures pieces { IfOk result (λ pieces. IsPieces live.now text.now pieces) }
        ensures value { IfOk result (λ pieces. pieces ≡ pieces_of live.now text.now) }
        ensures spans { IfOk result (λ pieces. AllByRecursion (HasSpansOf text.now) pieces) }
        ensures capacity { self.new ≡ self.old }
    {
        // With no live name the text is one plain piece, which is made faster than it is looked up.
        if live.is_empty() {
            return SharedList::new(pieces(self.alloc, live, text)?);
        }
        if let Some(kept) = self.kept.get(text) {
            if are_same(kept.live.as_slice(), live) {
                return kept.pieces.share();
            }
        }
        self.cut_anew(live, None, text)
    }

    /// Returns how a text was cut by [`PieceCache::cut`], if that is kept.
    pub fn known(&mut self, text: &str) -> Result<Option<Known>, AllocError>
        ensures known { IfOk result
            (λ found. IfSome found (λ known. IsCutOf text.now known.opened known.pieces)) }
        ensures spans { IfOk result (λ found. IfSome found (λ known.
            AllByRecursion (HasSpansOf text.now) known.pieces)) }
        ensures capacity { self.new ≡ self.old }
    {
        if let Some(kept) = self.kept.get(text) {
            return kept.known();
        }
        Ok(None)
    }

    /// Cuts a text by the tags among the names that it opens. The pieces are kept for the next time
    /// with these names, unless memory for that runs out.
    pub fn cut(
        &mut self,
        opened: Vec<OpenedName>,
        live: &[TagName],
        text: &str,
    ) -> Result<SharedList<Piece>, AllocError>
        requires opened { IsOpenedBy text.now opened.items }
        requires live { live.now ≡ tags_in opened.items }
        ensures value { IfOk result (λ pieces. pieces ≡ pieces_of live.now text.now) }
        ensures spans { IfOk result (λ pieces. AllByRecursion (HasSpansOf text.now) pieces) }
        ensures capacity { self.new ≡ self.old }
    {
        let opened = SharedList::new(opened)?;
        self.cut_anew(live, Some(opened), text)
    }

    /// Returns the number of texts whose pieces it keeps.
    pub fn kept(&self) -> usize
        ensures { result ≤ self.now }
    {
        self.kept.len()
    }

    /// Cuts a text by its live names, and keeps the pieces.
    fn cut_anew(
        &mut self,
        live: &[TagName],
        opened: Option<SharedList<OpenedName>>,
        text: &str,
    ) -> Result<SharedList<Piece>, AllocError>
        requires { IfSome opened (λ opened. (live.now ≡ tags_in opened)
            × IsOpenedBy text.now opened) }
        ensures value { IfOk result (λ pieces. pieces ≡ pieces_of live.now text.now) }
        ensures spans { IfOk result (λ pieces. AllByRecursion (HasSpansOf text.now) pieces) }
        ensures capacity { self.new ≡ self.old }
    {
        let found = SharedList::new(pieces(self.alloc, live, text)?)?;
        self.keep(live, opened, text, &found);
        Ok(found)
    }

    /// Keeps the pieces of a text, unless memory for that runs out.
    fn keep(
        &mut self,
        live: &[TagName],
        opened: Option<SharedList<OpenedName>>,
        text: &str,
        pieces: &SharedList<Piece>,
    )
        requires pieces { pieces.now ≡ pieces_of live.now text.now }
        requires opened { IfSome opened (λ opened. IsCutOf text.now opened pieces.now) }
        ensures { self.new ≡ self.old }
    {
        if let Ok(key) = String::from_str(self.alloc, text) {
            if let Ok(kept) = CutText::of(self.alloc, live, opened, pieces) {
                let _ = self.kept.put(key, kept);
            }
        }
    }
}
