//! How a text was cut into pieces.
ghost use Rattle.std.specs.Prelude.{◌≡◌, ◌↔◌, Some, IsTrue, IfOk, IfSome};

use plain_data::{Listed, SharedList, TagName, Text};
use shortcode_scan::Piece;
use std::alloc::{AllocError, Global};

/// A name that a text opens, and whether it was a tag when the text was cut.
#[derive(Drop)]
pub struct OpenedName {
    pub name: Text,
    pub is_tag: bool,
}

/// How a text was cut: all names that it opens, and its pieces by those of them that were tags.
#[derive(Drop)]
pub struct Known {
    pub opened: SharedList<OpenedName>,
    pub pieces: SharedList<Piece>,
}

/// The pieces of a text, and the live names that it was cut by.
#[derive(Drop)]
pub struct CutText {
    pub live: Listed<TagName>,
    /// All names that the text opens, if it was cut by those of them that were tags.
    pub opened: Option<SharedList<OpenedName>>,
    pub pieces: SharedList<Piece>,
}

impl CutText {
    /// Copies the live names, and shares the pieces.
    pub fn of(
        alloc: Global,
        live: &[TagName],
        opened: Option<SharedList<OpenedName>>,
        pieces: &SharedList<Piece>,
    ) -> Result<Self, AllocError>
        ensures { IfOk result (λ kept. kept
            ≡ record { live = live.now; opened = opened; pieces = pieces.now }) }
    {
        Ok(CutText {
            live: Listed::new(Vec::from_clones(alloc, live)?),
            opened,
            pieces: pieces.share()?,
        })
    }

    /// Returns how the text was cut, if it was cut by the tags among the names that it opens.
    pub fn known(&self) -> Result<Option<Known>, AllocError>
        ensures { IfOk result (λ found. IfSome found (λ known. (self.now.opened ≡ Some known.opened)
            × (known.pieces ≡ self.now.pieces))) }
    {
        match &self.opened {
            Some(opened) => Ok(Some(Known {
                opened: opened.share()?,
                pieces: self.pieces.share()?,
            })),
            None => Ok(None),
        }
    }
}

/// Returns whether two lists have the same names in the same order.
pub fn are_same(left: &[TagName], right: &[TagName]) -> bool
    ensures { IsTrue result ↔ (left.now ≡ right.now) }
{
    if left.len() != right.len() {
        return false;
    }
    for at in 0..left.len() {
        if left[at].as_str() != right[at].as_str() {
            return false;
        }
    }
    true
}
