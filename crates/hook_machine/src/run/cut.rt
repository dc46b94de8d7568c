//! A text with the pieces of it that are left.
ghost use Rattle.std.specs.Prelude.{◌≡◌, ◌∷◌, [], MatchOption, IfSome};
ghost use Rattle.std.specs.List.{AllByRecursion};
ghost use Rattle.shortcode_scan.specs.Spans.{HasSpansOf};

use hook_changes::{SharedList, Text};
use shortcode_scan::Piece;
use std::marker::Model;

/// A text and the pieces left of it, each of which lies in the text. The pieces are shared with the
/// cache, so a count says how many of them are taken.
#[derive(Drop)]
pub struct Cut {
    text: Text,
    pieces: SharedList<Piece>,
    taken: usize,
}

impl Model for Cut {
    ghost use Rattle.std.specs.Prelude.{drop};
    ghost use Rattle.std.specs.List.{AllByRecursion};
    ghost use Rattle.shortcode_scan.specs.Spans.{HasSpansOf};
    ghost use Rattle.hook_machine.specs.Cuts.{CutText};

    ghost Value = { CutText };

    ghost view = { λ c. record { text = c.text; pieces = drop c.taken c.pieces } };

    ghost invariant = { λ c. AllByRecursion (HasSpansOf c.text) (drop c.taken c.pieces) };
}

impl Cut {
    /// Makes a cut of a text, of which no piece is taken yet. The pieces lie in the text.
    pub fn new(text: Text, pieces: SharedList<Piece>) -> Self
        requires { AllByRecursion (HasSpansOf text) pieces }
        ensures { result ≡ record { text = text; pieces = pieces } }
    {
        Cut {
            text,
            pieces,
            taken: 0,
        }
    }

    /// Borrows the text that is cut.
    pub fn text(&self) -> &str
        ensures { result.now ≡ self.now.text }
    {
        self.text.as_str()
    }

    /// Takes the first piece left.
    pub fn take_first(&mut self) -> Option<Piece>
        ensures text { self.new.text ≡ self.old.text }
        ensures taken { MatchOption result ((self.old.pieces ≡ []) × (self.new.pieces ≡ []))
            (λ piece. self.old.pieces ≡ piece ∷ self.new.pieces) }
        ensures spans { IfSome result (λ piece. HasSpansOf self.old.text piece) }
    {
        let pieces = self.pieces.as_slice();
        if self.taken >= pieces.len() {
            return None;
        }
        let piece = pieces[self.taken];
        self.taken += 1;
        Some(piece)
    }
}
