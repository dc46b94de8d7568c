//! A journal: a sink of replies beside a log of lines, where the log is never older than the
//! replies.
ghost use Rattle.std.specs.Prelude.{
  ◌≡◌,
  ⊤,
  ◌∷◌,
  [],
  ℕ,
  ◌||◌,
  List,
  Bool,
  Option,
  None,
  is_err,
  false,
  OnOk,
  OnErr,
};
ghost use Rattle.std.specs.Io.KnownBytes.{Appends};
ghost use Rattle.byte_io.specs.Known.{AppendsFront};
ghost use Rattle.byte_io.specs.Journal.{Grows, IsQuiet, IsSettled, LetsOut};

use crate::{EndFault, Sink};

/// A reply that can be written to any sink.
pub trait Message {
    /// Its bytes.
    ghost bytes: { Self → List ℕ };

    /// Writes all of its bytes. On `Err` some of them were written, from their front.
    fn write_to<W: Sink>(&self, writer: &mut W) -> Result<(), EndFault>
        requires { W.has_failed writer.old ≡ false }
        ensures ok { OnOk result (Appends (W.contents writer.old) (W.contents writer.new)
            (bytes self.now)) }
        ensures part { OnErr result
            (AppendsFront (W.contents writer.old) (W.contents writer.new) (bytes self.now)) }
        ensures fault { W.has_failed writer.new ≡ is_err result };
}

/// A journal takes replies and notes lines. What it has taken leaves it in one order: the lines
/// that were noted are committed to a log before any reply that was taken after them is written.
///
/// Every [`Sink`] is a journal that keeps no log: it writes each reply at once.
pub trait Journal {
    /// The bytes of the replies that were taken so far, or `None` if it does not tell them. Some of
    /// the last ones may still wait.
    ghost contents: { Self → Option (List ℕ) };

    /// Whether a call has failed.
    ghost has_failed: { Self → Bool };

    /// The lines that were noted so far, those that the log held at first included. Some of the
    /// last ones may still wait. It is `None` if there is no log, or from a failure of its disk on.
    ghost noted: { Self → Option (List (List ℕ)) };

    /// The bytes that were written, or `None` if it does not tell them.
    ghost written: { Self → Option (List ℕ) };

    /// Whether the log is open, if there is one: what is known of its lines rests on that.
    ghost is_open: { Self → Type 0 };

    /// Which lines the log may be found to hold, if the program ends at this moment for whatever
    /// reason.
    ghost may_hold: { Self → List (List ℕ) → Type 0 };

    /// Notes a line, after those that were noted before. Nothing is written, and nothing is
    /// committed. A call that returns `EndFault` marks the journal as failed.
    fn note(&mut self, line: &[u8]) -> Result<(), EndFault>
        requires { has_failed self.old ≡ false }
        ensures ok { OnOk result (Grows (noted self.old) (noted self.new) (line.now ∷ [])) }
        ensures contents { contents self.new ≡ contents self.old }
        ensures quiet { IsQuiet written contents is_open may_hold self.old self.new }
        ensures stays { is_open self.old → is_open self.new }
        ensures fault { has_failed self.new ≡ is_err result };

    /// Takes a reply. On `Err` some of its bytes were taken, from their front.
    fn take<M: Message>(&mut self, message: &M) -> Result<(), EndFault>
        requires { has_failed self.old ≡ false }
        ensures ok { OnOk result (Appends (contents self.old) (contents self.new)
            (M.bytes message.now)) }
        ensures part { OnErr result
            (AppendsFront (contents self.old) (contents self.new) (M.bytes message.now)) }
        ensures stays { is_open self.old → OnOk result (is_open self.new) }
        ensures noted { Grows (noted self.old) (noted self.new) [] }
        ensures out { LetsOut written contents is_open may_hold (noted self.old) self.old self.new }
        ensures fault { has_failed self.new ≡ is_err result };

    /// Commits the lines that wait, and then writes the replies that wait. On `Ok` nothing waits.
    fn settle(&mut self) -> Result<(), EndFault>
        requires { has_failed self.old ≡ false }
        ensures ok { is_open self.old
            → OnOk result (IsSettled written contents is_open may_hold noted self.new) }
        ensures contents { contents self.new ≡ contents self.old }
        ensures noted { Grows (noted self.old) (noted self.new) [] }
        ensures out { LetsOut written contents is_open may_hold (noted self.old) self.old self.new }
        ensures fault { has_failed self.new ≡ is_err result };
}

impl<W: Sink> Journal for W {
    ghost contents = { λ w. W.Sink.contents w };

    ghost has_failed = { λ w. W.Sink.has_failed w };

    ghost noted = { λ _. None };

    ghost written = { λ w. W.Sink.contents w };

    ghost is_open = { λ _. ⊤ };

    ghost may_hold = { λ _ _. ⊥ };

    fn note(&mut self, _line: &[u8]) -> Result<(), EndFault> {
        Ok(())
    }

    fn take<M: Message>(&mut self, message: &M) -> Result<(), EndFault> {
        message.write_to(self)
    }

    fn settle(&mut self) -> Result<(), EndFault> {
        Ok(())
    }
}
