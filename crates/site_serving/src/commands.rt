//! What carries out lines.
ghost use Rattle.std.specs.Prelude.{◌≡◌, ℕ, List, Bool, true, map, IfOk, IfErr, ◌⊎◌};
ghost use Rattle.std.specs.String.{string_bytes};
ghost use Rattle.site_replies.specs.declared.reply.Refusal.TheVariants.{OutOfMemory, Store};
ghost use Rattle.site_replies.specs.Reply.{ReplyData, reply_data};
ghost use Rattle.site_serving.specs.Served.{IsCarriedOut, Replied};

use crate::line_reply::LineReply;
use page_trace::Watch;
use site_replies::Refusal;

/// What carries out lines, each of which gets one reply, and finds what the lines before it have
/// left.
pub trait Commands {
    /// What no line changes, as contracts see it.
    ghost Fixed: { Type 0 };

    /// What a line finds and leaves, as contracts see it.
    ghost State: { Type 0 };

    /// What no line changes.
    ghost fixed: { Self → Fixed };

    /// What a line finds.
    ghost state: { Self → State };

    /// What a line means: what it leaves, and the reply to it.
    ghost steps: { Fixed → State → List ℕ → State × ReplyData };

    /// Which reply a line may get, and what it then leaves. Memory or a database may refuse a line,
    /// whatever it means.
    ghost replies: { Fixed → State → List ℕ → ReplyData → State → Type 0 };

    /// Whether a line is an edit.
    ghost edits: { List ℕ → Bool };

    /// Whether the history has a line that got this reply: it is an edit that was done.
    ghost keeps: { Replied → Bool };

    /// Whether these lines rebuild what lasts of a state.
    ghost rebuilds: { State → List (List ℕ) → Type 0 };

    /// Carries out a line, given without its newline, and says beside its reply whether the history
    /// has it. The watch sees each invocation of a page.
    fn carry_out<V: Watch>(&mut self, line: &[u8], watch: &mut V) -> LineReply
        ensures replies { replies (fixed self.old) (state self.old) line.now
            (reply_data result.reply) (state self.new) }
        ensures carried { IsCarriedOut (reply_data result.reply)
            → (state self.new, reply_data result.reply)
            ≡ steps (fixed self.old) (state self.old) line.now }
        ensures kept { result.is_kept
            ≡ keeps (record { line = line.now; reply = reply_data result.reply }) }
        ensures edit { result.is_kept ≡ true → edits line.now ≡ true }
        ensures look { result.is_look ≡ true → state self.new ≡ state self.old }
        ensures fixed { fixed self.new ≡ fixed self.old };

    /// Returns lines that rebuild what lasts of the state, each without its newline. It fails as a
    /// command would be refused: if memory runs out, or by the database.
    fn short_history(&mut self) -> Result<Vec<String>, Refusal>
        ensures lines { IfOk result
            (λ lines. rebuilds (state self.old) (map string_bytes lines.items)) }
        ensures fault { IfErr result (λ e. (e ≡ OutOfMemory) ⊎ (e ≡ Store)) }
        ensures same { state self.new ≡ state self.old }
        ensures fixed { fixed self.new ≡ fixed self.old };
}
