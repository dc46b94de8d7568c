//! What HTTP shows.
ghost use Rattle.std.specs.Prelude.{◌≡◌, ℕ, Bool, true, List, IfOk, OnErr};
ghost use Rattle.site_replies.specs.Reply.{ReplyData, reply_data};
ghost use Rattle.http_messages.specs.declared.entity_tag.EntityTag.{EntityTag as Tag};

use http_messages::EntityTag;
use site_replies::SiteReply;
use std::alloc::AllocError;

/// A site that HTTP shows.
pub trait Pages {
    /// The tag of the pages that it shows now.
    ghost tag_of: { Self → Tag };

    /// From the first state, this is the reply to a request for the page of a path, and leaves the
    /// second state.
    ghost shows: { Self → List ℕ → ReplyData → Self → Type 0 };

    /// From the first state, these bytes are the replies to these lines, and leave the second
    /// state.
    ghost carries_out: { Self → List ℕ → List ℕ → Self → Type 0 };

    /// From the first state, memory ran out among these lines, and left the second state.
    ghost breaks_off: { Self → List ℕ → Self → Type 0 };

    /// From the first state, what was done is committed or not, and leaves the second state.
    ghost commits: { Self → Bool → Self → Type 0 };

    /// Whether no commit has failed.
    ghost is_sound: { Self → Type 0 };

    /// Returns the tag of the pages that it shows now.
    fn tag(&self) -> EntityTag
        ensures { result ≡ tag_of self.now };

    /// Replies with the page of a path.
    fn page(&mut self, path: &str) -> SiteReply
        ensures shows { shows self.old path.now (reply_data result) self.new }
        ensures sound { is_sound self.old → is_sound self.new };

    /// Carries out lines, each a command, and returns the bytes of their replies. On `Err` some of
    /// them, the first ones, may be carried out.
    fn carry_out(&mut self, lines: &[u8]) -> Result<Vec<u8>, AllocError>
        ensures ok { IfOk result (λ replies. carries_out self.old lines.now replies.items self.new) }
        ensures err { OnErr result (breaks_off self.old lines.now self.new) }
        ensures sound { is_sound self.old → is_sound self.new };

    /// Commits what was done since the last call. Returns whether that went well.
    fn commit(&mut self) -> bool
        requires { is_sound self.old }
        ensures commits { commits self.old result self.new }
        ensures sound { result ≡ true → is_sound self.new };
}
