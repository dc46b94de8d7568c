//! What comes of a line: its reply, and whether the history has it.
ghost use Rattle.std.specs.Prelude.{◌≡◌, false};
ghost use Rattle.site_replies.specs.Reply.{reply_data, refused};

use site_replies::{Refusal, SiteReply};

/// What comes of a line.
#[derive(Drop)]
pub struct LineReply {
    /// The reply.
    pub reply: SiteReply,
    /// Whether the line is an edit that was done, so that the history has it.
    pub is_kept: bool,
    /// Whether it is known that the line changed nothing: it may get this reply again.
    pub is_look: bool,
}

impl LineReply {
    /// Makes the reply to a line that is refused.
    pub fn refused(refusal: Refusal) -> Self
        ensures reply { reply_data result.reply ≡ refused refusal }
        ensures kept { result.is_kept ≡ false }
        ensures look { result.is_look ≡ false }
    {
        LineReply {
            reply: SiteReply::Refused(refusal),
            is_kept: false,
            is_look: false,
        }
    }
}
