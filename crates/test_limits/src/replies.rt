//! The expected reply to a line.
use site_program::{Refusal, SiteReply};

/// A reply.
#[derive(Clone, Copy)]
pub enum Wanted {
    Ok,
    Id(u32),
    No(Refusal),
    Page(u16, &'static str),
}

/// Returns whether a reply is the expected one.
pub fn is_reply(reply: &SiteReply, wanted: Wanted) -> bool {
    match (reply, wanted) {
        (SiteReply::Ok, Wanted::Ok) => true,
        (SiteReply::OkId(id), Wanted::Id(other)) => *id == other,
        (SiteReply::Refused(refusal), Wanted::No(other)) => *refusal == other,
        (SiteReply::Page { status, body }, Wanted::Page(other, text)) => {
            *status == other && body.as_slice() == text.as_bytes()
        }
        _ => false,
    }
}
