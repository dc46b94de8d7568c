//! Laws of serving.
ghost use Rattle.std.specs.Prelude.{◌≡◌, ◌⊎◌, ℕ, List, Option, None, length};
ghost use Rattle.http1.specs.declared.conn.Limits.{Limits};
ghost use Rattle.http1.specs.Message.{Request as Read, ReadsRequests};
ghost use Rattle.site_replies.specs.Reply.{ReplyData, page};
ghost use Rattle.http_messages.specs.declared.entity_tag.EntityTag.{EntityTag as Tag};
ghost use Rattle.http_messages.specs.Response.{reply_response, not_modified};

/// A stream is cut into requests in one way alone, whatever the client meant: where one reader of
/// this grammar finds the end of a request, each finds it. So no request hides in another.
pub fn one_stream_one_cut()
    ensures { (limits : Limits) (ms ns : List Read) (stream r q : List ℕ) → length ms ≡ length ns
        → ReadsRequests limits stream ms r → ReadsRequests limits stream ns q
        → (ms ≡ ns) × (r ≡ q) }
{}

/// Of a request only its condition has a say in the response to a page, and no more than whether
/// the page is left out: no field of a response has a byte that the client sent.
pub fn conditions_leave_out_the_page()
    ensures { (tag : Tag) (condition : Option (List ℕ)) (reply : ReplyData)
        → (reply_response tag condition reply ≡ reply_response tag None reply)
        ⊎ ((bytes : List ℕ) × (reply ≡ page 200 bytes)
        × (reply_response tag condition reply ≡ not_modified tag)) }
{}
