//! Serving a site over HTTP.
ghost use Rattle.std.specs.Prelude.{◌≡◌, ◌⊎◌, ℕ, List, [], false, map, option_map, IsErrAnd, OnOk};
ghost use Rattle.std.specs.Io.KnownBytes.{Appends, Consumes, IsAtEnd};
ghost use Rattle.std.specs.IoError.{error_kind};
ghost use Rattle.std.specs.declared.io.ErrorKind.TheVariants.{Other};
ghost use Rattle.std.specs.String.{string_bytes};
ghost use Rattle.byte_io.specs.Journal.{IsSettled};
ghost use Rattle.http_pages.specs.declared.serve.TheConstants.{CONFIG};
ghost use Rattle.http_server.specs.Connection.{history};
ghost use Rattle.http_server.specs.History.{IsServed};
ghost use Rattle.http_server.specs.declared.connection.Connection.{Connection};
ghost use Rattle.byte_io.specs.Known.{AppendsFront};
ghost use Rattle.http_streams.specs.Ends.{EndsWell};
ghost use Rattle.http_streams.specs.Deeds.{Deed, output_of, rounds_of};
ghost use Rattle.http_streams.specs.Tables.{AreKnown};
ghost use Rattle.http_streams.specs.Taking.{AreTakenAfter};
ghost use Rattle.http_streams.specs.Frame.{ReadsAs};
ghost use Rattle.site_http.specs.Ahead.{HoldsEdits, IsAhead};
ghost use Rattle.site_http.specs.Pages.{waiting_of};
ghost use Rattle.site_http.specs.declared.site_pages.SitePages.{SitePages as PagesOf};

use crate::site_pages::SitePages;
use byte_io::{Journal, Sink};
use http_pages::{CONFIG, PageService, serve_http};
use http_streams::serve_frames;
use page_trace::Watch;
use site_serving::Commands;
use std::alloc::Global;
use std::hash::RandomState;
use std::io;
use std::io::{Read, Write};

/// Serves a site to the client that sends the reader's bytes and reads the writer's, and returns the
/// journal beside how that ended. With no token no edit is taken.
pub fn serve_site<C: Commands + Drop, J: Journal, V: Watch, R: Read, W: Write>(
    alloc: Global,
    pages: SitePages<C, J, V>,
    token: Option<String>,
    keys: RandomState,
    reader: &mut R,
    writer: &mut W,
) -> (J, io::Result<()>)
    requires { J.has_failed pages.journal ≡ false }

    // What was written is the responses to what was read, and whatever the log is found to hold has
    // each edit that a response tells of. After `Ok` the connection came to its end, and memory
    // didn't run out for it. The log has each edit that was done, or the error is of the kind
    // `Other`.
    ensures ahead { IsSettled J.written J.contents J.is_open J.may_hold J.noted pages.journal
        → waiting_of pages ≡ []
        → pages.is_lost ≡ false
        → (held : List (List ℕ))
        → J.may_hold result.0 held
        → (connection : Connection) × (after : PagesOf C J V)
        × ∥ IsServed CONFIG (history connection) ∥₁
        × Consumes (R.remaining reader.old) (R.remaining reader.new) (history connection).received
        × Appends (W.contents writer.old) (W.contents writer.new) (history connection).sent
        × OnOk result.1 (EndsWell (history connection))
        × (ahead : IsAhead C.Commands J.Journal (option_map string_bytes token) connection pages
        after held)
        × ((ahead.lost ≡ []) ⊎ IsErrAnd result.1 (λ e. error_kind e ≡ Other)) }
{
    let mut service = PageService {
        pages,
        token,
        alloc,
    };
    let served = serve_http(&mut service, keys, reader, writer);
    let PageService {
        pages,
        token: _,
        alloc: _,
    } = service;
    (pages.into_journal(), served)
}

/// Serves a site to the clients whose bytes the reader has in frames, and writes what they are sent in
/// frames, as [`serve_frames`](http_streams::serve_frames) does. Returns the journal beside how that
/// ended. With no token no edit is taken.
pub fn serve_site_frames<C: Commands + Drop, J: Journal, V: Watch, R: Read, W: Sink>(
    alloc: Global,
    pages: SitePages<C, J, V>,
    token: Option<String>,
    keys: RandomState,
    reader: &mut R,
    writer: &mut W,
) -> (J, io::Result<()>)
    requires journal { J.has_failed pages.journal ≡ false }
    requires writer { W.has_failed writer.old ≡ false }

    // Each client was sent what its own connection has to send, and whatever the log is found to hold
    // has each edit of a round that was committed: no byte that was sent tells of another. After `Ok`
    // each frame was taken, all was written, and the log has each edit that was done.
    ensures ahead { IsSettled J.written J.contents J.is_open J.may_hold J.noted pages.journal
        → waiting_of pages ≡ []
        → pages.is_lost ≡ false
        → (held : List (List ℕ))
        → J.may_hold result.0 held
        → (deeds : List Deed) × (stretch : List ℕ) × (rest : List ℕ) × (after : PagesOf C J V)
        × Consumes (R.remaining reader.old) (R.remaining reader.new) stretch
        × ReadsAs stretch (map (λ d. d.frame) deeds) rest
        × AppendsFront (W.contents writer.old) (W.contents writer.new) (output_of deeds)
        × AreKnown CONFIG deeds
        × OnOk result.1 (rest ≡ [])
        × OnOk result.1 (AreTakenAfter [] deeds)
        × OnOk result.1 (Appends (W.contents writer.old) (W.contents writer.new) (output_of deeds))
        × (holds : HoldsEdits C.Commands J.Journal (option_map string_bytes token) (rounds_of deeds)
        pages after held)
        × OnOk result.1 (holds.lost ≡ []) }

    // Serving ends well only at the end of the stream.
    ensures ended { OnOk result.1 (IsAtEnd (R.remaining reader.new)) }
{
    let mut service = PageService {
        pages,
        token,
        alloc,
    };
    let served = serve_frames(alloc, keys, CONFIG, &mut service, reader, writer);
    let PageService {
        pages,
        token: _,
        alloc: _,
    } = service;
    (pages.into_journal(), served)
}
