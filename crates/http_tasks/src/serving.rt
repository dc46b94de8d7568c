//! Serving clients of HTTP.
ghost use Rattle.std.specs.Prelude.{◌≡◌, ◌≢◌, ℕ, List, [], Some, false, option_map};
ghost use Rattle.std.specs.String.{string_bytes};
ghost use Rattle.byte_io.specs.Journal.{IsSettled};
ghost use Rattle.http_tasks.specs.Told.{HoldsTold};

use crate::writer::WriterSink;
use byte_io::{Journal, Writing};
use page_trace::Watch;
use site_http::{SitePages, serve_site, serve_site_frames};
use site_serving::Commands;
use site_tasks::failed;
use std::hash::RandomState;
use std::io;
use std::io::{Read, Write};
use std::process::ExitCode;
use std::random::RandomSource;

/// Who is served, and who may edit.
#[derive(Drop)]
pub struct Clients {
    /// Whether there are many clients, whose bytes are in frames, in place of one.
    pub framed: bool,
    /// The token that edits need; without one, none are taken. An empty one would let in everybody who
    /// sends `Authorization: Bearer ` with nothing after it.
    pub token: Option<String>,
    ghost token_is_not_empty: { option_map string_bytes token ≢ Some [] },
}

/// Serves a site that ends with the program.
pub fn serve<C: Commands + Drop, V: Watch>(
    rt: &HostRuntime,
    site: C,
    clients: Clients,
    watch: V,
) -> ExitCode {
    let journal = Writing::new(Vec::new(rt.alloc()));
    let writer = io::writer(rt);
    let (_, _, served) = serve_pages(rt, site, journal, watch, clients, &mut rt.reader(), writer);
    match served {
        Ok(()) => ExitCode::SUCCESS,
        Err(error) => failed(rt, error),
    }
}

/// Serves the clients, and returns the journal and the writer beside how that ended.
pub(crate) fn serve_pages<C: Commands + Drop, J: Journal, V: Watch, R: Read, W: Write>(
    rt: &HostRuntime,
    site: C,
    journal: J,
    watch: V,
    clients: Clients,
    reader: &mut R,
    writer: W,
) -> (J, W, io::Result<()>)
    requires { J.has_failed journal ≡ false }

    // Whatever the log is found to hold are the lines that were noted before and then the edits that
    // were done at the first calls; and no byte that was written tells of another edit.
    ensures holds { IsSettled J.written J.contents J.is_open J.may_hold J.noted journal
        → (held : List (List ℕ)) → J.may_hold result.0 held
        → HoldsTold (C.replies (C.fixed site)) C.keeps clients.framed
        (option_map string_bytes clients.token) (C.state site) (J.noted journal)
        (R.remaining reader.old) (R.remaining reader.new)
        (W.contents writer) (W.contents result.1) result.2 held }
{
    let (keys, start) = match secrets(rt) {
        Ok(secrets) => secrets,
        Err(error) => return (journal, writer, Err(error)),
    };
    let alloc = rt.alloc();
    let pages = SitePages::new(alloc, site, journal, watch, start);
    let Clients { framed, token } = clients;
    if framed {
        let mut sink = WriterSink {
            writer,
            has_failed: false,
        };
        let (journal, served) = serve_site_frames(alloc, pages, token, keys, reader, &mut sink);
        let WriterSink {
            writer,
            has_failed: _,
        } = sink;
        (journal, writer, served)
    } else {
        let mut writer = writer;
        let (journal, served) = serve_site(alloc, pages, token, keys, reader, &mut writer);
        (journal, writer, served)
    }
}

/// Draws the keys of a connection's tables, and the number of this start in its tags.
fn secrets(rt: &HostRuntime) -> io::Result<(RandomState, u64)> {
    let mut bytes = [0; 8];
    rt.fill_bytes(&mut bytes)?;
    Ok((RandomState::new(rt)?, u64::from_le_bytes(bytes)))
}
