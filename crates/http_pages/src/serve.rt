//! Serving one connection.
ghost use Rattle.http_pages.specs.Serving.{IsServedTo};

use crate::pages::Pages;
use crate::service::PageService;
use http_server::{Config, Connection, Service};
use http_streams::{Commits, serve_rounds};
use std::hash::RandomState;
use std::io;
use std::io::{Read, Write};

/// The limits of a connection, in bytes: of a head 65,536, of a body 1,048,576; at most 65,536 wait
/// to be sent before more is read, and 16,384 are read at a time at first.
pub const CONFIG: Config = Config {
    limits: http1::Limits {
        max_head_len: 65_536,
        max_extensions_len: 16_384,
        max_trailers_len: 16_384,
    },
    max_body_len: 1_048_576,
    max_pending: 65_536,
    read_size: 16_384,
};

/// Serves a site to the client that sends the reader's bytes and reads the writer's. The keys are
/// secret: a client chooses the names of fields, and must not choose which of them collide.
///
/// On `Err` reading or writing failed as the error says; with the kind `Other` the site couldn't
/// commit, and no response of the last round was sent.
pub fn serve_http<P: Pages, R: Read, W: Write>(
    service: &mut PageService<P>,
    keys: RandomState,
    reader: &mut R,
    writer: &mut W,
) -> io::Result<()>
    requires { P.is_sound service.old.pages }
    ensures { IsServedTo ⟦<PageService<P> as Service>⟧.answers ⟦<PageService<P> as Commits>⟧.settles
        CONFIG (R.remaining reader.old) (R.remaining reader.new) (W.contents writer.old)
        (W.contents writer.new) result service.old service.new }
{
    let mut connection = Connection::new(service.alloc, keys, CONFIG);
    serve_rounds(&mut connection, service, reader, writer)
}
