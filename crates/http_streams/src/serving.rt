//! All frames of a stream.
ghost use Rattle.std.specs.Prelude.{◌≡◌, ℕ, Bool, false, OnOk};
ghost use Rattle.std.specs.Io.KnownBytes.{IsAtEnd};
ghost use Rattle.http_streams.specs.Tables.{ServesMany};

use crate::frames::serve_held;
use crate::rounds::Commits;
use crate::table::Table;
use byte_io::{Sink, write_all};
use bytes::BytesMut;
use http_server::Config;
use std::alloc::Global;
use std::hash::RandomState;
use std::io;
use std::io::{ErrorKind, Read};

// How many bytes there is room for as some are read.
const CHUNK: usize = 65_536;

/// Serves many clients of HTTP at once on one stream of frames, until the stream ends. Each number is
/// one client's connection, from the first frame of that number on; numbers only grow. At most 1,024
/// connections are open: one more is answered by a frame without bytes, which says that nothing more
/// comes of it, as is any frame of a connection that has ended.
///
/// On `Err` nothing more is served: reading failed as the error says, memory ran out, or, by its kind,
/// writing failed (`WriteZero`), the service couldn't commit (`Other`), a frame has more than 65,536
/// bytes (`InvalidData`), or the stream ends within a frame (`UnexpectedEof`).
pub fn serve_frames<S: Commits, R: Read, W: Sink>(
    alloc: Global,
    keys: RandomState,
    config: Config,
    service: &mut S,
    reader: &mut R,
    writer: &mut W,
) -> io::Result<()>
    requires sound { S.is_sound service.old }
    requires writer { W.has_failed writer.old ≡ false }
    ensures served { ServesMany S.Service.answers S.settles config service.old service.new
        (R.remaining reader.old) (R.remaining reader.new)
        (W.contents writer.old) (W.contents writer.new) result }
    ensures ended { OnOk result (IsAtEnd (R.remaining reader.new)) }
{
    let mut table = Table::new(alloc, keys, config);
    let mut held = BytesMut::new(alloc);
    let mut out = Vec::new(alloc);
    // A loop is proved to end, so this one counts its turns.
    for _ in 0..u64::MAX {
        held.reserve(CHUNK)?;
        if held.read_from(reader)? == 0 {
            if held.is_empty() {
                return Ok(());
            }
            return Err(ErrorKind::UnexpectedEof.into());
        }
        let used = serve_held(&mut table, held.as_slice(), service, &mut out);
        if write_all(writer, out.as_slice()).is_err() {
            return Err(ErrorKind::WriteZero.into());
        }
        out.clear();
        held.advance(used?);
    }
    Err(ErrorKind::TimedOut.into())
}
