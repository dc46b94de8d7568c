//! One frame of one connection.
ghost use Rattle.std.specs.Prelude.{◌≡◌, ◌++◌, List, ℕ, OnOk, flat_map};
ghost use Rattle.http_server.specs.Connection.{config_of, history};
ghost use Rattle.http_streams.specs.Deeds.{pieces_bytes};
ghost use Rattle.http_streams.specs.Part.{IsPart};

use crate::frame::{Frame, MAX_BYTES, push_frame};
use crate::rounds::Commits;
use http_server::{Connection, Service};
use std::io;
use std::io::ErrorKind;

/// Appends what a connection has to send, in frames.
fn drain(connection: &mut Connection, number: u32, out: &mut Vec<u8>) -> io::Result<()>
    ensures sent { (pieces : List (List ℕ))
        × ((history connection.new).sent
        ≡ (history connection.old).sent ++ flat_map (λ piece. piece) pieces)
        × (out.new.items ≡ out.old.items ++ pieces_bytes number pieces) }
    ensures received { (history connection.new).received ≡ (history connection.old).received }
    ensures ended { (history connection.new).ended ≡ (history connection.old).ended }
    ensures calls { (history connection.new).calls ≡ (history connection.old).calls }
    ensures config { config_of connection.new ≡ config_of connection.old }
{
    while connection.wants_write() {
        let pending = connection.output();
        let bytes = &pending[..pending.len().min(MAX_BYTES)];
        let count = bytes.len();
        push_frame(
            out,
            Frame {
                connection: number,
                bytes,
            },
        )?;
        connection.sent(count);
    }
    Ok(())
}

/// Hands a frame's bytes to its connection, which calls the service for each request that is whole,
/// and appends what it then has to send. A frame without bytes is the end of what the client sends.
///
/// On `Err` nothing more can be served: memory ran out, or, with the kind `Other`, the service couldn't
/// commit.
pub(crate) fn serve_part<S: Commits>(
    connection: &mut Connection,
    frame: Frame<'_>,
    service: &mut S,
    out: &mut Vec<u8>,
) -> io::Result<()>
    requires { S.is_sound service.old }
    ensures part { IsPart S.Service.answers S.settles frame.entry.connection frame.entry.bytes.now
        connection.old connection.new service.old service.new out.old.items out.new.items result }
    ensures sound { OnOk result (S.is_sound service.new) }
{
    let mut rest = frame.bytes;
    connection.read_from(&mut rest)?;
    // A loop is proved to end, so this one counts its turns.
    for _ in 0..u64::MAX {
        connection.advance(service);
        if !service.commit() {
            return Err(ErrorKind::Other.into());
        }
        if connection.wants_write() {
            // Parsing may have paused for what is sent here.
            drain(connection, frame.connection, out)?;
        } else if rest.is_empty() || connection.read_from(&mut rest)? == 0 {
            return Ok(());
        }
    }
    Err(ErrorKind::TimedOut.into())
}
