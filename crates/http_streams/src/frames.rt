//! One frame of any connection.
ghost use Rattle.std.specs.Prelude.{◌≡◌, ◌++◌, ◌∷◌, [], List, OnErr, OnOk};
ghost use Rattle.http_streams.specs.Frame.{FrameData};
ghost use Rattle.http_streams.specs.Deeds.{Deed, pieces_bytes};
ghost use Rattle.http_streams.specs.Tables.{IsDone, IsServed, IsTableOf};

use crate::frame::{Frame, Front, next_frame, push_frame};
use crate::part::serve_part;
use crate::rounds::Commits;
use crate::table::Table;
use http_server::Service;
use std::io;
use std::io::ErrorKind;

/// Appends the frame that says that nothing more comes of a connection.
fn push_end(out: &mut Vec<u8>, number: u32) -> io::Result<()>
    ensures ok { OnOk result (out.new.items ≡ out.old.items ++ pieces_bytes number ([] ∷ [])) }
    ensures err { OnErr result (out.new.items ≡ out.old.items) }
{
    push_frame(
        out,
        Frame {
            connection: number,
            bytes: &[],
        },
    )?;
    Ok(())
}

/// Hands a frame to the connection of its number, and appends what that then has to send, in frames. A
/// number that is new opens a connection. A frame of a number that was used, or that comes while no
/// more connections may be open, is refused: its client is told that nothing more comes.
///
/// On `Err` nothing more can be served, as `serve_part` says.
pub(crate) fn serve_frame<S: Commits>(
    table: &mut Table,
    frame: Frame<'_>,
    service: &mut S,
    out: &mut Vec<u8>,
) -> io::Result<()>
    requires { S.is_sound service.old }
    ensures done { (deeds : List Deed) → IsTableOf deeds table.old
        → IsDone S.Service.answers S.settles
        (record { connection = frame.entry.connection; bytes = frame.entry.bytes.now }) deeds
        table.old table.new service.old service.new out.old.items out.new.items result }
    ensures sound { OnOk result (S.is_sound service.new) }
    ensures config { table.new.config ≡ table.old.config }
{
    let number = frame.connection;
    let Some(mut connection) = table.take(number) else {
        return push_end(out, number);
    };
    serve_part(&mut connection, frame, service, out)?;
    if connection.is_done() {
        return push_end(out, number);
    }
    table.put(number, connection)?;
    Ok(())
}

/// Serves the whole frames that the input begins with, and returns how many bytes they have.
///
/// On `Err` nothing more can be served: as `serve_frame` says or, with the kind `InvalidData`, a frame is
/// too long.
pub(crate) fn serve_held<S: Commits>(
    table: &mut Table,
    input: &[u8],
    service: &mut S,
    out: &mut Vec<u8>,
) -> io::Result<usize>
    requires { S.is_sound service.old }
    ensures served { (deeds : List Deed) → IsTableOf deeds table.old
        → IsServed S.Service.answers S.settles deeds table.old table.new service.old service.new
        input.now out.old.items out.new.items result }
    ensures sound { OnOk result (S.is_sound service.new) }
    ensures config { table.new.config ≡ table.old.config }
{
    let mut rest = input;
    loop {
        match next_frame(rest) {
            Front::Whole(frame, left) => {
                serve_frame(table, frame, service, out)?;
                rest = left;
            }
            Front::Part => return Ok(input.len() - rest.len()),
            Front::TooLong => return Err(ErrorKind::InvalidData.into()),
        }
    }
}
