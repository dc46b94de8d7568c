//! Writing all of some bytes, in few writes.
ghost use Rattle.std.specs.Prelude.{◌≡◌, ◌++◌, [], false, flat_map, is_err, OnOk, OnErr};
ghost use Rattle.std.specs.Io.KnownBytes.{Appends};
ghost use Rattle.byte_io.specs.Known.{AppendsFront, Gathers};

use crate::{EndFault, Sink};
use arrayvec::ArrayVec;

/// Writes all the bytes, in as many writes as the sink wants. On `Err` some of them were written,
/// from their front.
pub fn write_all<W: Sink>(writer: &mut W, bytes: &[u8]) -> Result<(), EndFault>
    requires { W.has_failed writer.old ≡ false }
    ensures ok { OnOk result (Appends (W.contents writer.old) (W.contents writer.new) bytes.now) }
    ensures part { OnErr result
        (AppendsFront (W.contents writer.old) (W.contents writer.new) bytes.now) }
    ensures fault { W.has_failed writer.new ≡ is_err result }
{
    let mut rest = bytes;
    while !rest.is_empty() {
        let taken = writer.write(rest)?;
        rest = &rest[taken..];
    }
    Ok(())
}

/// Writes the pieces, one after another. They are gathered on the stack and written together, up to
/// 16,384 bytes; if they are more, only short ones are. It does not allocate. On `Err` some of their
/// bytes were written, from the front.
pub fn write_pieces<W: Sink>(writer: &mut W, pieces: &[&[u8]]) -> Result<(), EndFault>
    requires { W.has_failed writer.old ≡ false }
    ensures ok { OnOk result (Appends (W.contents writer.old) (W.contents writer.new)
        (flat_map (λ piece. piece.now) pieces.now)) }
    ensures part { OnErr result (AppendsFront (W.contents writer.old) (W.contents writer.new)
        (flat_map (λ piece. piece.now) pieces.now)) }
    ensures fault { W.has_failed writer.new ≡ is_err result }
{
    // The room is cleared as it is made, so it is no larger than it has to be.
    match length_of(pieces) {
        1_025..=4_096 => write_buffered(writer, &mut ArrayVec::<u8, 4_096>::new(), pieces),
        4_097..=16_384 => write_buffered(writer, &mut ArrayVec::<u8, 16_384>::new(), pieces),
        _ => write_buffered(writer, &mut ArrayVec::<u8, 1_024>::new(), pieces),
    }
}

// How many bytes the pieces have, which no clause names: it decides nothing but how many writes
// there are.
fn length_of(pieces: &[&[u8]]) -> usize {
    let mut length: usize = 0;
    for piece in pieces {
        length = length.saturating_add(piece.len());
    }
    length
}

// Writes the pieces, gathered as far as there is room.
fn write_buffered<W: Sink, const ROOM: usize>(
    writer: &mut W,
    gathered: &mut ArrayVec<u8, ROOM>,
    pieces: &[&[u8]],
) -> Result<(), EndFault>
    requires sound { W.has_failed writer.old ≡ false }
    requires empty { gathered.old.items ≡ [] }
    ensures ok { OnOk result (Appends (W.contents writer.old) (W.contents writer.new)
        (flat_map (λ piece. piece.now) pieces.now)) }
    ensures part { OnErr result (AppendsFront (W.contents writer.old) (W.contents writer.new)
        (flat_map (λ piece. piece.now) pieces.now)) }
    ensures fault { W.has_failed writer.new ≡ is_err result }
{
    for piece in pieces {
        gather(writer, gathered, piece)?;
    }
    write_all(writer, gathered.as_slice())
}

// Gathers one more piece. If it does not fit, what was gathered is written before it.
fn gather<W: Sink, const ROOM: usize>(
    writer: &mut W,
    gathered: &mut ArrayVec<u8, ROOM>,
    piece: &[u8],
) -> Result<(), EndFault>
    requires { W.has_failed writer.old ≡ false }
    ensures ok { OnOk result (Gathers (W.contents writer.old) (W.contents writer.new)
        gathered.old.items gathered.new.items piece.now) }
    ensures part { OnErr result (AppendsFront (W.contents writer.old) (W.contents writer.new)
        (gathered.old.items ++ piece.now)) }
    ensures fault { W.has_failed writer.new ≡ is_err result }
{
    match gathered.try_extend_from_slice(piece) {
        Ok(()) => return Ok(()),
        Err(_) => write_all(writer, gathered.as_slice())?,
    }
    gathered.clear();
    match gathered.try_extend_from_slice(piece) {
        Ok(()) => Ok(()),
        Err(_) => write_all(writer, piece),
    }
}
