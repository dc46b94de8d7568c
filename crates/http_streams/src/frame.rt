//! Reading and writing one frame.
ghost use Rattle.std.specs.Prelude.{◌≡◌, ◌++◌, ◌≤◌, ℕ, List, OnErr, OnOk, length};
ghost use Rattle.http_streams.specs.Frame.{
  FrameData,
  IsFrame,
  frame_bytes,
  front_data,
  front_of,
  most_bytes,
  whole,
};

use std::alloc::AllocError;

/// The most bytes that a frame carries.
pub const MAX_BYTES: usize = 65_536;

/// Some bytes of a connection. A frame without bytes is the end of them.
///
/// A stream has a frame as the connection's number, the count of the bytes, both as four bytes with the
/// highest first, and the bytes.
#[derive(Clone, Copy)]
pub struct Frame<'a> {
    /// The connection's number.
    pub connection: u32,
    /// Its bytes, at most [`MAX_BYTES`].
    pub bytes: &'a [u8],
}

/// What some bytes begin with.
#[derive(Clone, Copy)]
pub enum Front<'a> {
    /// A frame, and what follows it.
    Whole(Frame<'a>, &'a [u8]),
    /// A frame that is not whole.
    Part,
    /// A frame with more bytes than there may be.
    TooLong,
}

/// Returns what the input begins with. It copies nothing.
pub fn next_frame(input: &[u8]) -> Front<'_>
    ensures { front_data result ≡ front_of input.now }
{
    let [c0, c1, c2, c3, n0, n1, n2, n3, rest @ ..] = input else {
        return Front::Part;
    };
    let connection = u32::from_be_bytes([*c0, *c1, *c2, *c3]);
    let len = u32::from_be_bytes([*n0, *n1, *n2, *n3]) as usize;
    if len > MAX_BYTES {
        return Front::TooLong;
    }
    if len > rest.len() {
        return Front::Part;
    }
    let frame = Frame {
        connection,
        bytes: &rest[..len],
    };
    Front::Whole(frame, &rest[len..])
}

/// Appends a frame. On `Err` the output is as it was.
pub fn push_frame(out: &mut Vec<u8>, frame: Frame<'_>) -> Result<(), AllocError>
    requires { length frame.bytes.now ≤ most_bytes }
    ensures ok { OnOk result (out.new.items ≡ out.old.items
        ++ frame_bytes (record { connection = frame.entry.connection; bytes = frame.entry.bytes.now })) }
    ensures err { OnErr result (out.new.items ≡ out.old.items) }
{
    out.reserve(8 + frame.bytes.len())?;
    out.extend_from_slice(&frame.connection.to_be_bytes())?;
    out.extend_from_slice(&(frame.bytes.len() as u32).to_be_bytes())?;
    out.extend_from_slice(frame.bytes)?;
    Ok(())
}

/// A law: what is appended for a frame is read as that frame, whatever follows. So a stream is cut into
/// frames in one way.
pub fn frames_read_back()
    ensures { (frame : FrameData) (rest : List ℕ) → IsFrame frame
        → front_of (frame_bytes frame ++ rest) ≡ whole frame rest }
{}
