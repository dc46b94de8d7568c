//! The fields of a log.
ghost use Rattle.std.specs.Prelude.{◌≡◌, ◌+◌, ◌*◌, ◌<◌, ◌≤◌, ◌↔◌, ◌^◌, length, IsTrue};
ghost use Rattle.sqlite_wal.specs.Format.{be32, stored_sum, IsSigned};
ghost use Rattle.sqlite_wal.specs.Recovery.{frame_at};
ghost use Rattle.log_tails.specs.Tails.{shut_by};

use sqlite_wal::checksum_of;

const HEADER: usize = 32;

const FRAME_HEADER: usize = 24;

/// Reads four bytes as a number, the highest first.
pub(crate) fn get_be32(bytes: &[u8], at: usize) -> u32
    requires { at + 4 ≤ length bytes.now }
    ensures { result ≡ be32 bytes.now at }
{
    bytes[at] as u32 * 0x100_0000
        + bytes[at + 1] as u32 * 0x1_0000
        + bytes[at + 2] as u32 * 0x100
        + bytes[at + 3] as u32
}

fn get_sum(bytes: &[u8], at: usize) -> (u32, u32)
    requires { at + 8 ≤ length bytes.now }
    ensures { result ≡ stored_sum bytes.now at }
{
    (get_be32(bytes, at), get_be32(bytes, at + 4))
}

/// Returns whether a header begins with the magic number and ends with its checksum.
pub(crate) fn is_signed(head: &[u8; 32]) -> bool
    ensures { IsTrue result ↔ IsSigned head.now }
{
    if head[0] != 0x37 || head[1] != 0x7f || head[2] != 0x06 {
        return false;
    }
    if head[3] != 0x82 && head[3] != 0x83 {
        return false;
    }
    checksum_of(head[3] == 0x83, (0, 0), &head[..24]) == get_sum(head, 24)
}

/// Returns where a frame begins, counted from 0.
pub(crate) fn frame_offset(page_size: usize, frame: usize) -> usize
    requires size { page_size ≤ 65536 }
    requires few { frame ≤ 0xffff_ffff }
    ensures at { result ≡ frame_at page_size frame }
    ensures small { result < 2 ^ 51 }
{
    HEADER + frame * (FRAME_HEADER + page_size)
}

/// Returns the byte that shuts a gate which this byte opens.
pub(crate) fn other_than(key: u8) -> u8
    ensures { result ≡ shut_by key }
{
    if key == 0 { 1 } else { 0 }
}
