//! Chunks that are framed where their data stands.
ghost use Rattle.std.specs.Prelude.{◌≡◌, ◌+◌, ◌<◌, ◌≤◌, ◌++◌, length, take, drop, slice_range};
ghost use Rattle.std.specs.Int.Digits.{digits_of};
ghost use Rattle.gw_chunk.specs.Bytes.{crlf};
ghost use Rattle.gw_chunk.specs.Chunked.{coded_piece, size_text};

use crate::encoder::{PIECE_LIMIT, digit_byte};

/// How many bytes are kept before the data of a piece that is framed in place, for its size and CRLF.
pub const FRAME_BEFORE: usize = 6;

/// How many bytes are kept behind it, for CRLF.
pub const FRAME_BEHIND: usize = 2;

/// Frames a piece of 1 to 8,192 bytes of data where it stands: behind the buffer's first 6 bytes and before 2 more,
/// whatever they hold (RFC 9112, section 7.1). The chunk begins at the place that is given back, which is 0 for a size
/// of four digits, and ends behind those 2 bytes. All other bytes stay.
pub fn frame_piece(buffer: &mut [u8], len: usize) -> usize
    requires some { 0 < len }
    requires most { len ≤ PIECE_LIMIT }
    requires room { FRAME_BEFORE + (len + FRAME_BEHIND) ≤ length buffer.old }
    ensures text { slice_range buffer.new result (FRAME_BEFORE + (len + FRAME_BEHIND))
        ≡ coded_piece (slice_range buffer.old FRAME_BEFORE (FRAME_BEFORE + len)) }
    ensures start { result + (length (size_text len) + 2) ≡ FRAME_BEFORE }
    ensures before { take result buffer.new ≡ take result buffer.old }
    ensures behind { drop (FRAME_BEFORE + (len + FRAME_BEHIND)) buffer.new
        ≡ drop (FRAME_BEFORE + (len + FRAME_BEHIND)) buffer.old }
{
    put_line_end(buffer, FRAME_BEFORE + len);
    put_line_end(buffer, FRAME_BEFORE - 2);
    put_size(&mut buffer[..FRAME_BEFORE - 2], len)
}

// Writes CRLF at the place.
fn put_line_end(buffer: &mut [u8], at: usize)
    requires { at + 2 ≤ length buffer.old }
    ensures { buffer.new ≡ (take at buffer.old ++ crlf) ++ drop (at + 2) buffer.old }
{
    buffer[at] = b'\r';
    buffer[at + 1] = b'\n';
}

// Writes the size in lower-case hexadecimal digits at the end, nothing for 0; gives the place of the first.
fn put_size(buffer: &mut [u8], size: usize) -> usize
    requires { length (digits_of 16 size) ≤ length buffer.old }
    ensures text { buffer.new ≡ take result buffer.old ++ size_text size }
    ensures start { result + length (digits_of 16 size) ≡ length buffer.old }
{
    if size == 0 {
        return buffer.len();
    }
    let last = buffer.len() - 1;
    buffer[last] = digit_byte((size % 16) as u8);
    put_size(&mut buffer[..last], size / 16)
}
