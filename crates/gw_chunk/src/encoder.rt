//! The encoder of chunks.
ghost use Rattle.std.specs.Prelude.{◌≡◌, ◌+◌, ◌<◌, ◌≤◌, ◌++◌, length, vec_len, vec_capacity, IsOk, OnOk, OnErr};
ghost use Rattle.std.specs.Char.{digit_char};
ghost use Rattle.std.specs.Int.Digits.{digits_of};
ghost use Rattle.gw_chunk.specs.Chunked.{coded_end, coded_piece, size_text};

use crate::error::NoMemory;

/// The most bytes of data that one written chunk has.
pub const PIECE_LIMIT: usize = 8_192;

const CRLF: &[u8] = b"\r\n";

/// The most bytes that a written chunk has besides its data: the digits of its size and two CRLF.
pub const FRAME_LIMIT: usize = 8;

/// How many bytes the last chunk with its empty trailer section has.
pub const END_LEN: usize = 5;

/// Appends one chunk with these bytes of data, of which there are 1 to 8,192 (RFC 9112, section 7.1). It takes no
/// memory where there is room for the data and 8 bytes more. Where there is no memory for it, `out` stays as it was.
pub fn encode_piece(bytes: &[u8], out: &mut Vec<u8>) -> Result<(), NoMemory>
    requires some { 0 < length bytes.now }
    requires most { length bytes.now ≤ PIECE_LIMIT }
    ensures ok { OnOk result (out.new.items ≡ out.old.items ++ coded_piece bytes.now) }
    ensures err { OnErr result (out.new.items ≡ out.old.items) }
    ensures room { vec_len out.old + (length bytes.now + FRAME_LIMIT) ≤ vec_capacity out.old → IsOk result }
    ensures capacity { vec_capacity out.old ≤ vec_capacity out.new }
{
    out.reserve(bytes.len() + FRAME_LIMIT)?;
    push_size(bytes.len(), out);
    append(CRLF, out);
    append(bytes, out);
    append(CRLF, out);
    Ok(())
}

/// Appends the last chunk and an empty trailer section. It takes no memory where there is room for their 5 bytes.
/// Where there is no memory for them, `out` stays as it was.
pub fn encode_end(out: &mut Vec<u8>) -> Result<(), NoMemory>
    ensures ok { OnOk result (out.new.items ≡ out.old.items ++ coded_end) }
    ensures err { OnErr result (out.new.items ≡ out.old.items) }
    ensures room { vec_len out.old + END_LEN ≤ vec_capacity out.old → IsOk result }
    ensures capacity { vec_capacity out.old ≤ vec_capacity out.new }
{
    out.extend_from_slice(end_text())
}

/// The text of the last chunk and an empty trailer section.
pub fn end_text() -> &'static [u8]
    ensures { result.now ≡ coded_end }
{
    b"0\r\n\r\n"
}

// Appends bytes for which there is room.
fn append(bytes: &[u8], out: &mut Vec<u8>)
    requires { vec_len out.old + length bytes.now ≤ vec_capacity out.old }
    ensures items { out.new.items ≡ out.old.items ++ bytes.now }
    ensures len { vec_len out.new ≡ vec_len out.old + length bytes.now }
    ensures capacity { vec_capacity out.old ≤ vec_capacity out.new }
{
    out.extend_from_slice(bytes).unwrap();
}

// Appends the size in lower-case hexadecimal digits, for which there is room; nothing for 0.
fn push_size(size: usize, out: &mut Vec<u8>)
    requires { vec_len out.old + length (digits_of 16 size) ≤ vec_capacity out.old }
    ensures items { out.new.items ≡ out.old.items ++ size_text size }
    ensures len { vec_len out.new ≡ vec_len out.old + length (digits_of 16 size) }
    ensures capacity { vec_capacity out.new ≡ vec_capacity out.old }
{
    if size == 0 {
        return;
    }
    push_size(size / 16, out);
    out.push_reserved(digit_byte((size % 16) as u8));
}

/// The lower-case hexadecimal digit of a number below 16.
pub(crate) fn digit_byte(digit: u8) -> u8
    requires { digit < 16 }
    ensures { result ≡ digit_char digit }
{
    if digit < 10 {
        b'0' + digit
    } else {
        b'a' + (digit - 10)
    }
}
