//! The parts of a text round one of its bytes.
ghost use Rattle.std.specs.Prelude.{◌≡◌, ◌≤◌, IfSome, ◌<◌, drop, take, length, position, slice_index};
ghost use Rattle.gw_head.specs.Pieces.{is_byte, count_of, before, after};

use memchr::memchr;

/// The byte at `i`, or 0 behind the last.
pub(crate) fn byte_at(bytes: &[u8], i: usize) -> u8
    ensures { result ≡ slice_index bytes.now i }
{
    if i < bytes.len() { bytes[i] } else { 0 }
}

/// The bytes behind the first `n`, or none where there are fewer.
pub(crate) fn skip(bytes: &[u8], n: usize) -> &[u8]
    ensures { result.now ≡ drop n bytes.now }
{
    if n < bytes.len() {
        &bytes[n..]
    } else {
        &bytes[bytes.len()..]
    }
}

/// The first `n` bytes, or all where there are fewer.
pub(crate) fn front(bytes: &[u8], n: usize) -> &[u8]
    ensures { result.now ≡ take n bytes.now }
{
    if n < bytes.len() { &bytes[..n] } else { bytes }
}

/// The place of the first such byte.
pub(crate) fn place_of(bytes: &[u8], byte: u8) -> Option<usize>
    ensures place { result ≡ position (is_byte byte) bytes.now }
    ensures within { IfSome result (λ at. at < length bytes.now) }
{
    memchr(byte, bytes)
}

/// What stands before the first such byte, or all where there is none.
pub(crate) fn before(bytes: &[u8], byte: u8) -> &[u8]
    ensures { result.now ≡ before byte bytes.now }
{
    match place_of(bytes, byte) {
        Some(at) => front(bytes, at),
        None => bytes,
    }
}

/// What stands behind the first such byte, or nothing where there is none.
pub(crate) fn after(bytes: &[u8], byte: u8) -> &[u8]
    ensures { result.now ≡ after byte bytes.now }
{
    match place_of(bytes, byte) {
        Some(at) => skip(bytes, at + 1),
        None => skip(bytes, bytes.len()),
    }
}

/// How often the byte stands in the text.
pub(crate) fn count_of(bytes: &[u8], byte: u8) -> usize
    ensures count { result ≡ count_of byte bytes.now }
    ensures within { result ≤ length bytes.now }
{
    bytes.iter().filter(|b| **b == byte).count()
}
