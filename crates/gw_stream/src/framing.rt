//! Pieces that are framed in the buffer where their data stands.

ghost use Rattle.std.specs.Prelude.{◌≡◌, ◌<◌, ◌≤◌, ◌+◌, ◌-◌, ◌++◌, length, take, drop};
ghost use Rattle.gw_chunk.specs.Chunked.{coded_piece};
ghost use Rattle.gw_stream.specs.Outbox.{begun_of, end_of, gap_of, piece_of, rest_of};

use gw_chunk::{END_LEN, FRAME_BEFORE, FRAME_BEHIND, PIECE_LIMIT, end_text, frame_piece};

/// How many bytes stand between the text and the data of a piece.
pub(crate) fn gap(chunks: bool) -> usize
    ensures { result ≡ gap_of chunks }
{
    if chunks { FRAME_BEFORE } else { 0 }
}

// Makes the data behind a text, with a gap between, a chunk that follows the text at once; says how long both are.
fn frame_chunk(buf: &mut [u8], done: usize, begun: usize) -> usize
    requires some { 0 < begun }
    requires most { begun ≤ PIECE_LIMIT }
    requires room { done + (FRAME_BEFORE + (begun + FRAME_BEHIND)) ≤ length buf.old }
    ensures text { take result buf.new ≡ take done buf.old ++ coded_piece (begun_of buf.old (done + FRAME_BEFORE) begun) }
    ensures kept { length buf.new ≡ length buf.old }
    ensures within { result ≤ done + (FRAME_BEFORE + (begun + FRAME_BEHIND)) }
{
    let start = frame_behind(buf, done, begun);
    let end = done + (FRAME_BEFORE + (begun + FRAME_BEHIND));
    if start == 0 {
        return end;
    }
    buf.copy_within(done + start..end, done);
    end - start
}

// Frames the data behind a text; the chunk begins so many bytes behind the text.
fn frame_behind(buf: &mut [u8], done: usize, begun: usize) -> usize
    requires some { 0 < begun }
    requires most { begun ≤ PIECE_LIMIT }
    requires room { done + (FRAME_BEFORE + (begun + FRAME_BEHIND)) ≤ length buf.old }
    ensures text { begun_of buf.new (done + result) (FRAME_BEFORE + (begun + FRAME_BEHIND) - result) ≡ coded_piece (begun_of buf.old (done + FRAME_BEFORE) begun) }
    ensures front { take done buf.new ≡ take done buf.old }
    ensures kept { length buf.new ≡ length buf.old }
    ensures start { result ≤ FRAME_BEFORE }
{
    frame_piece(&mut buf[done..], begun)
}

/// Closes the piece whose data stands behind a text, if it has any; says how long the text is then.
pub(crate) fn close_begun(buf: &mut [u8], done: usize, begun: usize, chunks: bool) -> usize
    requires most { begun ≤ PIECE_LIMIT }
    requires room { done + (FRAME_BEFORE + (begun + FRAME_BEHIND)) ≤ length buf.old }
    ensures text { take result buf.new ≡ take done buf.old ++ rest_of chunks (begun_of buf.old (done + gap_of chunks) begun) }
    ensures kept { length buf.new ≡ length buf.old }
    ensures within { result ≤ done + (FRAME_BEFORE + (begun + FRAME_BEHIND)) }
{
    if begun == 0 {
        return done;
    }
    if chunks {
        return frame_chunk(buf, done, begun);
    }
    done + begun
}

/// Puts bytes behind a text; says how long it is then.
pub(crate) fn put_behind(buf: &mut [u8], done: usize, bytes: &[u8]) -> usize
    requires room { done + length bytes.now ≤ length buf.old }
    ensures text { take result buf.new ≡ take done buf.old ++ bytes.now }
    ensures rest { drop result buf.new ≡ drop result buf.old }
    ensures kept { length buf.new ≡ length buf.old }
    ensures count { result ≡ done + length bytes.now }
{
    let end = done + bytes.len();
    buf[done..end].copy_from_slice(bytes);
    end
}

/// Puts what ends a body behind a text; says how long it is then.
pub(crate) fn put_end(buf: &mut [u8], done: usize, chunks: bool) -> usize
    requires room { done + END_LEN ≤ length buf.old }
    ensures text { take result buf.new ≡ take done buf.old ++ end_of chunks }
    ensures kept { length buf.new ≡ length buf.old }
    ensures within { result ≤ done + END_LEN }
{
    if !chunks {
        return done;
    }
    put_behind(buf, done, end_text())
}

/// Moves so many bytes from one place down to another.
pub(crate) fn move_down(buf: &mut [u8], at: usize, to: usize, count: usize)
    requires room { at + count ≤ length buf.old }
    requires down { to ≤ at }
    ensures moved { begun_of buf.new to count ≡ begun_of buf.old at count }
    ensures kept { length buf.new ≡ length buf.old }
{
    if at == to || count == 0 {
        return;
    }
    buf.copy_within(at..at + count, to);
}

/// Puts bytes behind a text, and moves the data that stands behind it, with a gap between, up behind them; says how long
/// the text is then.
pub(crate) fn put_before(
    buf: &mut [u8],
    done: usize,
    gap: usize,
    begun: usize,
    bytes: &[u8],
) -> usize
    requires room { done + (gap + (begun + length bytes.now)) ≤ length buf.old }
    ensures text { take result buf.new ≡ take done buf.old ++ bytes.now }
    ensures begun { begun_of buf.new (result + gap) begun ≡ begun_of buf.old (done + gap) begun }
    ensures kept { length buf.new ≡ length buf.old }
    ensures count { result ≡ done + length bytes.now }
{
    let at = done + gap;
    move_up(buf, at, at + bytes.len(), begun);
    put_behind(buf, done, bytes)
}

// Moves so many bytes from one place up to another.
fn move_up(buf: &mut [u8], at: usize, to: usize, count: usize)
    requires room { to + count ≤ length buf.old }
    requires up { at ≤ to }
    ensures moved { begun_of buf.new to count ≡ begun_of buf.old at count }
    ensures front { take at buf.new ≡ take at buf.old }
    ensures kept { length buf.new ≡ length buf.old }
{
    if at == to || count == 0 {
        return;
    }
    buf.copy_within(at..at + count, to);
}
