//! The writer of a body.
ghost use Rattle.std.specs.Prelude.{◌≡◌, ◌+◌, ◌<◌, ◌≤◌, ◌++◌, length, take, drop, slice_range, vec_len, vec_capacity, IsOk, OnOk, OnErr};
ghost use Rattle.gw_chunk.specs.Chunked.{coded};
ghost use Rattle.gw_fields.specs.Lines.{StartsWith};
ghost use Rattle.gw_body.specs.Written.{behind_piece, body_text, data_in, end_text, frame_end, gap_before, gap_behind, piece_room, piece_text, plan_of, written_whole, Accepts, MayEnd};

use crate::error::NoMemory;
use crate::plan::Plan;
use gw_chunk::{FRAME_BEFORE, FRAME_BEHIND, PIECE_LIMIT, encode_end, encode_piece, frame_piece};
use gw_head::Framing;
use std::alloc::AllocError;
use std::marker::Model;

/// A writer of one body of any framing (RFC 9112, section 6). It holds counts alone and appends to what it is given.
#[derive(Drop)]
pub struct BodyWriter {
    plan: Plan,
}

impl Model for BodyWriter {
    ghost use Rattle.gw_body.specs.declared.plan.Plan.{Plan};

    ghost Value = { Plan };

    ghost view = { λ w. w.plan };
}

impl BodyWriter {
    /// A writer before the first piece of a body with this framing.
    pub fn new(framing: Framing) -> BodyWriter
        ensures { result ≡ plan_of framing }
    {
        BodyWriter {
            plan: Plan::first(framing),
        }
    }

    /// Appends the next piece of the data, of 1 to 8,192 bytes. In chunks each piece before it had 8,192 bytes; of a
    /// known length it has no more bytes than are left. It takes no memory where there is room for the piece, and in
    /// chunks for 8 bytes more. Where there is no memory for it, all stays as it was.
    pub fn piece(&mut self, bytes: &[u8], out: &mut Vec<u8>) -> Result<(), NoMemory>
        requires some { 0 < length bytes.now }
        requires most { length bytes.now ≤ PIECE_LIMIT }
        requires accepted { Accepts self.old bytes.now }
        ensures ok { OnOk result (out.new.items ≡ out.old.items ++ piece_text self.old bytes.now) }
        ensures behind { OnOk result (self.new ≡ behind_piece self.old bytes.now) }
        ensures err { OnErr result (out.new.items ≡ out.old.items) }
        ensures unchanged { OnErr result (self.new ≡ self.old) }
        ensures room { vec_len out.old + piece_room self.old bytes.now ≤ vec_capacity out.old → IsOk result }
        ensures capacity { vec_capacity out.old ≤ vec_capacity out.new }
    {
        write_piece(&mut self.plan, bytes, out)
    }

    /// How many bytes `frame` wants before the data of a piece.
    pub fn gap_before(&self) -> usize
        ensures { result ≡ gap_before self.now }
    {
        match self.plan {
            Plan::Chunked { .. } => FRAME_BEFORE,
            Plan::Counted { .. } | Plan::ToEnd => 0,
        }
    }

    /// How many bytes `frame` wants behind it.
    pub fn gap_behind(&self) -> usize
        ensures { result ≡ gap_behind self.now }
    {
        match self.plan {
            Plan::Chunked { .. } => FRAME_BEHIND,
            Plan::Counted { .. } | Plan::ToEnd => 0,
        }
    }

    /// Frames the next piece of the data where it stands, as `piece` would append it: it has `len` bytes, 1 to 8,192,
    /// behind the gap at the buffer's front and before the gap behind it. The piece's text begins at the place that is
    /// given back, and ends behind that gap; all other bytes stay.
    pub fn frame(&mut self, buffer: &mut [u8], len: usize) -> usize
        requires some { 0 < len }
        requires most { len ≤ PIECE_LIMIT }
        requires room { frame_end self.old len ≤ length buffer.old }
        requires accepted { Accepts self.old (data_in self.old buffer.old len) }
        ensures text { slice_range buffer.new result (frame_end self.old len) ≡ piece_text self.old (data_in self.old buffer.old len) }
        ensures start { result ≤ gap_before self.old }
        ensures before { take result buffer.new ≡ take result buffer.old }
        ensures after { drop (frame_end self.old len) buffer.new ≡ drop (frame_end self.old len) buffer.old }
        ensures behind { self.new ≡ behind_piece self.old (data_in self.old buffer.old len) }
    {
        frame_next(&mut self.plan, buffer, len)
    }

    /// What ends the body: in chunks the last chunk, else nothing. Of a known length all was written before. After it
    /// no piece may follow.
    pub fn finish(&mut self) -> &'static [u8]
        requires { MayEnd self.old }
        ensures text { result.now ≡ end_text self.old }
        ensures behind { self.new ≡ written_whole }
    {
        let text = end_text(&self.plan);
        self.plan = Plan::Counted { left: 0 };
        text
    }

    /// Appends what ends the body, as `finish` gives it. It takes no memory where there is room for that. Where there
    /// is no memory for it, all stays as it was.
    pub fn end(&mut self, out: &mut Vec<u8>) -> Result<(), NoMemory>
        requires { MayEnd self.old }
        ensures ok { OnOk result (out.new.items ≡ out.old.items ++ end_text self.old) }
        ensures behind { OnOk result (self.new ≡ written_whole) }
        ensures err { OnErr result (out.new.items ≡ out.old.items) }
        ensures unchanged { OnErr result (self.new ≡ self.old) }
        ensures room { vec_len out.old + length (end_text self.old) ≤ vec_capacity out.old → IsOk result }
        ensures capacity { vec_capacity out.old ≤ vec_capacity out.new }
    {
        out.extend_from_slice(end_text(&self.plan))?;
        self.plan = Plan::Counted { left: 0 };
        Ok(())
    }
}

fn end_text(plan: &Plan) -> &'static [u8]
    ensures { result.now ≡ end_text plan.now }
{
    match plan {
        Plan::Chunked { .. } => gw_chunk::end_text(),
        Plan::Counted { .. } | Plan::ToEnd => b"",
    }
}

fn write_piece(plan: &mut Plan, bytes: &[u8], out: &mut Vec<u8>) -> Result<(), NoMemory>
    requires some { 0 < length bytes.now }
    requires most { length bytes.now ≤ PIECE_LIMIT }
    requires accepted { Accepts plan.old bytes.now }
    ensures ok { OnOk result (out.new.items ≡ out.old.items ++ piece_text plan.old bytes.now) }
    ensures behind { OnOk result (plan.new ≡ behind_piece plan.old bytes.now) }
    ensures err { OnErr result (out.new.items ≡ out.old.items) }
    ensures unchanged { OnErr result (plan.new ≡ plan.old) }
    ensures room { vec_len out.old + piece_room plan.old bytes.now ≤ vec_capacity out.old → IsOk result }
    ensures capacity { vec_capacity out.old ≤ vec_capacity out.new }
{
    match *plan {
        Plan::Chunked { .. } => encode_piece(bytes, out)?,
        Plan::Counted { .. } | Plan::ToEnd => out.extend_from_slice(bytes)?,
    }
    plan.pass(bytes.len());
    Ok(())
}

fn frame_next(plan: &mut Plan, buffer: &mut [u8], len: usize) -> usize
    requires some { 0 < len }
    requires most { len ≤ PIECE_LIMIT }
    requires room { frame_end plan.old len ≤ length buffer.old }
    requires accepted { Accepts plan.old (data_in plan.old buffer.old len) }
    ensures text { slice_range buffer.new result (frame_end plan.old len) ≡ piece_text plan.old (data_in plan.old buffer.old len) }
    ensures start { result ≤ gap_before plan.old }
    ensures before { take result buffer.new ≡ take result buffer.old }
    ensures after { drop (frame_end plan.old len) buffer.new ≡ drop (frame_end plan.old len) buffer.old }
    ensures behind { plan.new ≡ behind_piece plan.old (data_in plan.old buffer.old len) }
{
    let start = match *plan {
        Plan::Chunked { .. } => frame_piece(buffer, len),
        Plan::Counted { .. } | Plan::ToEnd => 0,
    };
    plan.pass(len);
    start
}

/// Appends the text of a whole body's data: in chunks of 8,192 bytes and one of the rest, if they are framed so
/// (RFC 9112, section 7.1), else the data. Where there is no memory for it, `out` stays as it was.
pub fn write_body(framing: Framing, content: &[u8], out: &mut Vec<u8>) -> Result<(), NoMemory>
    ensures ok { OnOk result (out.new.items ≡ out.old.items ++ body_text framing content.now) }
    ensures err { OnErr result (out.new.items ≡ out.old.items) }
{
    match framing {
        Framing::Chunked => {
            let before = out.len();
            if write_chunks(content, out).is_err() {
                out.truncate(before);
                return Err(AllocError);
            }
            Ok(())
        }
        Framing::None | Framing::Length(_) | Framing::ToEnd => out.extend_from_slice(content),
    }
}

// Appends the data in chunks, and the last; where there is no memory for them, some of them.
fn write_chunks(content: &[u8], out: &mut Vec<u8>) -> Result<(), NoMemory>
    ensures ok { OnOk result (out.new.items ≡ out.old.items ++ coded content.now) }
    ensures err { OnErr result (StartsWith out.old.items out.new.items) }
{
    let mut rest = content;
    while !rest.is_empty() {
        let (piece, behind) = rest.split_at(rest.len().min(PIECE_LIMIT));
        encode_piece(piece, out)?;
        rest = behind;
    }
    encode_end(out)
}
