//! What is on its way to a link.

ghost use Rattle.std.specs.Prelude.{◌≡◌, ◌<◌, ◌≤◌, ◌+◌, ◌++◌, ◌↔◌, [], true, false, length, nat_lt, IfOk};
ghost use Rattle.gw_chunk.specs.Chunked.{piece_limit};
ghost use Rattle.gw_wire.specs.Link.{LinkLater};
ghost use Rattle.gw_stream.specs.Drawing.{PullCause};
ghost use Rattle.gw_stream.specs.Filling.{FillStep, passing};
ghost use Rattle.gw_stream.specs.Outbox.{HasRoom, end_of, rest_of, out_size};
ghost use Rattle.gw_stream.specs.Waits.{SentStep, side};

use crate::drawing::{Pull, pull_piece};
use crate::framing::{close_begun, gap, move_down, put_before, put_end};
use crate::guard::Guard;
use crate::inbox::Inbox;
use crate::waits::{Sent, write_all};
use gw_body::BodyReader;
use gw_chunk::PIECE_LIMIT;
use gw_wire::Wire;
use std::alloc::{AllocError, Global};
use std::marker::Model;

/// How many bytes an outbox has room for.
const SIZE: usize = 196_608;

/// How much room closes a piece and its body, and begins one more.
const PIECE_ROOM: usize = 8_211;

/// Text that is ready to be written, and the data of a piece that has begun behind it. Both stand in one buffer, which is
/// made once and serves one body after another.
#[derive(Drop)]
pub struct Outbox {
    buf: Vec<u8>,
    done: usize,
    begun: usize,
    chunks: bool,
}

impl Model for Outbox {
    ghost use Rattle.gw_stream.specs.Outbox.{OutView, out_view, HasParts};

    ghost Value = { OutView };

    ghost view = { λ o. out_view o.buf.items o.done o.begun o.chunks };

    ghost invariant = { λ o. HasParts o.buf.items o.done o.begun o.chunks };
}

impl Outbox {
    /// An outbox with nothing in it. It reserves 196,608 bytes.
    pub fn new(alloc: Global) -> Result<Outbox, AllocError>
        ensures { IfOk result (λ out. out ≡ record { text = []; begun = []; in_chunks = false; size = out_size }) }
    {
        Ok(Outbox {
            buf: vec![in alloc; 0; SIZE]?,
            done: 0,
            begun: 0,
            chunks: false,
        })
    }

    /// Forgets what is in it, for another body, which is written in chunks or as it is.
    pub fn restart(&mut self, chunks: bool)
        requires { 6 ≤ self.old.size }
        ensures { self.new ≡ record self.old { text = []; begun = []; in_chunks = chunks } }
    {
        self.done = 0;
        self.begun = 0;
        self.chunks = chunks;
    }

    /// Whether the piece that has begun has the most data that a piece has.
    pub fn is_whole(&self) -> bool
        ensures whole { (result ≡ true) ↔ (length self.now.begun ≡ piece_limit) }
        ensures more { (result ≡ false) ↔ (length self.now.begun < piece_limit) }
    {
        self.begun == PIECE_LIMIT
    }

    /// Whether a piece and its body may be closed.
    pub fn has_room(&self) -> bool
        ensures { (result ≡ true) ↔ HasRoom self.now }
    {
        self.done + PIECE_ROOM <= self.buf.len()
    }

    /// Whether there is any text that is ready.
    pub fn has_text(&self) -> bool
        ensures { result ≡ nat_lt 0 (length self.now.text) }
    {
        self.done > 0
    }

    /// Whether there is room for these bytes in front of the data that has begun.
    pub fn takes_head(&self, head: &[u8]) -> bool
        ensures { (result ≡ true) ↔ HasRoom (record self.now { text = self.now.text ++ head.now }) }
    {
        if !self.has_room() {
            return false;
        }
        head.len() <= self.buf.len() - (self.done + PIECE_ROOM)
    }

    /// Puts bytes, as a message's head, behind the text and in front of the data that has begun: they leave in one write
    /// with the first pieces.
    pub fn put_head(&mut self, head: &[u8])
        requires { HasRoom (record self.old { text = self.old.text ++ head.now }) }
        ensures { self.new ≡ record self.old { text = self.old.text ++ head.now } }
    {
        let gap = gap(self.chunks);
        self.done = put_before(&mut self.buf, self.done, gap, self.begun, head);
    }

    /// Makes the piece that has begun a part of the text, if it has any data.
    pub fn close_piece(&mut self)
        requires { HasRoom self.old }
        ensures { self.new ≡ record self.old { text = self.old.text ++ rest_of self.old.in_chunks self.old.begun; begun = [] } }
    {
        self.done = close_begun(&mut self.buf, self.done, self.begun, self.chunks);
        self.begun = 0;
    }

    /// Ends the body: the piece that has begun is its last.
    pub fn close_body(&mut self)
        requires { HasRoom self.old }
        ensures { self.new ≡ record self.old { text = self.old.text ++ rest_of self.old.in_chunks self.old.begun ++ end_of self.old.in_chunks; begun = [] } }
    {
        let done = close_begun(&mut self.buf, self.done, self.begun, self.chunks);
        self.done = put_end(&mut self.buf, done, self.chunks);
        self.begun = 0;
    }

    /// Writes the text, and has none then, whether it went whole or not; the data that has begun stays. `silence` is as
    /// in [`Limit`](crate::Limit).
    pub fn flush<W: Wire, G: Guard>(
        &mut self,
        wire: &mut W,
        guard: &mut G,
        conn: &mut W::Conn,
        silence: Option<u64>,
    ) -> Sent
        requires fresh { (W.wire wire.old).aged ≡ false }
        requires looked { (G.guard guard.old).last ≤ (W.wire wire.old).moment }
        ensures step { SentStep (side (W.wire wire.old) (G.guard guard.old)) (side (W.wire wire.new) (G.guard guard.new))
            (W.Conn.link conn.old) (W.Conn.link conn.new) self.old.text silence result }
        ensures out { self.new ≡ record self.old { text = [] } }
        ensures guard { G.keeper guard.new ≡ G.keeper guard.old }
    {
        let sent = write_all(wire, guard, conn, &self.buf[..self.done], silence);
        let gap = gap(self.chunks);
        move_down(&mut self.buf, self.done + gap, gap, self.begun);
        self.done = 0;
        sent
    }

    /// Pulls the next data of a body behind that of the piece that has begun, as `pull_piece` does. `silence` is as in
    /// [`Limit`](crate::Limit).
    pub fn fill<W: Wire, G: Guard>(
        &mut self,
        wire: &mut W,
        guard: &mut G,
        conn: &mut W::Conn,
        body: &mut BodyReader,
        inbox: &mut Inbox,
        silence: Option<u64>,
    ) -> Pull
        requires begun { length self.old.begun < piece_limit }
        requires room { HasRoom self.old }
        requires fresh { (W.wire wire.old).aged ≡ false }
        requires looked { (G.guard guard.old).last ≤ (W.wire wire.old).moment }
        ensures step { FillStep (side (W.wire wire.old) (G.guard guard.old)) (side (W.wire wire.new) (G.guard guard.new)) (W.Conn.link conn.old).number
            (passing body.old inbox.old self.old) (passing body.new inbox.new self.new) silence result }
        ensures link { LinkLater (W.Conn.link conn.old) (W.Conn.link conn.new) }
        ensures cause { PullCause (side (W.wire wire.old) (G.guard guard.old)) (side (W.wire wire.new) (G.guard guard.new))
            (W.Conn.link conn.old) (W.Conn.link conn.new) silence result }
        ensures guard { G.keeper guard.new ≡ G.keeper guard.old }
    {
        let at = self.done + gap(self.chunks) + self.begun;
        let to = at + (PIECE_LIMIT - self.begun);
        let pulled = pull_piece(
            wire,
            guard,
            conn,
            body,
            inbox,
            &mut self.buf[at..to],
            silence,
        );
        self.begun += pulled.count();
        pulled
    }
}
