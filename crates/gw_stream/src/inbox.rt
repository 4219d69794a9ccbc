//! What was read of a link and isn't used yet.

ghost use Rattle.std.specs.Prelude.{◌≡◌, ◌≤◌, ◌↔◌, [], length, drop, true, false, IfOk};
ghost use Rattle.gw_stream.specs.Waits.{HeardStep, side};

use crate::guard::Guard;
use crate::waits::{Heard, read_some};
use gw_wire::Wire;
use std::alloc::{AllocError, Global};
use std::marker::Model;

/// How many bytes are read at once.
const SIZE: usize = 131_072;

/// The bytes of a link that were read ahead and aren't used yet. They stand in one buffer, which is made once and serves
/// one link after another; contracts see them alone.
#[derive(Drop)]
pub struct Inbox {
    buf: Vec<u8>,
    start: usize,
    to: usize,
}

impl Model for Inbox {
    ghost use Rattle.std.specs.Prelude.{ℕ, List};
    ghost use Rattle.gw_stream.specs.Inbox.{ahead_of, HasPlaces};

    ghost Value = { List ℕ };

    ghost view = { λ b. ahead_of b.buf.items b.start b.to };

    ghost invariant = { λ b. HasPlaces b.buf.items b.start b.to };
}

impl Inbox {
    /// An inbox of a link of which nothing was read. It reserves 131,072 bytes.
    pub fn new(alloc: Global) -> Result<Inbox, AllocError>
        ensures { IfOk result (λ inbox. inbox ≡ []) }
    {
        Ok(Inbox {
            buf: vec![in alloc; 0; SIZE]?,
            start: 0,
            to: 0,
        })
    }

    /// The bytes.
    pub fn ahead(&self) -> &[u8]
        ensures { result.now ≡ self.now }
    {
        &self.buf[self.start..self.to]
    }

    /// Whether there are none.
    pub fn is_empty(&self) -> bool
        ensures { (result ≡ true) ↔ (self.now ≡ []) }
    {
        self.start == self.to
    }

    /// Uses so many of them.
    pub fn skip(&mut self, count: usize)
        requires { count ≤ length self.old }
        ensures { self.new ≡ drop count self.old }
    {
        self.start += count;
    }

    /// Forgets them, for another link.
    pub fn clear(&mut self)
        ensures { self.new ≡ [] }
    {
        self.start = 0;
        self.to = 0;
    }

    /// Waits until bytes come of a link of which all were used; it takes no memory. `silence` is as in
    /// [`Limit`](crate::Limit).
    pub fn hear<W: Wire, G: Guard>(
        &mut self,
        wire: &mut W,
        guard: &mut G,
        conn: &mut W::Conn,
        silence: Option<u64>,
    ) -> Heard
        requires fresh { (W.wire wire.old).aged ≡ false }
        requires looked { (G.guard guard.old).last ≤ (W.wire wire.old).moment }
        requires used { self.old ≡ [] }
        ensures step { HeardStep (side (W.wire wire.old) (G.guard guard.old)) (side (W.wire wire.new) (G.guard guard.new))
            (W.Conn.link conn.old) (W.Conn.link conn.new) self.new silence result }
        ensures guard { G.keeper guard.new ≡ G.keeper guard.old }
    {
        self.start = 0;
        self.to = 0;
        read_some(wire, guard, conn, &mut self.buf, &mut self.to, silence)
    }
}
