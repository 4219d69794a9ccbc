//! The first piece of a body, by which a reply begins.

ghost use Rattle.std.specs.Prelude.{◌≡◌, ◌≤◌, false};
ghost use Rattle.gw_wire.specs.Link.{LinkLater};
ghost use Rattle.gw_stream.specs.Beginning.{BeganCause, FirstStep};
ghost use Rattle.gw_stream.specs.Filling.{passing};
ghost use Rattle.gw_stream.specs.Outbox.{HasRoom};
ghost use Rattle.gw_stream.specs.Waits.{side};

use crate::drawing::Pull;
use crate::guard::Guard;
use crate::outbox::Outbox;
use crate::relaying::Incoming;
use crate::waits::Loss;
use gw_chunk::ChunkError;
use gw_wire::Wire;

/// What the beginning of a body came to.
#[derive(Clone, Copy, Debug, PartialEq, Eq)]
pub enum Began {
    /// A piece with the most data that one has, 8,192 bytes, is there.
    Piece,
    /// The body is whole before it has so much.
    Whole,
    /// The body has this fault before it has so much.
    Bad(ChunkError),
    /// Nothing more came of the link before the body has so much.
    Lost(Loss),
    /// Neither came within 2^64 - 1 pulls.
    Spent,
}

/// Waits until a body is whole or 8,192 bytes of it are there, in the outbox; so much is read before a reply begins, so
/// that a body which fails before can still be answered otherwise. Nothing is written, and no memory is taken. `silence`
/// is as in [`Limit`](crate::Limit).
pub fn first_piece<W: Wire, G: Guard>(
    wire: &mut W,
    guard: &mut G,
    source: &mut W::Conn,
    from: &mut Incoming,
    out: &mut Outbox,
    silence: Option<u64>,
) -> Began
    requires room { HasRoom out.old }
    requires fresh { (W.wire wire.old).aged ≡ false }
    requires looked { (G.guard guard.old).last ≤ (W.wire wire.old).moment }
    ensures step { FirstStep (side (W.wire wire.old) (G.guard guard.old)) (side (W.wire wire.new) (G.guard guard.new))
        (W.Conn.link source.old).number (passing from.old.body from.old.inbox out.old) (passing from.new.body from.new.inbox out.new)
        silence result }
    ensures link { LinkLater (W.Conn.link source.old) (W.Conn.link source.new) }
    ensures cause { BeganCause (side (W.wire wire.old) (G.guard guard.old)) (side (W.wire wire.new) (G.guard guard.new))
        (W.Conn.link source.old) (W.Conn.link source.new) silence result }
    ensures guard { G.keeper guard.new ≡ G.keeper guard.old }
{
    for _pull in 0..u64::MAX {
        if out.is_whole() {
            return Began::Piece;
        }
        match out.fill(
            wire,
            guard,
            source,
            &mut from.body,
            &mut from.inbox,
            silence,
        ) {
            Pull::Data(_) | Pull::More => {}
            Pull::Done => return Began::Whole,
            Pull::Bad(error) => return Began::Bad(error),
            Pull::Lost(why) => return Began::Lost(why),
        }
    }
    Began::Spent
}
