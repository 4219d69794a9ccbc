//! Bodies that are passed on from one link to another.

ghost use Rattle.std.specs.Prelude.{◌≡◌, ◌≤◌, ◌↔◌, [], true, false};
ghost use Rattle.gw_body.specs.Places.{is_done};
ghost use Rattle.gw_wire.specs.Link.{LinkLater};
ghost use Rattle.gw_stream.specs.Filling.{passing};
ghost use Rattle.gw_stream.specs.Outbox.{HasRoom, piece_room};
ghost use Rattle.gw_stream.specs.Relaying.{RelayCause, RelayStep};
ghost use Rattle.gw_stream.specs.RelaySteps.{ClosedWhole, LastStep, RoomStep, StopsSo, loaded};
ghost use Rattle.gw_stream.specs.ReplyLaws.{WholeStep};
ghost use Rattle.gw_stream.specs.Waits.{side};

use crate::drawing::Pull;
use crate::guard::Guard;
use crate::inbox::Inbox;
use crate::outbox::Outbox;
use crate::waits::{Loss, Sent, Stop};
use gw_body::BodyReader;
use gw_chunk::ChunkError;
use gw_wire::Wire;

/// A body that comes of a link: where its reader stands, and the link's bytes that are ahead.
#[derive(Drop)]
pub struct Incoming {
    /// The reader of the body.
    pub body: BodyReader,
    /// The bytes that were read of its link and aren't used yet.
    pub inbox: Inbox,
}

/// How many milliseconds the peer of each link may be silent in one wait; a backend may be so as long as the guard allows.
#[derive(Clone, Copy, Debug, PartialEq, Eq)]
pub struct Silences {
    /// Of the link that is read.
    pub source: Option<u64>,
    /// Of the link that is written to.
    pub target: Option<u64>,
}

/// How a relay ends.
#[derive(Clone, Copy, Debug, PartialEq, Eq)]
pub enum Relayed {
    /// The body is whole, and the target took all its text.
    Whole,
    /// The body has this fault. The target took the text of the whole pieces before it.
    Bad(ChunkError),
    /// Nothing more came of the source inside the body. The target took the text of the whole pieces before.
    Lost(Loss),
    /// The target failed; whether it had taken a byte of what this relay wrote.
    WriteFailed(bool),
    /// A wait for the target was given up.
    WriteStopped(Stop),
    /// The body didn't end within 2^64 - 1 pulls. The target took the text of the whole pieces.
    Spent,
}

/// Passes a body on: what is read of the source, up to the body's end, is written to the target as it comes, in whole
/// pieces and a last one. What is on its way in the outbox goes first. The text that is ready is written before the source
/// is waited for, and where there is no room for a further piece. Behind it the outbox has no text, and bytes that follow
/// the body are ahead in the inbox. It takes no memory.
pub fn relay<W: Wire, G: Guard>(
    wire: &mut W,
    guard: &mut G,
    source: &mut W::Conn,
    target: &mut W::Conn,
    from: &mut Incoming,
    out: &mut Outbox,
    silences: Silences,
) -> Relayed
    requires room { HasRoom out.old }
    requires fresh { (W.wire wire.old).aged ≡ false }
    requires looked { (G.guard guard.old).last ≤ (W.wire wire.old).moment }
    ensures step { RelayStep (side (W.wire wire.old) (G.guard guard.old)) (side (W.wire wire.new) (G.guard guard.new))
        (W.Conn.link source.old).number (W.Conn.link target.old).number silences (passing from.old.body from.old.inbox out.old)
        from.new result }
    ensures cause { RelayCause (side (W.wire wire.old) (G.guard guard.old)) (side (W.wire wire.new) (G.guard guard.new))
        (W.Conn.link source.old) (W.Conn.link source.new) (W.Conn.link target.old) (W.Conn.link target.new) silences result }
    ensures source { LinkLater (W.Conn.link source.old) (W.Conn.link source.new) }
    ensures target { LinkLater (W.Conn.link target.old) (W.Conn.link target.new) }
    ensures size { out.new.size ≡ out.old.size }
    ensures guard { G.keeper guard.new ≡ G.keeper guard.old }
{
    let mut some = false;
    for _turn in 0..u64::MAX {
        close_whole(out);
        let idle = is_waiting(from);
        match make_room(wire, guard, target, out, &mut some, idle, silences.target) {
            Sent::All => {}
            Sent::Failed(part) => return Relayed::WriteFailed(some || part),
            Sent::Stopped(why) => return Relayed::WriteStopped(why),
        }
        let pulled = out.fill(
            wire,
            guard,
            source,
            &mut from.body,
            &mut from.inbox,
            silences.source,
        );
        match stop_of(out, pulled) {
            None => {}
            Some(stop) => {
                return write_last(wire, guard, target, out, some, silences.target, stop);
            }
        }
    }
    write_last(
        wire,
        guard,
        target,
        out,
        some,
        silences.target,
        Relayed::Spent,
    )
}

/// Writes a body that is whole: the piece that has begun is its last. What is on its way in the outbox goes first, and
/// all in one row of writes.
pub fn write_whole<W: Wire, G: Guard>(
    wire: &mut W,
    guard: &mut G,
    target: &mut W::Conn,
    out: &mut Outbox,
    silence: Option<u64>,
) -> Relayed
    requires room { HasRoom out.old }
    requires fresh { (W.wire wire.old).aged ≡ false }
    requires looked { (G.guard guard.old).last ≤ (W.wire wire.old).moment }
    ensures step { WholeStep (side (W.wire wire.old) (G.guard guard.old)) (side (W.wire wire.new) (G.guard guard.new))
        (W.Conn.link target.old) (W.Conn.link target.new) out.old silence result }
    ensures out { out.new ≡ record out.old { text = []; begun = [] } }
    ensures guard { G.keeper guard.new ≡ G.keeper guard.old }
{
    out.close_body();
    write_last(wire, guard, target, out, false, silence, Relayed::Whole)
}

// Whether the link is read next: nothing is ahead, and the body isn't known to be whole.
fn is_waiting(from: &Incoming) -> bool
    ensures { (result ≡ true) ↔ ((from.now.inbox ≡ []) × (is_done from.now.body ≡ false)) }
{
    if !from.inbox.is_empty() {
        return false;
    }
    !from.body.done()
}

// Closes the piece that has begun where it has the most data that a piece has.
fn close_whole(out: &mut Outbox)
    requires { HasRoom out.old }
    ensures { ClosedWhole out.old out.new }
{
    if out.is_whole() {
        out.close_piece();
    }
}

// Writes the text that is ready where the source is to be waited for, or there is no room for a further piece.
fn make_room<W: Wire, G: Guard>(
    wire: &mut W,
    guard: &mut G,
    target: &mut W::Conn,
    out: &mut Outbox,
    some: &mut bool,
    idle: bool,
    silence: Option<u64>,
) -> Sent
    requires size { piece_room ≤ out.old.size }
    requires fresh { (W.wire wire.old).aged ≡ false }
    requires looked { (G.guard guard.old).last ≤ (W.wire wire.old).moment }
    ensures step { RoomStep (side (W.wire wire.old) (G.guard guard.old)) (side (W.wire wire.new) (G.guard guard.new))
        (W.Conn.link target.old) (W.Conn.link target.new) (loaded out.old some.old) (loaded out.new some.new) silence result }
    ensures guard { G.keeper guard.new ≡ G.keeper guard.old }
{
    if !idle && out.has_room() {
        return Sent::All;
    }
    let ready = out.has_text();
    let sent = out.flush(wire, guard, target, silence);
    if sent == Sent::All {
        *some = *some || ready;
    }
    sent
}

// How a relay stops behind this pull, if it does. Behind a whole body its last piece is closed.
fn stop_of(out: &mut Outbox, pulled: Pull) -> Option<Relayed>
    requires { HasRoom out.old }
    ensures { StopsSo pulled out.old out.new result }
{
    match pulled {
        Pull::Data(_) | Pull::More => None,
        Pull::Done => {
            out.close_body();
            Some(Relayed::Whole)
        }
        Pull::Bad(error) => Some(Relayed::Bad(error)),
        Pull::Lost(why) => Some(Relayed::Lost(why)),
    }
}

// Writes the text that is left where a relay stops so.
fn write_last<W: Wire, G: Guard>(
    wire: &mut W,
    guard: &mut G,
    target: &mut W::Conn,
    out: &mut Outbox,
    some: bool,
    silence: Option<u64>,
    stop: Relayed,
) -> Relayed
    requires fresh { (W.wire wire.old).aged ≡ false }
    requires looked { (G.guard guard.old).last ≤ (W.wire wire.old).moment }
    ensures step { LastStep (side (W.wire wire.old) (G.guard guard.old)) (side (W.wire wire.new) (G.guard guard.new))
        (W.Conn.link target.old) (W.Conn.link target.new) (loaded out.old some) silence stop result }
    ensures out { out.new ≡ record out.old { text = [] } }
    ensures guard { G.keeper guard.new ≡ G.keeper guard.old }
{
    match out.flush(wire, guard, target, silence) {
        Sent::All => stop,
        Sent::Failed(part) => Relayed::WriteFailed(some || part),
        Sent::Stopped(why) => Relayed::WriteStopped(why),
    }
}
