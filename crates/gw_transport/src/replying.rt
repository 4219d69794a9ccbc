//! The head of a backend's reply.

ghost use Rattle.std.specs.Prelude.{◌≡◌, ◌≤◌, ◌||◌, false, nat_lt};
ghost use Rattle.gw_body.specs.Framing.{reply_framing_of};
ghost use Rattle.gw_body.specs.Places.{begins};
ghost use Rattle.gw_stream.specs.Waits.{side};
ghost use Rattle.gw_transport.specs.Replying.{HeadStep, ReplyStep, is_informational, lost_by, stopped_by};

use crate::attempts::Tried;
use gw_body::{BodyReader, reply_framing};
use gw_chunk::ChunkError;
use gw_head::{Framing, HeadReader, ReplyHead, Step};
use gw_retry::Failure;
use gw_stream::{Guard, Heard, Inbox, Incoming, Loss, Stop};
use gw_wire::Wire;
use http::Method;

/// A reply that has begun.
#[derive(Debug, Drop)]
pub struct Begun {
    /// Its head, with the code of a final reply.
    pub head: ReplyHead,
    /// How its body is framed.
    pub framing: Framing,
}

/// Why a trip is over without a reply and without a failure of the backend's.
#[derive(Clone, Copy, Debug, PartialEq, Eq)]
pub enum End {
    /// The client's body has this fault.
    Body(ChunkError),
    /// The client sends no more inside its body.
    ClientEnd,
    /// The client's link failed.
    ClientFailed,
    /// The client was silent, or took no bytes, for too long.
    ClientTimeout,
    /// Memory was wanting.
    NoMemory,
}

/// The least code of a final reply (RFC 9110, section 15).
const FINAL: u16 = 200;

/// How many informational replies one reply has too many.
const INFORMATIONAL: u32 = 6;

/// In how many pieces a head may come: each but the first has a byte.
const PIECES: u32 = 65_537;

/// What came of a wait for a head.
#[derive(Debug, Drop)]
pub(crate) enum HeadHeard {
    /// It is whole.
    Head(ReplyHead),
    /// It is refused.
    Bad,
    /// Nothing more came before it was whole; whether a byte of it had come.
    Lost(Loss, bool),
    /// It is whole and good, and there was no memory for it.
    NoMemory,
}

// Waits until the head of a reply is whole that begins with the bytes ahead.
fn hear_head<W: Wire, G: Guard>(
    wire: &mut W,
    guard: &mut G,
    conn: &mut W::Conn,
    reader: &mut HeadReader,
    inbox: &mut Inbox,
) -> HeadHeard
    requires fresh { (W.wire wire.old).aged ≡ false }
    requires looked { (G.guard guard.old).last ≤ (W.wire wire.old).moment }
    ensures step { HeadStep (side (W.wire wire.old) (G.guard guard.old)) (side (W.wire wire.new) (G.guard guard.new))
        (W.Conn.link conn.old) (W.Conn.link conn.new) inbox.old inbox.new result }
    ensures guard { G.keeper guard.new ≡ G.keeper guard.old }
{
    reader.restart();
    for _piece in 0..PIECES {
        let fed = reader.feed_reply(inbox.ahead());
        inbox.skip(fed.used);
        match fed.step {
            Step::More => {}
            Step::Head(head) => return HeadHeard::Head(head),
            Step::Bad(_) => return HeadHeard::Bad,
            Step::NoMemory => return HeadHeard::NoMemory,
        }
        match inbox.hear(wire, guard, conn, None) {
            Heard::Got => {}
            Heard::Lost(why) => return HeadHeard::Lost(why, !reader.bytes().is_empty()),
        }
    }
    unreachable!()
}

/// Waits until a reply to a request with this method begins: its head is whole that isn't informational. Up to five
/// informational ones are dropped before. What came behind the head is ahead then.
pub(crate) fn hear_reply<W: Wire, G: Guard>(
    wire: &mut W,
    guard: &mut G,
    conn: &mut W::Conn,
    reader: &mut HeadReader,
    from: &mut Incoming,
    method: &Method,
) -> Tried<Begun, End>
    requires fresh { (W.wire wire.old).aged ≡ false }
    requires looked { (G.guard guard.old).last ≤ (W.wire wire.old).moment }
    ensures step { ReplyStep (side (W.wire wire.old) (G.guard guard.old)) (side (W.wire wire.new) (G.guard guard.new))
        (W.Conn.link conn.old) (W.Conn.link conn.new) method.now from.new.body from.new.inbox result }
    ensures guard { G.keeper guard.new ≡ G.keeper guard.old }
{
    from.inbox.clear();
    for dropped in 0..INFORMATIONAL {
        match hear_head(wire, guard, conn, reader, &mut from.inbox) {
            HeadHeard::Head(head) => {
                if head.code >= FINAL {
                    return Tried::Reply(begin(&mut from.body, head, method));
                }
                if !is_informational(head.code) {
                    return Tried::Failed(Failure::BadResponse);
                }
            }
            HeadHeard::Bad => return Tried::Failed(Failure::BadResponse),
            HeadHeard::Lost(why, some) => {
                return Tried::Failed(lost(why, is_answering(some, dropped)));
            }
            HeadHeard::NoMemory => return Tried::Over(End::NoMemory),
        }
    }
    Tried::Failed(Failure::BadResponse)
}

// A reply with this head, whose body is read from its first byte on.
fn begin(body: &mut BodyReader, head: ReplyHead, method: &Method) -> Begun
    ensures head { result.head ≡ head }
    ensures framing { result.framing ≡ reply_framing_of head method.now }
    ensures body { body.new ≡ begins result.framing }
{
    let framing = reply_framing(&head, method);
    *body = BodyReader::new(framing);
    Begun { head, framing }
}

// Whether a code is that of an informational reply which is dropped. 101 is none: nobody asked for another protocol.
fn is_informational(code: u16) -> bool
    ensures { result ≡ is_informational code }
{
    (100..FINAL).contains(&code) && code != 101
}

// Whether a byte of the reply had come: one of this head, or that many heads before.
fn is_answering(some: bool, dropped: u32) -> bool
    ensures { result ≡ (some || nat_lt 0 dropped) }
{
    some || dropped > 0
}

// The failure that a lost link is, where a byte of the reply had come or not.
fn lost(why: Loss, answering: bool) -> Failure
    ensures { result ≡ lost_by why answering }
{
    match why {
        Loss::End => {
            if answering {
                Failure::Broken
            } else {
                Failure::ServerClosed
            }
        }
        Loss::Failed => {
            if answering {
                Failure::Broken
            } else {
                Failure::FirstByte
            }
        }
        Loss::Stopped(why) => stopped(why),
    }
}

/// The failure that a wait for a backend is which was given up.
pub(crate) fn stopped(why: Stop) -> Failure
    ensures { result ≡ stopped_by why }
{
    match why {
        Stop::Cancelled => Failure::Cancelled,
        Stop::Deadline | Stop::Silent | Stop::Ticks => Failure::Deadline,
    }
}
