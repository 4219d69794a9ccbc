//! The data of a body that is read of its link, piece by piece.

ghost use Rattle.std.specs.Prelude.{◌≡◌, ◌<◌, ◌≤◌, length, take, false};
ghost use Rattle.gw_wire.specs.Link.{LinkLater};
ghost use Rattle.gw_stream.specs.Drawing.{Drew, Leaves, PullCause, Pulled, count_of, data_of, drawn_count, pull_bill};
ghost use Rattle.gw_stream.specs.Waits.{Waited, side};

use crate::guard::Guard;
use crate::inbox::Inbox;
use crate::waits::{Heard, Loss};
use gw_body::{AtEnd, BodyReader};
use gw_chunk::{ChunkError, ChunkStep};
use gw_wire::Wire;

/// What one pull gives.
#[derive(Clone, Copy, Debug, PartialEq, Eq)]
pub enum Pull {
    /// So many bytes of data, at least one, at the buffer's front.
    Data(usize),
    /// No data yet: it is to be asked for again.
    More,
    /// The body is whole.
    Done,
    /// The body has this fault.
    Bad(ChunkError),
    /// Nothing more came of the link inside the body.
    Lost(Loss),
}

impl Pull {
    /// How many bytes of data it gave.
    pub fn count(self) -> usize
        ensures { result ≡ count_of self }
    {
        match self {
            Pull::Data(count) => count,
            Pull::More | Pull::Done | Pull::Bad(_) | Pull::Lost(_) => 0,
        }
    }
}

// What the bytes ahead make of a body.
#[derive(Clone, Copy, Debug, PartialEq, Eq)]
enum Drawn {
    Data(usize),
    More,
    Done,
    Bad(ChunkError),
}

/// Gives the next data of a body, at the front of a buffer. It comes of the bytes ahead; where there are none, the link is
/// read once, and what came is ahead then. So who has something to write before a wait asks first whether bytes are ahead. What stands behind a whole body stays there. It takes no memory. `silence`
/// is as in [`Limit`](crate::Limit).
pub fn pull_piece<W: Wire, G: Guard>(
    wire: &mut W,
    guard: &mut G,
    conn: &mut W::Conn,
    body: &mut BodyReader,
    inbox: &mut Inbox,
    buf: &mut [u8],
    silence: Option<u64>,
) -> Pull
    requires room { 0 < length buf.old }
    requires fresh { (W.wire wire.old).aged ≡ false }
    requires looked { (G.guard guard.old).last ≤ (W.wire wire.old).moment }
    ensures waited { Waited (side (W.wire wire.old) (G.guard guard.old)) (side (W.wire wire.new) (G.guard guard.new)) (pull_bill silence result)
        (Pulled (W.Conn.link conn.old).number body.old inbox.old body.new inbox.new (data_of buf.new result) result) }
    ensures link { LinkLater (W.Conn.link conn.old) (W.Conn.link conn.new) }
    ensures cause { PullCause (side (W.wire wire.old) (G.guard guard.old)) (side (W.wire wire.new) (G.guard guard.new))
        (W.Conn.link conn.old) (W.Conn.link conn.new) silence result }
    ensures within { count_of result ≤ length buf.new }
    ensures kept { length buf.new ≡ length buf.old }
    ensures guard { G.keeper guard.new ≡ G.keeper guard.old }
{
    let idle = inbox.is_empty();
    match draw(body, inbox, buf) {
        Drawn::Data(count) => Pull::Data(count),
        Drawn::Done => Pull::Done,
        Drawn::Bad(error) => Pull::Bad(error),
        Drawn::More => {
            if !idle {
                return Pull::More;
            }
            match inbox.hear(wire, guard, conn, silence) {
                Heard::Got => Pull::More,
                Heard::Lost(why) => leave(body, why),
            }
        }
    }
}

// Takes the next data of a body from the bytes ahead, as far as there is room for it.
fn draw(body: &mut BodyReader, inbox: &mut Inbox, buf: &mut [u8]) -> Drawn
    requires room { 0 < length buf.old }
    ensures step { Drew body.old inbox.old body.new inbox.new (take (drawn_count result) buf.new) result }
    ensures within { drawn_count result ≤ length buf.new }
    ensures kept { length buf.new ≡ length buf.old }
{
    let piece = front(inbox.ahead(), buf.len());
    let fed = body.take(piece);
    match fed.step {
        ChunkStep::Data { from, to } => {
            let count = put(buf, &piece[from..to]);
            inbox.skip(fed.used);
            Drawn::Data(count)
        }
        ChunkStep::More => {
            inbox.skip(fed.used);
            Drawn::More
        }
        ChunkStep::Done => {
            inbox.skip(fed.used);
            Drawn::Done
        }
        ChunkStep::Bad(error) => Drawn::Bad(error),
    }
}

// So many bytes of the front, or all.
fn front(bytes: &[u8], room: usize) -> &[u8]
    ensures { result.now ≡ take room bytes.now }
{
    if bytes.len() <= room {
        return bytes;
    }
    &bytes[..room]
}

// Puts bytes at a buffer's front, and says how many.
fn put(buf: &mut [u8], bytes: &[u8]) -> usize
    requires { length bytes.now ≤ length buf.old }
    ensures count { result ≡ length bytes.now }
    ensures front { take result buf.new ≡ bytes.now }
    ensures kept { length buf.new ≡ length buf.old }
{
    let count = bytes.len();
    buf[..count].copy_from_slice(bytes);
    count
}

// What a link that brought nothing more leaves of a body: its end may be the body's.
fn leave(body: &mut BodyReader, why: Loss) -> Pull
    ensures { Leaves body.old body.new why result }
{
    match why {
        Loss::End => match body.link_ended() {
            AtEnd::Whole => Pull::Done,
            AtEnd::Short => Pull::Lost(why),
        },
        Loss::Failed | Loss::Stopped(_) => Pull::Lost(why),
    }
}
