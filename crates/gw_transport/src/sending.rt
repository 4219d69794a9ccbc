//! One attempt of a request whose body is kept.

ghost use Rattle.std.specs.Prelude.{◌≡◌, ◌≤◌, Bool, true, false};
ghost use Rattle.gw_transport.specs.Attempts.{AttemptStep, kind_of};
ghost use Rattle.gw_transport.specs.Sending.{ExchangesKept, IsKept, kept_view};
ghost use Rattle.gw_transport.specs.Replying.{unwritten};

use crate::attempts::Tried;
use crate::buffers::Buffers;
use crate::replying::{Begun, End, hear_reply, stopped};
use gw_body::Rewindable;
use gw_proxy::OutHead;
use gw_retry::{BodyKind, Failure};
use gw_stream::{Guard, Sent, write_together};
use gw_wire::Wire;

/// Writes a request whose body is kept, and awaits its reply.
pub(crate) fn exchange<W: Wire, G: Guard>(
    wire: &mut W,
    guard: &mut G,
    conn: &mut W::Conn,
    out: &OutHead,
    body: &Rewindable,
    buffers: &mut Buffers,
) -> Tried<Begun, End>
    requires fresh { (W.wire wire.old).aged ≡ false }
    requires looked { (G.guard guard.old).last ≤ (W.wire wire.old).moment }
    requires kept { IsKept out.now.framing body.now }
    requires room { 6 ≤ buffers.old.out.size }
    ensures step { AttemptStep (W.wire wire.old) (W.wire wire.new) (G.guard guard.old) (G.guard guard.new)
        (ExchangesKept (kept_view out.now body.now buffers.old.backend buffers.old.out.size)
        (kept_view out.now body.now buffers.new.backend buffers.new.out.size) (W.Conn.link conn.old).number result) result }
    ensures client { buffers.new.client ≡ buffers.old.client }
    ensures room { buffers.new.out.size ≡ buffers.old.out.size }
    ensures link { (W.Conn.link conn.new).number ≡ (W.Conn.link conn.old).number }
    ensures guard { G.keeper guard.new ≡ G.keeper guard.old }
{
    match write_together(
        wire,
        guard,
        conn,
        out.bytes.as_slice(),
        body.again(),
        &mut buffers.out,
        None,
    ) {
        Sent::All => hear_reply(
            wire,
            guard,
            conn,
            &mut buffers.reader,
            &mut buffers.backend,
            &out.method,
        ),
        Sent::Failed(some) => Tried::Failed(unwritten(some)),
        Sent::Stopped(why) => Tried::Failed(stopped(why)),
    }
}

/// The failure that a failed write of a request is, of which some byte was taken or none.
pub(crate) fn unwritten(some: bool) -> Failure
    ensures { result ≡ unwritten some }
{
    if some {
        Failure::Broken
    } else {
        Failure::NothingWritten
    }
}

/// Whether a kept body can be sent again: it can, or has no byte.
pub(crate) fn kind_of_body(body: &Rewindable) -> BodyKind
    ensures { result ≡ kind_of body.now }
{
    match body.again() {
        [] => BodyKind::Empty,
        [_, ..] => BodyKind::Rewindable,
    }
}
