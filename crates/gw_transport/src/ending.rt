//! The body of a reply, and the end of the lease over which it came.

ghost use Rattle.std.specs.Prelude.{◌≡◌, ◌<◌, ◌≤◌, None, length, false};
ghost use Rattle.gw_wire.specs.Link.{LinkLater};
ghost use Rattle.gw_account.specs.Did.{span};
ghost use Rattle.gw_pool.specs.Lent.{Lent};
ghost use Rattle.gw_stream.specs.Drawing.{PullCause, Pulled, count_of, data_of, pull_bill};
ghost use Rattle.gw_stream.specs.Waits.{Waited, side};
ghost use Rattle.gw_transport.specs.Ending.{is_delimited, is_reusable};
ghost use Rattle.gw_transport.specs.Leasing.{EndStep, IsLeased};

use crate::leasing::end_lease;
use crate::replying::Begun;
use gw_head::Framing;
use gw_pool::{Lease, Leases};
use gw_stream::{Guard, Incoming, Pull, pull_piece};
use gw_wire::Wire;

/// Gives the next data of a reply's body, at the front of a buffer. The backend's link is read once at most, and only where
/// what is ahead of it was used. It takes no memory.
pub fn pull<W: Wire, G: Guard>(
    wire: &mut W,
    guard: &mut G,
    lease: &mut Lease<W::Conn>,
    from: &mut Incoming,
    buf: &mut [u8],
) -> Pull
    requires room { 0 < length buf.old }
    requires fresh { (W.wire wire.old).aged ≡ false }
    requires looked { (G.guard guard.old).last ≤ (W.wire wire.old).moment }
    ensures waited { Waited (side (W.wire wire.old) (G.guard guard.old)) (side (W.wire wire.new) (G.guard guard.new)) (pull_bill None result)
        (Pulled (W.Conn.link lease.old.conn).number from.old.body from.old.inbox from.new.body from.new.inbox (data_of buf.new result) result) }
    ensures link { LinkLater (W.Conn.link lease.old.conn) (W.Conn.link lease.new.conn) }
    ensures cause { PullCause (side (W.wire wire.old) (G.guard guard.old)) (side (W.wire wire.new) (G.guard guard.new))
        (W.Conn.link lease.old.conn) (W.Conn.link lease.new.conn) None result }
    ensures within { count_of result ≤ length buf.new }
    ensures kept { length buf.new ≡ length buf.old }
    ensures lease { lease.new ≡ record lease.old { conn = lease.new.conn } }
    ensures leased { (lent : Lent) → IsLeased W.Conn.link lent lease.old → IsLeased W.Conn.link lent lease.new }
    ensures guard { G.keeper guard.new ≡ G.keeper guard.old }
{
    pull_piece(
        wire,
        guard,
        &mut lease.conn,
        &mut from.body,
        &mut from.inbox,
        buf,
        None,
    )
}

/// Ends the lease of a reply whose body isn't pulled any further: its connection is given back exactly where another
/// request may follow on it (RFC 9112, section 9.3), and else dropped and closed. The request was written whole, since a
/// reply isn't awaited before.
pub fn finish<W: Wire, L: Leases<W::Conn>>(
    wire: &mut W,
    leases: &mut L,
    lease: Lease<W::Conn>,
    reply: &Begun,
    from: &Incoming,
)
    requires fresh { (W.wire wire.old).aged ≡ false }
    requires leased { IsLeased W.Conn.link (L.lent leases.old) lease }
    ensures step { EndStep (span (W.wire wire.old) (W.wire wire.new) (L.lent leases.old) (L.lent leases.new)) lease.no (is_reusable reply.now from.now) }
    ensures leases { L.keeper leases.new ≡ L.keeper leases.old }
{
    end_lease(wire, leases, lease, is_reusable(reply, from));
}

// Whether another request may follow on the connection of a reply: its body was delimited and read to its end, nothing
// came behind it, and its head neither is of HTTP/1.0 nor says that the connection closes.
fn is_reusable(reply: &Begun, from: &Incoming) -> bool
    ensures { result ≡ is_reusable reply.now from.now }
{
    is_delimited(reply.framing)
        && from.body.done()
        && from.inbox.is_empty()
        && !reply.head.old
        && !reply.head.close
}

// Whether a body of this framing ends before its link does.
fn is_delimited(framing: Framing) -> bool
    ensures { result ≡ is_delimited framing }
{
    match framing {
        Framing::ToEnd => false,
        Framing::None | Framing::Length(_) | Framing::Chunked => true,
    }
}
