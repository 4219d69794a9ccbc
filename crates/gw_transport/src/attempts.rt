//! The attempts of a trip: each on a connection of its own, the next one only where the request may be sent again.

ghost use Rattle.std.specs.Prelude.{◌≡◌, ◌≤◌, ◌<◌, false};
ghost use Rattle.gw_account.specs.Did.{span};
ghost use Rattle.gw_stream.specs.Outbox.{out_size};
ghost use Rattle.gw_wire.specs.Link.{LinkLater};
ghost use Rattle.gw_transport.specs.Attempts.{AttemptedBy, TripStep, errand_of};
ghost use Rattle.gw_transport.specs.Leasing.{IsRested};
ghost use Rattle.gw_transport.specs.Sending.{ExchangesKept, IsKept, kept_view};
ghost use Rattle.gw_transport.specs.Uploading.{ExchangesUpload, TripClientCause, upload_errand, upload_view};

use crate::buffers::Buffers;
use crate::leasing::{Leased, close_expired, end_lease, lease};
use crate::replying::{Begun, End};
use crate::sending::{exchange, kind_of_body};
use crate::uploading::{Upload, exchange_upload};
use gw_body::Rewindable;
use gw_pool::{Lease, Leases};
use gw_proxy::OutHead;
use gw_retry::{Failure, MAX_ATTEMPTS, may_retry};
use gw_stream::Guard;
use gw_wire::{Addr, Wire};

/// What one attempt came to.
#[derive(Debug, Drop)]
pub enum Tried<R, E> {
    /// A reply, for whose body the connection is kept.
    Reply(R),
    /// The exchange with the backend failed.
    Failed(Failure),
    /// The trip is over without a reply and without a failure of the backend's.
    Over(E),
}

/// Where a request goes.
#[derive(Clone, Copy)]
pub struct Order<'a> {
    /// Its head, and what says whether it may be sent again.
    pub out: &'a OutHead,
    /// The backend's number among the pool's hosts.
    pub host: u32,
    /// The backend's address.
    pub addr: &'a Addr,
}

/// What a trip's attempts came to.
pub enum Attempted<C, R, E> {
    /// The last one has a reply, and its connection is kept for the reply's body: `finish` ends the lease.
    Reply(Lease<C>, R),
    /// The last one failed, or no further connection came since the trip was cancelled or late.
    Failed(Failure),
    /// The trip is over without a reply and without a failure of the backend's.
    Over(E),
    /// The backend could not be dialed.
    Unreachable,
    /// The journal has no room for a want.
    Full,
}

/// What a trip to a backend came to.
pub type Trip<C> = Attempted<C, Begun, End>;

/// Makes a trip of a request whose body is kept: closes the connection that was idle longest where it is expired, and then
/// makes attempts, each on a connection of its own. Another one follows exactly where the request may be sent again; eight
/// are made at most. The lease of an attempt without a reply is dropped, and its connection closed. Behind a reply its body
/// is that of `buffers.backend`. A body that is kept has the length that the head says.
pub fn round_trip<W: Wire, L: Leases<W::Conn>, G: Guard>(
    wire: &mut W,
    leases: &mut L,
    guard: &mut G,
    order: &Order<'_>,
    body: &Rewindable,
    buffers: &mut Buffers,
) -> Attempted<W::Conn, Begun, End>
    requires fresh { (W.wire wire.old).aged ≡ false }
    requires looked { (G.guard guard.old).last ≤ (W.wire wire.old).moment }
    requires rested { IsRested (L.lent leases.old) }
    requires within { order.now.host < (L.lent leases.old).limits.hosts }
    requires kept { IsKept order.now.out.now.framing body.now }
    requires room { 6 ≤ buffers.old.out.size }
    ensures step { TripStep W.Conn.link (span (W.wire wire.old) (W.wire wire.new) (L.lent leases.old) (L.lent leases.new)) (G.guard guard.old) (G.guard guard.new)
        (AttemptedBy ExchangesKept (errand_of order.now body.now) (kept_view order.now.out.now body.now buffers.old.backend buffers.old.out.size)
        (kept_view order.now.out.now body.now buffers.new.backend buffers.new.out.size) result) result }
    ensures leases { L.keeper leases.new ≡ L.keeper leases.old }
    ensures guard { G.keeper guard.new ≡ G.keeper guard.old }
    ensures client { buffers.new.client ≡ buffers.old.client }
    ensures room { buffers.new.out.size ≡ buffers.old.out.size }
{
    let now = wire.now();
    close_expired(wire, leases, now);
    let kind = kind_of_body(body);
    for made in 0..MAX_ATTEMPTS {
        let mut got = match lease(wire, leases, guard, order.host, order.addr) {
            Leased::Lease(got) => got,
            Leased::Unreachable => return Attempted::Unreachable,
            Leased::Full => return Attempted::Full,
            Leased::Cancelled => return Attempted::Failed(Failure::Cancelled),
            Leased::Late => return Attempted::Failed(Failure::Deadline),
        };
        let reused = got.reused;
        match exchange(wire, guard, &mut got.conn, order.out, body, buffers) {
            Tried::Reply(reply) => return Attempted::Reply(got, reply),
            Tried::Over(end) => {
                end_lease(wire, leases, got, false);
                return Attempted::Over(end);
            }
            Tried::Failed(why) => {
                end_lease(wire, leases, got, false);
                if !may_retry(
                    why,
                    reused,
                    &order.out.method,
                    order.out.has_key,
                    kind,
                    made + 1,
                ) {
                    return Attempted::Failed(why);
                }
            }
        }
    }
    unreachable!()
}

/// Makes a trip of a request whose body is read of the client's link as it is sent, as `round_trip` does, but with one
/// attempt, since such a body can't be sent again. The client is told to go on before its body is read, where it waits for
/// that. The body is that of `buffers.client`, which no memory is taken for.
pub fn upload_trip<W: Wire, L: Leases<W::Conn>, G: Guard>(
    wire: &mut W,
    leases: &mut L,
    guard: &mut G,
    order: &Order<'_>,
    client: &mut W::Conn,
    upload: &mut Upload,
    buffers: &mut Buffers,
) -> Attempted<W::Conn, Begun, End>
    requires fresh { (W.wire wire.old).aged ≡ false }
    requires looked { (G.guard guard.old).last ≤ (W.wire wire.old).moment }
    requires rested { IsRested (L.lent leases.old) }
    requires within { order.now.host < (L.lent leases.old).limits.hosts }
    requires none { upload.old.continued ≡ 0 }
    requires room { buffers.old.out.size ≡ out_size }
    ensures step { TripStep W.Conn.link (span (W.wire wire.old) (W.wire wire.new) (L.lent leases.old) (L.lent leases.new)) (G.guard guard.old) (G.guard guard.new)
        (AttemptedBy ExchangesUpload (upload_errand order.now)
        (upload_view order.now.out.now (W.Conn.link client.old).number upload.old buffers.old.client buffers.old.backend)
        (upload_view order.now.out.now (W.Conn.link client.new).number upload.new buffers.new.client buffers.new.backend) result) result }
    ensures client { LinkLater (W.Conn.link client.old) (W.Conn.link client.new) }
    ensures cause { TripClientCause (W.Conn.link client.old) (W.Conn.link client.new) result }
    ensures leases { L.keeper leases.new ≡ L.keeper leases.old }
    ensures guard { G.keeper guard.new ≡ G.keeper guard.old }
    ensures room { buffers.new.out.size ≡ buffers.old.out.size }
{
    let now = wire.now();
    close_expired(wire, leases, now);
    let mut got = match lease(wire, leases, guard, order.host, order.addr) {
        Leased::Lease(got) => got,
        Leased::Unreachable => return Attempted::Unreachable,
        Leased::Full => return Attempted::Full,
        Leased::Cancelled => return Attempted::Failed(Failure::Cancelled),
        Leased::Late => return Attempted::Failed(Failure::Deadline),
    };
    match exchange_upload(
        wire,
        guard,
        &mut got.conn,
        client,
        order.out,
        upload,
        buffers,
    ) {
        Tried::Reply(reply) => Attempted::Reply(got, reply),
        Tried::Over(end) => {
            end_lease(wire, leases, got, false);
            Attempted::Over(end)
        }
        Tried::Failed(why) => {
            end_lease(wire, leases, got, false);
            Attempted::Failed(why)
        }
    }
}
