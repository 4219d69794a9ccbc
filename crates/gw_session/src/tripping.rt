//! A request's trip, and its reply's beginning and rest, each beside what a worker watches.

ghost use Rattle.std.specs.Prelude.{◌≡◌, ◌≤◌, ◌<◌, false, None};
ghost use Rattle.gw_account.specs.Did.{span};
ghost use Rattle.gw_body.specs.Places.{begins};
ghost use Rattle.gw_pool.specs.Lent.{Lent};
ghost use Rattle.gw_stream.specs.Beginning.{BeganCause, FirstStep};
ghost use Rattle.gw_stream.specs.Outbox.{HasRoom, out_size};
ghost use Rattle.gw_stream.specs.Relaying.{RelayCause, RelayStep};
ghost use Rattle.gw_stream.specs.Waits.{side};
ghost use Rattle.gw_transport.specs.Leasing.{IsLeased, IsRested};
ghost use Rattle.gw_wire.specs.Link.{LinkLater};
ghost use Rattle.gw_transport.specs.Sending.{IsKept};
ghost use Rattle.gw_session.specs.Seats.{IsSameShared, seats_of};
ghost use Rattle.gw_session.specs.Stand.{line_of, spot_of, stand};
ghost use Rattle.gw_session.specs.TripSteps.{BegunStep, IsTimed, IsTimedClient, KeptTrip, MadeStep, OnTrip, RelayedStep, asking_of, deadline_of, passing_of, to_client};

use crate::client::Client;
use crate::errand::Errand;
use crate::shared::Shared;
use gw_body::Rewindable;
use gw_pool::{Lease, Leases};
use gw_stream::{Began, Guard, Relayed, Silences, first_piece, relay};
use gw_transport::{Buffers, Trip, Watch, round_trip, upload_trip};
use gw_wire::Wire;

/// Makes the trip of a request whose body is kept.
pub fn make_trip<W: Wire, L: Leases<W::Conn>>(
    wire: &mut W,
    leases: &mut L,
    client: &mut Client<'_, W::Conn>,
    shared: &mut Shared<'_>,
    errand: &Errand<'_, '_>,
    body: &Rewindable,
) -> Trip<W::Conn>
    requires fresh { (W.wire wire.old).aged ≡ false }
    requires looked { client.old.tree.last ≤ (W.wire wire.old).moment }
    requires rested { IsRested (L.lent leases.old) }
    requires within { errand.now.order.host < (L.lent leases.old).limits.hosts }
    requires kept { IsKept errand.now.order.out.now.framing body.now }
    requires timed { IsTimed client.old.tree errand.now.node }
    requires room { shared.old.buffers.now.out.size ≡ out_size }
    ensures step { MadeStep W.Conn.link (span (W.wire wire.old) (W.wire wire.new) (L.lent leases.old) (L.lent leases.new))
        (stand (W.wire wire.old) (W.Conn.link client.old.conn) (seats_of shared.old)) (stand (W.wire wire.new) (W.Conn.link client.new.conn) (seats_of shared.new))
        (spot_of W.Conn.link client.old shared.old) client.old.tree.last (deadline_of client.old.tree errand.now.node)
        (KeptTrip errand.now.order body.now shared.new.buffers.now) result }
    ensures client { IsTimedClient client.old client.new errand.now.node (W.wire wire.new).moment }
    ensures conn { client.new.conn ≡ client.old.conn }
    ensures same { IsSameShared shared.old shared.new }
    ensures read { shared.new.buffers.now.client ≡ shared.old.buffers.now.client }
    ensures room { shared.new.buffers.now.out.size ≡ shared.old.buffers.now.out.size }
    ensures leases { L.keeper leases.new ≡ L.keeper leases.old }
{
    let mut watch = Watch {
        tree: &mut client.tree,
        node: errand.node,
        ctx: shared.ctx,
        ctx_seat: shared.ctx_seat,
        ctx_node: shared.ctx_node,
        gate: shared.gate,
        gate_seat: shared.gate_seat,
        grace_ms: client.table.grace_ms,
        shut_at: shared.shut_at,
        client_ms: client.table.client_ms,
    };
    let order = &errand.order;
    let trip = round_trip(wire, leases, &mut watch, order, body, shared.buffers);
    shared.shut_at = watch.shut_at;
    trip
}

/// Makes the trip of a request whose body is sent as it comes of the client.
pub fn make_upload<W: Wire, L: Leases<W::Conn>>(
    wire: &mut W,
    leases: &mut L,
    client: &mut Client<'_, W::Conn>,
    shared: &mut Shared<'_>,
    errand: &mut Errand<'_, '_>,
) -> Trip<W::Conn>
    requires fresh { (W.wire wire.old).aged ≡ false }
    requires looked { client.old.tree.last ≤ (W.wire wire.old).moment }
    requires timed { IsTimed client.old.tree errand.old.node }
    requires rested { IsRested (L.lent leases.old) }
    requires within { errand.old.order.host < (L.lent leases.old).limits.hosts }
    requires begun { shared.old.buffers.now.client.body ≡ begins errand.old.order.out.now.framing }
    requires untold { errand.old.upload.continued ≡ 0 }
    requires silence { errand.old.upload.client_ms ≡ client.old.table.now.client_ms }
    requires room { shared.old.buffers.now.out.size ≡ out_size }
    ensures step { MadeStep W.Conn.link (span (W.wire wire.old) (W.wire wire.new) (L.lent leases.old) (L.lent leases.new))
        (stand (W.wire wire.old) (W.Conn.link client.old.conn) (seats_of shared.old)) (stand (W.wire wire.new) (W.Conn.link client.new.conn) (seats_of shared.new))
        (spot_of W.Conn.link client.old shared.old) client.old.tree.last (deadline_of client.old.tree errand.old.node)
        (OnTrip (asking_of errand.old.order (line_of (spot_of W.Conn.link client.old shared.old)) errand.old.upload.expect shared.old.buffers.now.client.inbox) errand.old.order errand.new.upload.continued shared.new.buffers.now) result }
    ensures client { IsTimedClient client.old client.new errand.old.node (W.wire wire.new).moment }
    ensures errand { errand.new ≡ record errand.old { upload = errand.new.upload } }
    ensures same { IsSameShared shared.old shared.new }
    ensures room { shared.new.buffers.now.out.size ≡ shared.old.buffers.now.out.size }
    ensures leases { L.keeper leases.new ≡ L.keeper leases.old }
{
    let mut watch = Watch {
        tree: &mut client.tree,
        node: errand.node,
        ctx: shared.ctx,
        ctx_seat: shared.ctx_seat,
        ctx_node: shared.ctx_node,
        gate: shared.gate,
        gate_seat: shared.gate_seat,
        grace_ms: client.table.grace_ms,
        shut_at: shared.shut_at,
        client_ms: client.table.client_ms,
    };
    let order = &errand.order;
    let trip = upload_trip(
        wire,
        leases,
        &mut watch,
        order,
        &mut client.conn,
        &mut errand.upload,
        shared.buffers,
    );
    shared.shut_at = watch.shut_at;
    trip
}

/// Waits for a reply's first piece.
pub(crate) fn begin_reply<W: Wire>(
    wire: &mut W,
    client: &mut Client<'_, W::Conn>,
    shared: &mut Shared<'_>,
    node: u32,
    lease: &mut Lease<W::Conn>,
) -> Began
    requires fresh { (W.wire wire.old).aged ≡ false }
    requires looked { client.old.tree.last ≤ (W.wire wire.old).moment }
    requires timed { IsTimed client.old.tree node }
    requires space { HasRoom shared.old.buffers.now.out }
    ensures step { BegunStep (stand (W.wire wire.old) (W.Conn.link client.old.conn) (seats_of shared.old)) (stand (W.wire wire.new) (W.Conn.link client.new.conn) (seats_of shared.new))
        (spot_of W.Conn.link client.old shared.old) client.old.tree.last (W.Conn.link lease.old.conn).number (passing_of shared.old.buffers.now) (passing_of shared.new.buffers.now)
        (deadline_of client.old.tree node) result }
    ensures client { IsTimedClient client.old client.new node (W.wire wire.new).moment }
    ensures lease { lease.new ≡ record lease.old { conn = lease.new.conn } }
    ensures leased { (lent : Lent) → IsLeased W.Conn.link lent lease.old → IsLeased W.Conn.link lent lease.new }
    ensures read { shared.new.buffers.now.client ≡ shared.old.buffers.now.client }
    ensures conn { client.new.conn ≡ client.old.conn }
    ensures same { IsSameShared shared.old shared.new }
{
    let mut watch = Watch {
        tree: &mut client.tree,
        node,
        ctx: shared.ctx,
        ctx_seat: shared.ctx_seat,
        ctx_node: shared.ctx_node,
        gate: shared.gate,
        gate_seat: shared.gate_seat,
        grace_ms: client.table.grace_ms,
        shut_at: shared.shut_at,
        client_ms: client.table.client_ms,
    };
    let began = first_of(wire, &mut watch, &mut lease.conn, shared.buffers);
    shared.shut_at = watch.shut_at;
    began
}

// The first piece of what comes of a backend.
fn first_of<W: Wire, G: Guard>(
    wire: &mut W,
    guard: &mut G,
    conn: &mut W::Conn,
    buffers: &mut Buffers,
) -> Began
    requires fresh { (W.wire wire.old).aged ≡ false }
    requires looked { (G.guard guard.old).last ≤ (W.wire wire.old).moment }
    requires room { HasRoom buffers.old.out }
    ensures step { FirstStep (side (W.wire wire.old) (G.guard guard.old)) (side (W.wire wire.new) (G.guard guard.new))
        (W.Conn.link conn.old).number (passing_of buffers.old) (passing_of buffers.new) None result }
    ensures link { LinkLater (W.Conn.link conn.old) (W.Conn.link conn.new) }
    ensures cause { BeganCause (side (W.wire wire.old) (G.guard guard.old)) (side (W.wire wire.new) (G.guard guard.new))
        (W.Conn.link conn.old) (W.Conn.link conn.new) None result }
    ensures client { buffers.new.client ≡ buffers.old.client }
    ensures guard { G.keeper guard.new ≡ G.keeper guard.old }
{
    let from = &mut buffers.backend;
    first_piece(wire, guard, conn, from, &mut buffers.out, None)
}

/// Passes the rest of a reply on, whose head is ready.
pub(crate) fn relay_rest<W: Wire>(
    wire: &mut W,
    client: &mut Client<'_, W::Conn>,
    shared: &mut Shared<'_>,
    node: u32,
    lease: &mut Lease<W::Conn>,
) -> Relayed
    requires fresh { (W.wire wire.old).aged ≡ false }
    requires looked { client.old.tree.last ≤ (W.wire wire.old).moment }
    requires timed { IsTimed client.old.tree node }
    requires space { HasRoom shared.old.buffers.now.out }
    ensures step { RelayedStep (stand (W.wire wire.old) (W.Conn.link client.old.conn) (seats_of shared.old)) (stand (W.wire wire.new) (W.Conn.link client.new.conn) (seats_of shared.new))
        (spot_of W.Conn.link client.old shared.old) client.old.tree.last (W.Conn.link lease.old.conn).number (passing_of shared.old.buffers.now) shared.new.buffers.now.backend
        (deadline_of client.old.tree node) result }
    ensures client { IsTimedClient client.old client.new node (W.wire wire.new).moment }
    ensures lease { lease.new ≡ record lease.old { conn = lease.new.conn } }
    ensures leased { (lent : Lent) → IsLeased W.Conn.link lent lease.old → IsLeased W.Conn.link lent lease.new }
    ensures read { shared.new.buffers.now.client ≡ shared.old.buffers.now.client }
    ensures same { IsSameShared shared.old shared.new }
    ensures room { shared.new.buffers.now.out.size ≡ shared.old.buffers.now.out.size }
{
    let silence = client.table.client_ms;
    let mut watch = Watch {
        tree: &mut client.tree,
        node,
        ctx: shared.ctx,
        ctx_seat: shared.ctx_seat,
        ctx_node: shared.ctx_node,
        gate: shared.gate,
        gate_seat: shared.gate_seat,
        grace_ms: client.table.grace_ms,
        shut_at: shared.shut_at,
        client_ms: client.table.client_ms,
    };
    let target = &mut client.conn;
    let relayed = rest_of(
        wire,
        &mut watch,
        &mut lease.conn,
        target,
        shared.buffers,
        silence,
    );
    shared.shut_at = watch.shut_at;
    relayed
}

// What comes of a backend, to the client.
fn rest_of<W: Wire, G: Guard>(
    wire: &mut W,
    guard: &mut G,
    source: &mut W::Conn,
    target: &mut W::Conn,
    buffers: &mut Buffers,
    silence: u64,
) -> Relayed
    requires fresh { (W.wire wire.old).aged ≡ false }
    requires looked { (G.guard guard.old).last ≤ (W.wire wire.old).moment }
    requires room { HasRoom buffers.old.out }
    ensures step { RelayStep (side (W.wire wire.old) (G.guard guard.old)) (side (W.wire wire.new) (G.guard guard.new))
        (W.Conn.link source.old).number (W.Conn.link target.old).number (to_client silence) (passing_of buffers.old) buffers.new.backend result }
    ensures cause { RelayCause (side (W.wire wire.old) (G.guard guard.old)) (side (W.wire wire.new) (G.guard guard.new))
        (W.Conn.link source.old) (W.Conn.link source.new) (W.Conn.link target.old) (W.Conn.link target.new) (to_client silence) result }
    ensures source { LinkLater (W.Conn.link source.old) (W.Conn.link source.new) }
    ensures target { LinkLater (W.Conn.link target.old) (W.Conn.link target.new) }
    ensures size { buffers.new.out.size ≡ buffers.old.out.size }
    ensures client { buffers.new.client ≡ buffers.old.client }
    ensures guard { G.keeper guard.new ≡ G.keeper guard.old }
{
    let silences = Silences {
        source: None,
        target: Some(silence),
    };
    let from = &mut buffers.backend;
    relay(
        wire,
        guard,
        source,
        target,
        from,
        &mut buffers.out,
        silences,
    )
}
