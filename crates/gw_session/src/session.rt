//! A client's connection, request after request.

ghost use Rattle.std.specs.Prelude.{◌≡◌, ◌≤◌, ◌<◌, [], false, length};
ghost use Rattle.gw_account.specs.Did.{span};
ghost use Rattle.gw_conn.specs.States.{FirstByte};
ghost use Rattle.gw_stream.specs.Outbox.{out_size};
ghost use Rattle.gw_transport.specs.Leasing.{IsRested};
ghost use Rattle.gw_session.specs.Routing.{IsServable};
ghost use Rattle.gw_session.specs.Seats.{IsSameShared, seats_of};
ghost use Rattle.gw_session.specs.Session.{SessionStep};
ghost use Rattle.gw_session.specs.Stand.{IsBare, spot_of, stand};
ghost use Rattle.gw_session.specs.TurnSteps.{DeedStep, IsServedClient, IsTurnedClient, RequestStep, ServedStep, TurnStep, next_spot};

use crate::client::{Client, REQUESTS};
use crate::end::{Ended, Served, Why};
use crate::hearing::{Request, await_request, hear_request};
use crate::passing::pass;
use crate::plan::{Plan, make_plan};
use crate::saying::{lost_end, refusal_code, say_fault, say_own};
use crate::shared::Shared;
use gw_body::BodyReader;
use gw_conn::{Active, Idle, New};
use gw_context::Tree;
use gw_gate::Enter;
use gw_head::RequestHead;
use gw_pool::Leases;
use gw_proxy::Own;
use gw_routes::Table;
use gw_wire::{PeerText, Wire};
use http::Method;
use std::alloc::{AllocError, Global};

/// A connection without a request.
enum Waiting {
    New(New),
    Idle(Idle),
}

/// What follows a request.
enum Next {
    Again(Idle),
    End(Ended),
}

/// Serves a client of this peer, request after request, and closes its link.
pub fn serve_connection<W: Wire, L: Leases<W::Conn>>(
    alloc: Global,
    client: W::Conn,
    peer: PeerText,
    wire: &mut W,
    leases: &mut L,
    shared: &mut Shared<'_>,
    table: &Table,
) -> Served
    requires fresh { (W.wire wire.old).aged ≡ false }
    requires rested { IsRested (L.lent leases.old) }
    requires servable { IsServable table.now (L.lent leases.old) }
    requires outside { shared.old.gate_seat.now.view.held ≡ false }
    requires room { shared.old.buffers.now.out.size ≡ out_size }
    ensures step { SessionStep (span (W.wire wire.old) (W.wire wire.new) (L.lent leases.old) (L.lent leases.new)) (seats_of shared.old) (seats_of shared.new) shared.old.ctx_node (W.Conn.link client) peer table.now result }
    ensures same { IsSameShared shared.old shared.new }
    ensures room { shared.new.buffers.now.out.size ≡ shared.old.buffers.now.out.size }
    ensures leases { L.keeper leases.new ≡ L.keeper leases.old }
{
    let now = wire.now();
    let Ok(mut tree) = Tree::new(alloc) else {
        wire.close(client);
        return Served {
            ended: Ended::NoMemory,
            begun: 0,
        };
    };
    // What is noted of the gate is at or behind what the tree was told.
    tree.advance(now);
    let mut client = Client {
        conn: client,
        peer,
        table,
        tree,
        requests: 0,
    };
    shared.buffers.client.inbox.clear();
    let ended = serve_turns(alloc, wire, leases, &mut client, shared);
    let Client {
        conn,
        peer: _,
        table: _,
        tree: _,
        requests,
    } = client;
    wire.close(conn);
    Served {
        ended,
        begun: requests,
    }
}

// Serves one request after another until one ends the session.
fn serve_turns<W: Wire, L: Leases<W::Conn>>(
    alloc: Global,
    wire: &mut W,
    leases: &mut L,
    client: &mut Client<'_, W::Conn>,
    shared: &mut Shared<'_>,
) -> Ended
    requires fresh { (W.wire wire.old).aged ≡ false }
    requires bare { IsBare client.old.tree (W.wire wire.old).moment }
    requires rested { IsRested (L.lent leases.old) }
    requires servable { IsServable client.old.table.now (L.lent leases.old) }
    requires outside { shared.old.gate_seat.now.view.held ≡ false }
    requires nothing { shared.old.buffers.now.client.inbox ≡ [] }
    requires none { client.old.requests ≡ 0 }
    requires told { (W.wire wire.old).moment ≤ client.old.tree.last }
    requires room { shared.old.buffers.now.out.size ≡ out_size }
    ensures step { ServedStep W.Conn.link (span (W.wire wire.old) (W.wire wire.new) (L.lent leases.old) (L.lent leases.new)) (seats_of shared.old) (seats_of shared.new) shared.old.ctx_node client.old client.new result }
    ensures same { IsSameShared shared.old shared.new }
    ensures room { shared.new.buffers.now.out.size ≡ shared.old.buffers.now.out.size }
    ensures leases { L.keeper leases.new ≡ L.keeper leases.old }
{
    let mut waiting = Waiting::New(New::made());
    for _request in 0..REQUESTS {
        match serve_turn(alloc, wire, leases, client, shared, waiting) {
            Next::Again(idle) => waiting = Waiting::Idle(idle),
            Next::End(ended) => return ended,
        }
    }
    close(waiting);
    unreachable!()
}

// Waits for a request, and answers it where it begins.
fn serve_turn<W: Wire, L: Leases<W::Conn>>(
    alloc: Global,
    wire: &mut W,
    leases: &mut L,
    client: &mut Client<'_, W::Conn>,
    shared: &mut Shared<'_>,
    waiting: Waiting,
) -> Next
    requires fresh { (W.wire wire.old).aged ≡ false }
    requires bare { IsBare client.old.tree (W.wire wire.old).moment }
    requires rested { IsRested (L.lent leases.old) }
    requires servable { IsServable client.old.table.now (L.lent leases.old) }
    requires outside { shared.old.gate_seat.now.view.held ≡ false }
    requires few { client.old.requests < 4_294_967_295 }
    requires room { shared.old.buffers.now.out.size ≡ out_size }
    ensures step { TurnStep (span (W.wire wire.old) (W.wire wire.new) (L.lent leases.old) (L.lent leases.new))
        (stand (W.wire wire.old) (W.Conn.link client.old.conn) (seats_of shared.old)) (stand (W.wire wire.new) (W.Conn.link client.new.conn) (seats_of shared.new))
        (next_spot (spot_of W.Conn.link client.old shared.old)) client.old.tree.last shared.old.buffers.now.client.inbox shared.new.buffers.now.client.inbox client.new.requests result }
    ensures client { IsTurnedClient client.old client.new (W.wire wire.new).moment result }
    ensures same { IsSameShared shared.old shared.new }
    ensures room { shared.new.buffers.now.out.size ≡ shared.old.buffers.now.out.size }
    ensures leases { L.keeper leases.new ≡ L.keeper leases.old }
{
    if let Some(why) = await_request(wire, client, shared) {
        close(waiting);
        return Next::End(lost_end(why));
    }
    let entered = shared.gate.enter(shared.gate_seat);
    let Some(active) = begin(waiting, entered) else {
        return Next::End(Ended::Closed(Why::Refused));
    };
    client.requests += 1;
    match serve_request(alloc, wire, leases, client, shared) {
        None => {
            let (inside, idle) = active.idle();
            shared.gate.leave(shared.gate_seat, inside);
            Next::Again(idle)
        }
        Some(ended) => {
            shared.gate.leave(shared.gate_seat, active.close());
            Next::End(ended)
        }
    }
}

// A connection is active with its first byte, where the gate was open.
fn begin(waiting: Waiting, entered: Enter) -> Option<Active>
    ensures { FirstByte entered result }
{
    match waiting {
        Waiting::New(new) => new.first_byte(entered),
        Waiting::Idle(idle) => idle.first_byte(entered),
    }
}

fn close(waiting: Waiting) {
    match waiting {
        Waiting::New(new) => new.close(),
        Waiting::Idle(idle) => idle.close(),
    }
}

// Hears and answers a request that began.
fn serve_request<W: Wire, L: Leases<W::Conn>>(
    alloc: Global,
    wire: &mut W,
    leases: &mut L,
    client: &mut Client<'_, W::Conn>,
    shared: &mut Shared<'_>,
) -> Option<Ended>
    requires fresh { (W.wire wire.old).aged ≡ false }
    requires bare { IsBare client.old.tree (W.wire wire.old).moment }
    requires rested { IsRested (L.lent leases.old) }
    requires servable { IsServable client.old.table.now (L.lent leases.old) }
    requires room { shared.old.buffers.now.out.size ≡ out_size }
    ensures step { RequestStep (span (W.wire wire.old) (W.wire wire.new) (L.lent leases.old) (L.lent leases.new))
        (stand (W.wire wire.old) (W.Conn.link client.old.conn) (seats_of shared.old)) (stand (W.wire wire.new) (W.Conn.link client.new.conn) (seats_of shared.new))
        (spot_of W.Conn.link client.old shared.old) client.old.tree.last shared.old.buffers.now.client.inbox shared.new.buffers.now.client.inbox result }
    ensures client { IsServedClient client.old client.new (W.wire wire.new).moment }
    ensures same { IsSameShared shared.old shared.new }
    ensures room { shared.new.buffers.now.out.size ≡ shared.old.buffers.now.out.size }
    ensures leases { L.keeper leases.new ≡ L.keeper leases.old }
{
    let client_ms = client.table.client_ms;
    match hear_request(wire, &mut client.conn, shared.buffers, client_ms) {
        Request::Head(head) => respond(alloc, wire, leases, client, shared, &head),
        Request::Refused(error) => {
            say_fault(
                alloc,
                wire,
                client,
                refusal_code(error),
                &Method::GET,
                false,
            )
        }
        Request::Lost(why) => Some(lost_end(why)),
        Request::NoMemory => Some(Ended::NoMemory),
    }
}

// Answers a request whose head is whole: by way of a backend, or by itself.
fn respond<W: Wire, L: Leases<W::Conn>>(
    alloc: Global,
    wire: &mut W,
    leases: &mut L,
    client: &mut Client<'_, W::Conn>,
    shared: &mut Shared<'_>,
    head: &RequestHead,
) -> Option<Ended>
    requires fresh { (W.wire wire.old).aged ≡ false }
    requires bare { IsBare client.old.tree (W.wire wire.old).moment }
    requires rested { IsRested (L.lent leases.old) }
    requires servable { IsServable client.old.table.now (L.lent leases.old) }
    requires room { shared.old.buffers.now.out.size ≡ out_size }
    ensures step { DeedStep (span (W.wire wire.old) (W.wire wire.new) (L.lent leases.old) (L.lent leases.new))
        (stand (W.wire wire.old) (W.Conn.link client.old.conn) (seats_of shared.old)) (stand (W.wire wire.new) (W.Conn.link client.new.conn) (seats_of shared.new))
        (spot_of W.Conn.link client.old shared.old) client.old.tree.last head.now shared.old.buffers.now.client.inbox shared.new.buffers.now.client.inbox result }
    ensures client { IsServedClient client.old client.new (W.wire wire.new).moment }
    ensures same { IsSameShared shared.old shared.new }
    ensures room { shared.new.buffers.now.out.size ≡ shared.old.buffers.now.out.size }
    ensures leases { L.keeper leases.new ≡ L.keeper leases.old }
{
    shared.buffers.client.body = BodyReader::new(head.framing);
    match make_plan(alloc, client.table, head) {
        Ok(Plan::Pass(number)) => pass(alloc, wire, leases, client, shared, head, number),
        Ok(Plan::Own(own)) => say_own(alloc, wire, client, shared, &own, head),
        Ok(Plan::Stop(_)) => {
            let _first = shared.gate.shut(shared.gate_seat);
            say_own(alloc, wire, client, shared, &Own::Stopped, head)
        }
        Err(AllocError) => Some(Ended::NoMemory),
    }
}
