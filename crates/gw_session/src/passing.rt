//! Requests that are passed on to a backend.

ghost use Rattle.std.specs.Prelude.{◌≡◌, ◌≤◌, ◌<◌, ◌+◌, true, false, not, length, Some, IsTrue};
ghost use Rattle.gw_account.specs.Did.{span};
ghost use Rattle.gw_body.specs.Places.{begins, is_done};
ghost use Rattle.gw_proxy.specs.OutReply.{is_own};
ghost use Rattle.gw_proxy.specs.declared.own.Own.TheVariants.{Plain};
ghost use Rattle.gw_stream.specs.Outbox.{out_size};
ghost use Rattle.gw_transport.specs.Attempts.{LeftOut};
ghost use Rattle.gw_transport.specs.Leasing.{IsRested};
ghost use Rattle.gw_session.specs.Passing.{Answers, answer_next, failure_code, is_kept, reason_of, rest_of_continue};
ghost use Rattle.gw_session.specs.Routing.{IsPassed, IsServable};
ghost use Rattle.gw_session.specs.Seats.{IsSameShared, seats_of};
ghost use Rattle.gw_session.specs.Stand.{Goes, IsBare, IsSameClient, spot_of, stand};
ghost use Rattle.gw_session.specs.AnswerSteps.{FailureStep, IsErrand, OverStep, own_end};
ghost use Rattle.gw_session.specs.ReplySteps.{AnsweredStep};
ghost use Rattle.gw_session.specs.TurnSteps.{DeedStep, IsServedClient};
ghost use Rattle.gw_session.specs.TripSteps.{IsTimed, IsTimedClient, deadline_of, plain, trace_of};

use crate::client::Client;
use crate::end::{Ended, Why};
use crate::errand::Errand;
use crate::gathering::{CONTINUE, Held, expects, hear_body};
use crate::replying::{Answered, pass_back};
use crate::saying::{lost_end, say_fault, say_own, sent_next, write_text};
use crate::shared::Shared;
use crate::tripping::{make_trip, make_upload};
use gw_body::Rewindable;
use gw_head::{Framing, RequestHead};
use gw_pool::Leases;
use gw_proxy::{Own, out_request};
use gw_retry::Failure;
use gw_routes::{Action, Route};
use gw_stream::Sent;
use gw_transport::{Attempted, End, Order, Trip, Upload, first_deadline_is_least};
use gw_wire::Wire;
use std::alloc::Global;

/// Passes a request on by the route of that number, from whose routing on its deadline counts.
pub(crate) fn pass<W: Wire, L: Leases<W::Conn>>(
    alloc: Global,
    wire: &mut W,
    leases: &mut L,
    client: &mut Client<'_, W::Conn>,
    shared: &mut Shared<'_>,
    head: &RequestHead,
    number: u32,
) -> Option<Ended>
    requires fresh { (W.wire wire.old).aged ≡ false }
    requires bare { IsBare client.old.tree (W.wire wire.old).moment }
    requires rested { IsRested (L.lent leases.old) }
    requires servable { IsServable client.old.table.now (L.lent leases.old) }
    requires passed { IsPassed client.old.table.now head.now number }
    requires begun { shared.old.buffers.now.client.body ≡ begins head.now.framing }
    requires room { shared.old.buffers.now.out.size ≡ out_size }
    ensures step { DeedStep (span (W.wire wire.old) (W.wire wire.new) (L.lent leases.old) (L.lent leases.new))
        (stand (W.wire wire.old) (W.Conn.link client.old.conn) (seats_of shared.old)) (stand (W.wire wire.new) (W.Conn.link client.new.conn) (seats_of shared.new))
        (spot_of W.Conn.link client.old shared.old) client.old.tree.last head.now shared.old.buffers.now.client.inbox shared.new.buffers.now.client.inbox result }
    ensures client { IsServedClient client.old client.new (W.wire wire.new).moment }
    ensures same { IsSameShared shared.old shared.new }
    ensures room { shared.new.buffers.now.out.size ≡ shared.old.buffers.now.out.size }
    ensures leases { L.keeper leases.new ≡ L.keeper leases.old }
{
    let table = client.table;
    let route = &table.routes[number as usize];
    let Action::Backend { host, base } = &route.action else {
        unreachable!()
    };
    let addr = &table.hosts[*host as usize];
    let now = wire.now();
    let Ok(out) = out_request(alloc, head, base.as_slice(), addr, &client.peer) else {
        return Some(Ended::NoMemory);
    };
    client.tree.advance(now);
    let Ok(node) = client.tree.with_deadline(0, now + route.timeout) else {
        return Some(Ended::NoMemory);
    };
    let order = Order {
        out: &out,
        host: *host,
        addr,
    };
    let upload = Upload {
        expect: expects(head),
        continued: 0,
        client_ms: client.table.client_ms,
    };
    let mut errand = Errand {
        head,
        order,
        node,
        upload,
    };
    first_deadline_is_least();
    let kept = is_kept(head.framing, route.buffer);
    let next = pass_by(alloc, wire, leases, client, shared, &mut errand, kept);
    client.tree.truncate(1);
    next
}

// Passes a request on whose body is read whole first, or sent as it comes.
fn pass_by<W: Wire, L: Leases<W::Conn>>(
    alloc: Global,
    wire: &mut W,
    leases: &mut L,
    client: &mut Client<'_, W::Conn>,
    shared: &mut Shared<'_>,
    errand: &mut Errand<'_, '_>,
    kept: bool,
) -> Option<Ended>
    requires fresh { (W.wire wire.old).aged ≡ false }
    requires looked { client.old.tree.last ≤ (W.wire wire.old).moment }
    requires timed { IsTimed client.old.tree errand.old.node }
    requires rested { IsRested (L.lent leases.old) }
    requires within { errand.old.order.host < (L.lent leases.old).limits.hosts }
    requires errand { IsErrand (spot_of W.Conn.link client.old shared.old) errand.old (W.wire wire.old).moment (deadline_of client.old.tree errand.old.node) kept }
    requires begun { shared.old.buffers.now.client.body ≡ begins errand.old.head.now.framing }
    requires room { shared.old.buffers.now.out.size ≡ out_size }
    ensures step { DeedStep (span (W.wire wire.old) (W.wire wire.new) (L.lent leases.old) (L.lent leases.new))
        (stand (W.wire wire.old) (W.Conn.link client.old.conn) (seats_of shared.old)) (stand (W.wire wire.new) (W.Conn.link client.new.conn) (seats_of shared.new))
        (spot_of W.Conn.link client.old shared.old) client.old.tree.last errand.old.head.now shared.old.buffers.now.client.inbox shared.new.buffers.now.client.inbox result }
    ensures client { IsTimedClient client.old client.new errand.old.node (W.wire wire.new).moment }
    ensures same { IsSameShared shared.old shared.new }
    ensures room { shared.new.buffers.now.out.size ≡ shared.old.buffers.now.out.size }
    ensures leases { L.keeper leases.new ≡ L.keeper leases.old }
{
    if kept {
        pass_kept(alloc, wire, leases, client, shared, errand)
    } else {
        pass_on(alloc, wire, leases, client, shared, errand)
    }
}

// Whether a body of this framing is read whole before its request is sent.
fn is_kept(framing: Framing, buffer: u32) -> bool
    ensures { result ≡ is_kept framing buffer }
{
    match framing {
        Framing::None => true,
        Framing::Length(count) => count <= u64::from(buffer),
        Framing::Chunked | Framing::ToEnd => false,
    }
}

// Reads the body of a request whole, and then makes its trip.
fn pass_kept<W: Wire, L: Leases<W::Conn>>(
    alloc: Global,
    wire: &mut W,
    leases: &mut L,
    client: &mut Client<'_, W::Conn>,
    shared: &mut Shared<'_>,
    errand: &Errand<'_, '_>,
) -> Option<Ended>
    requires fresh { (W.wire wire.old).aged ≡ false }
    requires looked { client.old.tree.last ≤ (W.wire wire.old).moment }
    requires timed { IsTimed client.old.tree errand.now.node }
    requires rested { IsRested (L.lent leases.old) }
    requires within { errand.now.order.host < (L.lent leases.old).limits.hosts }
    requires errand { IsErrand (spot_of W.Conn.link client.old shared.old) errand.now (W.wire wire.old).moment (deadline_of client.old.tree errand.now.node) true }
    requires begun { shared.old.buffers.now.client.body ≡ begins errand.now.head.now.framing }
    requires room { shared.old.buffers.now.out.size ≡ out_size }
    ensures step { DeedStep (span (W.wire wire.old) (W.wire wire.new) (L.lent leases.old) (L.lent leases.new))
        (stand (W.wire wire.old) (W.Conn.link client.old.conn) (seats_of shared.old)) (stand (W.wire wire.new) (W.Conn.link client.new.conn) (seats_of shared.new))
        (spot_of W.Conn.link client.old shared.old) client.old.tree.last errand.now.head.now shared.old.buffers.now.client.inbox shared.new.buffers.now.client.inbox result }
    ensures client { IsTimedClient client.old client.new errand.now.node (W.wire wire.new).moment }
    ensures same { IsSameShared shared.old shared.new }
    ensures room { shared.new.buffers.now.out.size ≡ shared.old.buffers.now.out.size }
    ensures leases { L.keeper leases.new ≡ L.keeper leases.old }
{
    let from = &mut shared.buffers.client;
    let silence = client.table.client_ms;
    let body = match hear_body(alloc, wire, &mut client.conn, from, errand.head, silence) {
        Held::Whole(body) => body,
        Held::Untold(sent) => return sent_next(sent, None),
        Held::Lost(why) => return Some(lost_end(why)),
        Held::NoMemory => return Some(Ended::NoMemory),
    };
    let trip = make_trip(wire, leases, client, shared, errand, &body);
    answer(alloc, wire, leases, client, shared, errand, trip)
}

// Makes the trip of a request whose body is sent as it comes.
fn pass_on<W: Wire, L: Leases<W::Conn>>(
    alloc: Global,
    wire: &mut W,
    leases: &mut L,
    client: &mut Client<'_, W::Conn>,
    shared: &mut Shared<'_>,
    errand: &mut Errand<'_, '_>,
) -> Option<Ended>
    requires fresh { (W.wire wire.old).aged ≡ false }
    requires looked { client.old.tree.last ≤ (W.wire wire.old).moment }
    requires timed { IsTimed client.old.tree errand.old.node }
    requires rested { IsRested (L.lent leases.old) }
    requires within { errand.old.order.host < (L.lent leases.old).limits.hosts }
    requires errand { IsErrand (spot_of W.Conn.link client.old shared.old) errand.old (W.wire wire.old).moment (deadline_of client.old.tree errand.old.node) false }
    requires begun { shared.old.buffers.now.client.body ≡ begins errand.old.head.now.framing }
    requires room { shared.old.buffers.now.out.size ≡ out_size }
    ensures step { DeedStep (span (W.wire wire.old) (W.wire wire.new) (L.lent leases.old) (L.lent leases.new))
        (stand (W.wire wire.old) (W.Conn.link client.old.conn) (seats_of shared.old)) (stand (W.wire wire.new) (W.Conn.link client.new.conn) (seats_of shared.new))
        (spot_of W.Conn.link client.old shared.old) client.old.tree.last errand.old.head.now shared.old.buffers.now.client.inbox shared.new.buffers.now.client.inbox result }
    ensures client { IsTimedClient client.old client.new errand.old.node (W.wire wire.new).moment }
    ensures same { IsSameShared shared.old shared.new }
    ensures room { shared.new.buffers.now.out.size ≡ shared.old.buffers.now.out.size }
    ensures leases { L.keeper leases.new ≡ L.keeper leases.old }
{
    let trip = make_upload(wire, leases, client, shared, errand);
    answer(alloc, wire, leases, client, shared, errand, trip)
}

// Answers a request by what its trip came to.
fn answer<W: Wire, L: Leases<W::Conn>>(
    alloc: Global,
    wire: &mut W,
    leases: &mut L,
    client: &mut Client<'_, W::Conn>,
    shared: &mut Shared<'_>,
    errand: &Errand<'_, '_>,
    trip: Trip<W::Conn>,
) -> Option<Ended>
    requires fresh { (W.wire wire.old).aged ≡ false }
    requires looked { client.old.tree.last ≤ (W.wire wire.old).moment }
    requires timed { IsTimed client.old.tree errand.now.node }
    requires left { LeftOut W.Conn.link (L.lent leases.old) trip }
    requires room { shared.old.buffers.now.out.size ≡ out_size }
    ensures step { AnsweredStep (span (W.wire wire.old) (W.wire wire.new) (L.lent leases.old) (L.lent leases.new))
        (stand (W.wire wire.old) (W.Conn.link client.old.conn) (seats_of shared.old)) (stand (W.wire wire.new) (W.Conn.link client.new.conn) (seats_of shared.new))
        (spot_of W.Conn.link client.old shared.old) (deadline_of client.old.tree errand.now.node)
        (Answers (plain trip) (spot_of W.Conn.link client.old shared.old) errand.now.head.now (not (is_done shared.old.buffers.now.client.body)) (trace_of errand.now.upload.continued shared.old.buffers.now))
        (answer_next (plain trip) (reason_of (spot_of W.Conn.link client.old shared.old) errand.now.head.now (not (is_done shared.old.buffers.now.client.body)))) result }
    ensures goes { Goes (stand (W.wire wire.old) (W.Conn.link client.old.conn) (seats_of shared.old)) (stand (W.wire wire.new) (W.Conn.link client.new.conn) (seats_of shared.new))
        (spot_of W.Conn.link client.old shared.old) client.old.tree.last false (own_end (plain trip) result) }
    ensures client { IsTimedClient client.old client.new errand.now.node (W.wire wire.new).moment }
    ensures read { shared.new.buffers.now.client ≡ shared.old.buffers.now.client }
    ensures same { IsSameShared shared.old shared.new }
    ensures room { shared.new.buffers.now.out.size ≡ shared.old.buffers.now.out.size }
    ensures leases { L.keeper leases.new ≡ L.keeper leases.old }
{
    let code = match trip {
        Attempted::Reply(lease, reply) => {
            let answered = Answered { lease, reply };
            return pass_back(alloc, wire, leases, client, shared, errand, answered);
        }
        Attempted::Over(end) => return answer_over(alloc, wire, client, errand.head, end),
        Attempted::Failed(why) => return answer_failure(alloc, wire, client, shared, errand, why),
        Attempted::Unreachable => 502,
        Attempted::Full => 503,
    };
    say_own(alloc, wire, client, shared, &Own::Plain(code), errand.head)
}

// Answers a request whose trip failed. A client that was told a part of `100 Continue` is told the rest first.
fn answer_failure<W: Wire>(
    alloc: Global,
    wire: &mut W,
    client: &mut Client<'_, W::Conn>,
    shared: &mut Shared<'_>,
    errand: &Errand<'_, '_>,
    why: Failure,
) -> Option<Ended>
    requires fresh { (W.wire wire.old).aged ≡ false }
    ensures step { FailureStep (stand (W.wire wire.old) (W.Conn.link client.old.conn) (seats_of shared.old)) (stand (W.wire wire.new) (W.Conn.link client.new.conn) (seats_of shared.new))
        (spot_of W.Conn.link client.old shared.old) errand.now.head.now (not (is_done shared.old.buffers.now.client.body)) why errand.now.upload.continued result }
    ensures client { IsSameClient client.old client.new }
    ensures same { IsSameShared shared.old shared.new }
    ensures buffers { shared.new.buffers.now ≡ shared.old.buffers.now }
{
    let rest = rest_of_continue(why, errand.upload.continued);
    match write_text(wire, &mut client.conn, rest, client.table.client_ms) {
        Sent::All => {
            let own = Own::Plain(failure_code(why));
            say_own(alloc, wire, client, shared, &own, errand.head)
        }
        sent => sent_next(sent, None),
    }
}

// What a client isn't told yet that was told a part of `100 Continue`, where a reply of the gateway's own comes next.
fn rest_of_continue(why: Failure, told: usize) -> &'static [u8]
    ensures { result.now ≡ rest_of_continue why told }
{
    match why {
        Failure::Cancelled | Failure::Deadline => {
            if told == 0 {
                b""
            } else {
                &CONTINUE[told.min(CONTINUE.len())..]
            }
        }
        _ => b"",
    }
}

// Answers a request whose trip is over without a reply and without a failure of the backend's.
fn answer_over<W: Wire>(
    alloc: Global,
    wire: &mut W,
    client: &mut Client<'_, W::Conn>,
    head: &RequestHead,
    end: End,
) -> Option<Ended>
    requires fresh { (W.wire wire.old).aged ≡ false }
    ensures step { OverStep (W.wire wire.old) (W.wire wire.new) (W.Conn.link client.old.conn) (W.Conn.link client.new.conn)
        client.old.table.now.client_ms head.now end result }
    ensures client { IsSameClient client.old client.new }
{
    match end {
        End::Body(_) => say_fault(alloc, wire, client, 400, &head.method, head.old),
        End::ClientEnd => Some(Ended::Closed(Why::End)),
        End::ClientFailed => Some(Ended::Closed(Why::Failed)),
        End::ClientTimeout => Some(Ended::Closed(Why::Timeout)),
        End::NoMemory => Some(Ended::NoMemory),
    }
}

// The code by which a failure is answered.
fn failure_code(why: Failure) -> u16
    ensures code { result ≡ failure_code why }
    ensures known { IsTrue (is_own (Plain result)) }
{
    match why {
        Failure::Cancelled => 503,
        Failure::Deadline => 504,
        Failure::NothingWritten
        | Failure::FirstByte
        | Failure::ServerClosed
        | Failure::Broken
        | Failure::BadResponse => 502,
    }
}
