//! Backends' replies on their way to the client.

ghost use Rattle.std.specs.Prelude.{◌≡◌, ◌≤◌, ◌<◌, ◌↔◌, [], true, false, not, length, IsTrue};
ghost use Rattle.gw_account.specs.Did.{span};
ghost use Rattle.gw_body.specs.Places.{is_done};
ghost use Rattle.gw_chunk.specs.Chunked.{piece_limit};
ghost use Rattle.gw_proxy.specs.OutReply.{is_own};
ghost use Rattle.gw_proxy.specs.declared.own.Own.TheVariants.{Plain};
ghost use Rattle.gw_pool.specs.Lent.{Lent};
ghost use Rattle.gw_stream.specs.declared.beginning.Began.TheVariants.{Piece};
ghost use Rattle.gw_stream.specs.Outbox.{HasRoom, out_size};
ghost use Rattle.gw_transport.specs.Leasing.{IsLeased};
ghost use Rattle.gw_session.specs.Ending.{cut_end, relayed_next};
ghost use Rattle.gw_session.specs.Passing.{AnswersReply, in_chunks, loss_code, reason_of};
ghost use Rattle.gw_session.specs.Seats.{IsSameShared, seats_of};
ghost use Rattle.gw_session.specs.Stand.{Goes, IsSameClient, is_last, spot_of, stand};
ghost use Rattle.gw_session.specs.ReplySteps.{AnsweredStep, AnswersPieces, BegunAnswer, IsNotPiece, PutStep, RestStep, SaysRest, WholeSaid, replied_of, reply_next};
ghost use Rattle.gw_session.specs.TripSteps.{IsTimed, IsTimedClient, deadline_of, passing_of};

use crate::client::Client;
use crate::end::{Ended, Why};
use crate::errand::Errand;
use crate::looking::look_shut;
use crate::patience::Patience;
use crate::saying::{closed, say_own, stopped_end, why_after};
use crate::shared::Shared;
use crate::tripping::{begin_reply, relay_rest};
use gw_head::{Framing, RequestHead};
use gw_pool::{Lease, Leases};
use gw_proxy::{Own, out_reply_head, sent_framing};
use gw_stream::{Began, Loss, Relayed, Stop, write_whole};
use gw_transport::{Begun, Buffers, finish};
use gw_wire::Wire;
use std::alloc::Global;

/// A backend's reply, and the lease of the connection that it comes of.
pub struct Answered<C> {
    /// The lease.
    pub lease: Lease<C>,
    /// The reply.
    pub reply: Begun,
}

/// What came of a reply's head.
enum Heading {
    /// It stands before the reply's first piece; the link closes behind the reply for this reason, if there is one.
    Put(Option<Why>),
    /// Memory was wanting for it, or room.
    NoMemory,
}

/// Passes a backend's reply on to the client, once its first piece is there, or answers by the gateway itself where none
/// comes. The lease ends before a reply that came whole is written, and before the gateway's own. Gives how the session
/// ends, if it does.
pub fn pass_back<W: Wire, L: Leases<W::Conn>>(
    alloc: Global,
    wire: &mut W,
    leases: &mut L,
    client: &mut Client<'_, W::Conn>,
    shared: &mut Shared<'_>,
    errand: &Errand<'_, '_>,
    answered: Answered<W::Conn>,
) -> Option<Ended>
    requires fresh { (W.wire wire.old).aged ≡ false }
    requires looked { client.old.tree.last ≤ (W.wire wire.old).moment }
    requires timed { IsTimed client.old.tree errand.now.node }
    requires leased { IsLeased W.Conn.link (L.lent leases.old) answered.lease }
    requires room { shared.old.buffers.now.out.size ≡ out_size }
    ensures step { AnsweredStep (span (W.wire wire.old) (W.wire wire.new) (L.lent leases.old) (L.lent leases.new))
        (stand (W.wire wire.old) (W.Conn.link client.old.conn) (seats_of shared.old)) (stand (W.wire wire.new) (W.Conn.link client.new.conn) (seats_of shared.new))
        (spot_of W.Conn.link client.old shared.old) (deadline_of client.old.tree errand.now.node)
        (AnswersReply (spot_of W.Conn.link client.old shared.old) errand.now.head.now (reason_of (spot_of W.Conn.link client.old shared.old) errand.now.head.now (not (is_done shared.old.buffers.now.client.body))) (replied_of answered shared.old.buffers.now.backend))
        (reply_next (reason_of (spot_of W.Conn.link client.old shared.old) errand.now.head.now (not (is_done shared.old.buffers.now.client.body)))) result }
    ensures goes { Goes (stand (W.wire wire.old) (W.Conn.link client.old.conn) (seats_of shared.old)) (stand (W.wire wire.new) (W.Conn.link client.new.conn) (seats_of shared.new))
        (spot_of W.Conn.link client.old shared.old) client.old.tree.last false result }
    ensures client { IsTimedClient client.old client.new errand.now.node (W.wire wire.new).moment }
    ensures read { shared.new.buffers.now.client ≡ shared.old.buffers.now.client }
    ensures same { IsSameShared shared.old shared.new }
    ensures room { shared.new.buffers.now.out.size ≡ shared.old.buffers.now.out.size }
    ensures leases { L.keeper leases.new ≡ L.keeper leases.old }
{
    let mut answered = answered;
    restart_out(shared.buffers, &answered.reply, errand.head);
    let began = begin_reply(wire, client, shared, errand.node, &mut answered.lease);
    if has_piece(began) {
        return pass_pieces(alloc, wire, leases, client, shared, errand, answered);
    }
    let Answered { lease, reply } = answered;
    finish(wire, leases, lease, &reply, &shared.buffers.backend);
    answer_begun(alloc, wire, client, shared, errand, &reply, began)
}

// Whether a reply's first piece is there.
fn has_piece(began: Began) -> bool
    ensures { (result ≡ true) ↔ (began ≡ Piece) }
{
    match began {
        Began::Piece => true,
        Began::Whole | Began::Bad(_) | Began::Lost(_) | Began::Spent => false,
    }
}

// The reply's text begins with nothing, and is in chunks or not.
fn restart_out(buffers: &mut Buffers, reply: &Begun, head: &RequestHead)
    requires room { buffers.old.out.size ≡ out_size }
    ensures out { buffers.new.out ≡ record buffers.old.out { text = []; begun = []; in_chunks = in_chunks reply.now head.now.old } }
    ensures backend { buffers.new.backend ≡ buffers.old.backend }
    ensures client { buffers.new.client ≡ buffers.old.client }
    ensures space { HasRoom buffers.new.out }
{
    let chunks = match sent_framing(reply.framing, head.old) {
        Framing::Chunked => true,
        Framing::None | Framing::Length(_) | Framing::ToEnd => false,
    };
    buffers.out.restart(chunks);
}

// Passes a reply on as it comes whose first piece is there.
fn pass_pieces<W: Wire, L: Leases<W::Conn>>(
    alloc: Global,
    wire: &mut W,
    leases: &mut L,
    client: &mut Client<'_, W::Conn>,
    shared: &mut Shared<'_>,
    errand: &Errand<'_, '_>,
    answered: Answered<W::Conn>,
) -> Option<Ended>
    requires fresh { (W.wire wire.old).aged ≡ false }
    requires looked { client.old.tree.last ≤ (W.wire wire.old).moment }
    requires timed { IsTimed client.old.tree errand.now.node }
    requires leased { IsLeased W.Conn.link (L.lent leases.old) answered.lease }
    requires space { HasRoom shared.old.buffers.now.out }
    requires first { shared.old.buffers.now.out.text ≡ [] }
    ensures step { AnsweredStep (span (W.wire wire.old) (W.wire wire.new) (L.lent leases.old) (L.lent leases.new))
        (stand (W.wire wire.old) (W.Conn.link client.old.conn) (seats_of shared.old)) (stand (W.wire wire.new) (W.Conn.link client.new.conn) (seats_of shared.new))
        (spot_of W.Conn.link client.old shared.old) (deadline_of client.old.tree errand.now.node)
        (AnswersPieces (spot_of W.Conn.link client.old shared.old) errand.now.head.now (reason_of (spot_of W.Conn.link client.old shared.old) errand.now.head.now (not (is_done shared.old.buffers.now.client.body))) (replied_of answered shared.old.buffers.now.backend) shared.old.buffers.now.out)
        (reply_next (reason_of (spot_of W.Conn.link client.old shared.old) errand.now.head.now (not (is_done shared.old.buffers.now.client.body)))) result }
    ensures goes { Goes (stand (W.wire wire.old) (W.Conn.link client.old.conn) (seats_of shared.old)) (stand (W.wire wire.new) (W.Conn.link client.new.conn) (seats_of shared.new))
        (spot_of W.Conn.link client.old shared.old) client.old.tree.last false result }
    ensures client { IsTimedClient client.old client.new errand.now.node (W.wire wire.new).moment }
    ensures read { shared.new.buffers.now.client ≡ shared.old.buffers.now.client }
    ensures same { IsSameShared shared.old shared.new }
    ensures room { shared.new.buffers.now.out.size ≡ shared.old.buffers.now.out.size }
    ensures leases { L.keeper leases.new ≡ L.keeper leases.old }
{
    let mut answered = answered;
    let next = say_rest(alloc, wire, client, shared, errand, &mut answered);
    let Answered { lease, reply } = answered;
    finish(wire, leases, lease, &reply, &shared.buffers.backend);
    next
}

// Writes a reply as it comes whose first piece is there.
fn say_rest<W: Wire>(
    alloc: Global,
    wire: &mut W,
    client: &mut Client<'_, W::Conn>,
    shared: &mut Shared<'_>,
    errand: &Errand<'_, '_>,
    answered: &mut Answered<W::Conn>,
) -> Option<Ended>
    requires fresh { (W.wire wire.old).aged ≡ false }
    requires looked { client.old.tree.last ≤ (W.wire wire.old).moment }
    requires timed { IsTimed client.old.tree errand.now.node }
    requires space { HasRoom shared.old.buffers.now.out }
    requires first { shared.old.buffers.now.out.text ≡ [] }
    requires link { (W.Conn.link answered.old.lease.conn).number ≡ answered.old.lease.link }
    ensures step { RestStep (stand (W.wire wire.old) (W.Conn.link client.old.conn) (seats_of shared.old)) (stand (W.wire wire.new) (W.Conn.link client.new.conn) (seats_of shared.new))
        (spot_of W.Conn.link client.old shared.old) client.old.tree.last (deadline_of client.old.tree errand.now.node)
        (SaysRest (spot_of W.Conn.link client.old shared.old) errand.now.head.now (reason_of (spot_of W.Conn.link client.old shared.old) errand.now.head.now (not (is_done shared.old.buffers.now.client.body))) (replied_of answered.old shared.old.buffers.now.backend) shared.old.buffers.now.out shared.new.buffers.now.backend)
        (reason_of (spot_of W.Conn.link client.old shared.old) errand.now.head.now (not (is_done shared.old.buffers.now.client.body))) result }
    ensures client { IsTimedClient client.old client.new errand.now.node (W.wire wire.new).moment }
    ensures lease { answered.new.lease ≡ record answered.old.lease { conn = answered.new.lease.conn } }
    ensures reply { answered.new.reply ≡ answered.old.reply }
    ensures leased { (lent : Lent) → IsLeased W.Conn.link lent answered.old.lease → IsLeased W.Conn.link lent answered.new.lease }
    ensures read { shared.new.buffers.now.client ≡ shared.old.buffers.now.client }
    ensures same { IsSameShared shared.old shared.new }
    ensures room { shared.new.buffers.now.out.size ≡ shared.old.buffers.now.out.size }
{
    let now = wire.now();
    match put_head(alloc, client, shared, errand.head, &answered.reply, now) {
        Heading::Put(why) => {
            let relayed = relay_rest(wire, client, shared, errand.node, &mut answered.lease);
            relayed_next(relayed, why)
        }
        Heading::NoMemory => Some(Ended::NoMemory),
    }
}

// Answers a request whose reply came whole before its first piece, or didn't come so far.
fn answer_begun<W: Wire>(
    alloc: Global,
    wire: &mut W,
    client: &mut Client<'_, W::Conn>,
    shared: &mut Shared<'_>,
    errand: &Errand<'_, '_>,
    reply: &Begun,
    began: Began,
) -> Option<Ended>
    requires fresh { (W.wire wire.old).aged ≡ false }
    requires space { HasRoom shared.old.buffers.now.out }
    requires first { shared.old.buffers.now.out.text ≡ [] }
    requires chunks { shared.old.buffers.now.out.in_chunks ≡ in_chunks reply.now errand.now.head.now.old }
    requires missing { IsNotPiece began shared.old.buffers.now.out.begun }
    ensures step { BegunAnswer (stand (W.wire wire.old) (W.Conn.link client.old.conn) (seats_of shared.old)) (stand (W.wire wire.new) (W.Conn.link client.new.conn) (seats_of shared.new))
        (spot_of W.Conn.link client.old shared.old) errand.now.head.now (reason_of (spot_of W.Conn.link client.old shared.old) errand.now.head.now (not (is_done shared.old.buffers.now.client.body))) reply.now shared.old.buffers.now.out.begun began result }
    ensures client { IsSameClient client.old client.new }
    ensures read { shared.new.buffers.now.client ≡ shared.old.buffers.now.client }
    ensures same { IsSameShared shared.old shared.new }
    ensures room { shared.new.buffers.now.out.size ≡ shared.old.buffers.now.out.size }
{
    let code = match began {
        Began::Whole => return say_whole(alloc, wire, client, shared, errand.head, reply),
        Began::Bad(_) => 502,
        Began::Lost(why) => loss_code(why),
        Began::Spent => return Some(Ended::NoMemory),
        Began::Piece => unreachable!(),
    };
    say_own(alloc, wire, client, shared, &Own::Plain(code), errand.head)
}

// Writes a reply whose body is whole in the outbox.
fn say_whole<W: Wire>(
    alloc: Global,
    wire: &mut W,
    client: &mut Client<'_, W::Conn>,
    shared: &mut Shared<'_>,
    head: &RequestHead,
    reply: &Begun,
) -> Option<Ended>
    requires fresh { (W.wire wire.old).aged ≡ false }
    requires space { HasRoom shared.old.buffers.now.out }
    requires first { shared.old.buffers.now.out.text ≡ [] }
    requires chunks { shared.old.buffers.now.out.in_chunks ≡ in_chunks reply.now head.now.old }
    requires short { length shared.old.buffers.now.out.begun < piece_limit }
    ensures step { WholeSaid (stand (W.wire wire.old) (W.Conn.link client.old.conn) (seats_of shared.old)) (stand (W.wire wire.new) (W.Conn.link client.new.conn) (seats_of shared.new))
        (spot_of W.Conn.link client.old shared.old) head.now (not (is_done shared.old.buffers.now.client.body)) reply.now shared.old.buffers.now.out.begun result }
    ensures client { IsSameClient client.old client.new }
    ensures read { shared.new.buffers.now.client ≡ shared.old.buffers.now.client }
    ensures same { IsSameShared shared.old shared.new }
    ensures room { shared.new.buffers.now.out.size ≡ shared.old.buffers.now.out.size }
{
    let now = wire.now();
    match put_head(alloc, client, shared, head, reply, now) {
        Heading::Put(why) => {
            let mut patience = Patience { last: 0 };
            let silence = Some(client.table.client_ms);
            let out = &mut shared.buffers.out;
            let written = write_whole(wire, &mut patience, &mut client.conn, out, silence);
            relayed_next(written, why)
        }
        Heading::NoMemory => Some(Ended::NoMemory),
    }
}

// Puts the head of a reply before its first piece. It says that the link closes where that holds as it is made.
fn put_head<C>(
    alloc: Global,
    client: &Client<'_, C>,
    shared: &mut Shared<'_>,
    head: &RequestHead,
    reply: &Begun,
    now: u64,
) -> Heading
    requires dated { now < 253_402_300_800_000 }
    requires space { HasRoom shared.old.buffers.now.out }
    ensures step { PutStep (seats_of shared.old) (seats_of shared.new) (is_last client.now.requests) head.now (not (is_done shared.old.buffers.now.client.body)) reply.now now
        shared.old.buffers.now.out shared.new.buffers.now.out result }
    ensures backend { shared.new.buffers.now.backend ≡ shared.old.buffers.now.backend }
    ensures read { shared.new.buffers.now.client ≡ shared.old.buffers.now.client }
    ensures same { IsSameShared shared.old shared.new }
{
    let shut = look_shut(shared, now);
    let unread = !shared.buffers.client.body.done();
    let why = why_after(head, client.is_last(), shut, unread);
    let Ok(text) = out_reply_head(
        alloc,
        &reply.head,
        reply.framing,
        &head.method,
        head.old,
        why.is_some(),
        now,
    ) else {
        return Heading::NoMemory;
    };
    if !shared.buffers.out.takes_head(&text) {
        return Heading::NoMemory;
    }
    shared.buffers.out.put_head(&text);
    Heading::Put(why)
}

// What follows a reply that was passed on so.
fn relayed_next(relayed: Relayed, why: Option<Why>) -> Option<Ended>
    ensures { result ≡ relayed_next relayed why }
{
    match relayed {
        Relayed::Whole => closed(why),
        Relayed::Bad(_) | Relayed::Lost(_) => Some(Ended::Closed(Why::Cut)),
        Relayed::WriteFailed(_) => Some(Ended::Closed(Why::Failed)),
        Relayed::WriteStopped(why) => Some(cut_end(why)),
        Relayed::Spent => Some(Ended::NoMemory),
    }
}

// How a session ends whose reply is passed on no longer.
fn cut_end(why: Stop) -> Ended
    ensures { result ≡ cut_end why }
{
    match why {
        Stop::Cancelled | Stop::Deadline => Ended::Closed(Why::Cut),
        Stop::Silent | Stop::Ticks => Ended::Closed(Why::Timeout),
    }
}

// The code by which a reply is replaced that doesn't come to its beginning.
fn loss_code(why: Loss) -> u16
    ensures code { result ≡ loss_code why }
    ensures known { IsTrue (is_own (Plain result)) }
{
    match why {
        Loss::End | Loss::Failed => 502,
        Loss::Stopped(Stop::Cancelled) => 503,
        Loss::Stopped(_) => 504,
    }
}
