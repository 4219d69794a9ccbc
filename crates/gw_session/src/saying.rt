//! Replies to the client.

ghost use Rattle.std.specs.Prelude.{◌≡◌, ◌<◌, false, true, not, IsTrue};
ghost use Rattle.gw_body.specs.Places.{is_done};
ghost use Rattle.gw_proxy.specs.OutReply.{is_own};
ghost use Rattle.gw_proxy.specs.declared.own.Own.TheVariants.{Plain};
ghost use Rattle.gw_session.specs.Ending.{closed, lost_end, sent_next, stopped_end, why_after};
ghost use Rattle.gw_session.specs.Replies.{refusal_code};
ghost use Rattle.gw_session.specs.Seats.{IsSameShared, seats_of};
ghost use Rattle.gw_session.specs.Stand.{IsSameClient, spot_of, stand};
ghost use Rattle.gw_session.specs.Steps.{FaultStep, OwnStep, WrittenStep};

use crate::client::Client;
use crate::end::{Ended, Why};
use crate::looking::look_shut;
use crate::patience::Patience;
use crate::shared::Shared;
use gw_head::{HeadError, RequestHead};
use gw_proxy::{Own, own_reply};
use gw_stream::{Loss, Sent, Stop, write_all};
use gw_wire::Wire;
use http::Method;
use std::alloc::{AllocError, Global};

/// Writes a text to a client, which may be silent so many milliseconds.
pub(crate) fn write_text<W: Wire>(
    wire: &mut W,
    conn: &mut W::Conn,
    text: &[u8],
    client_ms: u64,
) -> Sent
    requires fresh { (W.wire wire.old).aged ≡ false }
    ensures { WrittenStep (W.wire wire.old) (W.wire wire.new) (W.Conn.link conn.old) (W.Conn.link conn.new) client_ms text.now result }
{
    let mut patience = Patience { last: 0 };
    write_all(wire, &mut patience, conn, text, Some(client_ms))
}

/// Writes the gateway's own reply to a request. It says that the link closes where that holds as it is made. Gives how the
/// session ends, if it does.
pub fn say_own<W: Wire>(
    alloc: Global,
    wire: &mut W,
    client: &mut Client<'_, W::Conn>,
    shared: &mut Shared<'_>,
    own: &Own,
    head: &RequestHead,
) -> Option<Ended>
    requires fresh { (W.wire wire.old).aged ≡ false }
    requires known { IsTrue (is_own own.now) }
    ensures step { OwnStep (stand (W.wire wire.old) (W.Conn.link client.old.conn) (seats_of shared.old))
        (stand (W.wire wire.new) (W.Conn.link client.new.conn) (seats_of shared.new))
        (spot_of W.Conn.link client.old shared.old) head.now (not (is_done shared.old.buffers.now.client.body)) own.now result }
    ensures client { IsSameClient client.old client.new }
    ensures same { IsSameShared shared.old shared.new }
    ensures buffers { shared.new.buffers.now ≡ shared.old.buffers.now }
{
    let now = wire.now();
    let shut = look_shut(shared, now);
    let unread = !shared.buffers.client.body.done();
    let why = why_after(head, client.is_last(), shut, unread);
    match own_reply(alloc, own, &head.method, head.old, why.is_some(), now) {
        Ok(text) => {
            let sent = write_text(wire, &mut client.conn, &text, client.table.client_ms);
            sent_next(sent, why)
        }
        Err(AllocError) => Some(Ended::NoMemory),
    }
}

/// Answers a request that has a fault, with this code, to a client whose request had this method and was of HTTP/1.0 or
/// not. The link closes behind it. Gives how the session ends.
pub fn say_fault<W: Wire>(
    alloc: Global,
    wire: &mut W,
    client: &mut Client<'_, W::Conn>,
    code: u16,
    method: &Method,
    old: bool,
) -> Option<Ended>
    requires fresh { (W.wire wire.old).aged ≡ false }
    requires known { IsTrue (is_own (Plain code)) }
    ensures step { FaultStep (W.wire wire.old) (W.wire wire.new) (W.Conn.link client.old.conn) (W.Conn.link client.new.conn)
        client.old.table.now.client_ms code method.now old result }
    ensures client { IsSameClient client.old client.new }
{
    let now = wire.now();
    match own_reply(alloc, &Own::Plain(code), method, old, true, now) {
        Ok(text) => {
            let sent = write_text(wire, &mut client.conn, &text, client.table.client_ms);
            sent_next(sent, Some(Why::BadRequest))
        }
        Err(AllocError) => Some(Ended::NoMemory),
    }
}

/// Why the link closes behind the reply to a request, if it does.
pub(crate) fn why_after(head: &RequestHead, last: bool, shut: bool, unread: bool) -> Option<Why>
    ensures { result ≡ why_after head.now last shut unread }
{
    if head.old {
        return Some(Why::Old);
    }
    if head.close || last {
        return Some(Why::Asked);
    }
    if shut {
        return Some(Why::Shut);
    }
    if unread { Some(Why::Unread) } else { None }
}

/// What follows where the link closes for this reason, or stays.
pub(crate) fn closed(why: Option<Why>) -> Option<Ended>
    ensures { result ≡ closed why }
{
    match why {
        Some(why) => Some(Ended::Closed(why)),
        None => None,
    }
}

/// What follows a reply of which the client took so much.
pub(crate) fn sent_next(sent: Sent, why: Option<Why>) -> Option<Ended>
    ensures { result ≡ sent_next sent why }
{
    match sent {
        Sent::All => closed(why),
        Sent::Failed(_) => Some(Ended::Closed(Why::Failed)),
        Sent::Stopped(why) => Some(stopped_end(why)),
    }
}

/// How a session ends that waits for its client no longer.
pub(crate) fn stopped_end(why: Stop) -> Ended
    ensures { result ≡ stopped_end why }
{
    match why {
        Stop::Cancelled | Stop::Deadline => Ended::Closed(Why::Shut),
        Stop::Silent | Stop::Ticks => Ended::Closed(Why::Timeout),
    }
}

/// How a session ends whose client was lost.
pub fn lost_end(why: Loss) -> Ended
    ensures { result ≡ lost_end why }
{
    match why {
        Loss::End => Ended::Closed(Why::End),
        Loss::Failed => Ended::Closed(Why::Failed),
        Loss::Stopped(why) => stopped_end(why),
    }
}

/// The code that answers a head which fails this check.
pub fn refusal_code(error: HeadError) -> u16
    ensures code { result ≡ refusal_code error }
    ensures known { IsTrue (is_own (Plain result)) }
{
    match error {
        HeadError::TooLong | HeadError::TooManyFields => 431,
        HeadError::Version => 505,
        HeadError::Coding | HeadError::Connect => 501,
        HeadError::Expectation => 417,
        HeadError::Malformed
        | HeadError::HostCount
        | HeadError::BadLength
        | HeadError::LengthAndCoding
        | HeadError::BadEscape => 400,
    }
}
