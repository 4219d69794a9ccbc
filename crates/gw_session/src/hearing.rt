//! A client's request, up to its head's end.

ghost use Rattle.std.specs.Prelude.{◌≡◌, false};
ghost use Rattle.gw_session.specs.Seats.{IsSameShared, seats_of};
ghost use Rattle.gw_session.specs.Stand.{IsSameClient, spot_of, stand};
ghost use Rattle.gw_session.specs.Steps.{HeadStep};
ghost use Rattle.gw_session.specs.TurnSteps.{ArrivedStep};

use crate::client::Client;
use crate::door::Door;
use crate::patience::Patience;
use crate::shared::Shared;
use gw_head::{HeadError, RequestHead, Step};
use gw_stream::{Heard, Loss};
use gw_transport::Buffers;
use gw_wire::Wire;

/// In how many pieces a head may come: each but the first has a byte.
const PIECES: u32 = 65_537;

/// What came of a request's head.
#[derive(Debug, Drop)]
pub enum Request {
    /// It is whole.
    Head(RequestHead),
    /// It fails this check first, or has too many bytes without an end.
    Refused(HeadError),
    /// Nothing more came before it was whole.
    Lost(Loss),
    /// It is whole and good, and there was no memory for it.
    NoMemory,
}

/// Hears a request's head, whose first bytes are ahead. What comes behind it is ahead then.
pub fn hear_request<W: Wire>(
    wire: &mut W,
    conn: &mut W::Conn,
    buffers: &mut Buffers,
    client_ms: u64,
) -> Request
    requires fresh { (W.wire wire.old).aged ≡ false }
    ensures step { HeadStep (W.wire wire.old) (W.wire wire.new) (W.Conn.link conn.old) (W.Conn.link conn.new)
        buffers.old.client.inbox buffers.new.client.inbox client_ms result }
    ensures room { buffers.new.out.size ≡ buffers.old.out.size }
{
    let mut patience = Patience { last: 0 };
    buffers.reader.restart();
    for _piece in 0..PIECES {
        let fed = buffers.reader.feed_request(buffers.client.inbox.ahead());
        buffers.client.inbox.skip(fed.used);
        match fed.step {
            Step::More => {}
            Step::Head(head) => return Request::Head(head),
            Step::Bad(error) => return Request::Refused(error),
            Step::NoMemory => return Request::NoMemory,
        }
        let silence = Some(client_ms);
        match buffers
            .client
            .inbox
            .hear(wire, &mut patience, conn, silence)
        {
            Heard::Got => {}
            Heard::Lost(why) => return Request::Lost(why),
        }
    }
    unreachable!()
}

/// Waits until a byte of a request is there, and says how the session ends where none comes.
pub(crate) fn await_request<W: Wire>(
    wire: &mut W,
    client: &mut Client<'_, W::Conn>,
    shared: &mut Shared<'_>,
) -> Option<Loss>
    requires fresh { (W.wire wire.old).aged ≡ false }
    ensures step { ArrivedStep (stand (W.wire wire.old) (W.Conn.link client.old.conn) (seats_of shared.old))
        (stand (W.wire wire.new) (W.Conn.link client.new.conn) (seats_of shared.new))
        (spot_of W.Conn.link client.old shared.old) shared.old.buffers.now.client.inbox shared.new.buffers.now.client.inbox result }
    ensures client { IsSameClient client.old client.new }
    ensures same { IsSameShared shared.old shared.new }
    ensures room { shared.new.buffers.now.out.size ≡ shared.old.buffers.now.out.size }
{
    if !shared.buffers.client.inbox.is_empty() {
        return None;
    }
    let now = wire.now();
    let mut door = Door {
        gate: shared.gate,
        seat: shared.gate_seat,
        shut_at: shared.shut_at,
        ticking: false,
        last: now,
        found: 0,
    };
    let silence = Some(client.table.client_ms);
    let heard = shared
        .buffers
        .client
        .inbox
        .hear(wire, &mut door, &mut client.conn, silence);
    shared.shut_at = door.shut_at;
    match heard {
        Heard::Got => None,
        Heard::Lost(why) => Some(why),
    }
}
