//! A body that is read whole before its request is sent.

ghost use Rattle.std.specs.Prelude.{◌≡◌, ◌≤◌, false};
ghost use Rattle.gw_body.specs.Places.{begins};
ghost use Rattle.gw_session.specs.Passing.{expects};
ghost use Rattle.gw_session.specs.BodySteps.{BodyStep, GatherStep, IsCounted, IsWhole};

use crate::patience::Patience;
use crate::saying::write_text;
use gw_body::Rewindable;
use gw_head::RequestHead;
use gw_stream::{Incoming, Loss, Pull, Sent, pull_piece};
use gw_wire::Wire;
use std::alloc::Global;

/// What invites a client to send its body (RFC 9110, section 15.2.1).
pub(crate) const CONTINUE: &[u8] = b"HTTP/1.1 100 Continue\r\n\r\n";

/// How much is pulled at once.
const PIECE: usize = 8_192;

/// What came of a body.
#[derive(Drop)]
pub(crate) enum Held {
    /// It is whole.
    Whole(Rewindable),
    /// The client didn't take `100 Continue` whole.
    Untold(Sent),
    /// Nothing more came inside it.
    Lost(Loss),
    /// There was no memory for it.
    NoMemory,
}

/// Reads a body whole, of which nothing was taken: it has so many bytes. A client that waits to be told to go on is told
/// first.
pub(crate) fn hear_body<W: Wire>(
    alloc: Global,
    wire: &mut W,
    conn: &mut W::Conn,
    from: &mut Incoming,
    head: &RequestHead,
    client_ms: u64,
) -> Held
    requires fresh { (W.wire wire.old).aged ≡ false }
    requires begun { from.old.body ≡ begins head.now.framing }
    requires counted { IsCounted from.old.body }
    ensures step { BodyStep (W.wire wire.old) (W.wire wire.new) (W.Conn.link conn.old) (W.Conn.link conn.new) client_ms head.now
        from.old.inbox from.new.inbox result }
    ensures whole { IsWhole head.now.framing result from.new.body }
{
    if from.body.done() {
        return Held::Whole(Rewindable::new(Vec::new(alloc)));
    }
    let text: &[u8] = if expects(head) { CONTINUE } else { b"" };
    match write_text(wire, conn, text, client_ms) {
        Sent::All => gather(alloc, wire, conn, from, client_ms),
        sent => Held::Untold(sent),
    }
}

// Reads what comes of a body into memory.
fn gather<W: Wire>(
    alloc: Global,
    wire: &mut W,
    conn: &mut W::Conn,
    from: &mut Incoming,
    client_ms: u64,
) -> Held
    requires fresh { (W.wire wire.old).aged ≡ false }
    requires counted { IsCounted from.old.body }
    ensures step { GatherStep (W.wire wire.old) (W.wire wire.new) (W.Conn.link conn.old) (W.Conn.link conn.new) client_ms
        from.old from.new result }
{
    let mut patience = Patience { last: 0 };
    let mut body = Vec::new(alloc);
    let mut piece = [0; PIECE];
    for _pull in 0..u64::MAX {
        let silence = Some(client_ms);
        match pull_piece(
            wire,
            &mut patience,
            conn,
            &mut from.body,
            &mut from.inbox,
            &mut piece,
            silence,
        ) {
            Pull::Data(count) => {
                if body.extend_from_slice(&piece[..count]).is_err() {
                    return Held::NoMemory;
                }
            }
            Pull::More => {}
            Pull::Done => return Held::Whole(Rewindable::new(body)),
            Pull::Bad(_) => unreachable!(),
            Pull::Lost(why) => return Held::Lost(why),
        }
    }
    Held::NoMemory
}

/// Whether a client waits to be told to go on before it sends a body that isn't empty; one of HTTP/1.0 isn't told (RFC
/// 9110, section 10.1.1).
pub(crate) fn expects(head: &RequestHead) -> bool
    ensures { result ≡ expects head.now }
{
    head.expect && !head.old
}
