//! Texts that leave together.

ghost use Rattle.std.specs.Prelude.{◌≡◌, ◌≤◌, ◌++◌, false};
ghost use Rattle.gw_stream.specs.Waits.{SentStep, said_behind, side};

use crate::guard::Guard;
use crate::outbox::Outbox;
use crate::waits::{Sent, write_all};
use gw_wire::Wire;

/// Writes two texts, one behind the other: in one row of writes where an outbox has room for both, and else each by itself.
/// What was on its way in the outbox is forgotten. `silence` is as in [`Limit`](crate::Limit).
pub fn write_together<W: Wire, G: Guard>(
    wire: &mut W,
    guard: &mut G,
    conn: &mut W::Conn,
    first: &[u8],
    second: &[u8],
    out: &mut Outbox,
    silence: Option<u64>,
) -> Sent
    requires size { 6 ≤ out.old.size }
    requires fresh { (W.wire wire.old).aged ≡ false }
    requires looked { (G.guard guard.old).last ≤ (W.wire wire.old).moment }
    ensures step { SentStep (side (W.wire wire.old) (G.guard guard.old)) (side (W.wire wire.new) (G.guard guard.new))
        (W.Conn.link conn.old) (W.Conn.link conn.new) (first.now ++ second.now) silence result }
    ensures size { out.new.size ≡ out.old.size }
    ensures guard { G.keeper guard.new ≡ G.keeper guard.old }
{
    out.restart(false);
    if out.takes_head(first) {
        out.put_head(first);
        if out.takes_head(second) {
            out.put_head(second);
            return out.flush(wire, guard, conn, silence);
        }
    }
    write_apart(wire, guard, conn, first, second, silence)
}

// Writes two texts, one behind the other.
fn write_apart<W: Wire, G: Guard>(
    wire: &mut W,
    guard: &mut G,
    conn: &mut W::Conn,
    first: &[u8],
    second: &[u8],
    silence: Option<u64>,
) -> Sent
    requires fresh { (W.wire wire.old).aged ≡ false }
    requires looked { (G.guard guard.old).last ≤ (W.wire wire.old).moment }
    ensures step { SentStep (side (W.wire wire.old) (G.guard guard.old)) (side (W.wire wire.new) (G.guard guard.new))
        (W.Conn.link conn.old) (W.Conn.link conn.new) (first.now ++ second.now) silence result }
    ensures guard { G.keeper guard.new ≡ G.keeper guard.old }
{
    match write_all(wire, guard, conn, first, silence) {
        Sent::All => {}
        Sent::Failed(some) => return Sent::Failed(some),
        Sent::Stopped(why) => return Sent::Stopped(why),
    }
    let sent = write_all(wire, guard, conn, second, silence);
    behind(!first.is_empty(), sent)
}

// How a write ends behind another one that went whole, of some bytes or of none.
fn behind(some: bool, sent: Sent) -> Sent
    ensures { result ≡ said_behind some sent }
{
    match sent {
        Sent::All => Sent::All,
        Sent::Failed(part) => Sent::Failed(some || part),
        Sent::Stopped(why) => Sent::Stopped(why),
    }
}
