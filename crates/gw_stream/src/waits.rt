//! Waits for a link beside a guard. A wait, for a client or for a backend, is a row of reads, or of writes, of one link
//! in which nothing comes or goes. Before each of them the guard is looked at, with the moment that was read last; after
//! each tick the clock is read. A wait ends at its millionth tick.

ghost use Rattle.std.specs.Prelude.{◌≡◌, ◌<◌, ◌≤◌, length, take, false};
ghost use Rattle.gw_wire.specs.Wire.{NowStep};
ghost use Rattle.gw_stream.specs.Waits.{CheckStep, CountedStep, HeardStep, SentStep, TakenStep, side};

use crate::guard::{Guard, Sight};
use gw_wire::{Read, Wire, Write};

/// How many ticks one wait has.
const TICKS: u32 = 1_000_000;

/// Why a wait is given up.
#[derive(Clone, Copy, Debug, PartialEq, Eq)]
pub enum Stop {
    /// The trip was cancelled.
    Cancelled,
    /// The trip's deadline has come.
    Deadline,
    /// The peer was silent longer than it may be.
    Silent,
    /// The wait had its millionth tick.
    Ticks,
}

/// Why a wait for bytes brought none.
#[derive(Clone, Copy, Debug, PartialEq, Eq)]
pub enum Loss {
    /// The peer sends no more.
    End,
    /// The link failed.
    Failed,
    /// The wait was given up.
    Stopped(Stop),
}

/// What a wait for bytes gives.
#[derive(Clone, Copy, Debug, PartialEq, Eq)]
pub enum Heard {
    /// A piece of at least one byte.
    Got,
    /// Nothing.
    Lost(Loss),
}

/// What a wait for a link to take bytes gives.
#[derive(Clone, Copy, Debug, PartialEq, Eq)]
pub enum Taken {
    /// So many bytes, at least one, were taken from the front.
    Some(usize),
    /// The link failed.
    Failed,
    /// The wait was given up.
    Stopped(Stop),
}

/// How a write of many bytes ends.
#[derive(Clone, Copy, Debug, PartialEq, Eq)]
pub enum Sent {
    /// All were taken.
    All,
    /// The link failed; whether some were taken before.
    Failed(bool),
    /// A wait was given up.
    Stopped(Stop),
}

/// How long a wait lasts at most, beside what the guard and the ticks allow.
#[derive(Clone, Copy, Debug, PartialEq, Eq)]
pub struct Limit {
    /// The wait's first moment, in milliseconds since 1970-01-01T00:00:00Z: the last one that was read when it began.
    pub since: u64,
    /// How many milliseconds the peer may be silent from then on; a backend may be so as long as the guard allows.
    pub silence: Option<u64>,
}

// Whether a wait may go on at this moment. What the guard finds comes before the peer's silence.
fn check<G: Guard>(guard: &mut G, limit: Limit, now: u64) -> Option<Stop>
    requires later { (G.guard guard.old).last ≤ now }
    requires begun { limit.since ≤ now }
    ensures step { CheckStep (G.guard guard.old) (G.guard guard.new) limit now result }
    ensures guard { G.keeper guard.new ≡ G.keeper guard.old }
{
    match guard.look(now) {
        Sight::On => {}
        Sight::Cancelled => return Some(Stop::Cancelled),
        Sight::Late => return Some(Stop::Deadline),
    }
    match limit.silence {
        None => None,
        Some(most) => {
            if now - limit.since > most {
                return Some(Stop::Silent);
            }
            None
        }
    }
}

/// Waits until bytes come of a link; the wait's first moment is the last one that was read. The bytes stand at the
/// buffer's front, up to `to`.
pub fn read_within<W: Wire, G: Guard>(
    wire: &mut W,
    guard: &mut G,
    conn: &mut W::Conn,
    buf: &mut [u8],
    to: &mut usize,
    limit: Limit,
) -> Heard
    requires room { 0 < length buf.old }
    requires fresh { (W.wire wire.old).aged ≡ false }
    requires read { (W.wire wire.old).moment ≡ limit.since }
    requires looked { (G.guard guard.old).last ≤ limit.since }
    requires none { to.old ≡ 0 }
    ensures step { HeardStep (side (W.wire wire.old) (G.guard guard.old)) (side (W.wire wire.new) (G.guard guard.new))
        (W.Conn.link conn.old) (W.Conn.link conn.new) (take to.new buf.new) limit.silence result }
    ensures within { to.new ≤ length buf.new }
    ensures kept { length buf.new ≡ length buf.old }
    ensures guard { G.keeper guard.new ≡ G.keeper guard.old }
{
    let mut now = limit.since;
    for _tick in 0..TICKS {
        match check(guard, limit, now) {
            None => {}
            Some(stop) => return Heard::Lost(Loss::Stopped(stop)),
        }
        match wire.read(conn, buf) {
            Read::Got(n) => {
                *to = n;
                return Heard::Got;
            }
            Read::End => return Heard::Lost(Loss::End),
            Read::Failed => return Heard::Lost(Loss::Failed),
            Read::Tick => now = wire.now(),
        }
    }
    Heard::Lost(Loss::Stopped(Stop::Ticks))
}

/// Waits until a link takes some of the bytes; the wait's first moment is the last one that was read.
pub fn write_within<W: Wire, G: Guard>(
    wire: &mut W,
    guard: &mut G,
    conn: &mut W::Conn,
    bytes: &[u8],
    limit: Limit,
) -> Taken
    requires some { 0 < length bytes.now }
    requires fresh { (W.wire wire.old).aged ≡ false }
    requires read { (W.wire wire.old).moment ≡ limit.since }
    requires looked { (G.guard guard.old).last ≤ limit.since }
    ensures step { TakenStep (side (W.wire wire.old) (G.guard guard.old)) (side (W.wire wire.new) (G.guard guard.new))
        (W.Conn.link conn.old) (W.Conn.link conn.new) bytes.now limit.silence result }
    ensures guard { G.keeper guard.new ≡ G.keeper guard.old }
{
    let mut now = limit.since;
    for _tick in 0..TICKS {
        match check(guard, limit, now) {
            None => {}
            Some(stop) => return Taken::Stopped(stop),
        }
        match wire.write(conn, bytes) {
            Write::Took(n) => return Taken::Some(n),
            Write::Failed => return Taken::Failed,
            Write::Tick => now = wire.now(),
        }
    }
    Taken::Stopped(Stop::Ticks)
}

/// Reads the clock, and then waits until bytes come of a link. They stand at the buffer's front, up to `to`.
pub fn read_some<W: Wire, G: Guard>(
    wire: &mut W,
    guard: &mut G,
    conn: &mut W::Conn,
    buf: &mut [u8],
    to: &mut usize,
    silence: Option<u64>,
) -> Heard
    requires room { 0 < length buf.old }
    requires fresh { (W.wire wire.old).aged ≡ false }
    requires looked { (G.guard guard.old).last ≤ (W.wire wire.old).moment }
    requires none { to.old ≡ 0 }
    ensures step { HeardStep (side (W.wire wire.old) (G.guard guard.old)) (side (W.wire wire.new) (G.guard guard.new))
        (W.Conn.link conn.old) (W.Conn.link conn.new) (take to.new buf.new) silence result }
    ensures within { to.new ≤ length buf.new }
    ensures kept { length buf.new ≡ length buf.old }
    ensures guard { G.keeper guard.new ≡ G.keeper guard.old }
{
    let since = wire.now();
    read_within(wire, guard, conn, buf, to, Limit { since, silence })
}

/// Writes all the bytes, unless the link fails or a wait is given up. Before each write the clock is read.
pub fn write_all<W: Wire, G: Guard>(
    wire: &mut W,
    guard: &mut G,
    conn: &mut W::Conn,
    bytes: &[u8],
    silence: Option<u64>,
) -> Sent
    requires fresh { (W.wire wire.old).aged ≡ false }
    requires looked { (G.guard guard.old).last ≤ (W.wire wire.old).moment }
    ensures step { SentStep (side (W.wire wire.old) (G.guard guard.old)) (side (W.wire wire.new) (G.guard guard.new))
        (W.Conn.link conn.old) (W.Conn.link conn.new) bytes.now silence result }
    ensures guard { G.keeper guard.new ≡ G.keeper guard.old }
{
    let mut sent = 0;
    write_counted(wire, guard, conn, bytes, &mut sent, silence)
}

/// Writes all the bytes as `write_all` does, and says how many were taken, whatever came.
pub fn write_counted<W: Wire, G: Guard>(
    wire: &mut W,
    guard: &mut G,
    conn: &mut W::Conn,
    bytes: &[u8],
    sent: &mut usize,
    silence: Option<u64>,
) -> Sent
    requires fresh { (W.wire wire.old).aged ≡ false }
    requires looked { (G.guard guard.old).last ≤ (W.wire wire.old).moment }
    requires none { sent.old ≡ 0 }
    ensures step { CountedStep (side (W.wire wire.old) (G.guard guard.old)) (side (W.wire wire.new) (G.guard guard.new))
        (W.Conn.link conn.old) (W.Conn.link conn.new) bytes.now sent.new silence result }
    ensures guard { G.keeper guard.new ≡ G.keeper guard.old }
{
    while *sent < bytes.len() {
        let since = wire.now();
        match write_within(wire, guard, conn, &bytes[*sent..], Limit { since, silence }) {
            Taken::Some(n) => *sent += n,
            Taken::Failed => return Sent::Failed(*sent > 0),
            Taken::Stopped(stop) => return Sent::Stopped(stop),
        }
    }
    Sent::All
}
