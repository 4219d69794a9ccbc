//! Waits for a link over a wire in memory.

ghost use Rattle.std.specs.Prelude.{◌≡◌, ◌≤◌, ◌<◌, IfOk, false};

use crate::inbox::Inbox;
use crate::outbox::Outbox;
use crate::tests::{NOW, half_a_minute};
use crate::timer::Timer;
use crate::together::write_together;
use crate::waits::{Heard, Limit, Loss, Sent, Stop, read_within, write_all, write_counted};
use gw_wire::{Accept, Act, Bytes, ConnEvent, MemConn, MemWire, Moment, Script, Wire};
use std::alloc::{AllocError, Global};
use std::test::Fail;

// A wire on which nobody comes; behind its first act the clock says `later`.
fn wire(alloc: Global, later: u64) -> Result<MemWire, AllocError>
    requires after { 784_111_777_000 ≤ later }
    requires year { later < 253_402_300_800_000 }
    ensures { IfOk result (λ wire. wire.aged ≡ false) }
{
    MemWire::new(
        alloc,
        Script {
            accepts: Vec::new(alloc),
            dials: Vec::new(alloc),
            moments: vec![in alloc; Moment { from: 0, at: NOW }, Moment { from: 1, at: later }]?,
            acts: 16,
            bytes: 64,
        },
    )
}

// A link whose reads have this script, a letter each: `p` for the piece `hello`, `t` for a tick, `f` for a fault; then
// it ends.
fn link(alloc: Global, reads: &[u8]) -> Result<MemConn, AllocError> {
    let mut events = Vec::new(alloc);
    for letter in reads {
        match *letter {
            b'p' => events.push(ConnEvent::Piece(Bytes::new(b"hello".to_vec(alloc)?)))?,
            b't' => events.push(ConnEvent::Tick)?,
            _ => events.push(ConnEvent::Failed)?,
        }
    }
    Ok(MemConn::new(7, events, Vec::new(alloc)))
}

/// What a wait gave whose first moment is NOW, and how many bytes came; the clock says `later` from its first reading on.
fn hear(
    alloc: Global,
    reads: &[u8],
    later: u64,
    silence: Option<u64>,
    guard: &mut Timer,
) -> Result<(Heard, usize), AllocError>
    requires after { 784_111_777_000 ≤ later }
    requires year { later < 253_402_300_800_000 }
    requires looked { guard.old.last ≡ 0 }
{
    let mut wire = wire(alloc, later)?;
    let mut conn = link(alloc, reads)?;
    let mut buf = [0; 8];
    let mut to = 0;
    let since = wire.now();
    let _ = wire.accept();
    let limit = Limit { since, silence };
    let heard = read_within(&mut wire, guard, &mut conn, &mut buf, &mut to, limit);
    Ok((heard, to))
}

/// What a wait gives, by what its link and its clock do; the deadline is half a minute away.
#[test]
fn waits_for_bytes(rt: HostRuntime) -> Result<(), Fail> {
    let alloc = rt.alloc();
    let lost = Heard::Lost(Loss::Failed);
    let ended = Heard::Lost(Loss::End);
    let silent = Heard::Lost(Loss::Stopped(Stop::Silent));
    let late = Heard::Lost(Loss::Stopped(Stop::Deadline));
    assert_eq!(rt;
        hear(alloc, b"p", NOW, None, &mut half_a_minute())?,
        (Heard::Got, 5)
    );
    assert_eq!(rt;
        hear(alloc, b"ttp", NOW + 29_999, None, &mut half_a_minute())?,
        (Heard::Got, 5)
    );
    assert_eq!(rt;
        hear(alloc, b"tf", NOW, None, &mut half_a_minute())?,
        (lost, 0)
    );
    assert_eq!(rt;
        hear(alloc, b"t", NOW, Some(0), &mut half_a_minute())?,
        (ended, 0)
    );
    assert_eq!(rt;
        hear(alloc, b"tp", NOW + 500, Some(500), &mut half_a_minute())?,
        (Heard::Got, 5)
    );
    assert_eq!(rt;
        hear(alloc, b"tp", NOW + 501, Some(500), &mut half_a_minute())?,
        (silent, 0)
    );
    assert_eq!(rt;
        hear(alloc, b"p", NOW + 501, Some(500), &mut half_a_minute())?,
        (Heard::Got, 5)
    );
    assert_eq!(rt;
        hear(alloc, b"tp", NOW + 30_000, None, &mut half_a_minute())?,
        (late, 0)
    );
    assert_eq!(rt;
        hear(alloc, b"tp", NOW + 30_000, Some(500), &mut half_a_minute())?,
        (late, 0)
    );
    Ok(())
}

/// A trip that was cancelled reads nothing, and that comes before its deadline.
#[test]
fn cancelled_before_a_read(rt: HostRuntime) -> Result<(), Fail> {
    let mut guard = half_a_minute();
    guard.cancelled = true;
    guard.deadline = Some(NOW);
    let heard = hear(rt.alloc(), b"p", NOW, None, &mut guard)?;
    assert_eq!(rt; heard, (Heard::Lost(Loss::Stopped(Stop::Cancelled)), 0));
    Ok(())
}

/// How a write of `hello` ends on a link that takes so many bytes at each write, where 0 fails.
fn say(alloc: Global, takes: Vec<u32>, guard: &mut Timer) -> Result<(Sent, usize), AllocError>
    requires looked { guard.old.last ≡ 0 }
{
    let mut wire = wire(alloc, NOW)?;
    let mut conn = MemConn::new(7, Vec::new(alloc), takes);
    let sent = write_all(&mut wire, guard, &mut conn, b"hello", None);
    Ok((sent, wire.acts().len()))
}

/// A failed write says whether a byte was taken before.
#[test]
fn writes_many_bytes(rt: HostRuntime) -> Result<(), Fail> {
    let alloc = rt.alloc();
    let none = Vec::new(alloc);
    let late = Sent::Stopped(Stop::Deadline);
    assert_eq!(rt; say(alloc, none, &mut half_a_minute())?, (Sent::All, 1));
    assert_eq!(rt;
        say(alloc, vec![in alloc; 3]?, &mut half_a_minute())?,
        (Sent::All, 2)
    );
    assert_eq!(rt;
        say(alloc, vec![in alloc; 0]?, &mut half_a_minute())?,
        (Sent::Failed(false), 1)
    );
    assert_eq!(rt;
        say(alloc, vec![in alloc; 1, 0]?, &mut half_a_minute())?,
        (Sent::Failed(true), 2)
    );
    let mut guard = half_a_minute();
    guard.deadline = Some(NOW);
    assert_eq!(rt; say(alloc, vec![in alloc; 1]?, &mut guard)?, (late, 0));
    Ok(())
}

/// How a write of `hello` and then `, you` ends on such a link, and how many writes it made.
fn say_both(alloc: Global, takes: Vec<u32>, second: &[u8]) -> Result<(Sent, usize), AllocError> {
    let mut wire = wire(alloc, NOW)?;
    let mut conn = MemConn::new(7, Vec::new(alloc), takes);
    let mut out = Outbox::new(alloc)?;
    let sent = write_together(
        &mut wire,
        &mut half_a_minute(),
        &mut conn,
        b"hello",
        second,
        &mut out,
        None,
    );
    Ok((sent, wire.acts().len()))
}

/// Two texts leave in one write where both fit into the outbox, and else in two.
#[test]
fn texts_leave_together(rt: HostRuntime) -> Result<(), Fail> {
    let alloc = rt.alloc();
    let large = vec![in alloc; b'x'; 200_000]?;
    assert_eq!(rt; say_both(alloc, Vec::new(alloc), b", you")?, (Sent::All, 1));
    assert_eq!(rt; say_both(alloc, Vec::new(alloc), &large)?, (Sent::All, 2));
    assert_eq!(rt;
        say_both(alloc, vec![in alloc; 5, 0]?, &large)?,
        (Sent::Failed(true), 2)
    );
    Ok(())
}

/// A write that fails says how many bytes were taken.
#[test]
fn writes_are_counted(rt: HostRuntime) -> Result<(), Fail> {
    let alloc = rt.alloc();
    let mut wire = wire(alloc, NOW)?;
    let mut conn = MemConn::new(7, Vec::new(alloc), vec![in alloc; 3, 1, 0]?);
    let mut sent = 0;
    let end = write_counted(
        &mut wire,
        &mut half_a_minute(),
        &mut conn,
        b"hello",
        &mut sent,
        None,
    );
    assert_eq!(rt; (end, sent), (Sent::Failed(true), 4));
    Ok(())
}

/// What was read stays until it is used, and another link finds nothing of it.
#[test]
fn bytes_ahead(rt: HostRuntime) -> Result<(), Fail> {
    let alloc = rt.alloc();
    let mut wire = wire(alloc, NOW)?;
    let mut conn = link(alloc, b"tpp")?;
    let mut guard = half_a_minute();
    let mut inbox = Inbox::new(alloc)?;
    assert!(rt; inbox.is_empty());
    assert_eq!(rt;
        inbox.hear(&mut wire, &mut guard, &mut conn, None),
        Heard::Got
    );
    assert_eq!(rt; inbox.ahead(), b"hello".as_slice());
    inbox.skip(3);
    assert_eq!(rt; inbox.ahead(), b"lo".as_slice());
    inbox.clear();
    assert!(rt; inbox.is_empty());
    assert_eq!(rt;
        inbox.hear(&mut wire, &mut guard, &mut conn, None),
        Heard::Got
    );
    assert_eq!(rt; inbox.ahead(), b"hello".as_slice());
    assert!(rt; matches!(wire.acts(), [Act::Read(7, _), Act::Read(7, _)]));
    Ok(())
}
