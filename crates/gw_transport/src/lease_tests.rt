//! Trips to one connection.

ghost use Rattle.std.specs.Prelude.{◌≡◌, ◌<◌, false};
ghost use Rattle.gw_transport.specs.Leasing.{IsRested};

use crate::tests::{Came, NOW, limits, trip, wire};
use gw_pool::Solo;
use gw_stream::Timer;
use gw_wire::{Accept, Act, MemConn, MemWire, Wire};
use std::test::Fail;

/// A trip: whether a client was waited for before it, how many milliseconds behind `NOW` its deadline is, whether it was
/// cancelled, whether its connection may serve again; what comes of it.
struct Step {
    waits: bool,
    deadline: u16,
    cancelled: bool,
    reusable: bool,
    came: Came,
}

// Waits for a client, and reads the clock: whether no client is left.
fn waits(wire: &mut MemWire) -> bool
    requires fresh { wire.old.aged ≡ false }
    ensures fresh { wire.new.aged ≡ false }
{
    let ended = matches!(wire.accept(), Accept::Ended);
    let _ = wire.now();
    ended
}

// Whether a trip comes to what is said.
fn is_so(wire: &mut MemWire, pool: &mut Solo<MemConn>, step: &Step) -> bool
    requires fresh { wire.old.aged ≡ false }
    requires rested { IsRested pool.old }
    requires within { 0 < pool.old.limits.hosts }
    ensures fresh { wire.new.aged ≡ false }
    ensures rested { IsRested pool.new }
    ensures within { 0 < pool.new.limits.hosts }
{
    if step.waits && !waits(wire) {
        return false;
    }
    let mut guard = Timer::new(Some(NOW + step.deadline as u64));
    guard.cancelled = step.cancelled;
    trip(wire, pool, &mut guard, step.reusable) == step.came
}

const DIALS: Step = Step {
    waits: false,
    deadline: 30_000,
    cancelled: false,
    reusable: true,
    came: Came::Over(7, false),
};

const USES_AGAIN: Step = Step {
    waits: false,
    deadline: 30_000,
    cancelled: false,
    reusable: false,
    came: Came::Over(7, true),
};

/// A dialed connection that is given back serves the next trip; what is dropped is closed.
#[test]
fn dialed_once(rt: HostRuntime) -> Result<(), Fail> {
    let mut wire = wire(rt.alloc(), &[7], NOW + 500)?;
    let mut pool = Solo::open(rt.alloc(), limits(32))?;
    assert!(rt; is_so(&mut wire, &mut pool, &DIALS));
    assert!(rt; is_so(&mut wire, &mut pool, &USES_AGAIN));
    assert!(rt; matches!(wire.acts(), [Act::Dialed(0, _, 7), Act::Closed(7)]));
    Ok(())
}

const DIALS_ANOTHER: Step = Step {
    waits: true,
    deadline: 30_000,
    cancelled: false,
    reusable: false,
    came: Came::Over(8, false),
};

fn closes_the_first(acts: &[Act]) -> bool {
    match acts {
        [
            Act::Dialed(0, _, 7),
            Act::Ended,
            Act::Closed(7),
            Act::Dialed(0, _, 8),
            Act::Closed(8),
        ] => true,
        _ => false,
    }
}

/// A connection that a want finds expired is closed, and another is dialed.
#[test]
fn expired_on_the_way(rt: HostRuntime) -> Result<(), Fail> {
    let mut wire = wire(rt.alloc(), &[7, 8], NOW + 1_001)?;
    let mut pool = Solo::open(rt.alloc(), limits(32))?;
    assert!(rt; is_so(&mut wire, &mut pool, &DIALS));
    assert!(rt; is_so(&mut wire, &mut pool, &DIALS_ANOTHER));
    assert!(rt; closes_the_first(wire.acts()));
    Ok(())
}

const UNREACHED: Step = Step {
    waits: false,
    deadline: 30_000,
    cancelled: false,
    reusable: true,
    came: Came::Unreachable,
};

const LATE: Step = Step {
    waits: false,
    deadline: 0,
    cancelled: false,
    reusable: true,
    came: Came::Late,
};

const CANCELLED: Step = Step {
    waits: false,
    deadline: 0,
    cancelled: true,
    reusable: true,
    came: Came::Cancelled,
};

/// What a trip is told that comes to no connection.
#[test]
fn no_connection(rt: HostRuntime) -> Result<(), Fail> {
    let mut wire = wire(rt.alloc(), &[], NOW)?;
    let mut pool = Solo::open(rt.alloc(), limits(32))?;
    assert!(rt; is_so(&mut wire, &mut pool, &UNREACHED));
    assert!(rt; is_so(&mut wire, &mut pool, &LATE));
    assert!(rt; is_so(&mut wire, &mut pool, &CANCELLED));
    assert!(rt; matches!(wire.acts(), [Act::DialFailed(0, _)]));
    Ok(())
}

const REFUSED: Step = Step {
    waits: false,
    deadline: 30_000,
    cancelled: false,
    reusable: true,
    came: Came::Full,
};

/// A journal without room for a want refuses it, and nothing was done.
#[test]
fn full_journal(rt: HostRuntime) -> Result<(), Fail> {
    let mut wire = wire(rt.alloc(), &[7], NOW)?;
    let mut pool = Solo::open(rt.alloc(), limits(5))?;
    assert!(rt; is_so(&mut wire, &mut pool, &REFUSED));
    assert!(rt; wire.acts().is_empty());
    Ok(())
}
