//! The calls on one thread, and runs of several.
ghost use Rattle.std.specs.Prelude.{◌≡◌, false};

use crate::{Drained, Enter, Gate, GateSeat, Look, ShutAnswer};
use std::sync::Wait;
use std::sync::atomic::{AtomicU64, Ordering};
use std::test::Fail;
use std::thread;
use std::thread::{Threads, join};

#[test]
fn stop_route(rt: HostRuntime) -> Result<(), Fail> {
    let (gate, mut seat) = Gate::new(rt.alloc())?;
    match gate.enter(&mut seat) {
        Enter::Granted(inside) => {
            assert_eq!(rt; gate.shut(&mut seat), ShutAnswer::First);
            assert_eq!(rt; gate.drained(&mut seat), Drained::No(1));
            gate.leave(&mut seat, inside);
        }
        Enter::Shut => panic!(rt; "the gate was open"),
    }
    assert_eq!(rt; gate.drained(&mut seat), Drained::Yes);
    match gate.enter(&mut seat) {
        Enter::Granted(inside) => {
            gate.leave(&mut seat, inside);
            panic!(rt; "the gate was shut");
        }
        Enter::Shut => {}
    }
    assert_eq!(rt; gate.shut(&mut seat), ShutAnswer::Already);
    assert!(rt; gate.close(seat));
    Ok(())
}

#[test]
fn never_shut(rt: HostRuntime) -> Result<(), Fail> {
    let (gate, mut first) = Gate::new(rt.alloc())?;
    let mut second = gate.split(rt.alloc(), &mut first)?;
    assert_eq!(rt; gate.drained(&mut second), Drained::No(0));
    match gate.enter(&mut first) {
        Enter::Granted(inside) => {
            assert_eq!(rt; gate.look(&mut second), Look::Open);
            assert_eq!(rt; gate.drained(&mut second), Drained::No(1));
            gate.leave(&mut first, inside);
        }
        Enter::Shut => panic!(rt; "the gate was open"),
    }
    gate.join(&mut second, first);
    assert!(rt; !gate.close(second));
    Ok(())
}

#[test]
fn told_by_another_seat(rt: HostRuntime) -> Result<(), Fail> {
    let (gate, mut first) = Gate::new(rt.alloc())?;
    let mut second = gate.split(rt.alloc(), &mut first)?;
    assert_eq!(rt; gate.shut(&mut first), ShutAnswer::First);
    assert_eq!(rt; gate.look(&mut second), Look::Shut);
    assert_eq!(rt; gate.shut(&mut second), ShutAnswer::Already);
    assert_eq!(rt; gate.drained(&mut second), Drained::Yes);
    gate.join(&mut second, first);
    assert!(rt; gate.close(second));
    Ok(())
}

// Goes in and out, until the gate is shut. `inside` counts who is in.
fn visit(gate: &Gate, mut seat: GateSeat, inside: &AtomicU64) -> GateSeat
    requires { (seat.name.gate ≡ gate.now) × (seat.view.held ≡ false) }
    ensures { (result.name ≡ seat.name) × (result.view.held ≡ false) × (result.view.room ≡ seat.view.room) }
{
    for _ in 0..100_000 {
        match gate.enter(&mut seat) {
            Enter::Granted(token) => {
                inside.fetch_add(1, Ordering::SeqCst);
                inside.fetch_sub(1, Ordering::SeqCst);
                gate.leave(&mut seat, token);
            }
            Enter::Shut => break,
        }
    }
    seat
}

// Two threads of visits.
fn visit_both<R: Threads + Sync>(
    rt: &R,
    gate: &Gate,
    one: GateSeat,
    two: GateSeat,
    inside: &AtomicU64,
) -> (GateSeat, GateSeat)
    requires one { (one.name.gate ≡ gate.now) × (one.view.held ≡ false) }
    requires two { (two.name.gate ≡ gate.now) × (two.view.held ≡ false) }
    ensures one { (result.0.name ≡ one.name) × (result.0.view.held ≡ false) × (result.0.view.room ≡ one.view.room) }
    ensures two { (result.1.name ≡ two.name) × (result.1.view.held ≡ false) × (result.1.view.room ≡ two.view.room) }
{
    join(rt, || visit(gate, one, inside), || visit(gate, two, inside))
}

// Shuts the gate, waits until it is drained, and says how many are in then.
fn stop<R: Wait>(rt: &R, gate: &Gate, mut seat: GateSeat, inside: &AtomicU64) -> (GateSeat, u64)
    requires { (seat.name.gate ≡ gate.now) × (seat.view.held ≡ false) }
    ensures { (result.0.name ≡ seat.name) × (result.0.view.held ≡ false) × (result.0.view.room ≡ seat.view.room) }
{
    gate.shut(&mut seat);
    for _ in rt.forever() {
        match gate.drained(&mut seat) {
            Drained::Yes => break,
            Drained::No(_) => thread::yield_now(),
        }
    }
    (seat, inside.load(Ordering::SeqCst))
}

#[test]
fn nobody_is_inside_once_drained(rt: HostRuntime) -> Result<(), Fail> {
    let (gate, mut seat) = Gate::new(rt.alloc())?;
    let one = gate.split(rt.alloc(), &mut seat)?;
    let two = gate.split(rt.alloc(), &mut seat)?;
    let three = gate.split(rt.alloc(), &mut seat)?;
    let inside = AtomicU64::new(0);
    let ((one, two), (three, left)) = join(
        &rt,
        || visit_both(&rt, &gate, one, two, &inside),
        || stop(&rt, &gate, three, &inside),
    );
    assert_eq!(rt; left, 0);
    gate.join(&mut seat, one);
    gate.join(&mut seat, two);
    gate.join(&mut seat, three);
    assert_eq!(rt; gate.drained(&mut seat), Drained::Yes);
    match gate.enter(&mut seat) {
        Enter::Granted(inside) => {
            gate.leave(&mut seat, inside);
            panic!(rt; "the gate was shut");
        }
        Enter::Shut => {}
    }
    assert!(rt; gate.close(seat));
    Ok(())
}
