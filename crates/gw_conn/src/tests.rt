//! A connection on its way through the states.
use crate::New;
use gw_gate::Gate;
use std::test::Fail;

#[test]
fn served_and_closed(rt: HostRuntime) -> Result<(), Fail> {
    let (gate, mut seat) = Gate::new(rt.alloc())?;
    let entered = gate.enter(&mut seat);
    let Some(active) = New::made().first_byte(entered) else {
        panic!(rt; "the gate was open")
    };
    let (inside, idle) = active.idle();
    gate.leave(&mut seat, inside);
    let entered = gate.enter(&mut seat);
    let Some(active) = idle.first_byte(entered) else {
        panic!(rt; "the gate was open")
    };
    let inside = active.close();
    gate.leave(&mut seat, inside);
    assert!(rt; !gate.close(seat));
    Ok(())
}

#[test]
fn closed_once_shut(rt: HostRuntime) -> Result<(), Fail> {
    let (gate, mut seat) = Gate::new(rt.alloc())?;
    let entered = gate.enter(&mut seat);
    let Some(active) = New::made().first_byte(entered) else {
        panic!(rt; "the gate was open")
    };
    gate.shut(&mut seat);
    let (inside, idle) = active.idle();
    gate.leave(&mut seat, inside);
    let entered = gate.enter(&mut seat);
    let Some(active) = idle.first_byte(entered) else {
        let entered = gate.enter(&mut seat);
        let Some(active) = New::made().first_byte(entered) else {
            assert!(rt; gate.close(seat));
            return Ok(());
        };
        gate.leave(&mut seat, active.close());
        panic!(rt; "the gate was shut");
    };
    gate.leave(&mut seat, active.close());
    panic!(rt; "the gate was shut")
}

#[test]
fn nothing_to_leave(rt: HostRuntime) -> Result<(), Fail> {
    let (gate, mut seat) = Gate::new(rt.alloc())?;
    New::made().close();
    let entered = gate.enter(&mut seat);
    let Some(active) = New::made().first_byte(entered) else {
        panic!(rt; "the gate was open")
    };
    let (inside, idle) = active.idle();
    gate.leave(&mut seat, inside);
    idle.close();
    assert!(rt; !gate.close(seat));
    Ok(())
}
