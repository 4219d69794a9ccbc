//! A dial that comes too late: another caller's connection served its want.

ghost use Rattle.gw_wire.specs.Memory.{wire_view};

use crate::owed::Owed;
use crate::tests::{Deed, NOW, end, held, limits, shows, trip, wire};
use gw_turn::Pool;
use gw_wire::{Accept, Addr, Dial, MemConn, MemWire, Read, Wire, Write};
use std::alloc::Global;
use std::process::Abort;
use std::sync::Wait;
use std::test::Fail;

const KEPT: [Deed; 4] = [
    Deed::Dialed(1),
    Deed::Dialed(2),
    Deed::Closed(1),
    Deed::Closed(2),
];

const CLOSED: [Deed; 6] = [
    Deed::Dialed(1),
    Deed::Dialed(2),
    Deed::Closed(2),
    Deed::Closed(1),
    Deed::Dialed(3),
    Deed::Closed(3),
];

/// A wire on which another caller's lease is given back while a dial is under way.
#[derive(Drop)]
struct Meanwhile<'a, R: Wait> {
    wire: MemWire,
    owed: Option<Owed<'a, R>>,
    left: Option<MemConn>,
}

impl<'a, R: Wait> Wire for Meanwhile<'a, R> {
    type Conn = MemConn;

    ghost wire = { λ m. wire_view m.wire };

    fn accept(&mut self) -> Accept<MemConn> {
        self.wire.accept()
    }

    fn dial(&mut self, host: u32, addr: &Addr) -> Dial<MemConn> {
        if let Some(owed) = self.owed.take() {
            self.left = owed.give_back(NOW);
        }
        self.wire.dial(host, addr)
    }

    fn read(&mut self, c: &mut MemConn, buf: &mut [u8]) -> Read {
        self.wire.read(c, buf)
    }

    fn write(&mut self, c: &mut MemConn, bytes: &[u8]) -> Write {
        self.wire.write(c, bytes)
    }

    fn close(&mut self, c: MemConn) {
        self.wire.close(c);
    }

    fn rest(&mut self) {
        self.wire.rest();
    }

    fn now(&mut self) -> u64 {
        self.wire.now()
    }
}

// A dial to link 2, during which the second caller gives link 1 back; then the connection that the next want has, with
// what was told. So many connections may be idle.
fn loses<R: Wait + Abort>(
    rt: &R,
    alloc: Global,
    idle: u32,
    next: (u64, bool),
    deeds: &[Deed],
) -> Result<(), Fail> {
    let mut wire = wire(alloc, 3)?;
    let (pool, mut passes) = Pool::open(alloc, limits(2, 2, idle))?;
    let (Some(mut second), Some(mut first)) = (passes.pop(), passes.pop()) else {
        panic!(rt; "two passes");
    };
    let lease = held(rt, &pool, &mut second, &mut wire);
    assert_eq!(rt; (lease.link, lease.reused), (1, false));
    let mut wire = Meanwhile {
        wire,
        owed: Some(Owed::new(rt, &pool, second, lease)),
        left: None,
    };
    let lease = held(rt, &pool, &mut first, &mut wire);
    assert_eq!(rt; (lease.link, lease.reused), (1, true));
    assert!(rt; wire.owed.is_none(), "it was given back");
    assert!(rt; wire.left.is_none(), "it serves the want");
    end(rt, &pool, &mut first, &mut wire, lease, false);
    assert_eq!(rt; trip(rt, &pool, &mut first, &mut wire, false), next);
    shows(rt, wire.wire.acts(), deeds);
    Ok(())
}

/// The connection of a dial whose want was served meanwhile is kept idle and serves the next want; where there is
/// no room for it, it is closed.
#[test]
fn losing_dial(rt: HostRuntime) -> Result<(), Fail> {
    let alloc = rt.alloc();
    loses(&rt, alloc, 1, (2, true), &KEPT)?;
    loses(&rt, alloc, 0, (3, false), &CLOSED)
}
