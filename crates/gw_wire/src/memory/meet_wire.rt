// Two wires in memory that wait for each other.

ghost use Rattle.std.specs.Prelude.{◌≡◌, ◌↔◌, IsTrue, IsSome, IfSome, IfOk};
ghost use Rattle.std.specs.List.{list_all};
ghost use Rattle.gw_wire.specs.Memory.{fresh_state, wire_view};
ghost use Rattle.gw_wire.specs.Script.{is_clock, is_visible_peer};

use crate::error::NoMemory;
use crate::memory::mem_conn::MemConn;
use crate::memory::mem_wire::MemWire;
use crate::memory::script::Script;
use crate::traits::{Accept, Dial, Link, Read, Wire, Write};
use crate::values::{Act, Addr};
use std::alloc::Global;
use std::marker::Model;
use std::sync::Arc;
use std::sync::atomic::{AtomicU64, Ordering};

/// How often a read of a backend's link looks for the other wire before it is a tick.
const LOOKS: u32 = 1_000;

/// A link of a `MeetWire`.
#[derive(Drop)]
pub struct MeetConn {
    conn: MemConn,
    dialed: bool,
}

impl Model for MeetConn {
    ghost use Rattle.gw_wire.specs.MemoryLink.{ConnState};

    ghost Value = { ConnState };

    ghost view = { λ c. c.conn };
}

impl Link for MeetConn {
    ghost use Rattle.gw_wire.specs.MemoryLink.{conn_view};

    ghost link = { conn_view };

    fn number(&self) -> u64 {
        self.conn.number()
    }
}

/// One of two wires that play scripts: a read of a backend's link is a tick until the other wire has written a whole
/// request to a backend's link of its own, which is one whose bytes a write takes up to an empty line at their end. So
/// two requests without a body end only where both are under way at once.
#[derive(Drop)]
pub struct MeetWire {
    wire: MemWire,
    // whether this wire has written its request, and whether the other one has
    own: Arc<AtomicU64, Global>,
    other: Arc<AtomicU64, Global>,
}

impl Model for MeetWire {
    ghost use Rattle.gw_wire.specs.Memory.{WireState};

    ghost Value = { WireState };

    ghost view = { λ w. w.wire };
}

impl MeetWire {
    /// Two wires that play these scripts and wait for each other.
    pub fn pair(
        alloc: Global,
        first: Script,
        second: Script,
    ) -> Result<(MeetWire, MeetWire), NoMemory>
        requires clock { IsTrue (is_clock first.moments.items) }
        requires peers { IsTrue (list_all is_visible_peer first.accepts.items) }
        requires second_clock { IsTrue (is_clock second.moments.items) }
        requires second_peers { IsTrue (list_all is_visible_peer second.accepts.items) }
        ensures first { IfOk result (λ pair. pair.0 ≡ fresh_state first.accepts.items first.dials.items first.moments.items) }
        ensures second { IfOk result (λ pair. pair.1 ≡ fresh_state second.accepts.items second.dials.items second.moments.items) }
    {
        let one = Arc::new(alloc, AtomicU64::new(0))?;
        let two = Arc::new(alloc, AtomicU64::new(0))?;
        let first = MeetWire {
            wire: MemWire::new(alloc, first)?,
            own: one.clone()?,
            other: two.clone()?,
        };
        let second = MeetWire {
            wire: MemWire::new(alloc, second)?,
            own: two,
            other: one,
        };
        Ok((first, second))
    }

    /// Whether the log still tells every act.
    pub fn telling(&self) -> bool
        ensures { IsTrue result ↔ IsSome self.now.log }
    {
        self.wire.telling()
    }

    /// The acts so far, where the log tells them.
    pub fn acts(&self) -> &[Act]
        ensures { IfSome self.now.log (λ acts. result.now ≡ acts) }
    {
        self.wire.acts()
    }

    // Whether the other wire has written its request, after so many looks at most.
    fn is_met(&self) -> bool {
        for _ in 0..LOOKS {
            if self.other.load(Ordering::SeqCst) != 0 {
                return true;
            }
        }
        false
    }
}

impl Wire for MeetWire {
    type Conn = MeetConn;

    ghost wire = { wire_view };

    fn accept(&mut self) -> Accept<MeetConn> {
        match self.wire.accept() {
            Accept::Conn(conn, peer) => Accept::Conn(
                MeetConn {
                    conn,
                    dialed: false,
                },
                peer,
            ),
            Accept::Ended => Accept::Ended,
            Accept::Tick => Accept::Tick,
            Accept::Failed => Accept::Failed,
        }
    }

    fn dial(&mut self, host: u32, addr: &Addr) -> Dial<MeetConn> {
        match self.wire.dial(host, addr) {
            Dial::Conn(conn) => Dial::Conn(MeetConn { conn, dialed: true }),
            Dial::Failed => Dial::Failed,
        }
    }

    fn read(&mut self, c: &mut MeetConn, buf: &mut [u8]) -> Read {
        if c.dialed && !self.is_met() {
            self.wire.tick();
            return Read::Tick;
        }
        self.wire.read(&mut c.conn, buf)
    }

    fn write(&mut self, c: &mut MeetConn, bytes: &[u8]) -> Write {
        let write = self.wire.write(&mut c.conn, bytes);
        if let Write::Took(n) = write {
            if c.dialed && bytes[..n].ends_with(b"\r\n\r\n") {
                self.own.store(1, Ordering::SeqCst);
            }
        }
        write
    }

    fn close(&mut self, c: MeetConn) {
        let MeetConn { conn, dialed: _ } = c;
        self.wire.close(conn);
    }

    fn rest(&mut self) {
        self.wire.rest();
    }

    fn now(&mut self) -> u64 {
        self.wire.now()
    }
}
