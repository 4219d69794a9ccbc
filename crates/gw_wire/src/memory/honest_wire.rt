// A wire in memory on which nothing fails.

ghost use Rattle.std.specs.Prelude.{◌≡◌, ◌<◌, ◌↔◌, length, true, false, IsTrue, IsSome, IfSome, IfOk};
ghost use Rattle.std.specs.List.{list_all};
ghost use Rattle.gw_wire.specs.AcceptStep.{AcceptStep};
ghost use Rattle.gw_wire.specs.DialStep.{DialStep};
ghost use Rattle.gw_wire.specs.Memory.{honest_view, fresh_state};
ghost use Rattle.gw_wire.specs.MemoryLink.{counted, heard, honest_conn_view, received, sent, taken_by};
ghost use Rattle.gw_wire.specs.Play.{accepted, accept_answer, honest_dialed, honest_dial_answer, moment_after, next_accept, waited};
ghost use Rattle.gw_wire.specs.ReadStep.{ReadStep, given_by, is_read_tick};
ghost use Rattle.gw_wire.specs.Script.{is_clock, is_honest_accept, is_honest_dial, is_visible_peer};
ghost use Rattle.gw_wire.specs.Wire.{CloseStep, NowStep, RestStep};
ghost use Rattle.gw_wire.specs.WriteStep.{WriteStep, is_write_tick};

use crate::error::NoMemory;
use crate::memory::mem_conn::MemConn;
use crate::memory::mem_wire::MemWire;
use crate::memory::script::Script;
use crate::traits::{Accept, Dial, Link, Read, Wire, Write};
use crate::values::{Act, Addr};
use std::alloc::Global;
use std::marker::Model;

/// A link whose reads and writes never fail.
#[derive(Drop)]
pub struct HonestConn {
    conn: MemConn,
}

impl Model for HonestConn {
    ghost use Rattle.std.specs.Prelude.{IsTrue};
    ghost use Rattle.gw_wire.specs.MemoryLink.{ConnState, is_honest_link};

    ghost Value = { ConnState };

    ghost view = { λ c. c.conn };

    ghost invariant = { λ c. IsTrue (is_honest_link c.conn) };
}

impl Link for HonestConn {
    ghost link = { honest_conn_view };

    fn number(&self) -> u64 {
        self.conn.number()
    }
}

/// A wire that plays a script without a failure and tells its log. Its counts of faults are the constant 0. Past the
/// script of its dials it gives links with the number 0 on which nothing ever comes.
#[derive(Drop)]
pub struct HonestWire {
    wire: MemWire,
}

impl Model for HonestWire {
    ghost use Rattle.std.specs.Prelude.{IsTrue};
    ghost use Rattle.std.specs.List.{list_all};
    ghost use Rattle.gw_wire.specs.Memory.{WireState};
    ghost use Rattle.gw_wire.specs.Script.{is_honest_accept, is_honest_dial};

    ghost Value = { WireState };

    ghost view = { λ w. w.wire };

    ghost invariant = { λ w. IsTrue (list_all is_honest_accept w.wire.accepts) × IsTrue (list_all is_honest_dial w.wire.dials) };
}

impl HonestWire {
    /// A wire that plays this script, which holds no failure.
    pub fn new(alloc: Global, script: Script) -> Result<HonestWire, NoMemory>
        requires clock { IsTrue (is_clock script.moments.items) }
        requires peers { IsTrue (list_all is_visible_peer script.accepts.items) }
        requires accepts { IsTrue (list_all is_honest_accept script.accepts.items) }
        requires dials { IsTrue (list_all is_honest_dial script.dials.items) }
        ensures { IfOk result (λ wire. wire ≡ fresh_state script.accepts.items script.dials.items script.moments.items) }
    {
        let wire = MemWire::new(alloc, script)?;
        Ok(HonestWire { wire })
    }

    /// Whether the log still tells every act.
    pub fn telling(&self) -> bool
        ensures { IsTrue result ↔ IsSome self.now.log }
    {
        self.wire.telling()
    }

    /// The acts so far, where the log tells them.
    pub fn acts(&self) -> &[Act]
        ensures { IfSome self.now.log (λ acts. result.now ≡ acts) }
    {
        self.wire.acts()
    }
}

impl Wire for HonestWire {
    type Conn = HonestConn;

    ghost wire = { honest_view };

    fn accept(&mut self) -> Accept<HonestConn>
        ensures step { AcceptStep honest_conn_view (honest_view self.old) (honest_view self.new) result }
        ensures answer { result ≡ accept_answer (next_accept self.old.ended self.old.accepts) }
        ensures plays { self.new ≡ record (accepted self.old) { log = self.new.log } }
    {
        match self.wire.accept() {
            Accept::Conn(conn, peer) => Accept::Conn(HonestConn { conn }, peer),
            Accept::Ended => Accept::Ended,
            Accept::Tick => Accept::Tick,
            Accept::Failed => unreachable!(),
        }
    }

    fn dial(&mut self, host: u32, addr: &Addr) -> Dial<HonestConn>
        ensures step { DialStep honest_conn_view (honest_view self.old) (honest_view self.new) host addr.now result }
        ensures answer { result ≡ honest_dial_answer self.old.dials }
        ensures plays { self.new ≡ record (honest_dialed self.old) { log = self.new.log } }
    {
        if self.wire.is_past_dials() {
            let conn = self.wire.dial_silent(host, addr);
            return Dial::Conn(HonestConn { conn });
        }
        match self.wire.dial(host, addr) {
            Dial::Conn(conn) => Dial::Conn(HonestConn { conn }),
            Dial::Failed => unreachable!(),
        }
    }

    fn read(&mut self, c: &mut HonestConn, buf: &mut [u8]) -> Read
        requires room { 0 < length buf.old }
        requires fresh { self.old.aged ≡ false }
        ensures step { ReadStep (honest_view self.old) (honest_view self.new) (honest_conn_view c.old) (honest_conn_view c.new) buf.new result }
        ensures answer { result ≡ (heard (length buf.old) c.old.events).answer }
        ensures bytes { given_by buf.new result ≡ (heard (length buf.old) c.old.events).bytes }
        ensures link { c.new ≡ received (length buf.old) c.old }
        ensures plays { self.new ≡ record (waited (is_read_tick result) self.old) { log = self.new.log } }
    {
        match self.wire.read(&mut c.conn, buf) {
            Read::Got(n) => Read::Got(n),
            Read::End => Read::End,
            Read::Tick => Read::Tick,
            Read::Failed => unreachable!(),
        }
    }

    fn write(&mut self, c: &mut HonestConn, bytes: &[u8]) -> Write
        requires some { 0 < length bytes.now }
        requires fresh { self.old.aged ≡ false }
        ensures step { WriteStep (honest_view self.old) (honest_view self.new) (honest_conn_view c.old) (honest_conn_view c.new) bytes.now result }
        ensures answer { result ≡ taken_by (length bytes.now) c.old.takes }
        ensures link { c.new ≡ sent (length bytes.now) c.old }
        ensures plays { self.new ≡ record (waited (is_write_tick result) self.old) { log = self.new.log } }
    {
        match self.wire.write(&mut c.conn, bytes) {
            Write::Took(n) => Write::Took(n),
            Write::Tick => Write::Tick,
            Write::Failed => unreachable!(),
        }
    }

    fn close(&mut self, c: HonestConn)
        ensures step { CloseStep (honest_view self.old) (honest_view self.new) c.number }
        ensures plays { self.new ≡ record self.old { log = self.new.log; acts = counted self.old.acts } }
    {
        let HonestConn { conn } = c;
        self.wire.close(conn);
    }

    fn rest(&mut self)
        requires { self.old.aged ≡ false }
        ensures step { RestStep (honest_view self.old) (honest_view self.new) }
        ensures plays { self.new ≡ record self.old { rests = counted self.old.rests; asked = self.old.moment; aged = true } }
    {
        self.wire.rest();
    }

    fn now(&mut self) -> u64
        ensures step { NowStep (honest_view self.old) (honest_view self.new) result }
        ensures plays { self.new ≡ record self.old { moment = moment_after self.old.moments self.old.acts self.old.moment; aged = false } }
    {
        self.wire.now()
    }
}
