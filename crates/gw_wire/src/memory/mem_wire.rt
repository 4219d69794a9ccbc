// A wire in memory.

ghost use Rattle.std.specs.Prelude.{◌≡◌, ◌<◌, ◌≤◌, ◌↔◌, ℕ, length, true, false, List, [], IsTrue, IsSome, IfSome, IfOk};
ghost use Rattle.std.specs.List.{list_all};
ghost use Rattle.gw_wire.specs.declared.traits.Dial.TheVariants.{Conn};
ghost use Rattle.gw_wire.specs.declared.traits.Read.TheVariants.{Tick};
ghost use Rattle.gw_wire.specs.Link.{LinkView};
ghost use Rattle.gw_wire.specs.AcceptStep.{AcceptStep};
ghost use Rattle.gw_wire.specs.DialStep.{DialStep};
ghost use Rattle.gw_wire.specs.Memory.{wire_view, fresh_state};
ghost use Rattle.gw_wire.specs.MemoryLink.{conn_view, counted, heard, received, sent, silent_link, taken_by};
ghost use Rattle.gw_wire.specs.Play.{accepted, accept_answer, dialed, dial_answer, moment_after, next_accept, next_dial, waited};
ghost use Rattle.gw_wire.specs.ReadStep.{ReadStep, given_by, is_read_tick};
ghost use Rattle.gw_wire.specs.Script.{is_clock, is_visible_peer, AllBefore};
ghost use Rattle.gw_wire.specs.Wire.{CloseStep, NowStep, RestStep};
ghost use Rattle.gw_wire.specs.WriteStep.{WriteStep, is_write_tick};

use crate::error::NoMemory;
use crate::memory::log::Log;
use crate::memory::mem_conn::MemConn;
use crate::memory::script::{AcceptEvent, DialEvent, Moment, Script};
use crate::traits::{Accept, Dial, Link, Read, Wire, Write};
use crate::values::{Act, Addr, PeerText};
use std::alloc::Global;
use std::collections::VecDeque;
use std::marker::Model;

/// A wire that plays a script and tells its log.
#[derive(Drop)]
pub struct MemWire {
    alloc: Global,
    accepts: VecDeque<AcceptEvent>,
    dials: VecDeque<DialEvent>,
    moments: Vec<Moment>,
    log: Log,
    accept_faults: u64,
    dial_faults: u64,
    ticks: u64,
    rests: u64,
    moment: u64,
    first: u64,
    asked: u64,
    aged: bool,
    ended: bool,
}

impl Model for MemWire {
    ghost use Rattle.std.specs.Prelude.{◌≡◌, ◌≤◌, ◌<◌, IsTrue};
    ghost use Rattle.std.specs.List.{list_all};
    ghost use Rattle.gw_wire.specs.Memory.{WireState};
    ghost use Rattle.gw_wire.specs.Script.{AllBefore, is_visible_peer};

    ghost Value = { WireState };

    ghost view = { λ w. record {
      accept_faults = w.accept_faults;
      dial_faults = w.dial_faults;
      ticks = w.ticks;
      rests = w.rests;
      moment = w.moment;
      first = w.first;
      asked = w.asked;
      aged = w.aged;
      ended = w.ended;
      log = w.log.told;
      acts = w.log.acts;
      accepts = w.accepts.items;
      dials = w.dials.items;
      moments = w.moments.items;
    } };

    ghost invariant = { λ w.
        (w.first ≤ w.moment) × (w.moment < 253402300800000) × AllBefore w.moments.items × IsTrue (list_all is_visible_peer w.accepts.items) };
}

impl MemWire {
    /// A wire that plays this script. Its clock begins at the script's first moment; the log's room is reserved.
    pub fn new(alloc: Global, script: Script) -> Result<MemWire, NoMemory>
        requires clock { IsTrue (is_clock script.moments.items) }
        requires peers { IsTrue (list_all is_visible_peer script.accepts.items) }
        ensures { IfOk result (λ wire. wire ≡ fresh_state script.accepts.items script.dials.items script.moments.items) }
    {
        let log = Log::new(alloc, script.acts, script.bytes)?;
        let Script {
            accepts,
            dials,
            moments,
            acts: _,
            bytes: _,
        } = script;
        let first = moments[0].at;
        Ok(MemWire {
            alloc,
            accepts: VecDeque::from(accepts),
            dials: VecDeque::from(dials),
            moments,
            log,
            accept_faults: 0,
            dial_faults: 0,
            ticks: 0,
            rests: 0,
            moment: first,
            first,
            asked: 0,
            aged: false,
            ended: false,
        })
    }

    /// Whether the log still tells every act.
    pub fn telling(&self) -> bool
        ensures { IsTrue result ↔ IsSome self.now.log }
    {
        self.log.telling()
    }

    /// The acts so far, where the log tells them.
    pub fn acts(&self) -> &[Act]
        ensures { IfSome self.now.log (λ acts. result.now ≡ acts) }
    {
        self.log.acts()
    }
}

impl MemWire {
    /// Whether its script of dials has come to its end.
    pub(crate) fn is_past_dials(&self) -> bool
        ensures { IsTrue result ↔ (self.now.dials ≡ []) }
    {
        self.dials.is_empty()
    }

    /// Dials a link on which nothing ever comes, past the script of dials.
    pub(crate) fn dial_silent(&mut self, host: u32, addr: &Addr) -> MemConn
        ensures link { result ≡ silent_link }
        ensures step { DialStep conn_view (wire_view self.old) (wire_view self.new) host addr.now (Conn result) }
        ensures plays { self.new ≡ record self.old { log = self.new.log; acts = counted self.old.acts } }
    {
        self.log.push(Act::Dialed(host, *addr, 0));
        MemConn::new(0, Vec::new(self.alloc), Vec::new(self.alloc))
    }

    /// A read of any link passed with nothing to show.
    pub(crate) fn tick(&mut self)
        requires { self.old.aged ≡ false }
        ensures step { (link : LinkView) (buffer : List ℕ) → ReadStep (wire_view self.old) (wire_view self.new) link link buffer Tick }
        ensures plays { self.new ≡ waited true self.old }
    {
        self.asked = self.moment;
        self.ticks = self.ticks.saturating_add(1);
        self.aged = true;
    }
}

impl Wire for MemWire {
    type Conn = MemConn;

    ghost wire = { wire_view };

    fn accept(&mut self) -> Accept<MemConn>
        ensures step { AcceptStep conn_view (wire_view self.old) (wire_view self.new) result }
        ensures answer { result ≡ accept_answer (next_accept self.old.ended self.old.accepts) }
        ensures plays { self.new ≡ record (accepted self.old) { log = self.new.log } }
    {
        if self.ended {
            self.log.push(Act::Ended);
            return Accept::Ended;
        }
        match self.accepts.pop_front() {
            Some(AcceptEvent::Conn(conn, peer)) => {
                self.log.push(Act::Accepted(conn.number(), peer.copy()));
                Accept::Conn(conn, peer)
            }
            Some(AcceptEvent::Tick) => {
                self.ticks = self.ticks.saturating_add(1);
                Accept::Tick
            }
            Some(AcceptEvent::Failed) => {
                self.accept_faults = self.accept_faults.saturating_add(1);
                self.log.push(Act::AcceptFailed);
                Accept::Failed
            }
            Some(AcceptEvent::Ended) => {
                self.ended = true;
                self.log.push(Act::Ended);
                Accept::Ended
            }
            None => {
                self.ended = true;
                self.log.push(Act::Ended);
                Accept::Ended
            }
        }
    }

    fn dial(&mut self, host: u32, addr: &Addr) -> Dial<MemConn>
        ensures step { DialStep conn_view (wire_view self.old) (wire_view self.new) host addr.now result }
        ensures answer { result ≡ dial_answer (next_dial self.old.dials) }
        ensures plays { self.new ≡ record (dialed self.old) { log = self.new.log } }
    {
        match self.dials.pop_front() {
            Some(DialEvent::Conn(conn)) => {
                self.log.push(Act::Dialed(host, *addr, conn.number()));
                Dial::Conn(conn)
            }
            Some(DialEvent::Failed) => {
                self.dial_faults = self.dial_faults.saturating_add(1);
                self.log.push(Act::DialFailed(host, *addr));
                Dial::Failed
            }
            None => {
                self.dial_faults = self.dial_faults.saturating_add(1);
                self.log.push(Act::DialFailed(host, *addr));
                Dial::Failed
            }
        }
    }

    fn read(&mut self, c: &mut MemConn, buf: &mut [u8]) -> Read
        requires room { 0 < length buf.old }
        requires fresh { self.old.aged ≡ false }
        ensures step { ReadStep (wire_view self.old) (wire_view self.new) (conn_view c.old) (conn_view c.new) buf.new result }
        ensures answer { result ≡ (heard (length buf.old) c.old.events).answer }
        ensures bytes { given_by buf.new result ≡ (heard (length buf.old) c.old.events).bytes }
        ensures link { c.new ≡ received (length buf.old) c.old }
        ensures plays { self.new ≡ record (waited (is_read_tick result) self.old) { log = self.new.log } }
    {
        self.asked = self.moment;
        let read = c.receive(buf);
        match read {
            Read::Got(n) => self.log.push_read(c.number(), &buf[..n]),
            Read::End => self.log.push(Act::End(c.number())),
            Read::Tick => {
                self.ticks = self.ticks.saturating_add(1);
                self.aged = true;
            }
            Read::Failed => self.log.push(Act::ReadFailed(c.number())),
        }
        read
    }

    fn write(&mut self, c: &mut MemConn, bytes: &[u8]) -> Write
        requires some { 0 < length bytes.now }
        requires fresh { self.old.aged ≡ false }
        ensures step { WriteStep (wire_view self.old) (wire_view self.new) (conn_view c.old) (conn_view c.new) bytes.now result }
        ensures answer { result ≡ taken_by (length bytes.now) c.old.takes }
        ensures link { c.new ≡ sent (length bytes.now) c.old }
        ensures plays { self.new ≡ record (waited (is_write_tick result) self.old) { log = self.new.log } }
    {
        self.asked = self.moment;
        let write = c.send(bytes);
        match write {
            Write::Took(n) => self.log.push_written(c.number(), &bytes[..n]),
            Write::Tick => {
                self.ticks = self.ticks.saturating_add(1);
                self.aged = true;
            }
            Write::Failed => self.log.push(Act::WriteFailed(c.number())),
        }
        write
    }

    fn close(&mut self, c: MemConn)
        ensures step { CloseStep (wire_view self.old) (wire_view self.new) c.number }
        ensures plays { self.new ≡ record self.old { log = self.new.log; acts = counted self.old.acts } }
    {
        self.log.push(Act::Closed(c.number()));
    }

    fn rest(&mut self)
        requires { self.old.aged ≡ false }
        ensures step { RestStep (wire_view self.old) (wire_view self.new) }
        ensures plays { self.new ≡ record self.old { rests = counted self.old.rests; asked = self.old.moment; aged = true } }
    {
        self.rests = self.rests.saturating_add(1);
        self.asked = self.moment;
        self.aged = true;
    }

    fn now(&mut self) -> u64
        ensures step { NowStep (wire_view self.old) (wire_view self.new) result }
        ensures plays { self.new ≡ record self.old { moment = moment_after self.old.moments self.old.acts self.old.moment; aged = false } }
    {
        self.moment = moment_at(self.moments.as_slice(), self.log.count(), self.moment);
        self.aged = false;
        self.moment
    }
}

// The last moment that holds from so many acts on, but never one before the moment that was read last.
fn moment_at(moments: &[Moment], acts: u64, last: u64) -> u64
    requires before { AllBefore moments.now }
    requires year { last < 253402300800000 }
    ensures later { last ≤ result }
    ensures year { result < 253402300800000 }
    ensures exact { result ≡ moment_after moments.now acts last }
{
    let mut at = last;
    for moment in moments.iter() {
        if moment.from <= acts {
            at = at.max(moment.at);
        }
    }
    at
}
