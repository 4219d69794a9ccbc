// A link in memory.

ghost use Rattle.std.specs.Prelude.{◌≡◌, ◌<◌, ◌≤◌, length, drop, min, take};
ghost use Rattle.gw_wire.specs.Link.{LinkLater};
ghost use Rattle.gw_wire.specs.MemoryLink.{ReceiveCause, SendCause, conn_view, cut, first_len, heard, met, received, sent, taken_by, IsReady};
ghost use Rattle.gw_wire.specs.ReadStep.{given_by};

use crate::memory::script::ConnEvent;
use crate::traits::{Link, Read, Write};
use std::marker::Model;

/// A link that plays a script: what comes when it is read, and how many bytes each write takes, where 0 fails. Past
/// the script of its reads it ends; past that of its writes it takes everything.
#[derive(Drop)]
pub struct MemConn {
    number: u64,
    events: Vec<ConnEvent>,
    // the event that comes next, and how much of it, where it is a piece, was read
    place: usize,
    offset: usize,
    writes: Vec<u32>,
    written: usize,
    faults: u64,
    ends: u64,
}

impl Model for MemConn {
    ghost use Rattle.std.specs.Prelude.{drop, ◌≤◌};
    ghost use Rattle.gw_wire.specs.MemoryLink.{ConnState, cut, first_len};

    ghost Value = { ConnState };

    ghost view = { λ c. record {
      number = c.number;
      faults = c.faults;
      ends = c.ends;
      events = cut c.offset (drop c.place c.events.items);
      takes = drop c.written c.writes.items;
    } };

    ghost invariant = { λ c. c.offset ≤ first_len (drop c.place c.events.items) };
}

impl Link for MemConn {
    ghost link = { conn_view };

    fn number(&self) -> u64 {
        self.number
    }
}

impl MemConn {
    /// A link of this number that meets these events when it is read, and whose writes take these many bytes each.
    pub fn new(number: u64, events: Vec<ConnEvent>, writes: Vec<u32>) -> MemConn
        ensures { result ≡ record { number = number; faults = 0; ends = 0; events = events.items; takes = writes.items } }
    {
        MemConn {
            number,
            events,
            place: 0,
            offset: 0,
            writes,
            written: 0,
            faults: 0,
            ends: 0,
        }
    }

    /// Plays the next event of the reads.
    pub(crate) fn receive(&mut self, buf: &mut [u8]) -> Read
        requires { 0 < length buf.old }
        ensures later { LinkLater (conn_view self.old) (conn_view self.new) }
        ensures cause { ReceiveCause self.old self.new buf.new result }
        ensures answer { result ≡ (heard (length buf.old) self.old.events).answer }
        ensures bytes { given_by buf.new result ≡ (heard (length buf.old) self.old.events).bytes }
        ensures link { self.new ≡ received (length buf.old) self.old }
    {
        let (place, offset) = next_event(self.events.as_slice(), self.place, self.offset);
        self.place = place;
        self.offset = offset;
        if place >= self.events.len() {
            self.ends = self.ends.saturating_add(1);
            return Read::End;
        }
        match &self.events[place] {
            ConnEvent::Piece(bytes) => {
                let n = copy_front(&bytes.as_slice()[offset..], buf);
                self.offset += n;
                Read::Got(n)
            }
            ConnEvent::Tick => {
                self.place += 1;
                Read::Tick
            }
            ConnEvent::Failed => {
                self.place += 1;
                self.faults = self.faults.saturating_add(1);
                Read::Failed
            }
            ConnEvent::End => {
                self.place += 1;
                self.ends = self.ends.saturating_add(1);
                Read::End
            }
        }
    }

    /// Plays the next of the writes.
    pub(crate) fn send(&mut self, bytes: &[u8]) -> Write
        requires { 0 < length bytes.now }
        ensures later { LinkLater (conn_view self.old) (conn_view self.new) }
        ensures cause { SendCause self.old self.new bytes.now result }
        ensures answer { result ≡ taken_by (length bytes.now) self.old.takes }
        ensures link { self.new ≡ sent (length bytes.now) self.old }
    {
        let Some(takes) = self.writes.get(self.written) else {
            return Write::Took(bytes.len());
        };
        let takes = *takes as usize;
        self.written += 1;
        if takes == 0 {
            self.faults = self.faults.saturating_add(1);
            return Write::Failed;
        }
        Write::Took(takes.min(bytes.len()))
    }
}

// The place of the next event that isn't a piece read to its end, and the offset into it.
fn next_event(events: &[ConnEvent], place: usize, offset: usize) -> (usize, usize)
    requires { offset ≤ first_len (drop place events.now) }
    ensures met { cut result.1 (drop result.0 events.now) ≡ met (cut offset (drop place events.now)) }
    ensures ready { IsReady (drop result.0 events.now) result.1 }
{
    let mut offset = offset;
    for at in place..events.len() {
        match &events[at] {
            ConnEvent::Piece(bytes) => {
                if offset < bytes.as_slice().len() {
                    return (at, offset);
                }
                offset = 0;
            }
            ConnEvent::Tick => return (at, 0),
            ConnEvent::End => return (at, 0),
            ConnEvent::Failed => return (at, 0),
        }
    }
    (events.len(), 0)
}

// Copies as much of the bytes' front as the buffer has room for to the buffer's front.
fn copy_front(bytes: &[u8], buf: &mut [u8]) -> usize
    requires some { 0 < length bytes.now }
    requires room { 0 < length buf.old }
    ensures count { result ≡ min (length bytes.now) (length buf.old) }
    ensures copied { take result buf.new ≡ take result bytes.now }
{
    let n = bytes.len().min(buf.len());
    buf[..n].copy_from_slice(&bytes[..n]);
    n
}
