// The log of a wire in memory.

ghost use Rattle.std.specs.Prelude.{◌≡◌, ◌↔◌, IsTrue, IsSome, IfOk, Some, None, [], IfSome};
ghost use Rattle.gw_wire.specs.Acts.{Appends};
ghost use Rattle.gw_wire.specs.Memory.{Grows};
ghost use Rattle.gw_wire.specs.MemoryLink.{counted};
ghost use Rattle.gw_wire.specs.declared.values.Act.TheVariants.{Read, Wrote};

use crate::error::NoMemory;
use crate::values::{Act, Bytes};
use std::alloc::Global;
use std::marker::Model;

/// The acts of a wire, with room that is kept back for the bytes of the acts. Contracts see the list of them, or
/// nothing from the time on at which there was no memory for one more.
#[derive(Drop)]
pub struct Log {
    alloc: Global,
    acts: Vec<Act>,
    // let go where an act's bytes find no memory
    spare: Vec<u8>,
    telling: bool,
    // how many acts there were, told or not
    count: u64,
}

impl Model for Log {
    ghost use Rattle.gw_wire.specs.Memory.{LogState, log_of};

    ghost Value = { LogState };

    ghost view = { λ l. record { told = log_of l.telling l.acts.items; acts = l.count } };
}

impl Log {
    /// An empty log with room for so many acts and so many bytes.
    pub fn new(alloc: Global, acts: u32, bytes: u32) -> Result<Log, NoMemory>
        ensures { IfOk result (λ log. log ≡ record { told = Some []; acts = 0 }) }
    {
        Ok(Log {
            alloc,
            acts: Vec::with_capacity(alloc, acts as usize)?,
            spare: Vec::with_capacity(alloc, bytes as usize)?,
            telling: true,
            count: 0,
        })
    }

    /// Appends an act.
    pub fn push(&mut self, act: Act)
        ensures { Grows self.old self.new act }
    {
        self.count = self.count.saturating_add(1);
        if self.telling {
            self.telling = self.acts.push(act).is_ok();
        }
    }

    /// Appends that bytes were read from a link.
    pub fn push_read(&mut self, link: u64, bytes: &[u8])
        ensures { Grows self.old self.new (Read link bytes.now) }
    {
        match self.keep(bytes) {
            Ok(bytes) => self.push(Act::Read(link, Bytes::new(bytes))),
            Err(_) => self.stop(),
        }
    }

    /// Appends that bytes were written to a link.
    pub fn push_written(&mut self, link: u64, bytes: &[u8])
        ensures { Grows self.old self.new (Wrote link bytes.now) }
    {
        match self.keep(bytes) {
            Ok(bytes) => self.push(Act::Wrote(link, Bytes::new(bytes))),
            Err(_) => self.stop(),
        }
    }

    /// How many acts there were, told or not.
    pub fn count(&self) -> u64
        ensures { result ≡ self.now.acts }
    {
        self.count
    }

    /// Whether the log still tells every act.
    pub fn telling(&self) -> bool
        ensures { IsTrue result ↔ IsSome self.now.told }
    {
        self.telling
    }

    /// The acts; what is lent of a log that doesn't tell them any more says nothing.
    pub fn acts(&self) -> &[Act]
        ensures { IfSome self.now.told (λ acts. result.now ≡ acts) }
    {
        self.acts.as_slice()
    }

    // A copy of an act's bytes, for which the room that was kept back is let go where there is no other.
    fn keep(&mut self, bytes: &[u8]) -> Result<Vec<u8>, NoMemory>
        ensures copied { IfOk result (λ copy. copy.items ≡ bytes.now) }
        ensures same { self.new ≡ self.old }
    {
        if let Ok(copy) = bytes.to_vec(self.alloc) {
            return Ok(copy);
        }
        self.spare = Vec::new(self.alloc);
        bytes.to_vec(self.alloc)
    }

    // An act happened for which there is no memory.
    fn stop(&mut self)
        ensures told { self.new.told ≡ None }
        ensures acts { self.new.acts ≡ counted self.old.acts }
    {
        self.count = self.count.saturating_add(1);
        self.telling = false;
    }
}
