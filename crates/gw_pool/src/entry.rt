//! The journal: what was asked of the pool, and what it answered.

use std::mem::size_of;

/// One call and its reply.
#[derive(Clone, Copy, Debug)]
pub struct Entry {
    /// Who called.
    pub caller: u32,
    /// What was asked.
    pub call: Call,
    /// What was answered.
    pub reply: Reply,
}

// What the journal takes for an entry, in bytes.
const _: () = prove!(size_of::<Entry>() <= 128);

/// A call of the pool's machine. Times are milliseconds since 1970-01-01T00:00:00Z.
#[derive(Clone, Copy, Debug)]
pub enum Call {
    /// A connection to a host is wanted.
    Want { host: u32, now: u64 },
    /// A dial for a granted want begins.
    Start { want: u64 },
    /// The dial for a want gave a connection, whose link has this number.
    Dialed { want: u64, link: u64, now: u64 },
    /// The dial for a want failed.
    DialFailed { want: u64 },
    /// A want is given up.
    Cancel { want: u64, now: u64 },
    /// A connection is given back for further use.
    GiveBack { conn: u64, now: u64 },
    /// A connection is given up.
    Drop { conn: u64 },
    /// The least recently idle connection, which is expired, is taken out.
    Expire { now: u64 },
    /// The least recently idle connection is taken out.
    CloseIdle,
}

/// What the machine answered. A `next` names the want that a free place went to.
#[derive(Clone, Copy, Debug)]
pub enum Reply {
    /// Of a want: the idle connection was expired and is to be closed; nothing was made.
    Expired { conn: u64 },
    /// Of a want: it has this connection.
    Given { want: u64, conn: u64 },
    /// Of a want: it may dial.
    Granted { want: u64 },
    /// Of a want: it waits.
    Waiting { want: u64 },
    /// Of a start.
    Go,
    /// Of a dial that gave a connection: it went to its own want.
    Kept { conn: u64 },
    /// Of a dial that gave a connection: its own want has no row anymore, so it was offered.
    Offered { conn: u64, offer: Offer },
    /// Of a failed dial: its want ended with it.
    Ended { next: Option<u64> },
    /// Of a failed dial: its want had ended before.
    Late { next: Option<u64> },
    /// Of a cancelled want that had no connection.
    Gone { next: Option<u64> },
    /// Of a cancelled want that had this connection, which was offered.
    Returned { conn: u64, offer: Offer },
    /// Of a connection that was given back.
    Put { offer: Offer },
    /// Of a connection that was given up.
    Dropped { next: Option<u64> },
    /// Of an idle connection that was taken out.
    Taken { conn: u64 },
}

/// Where an offered connection went.
#[derive(Clone, Copy, Debug)]
pub enum Offer {
    /// To the least want of its host; a place that this freed went to `next`.
    ToWant { want: u64, next: Option<u64> },
    /// Nowhere: its host has enough idle ones, so it is to be closed.
    Closed,
    /// To the idle ones; one that is too many is to be closed.
    Idle { evicted: Option<u64> },
}
