// What a wire in memory plays.

use crate::memory::mem_conn::MemConn;
use crate::values::{Bytes, PeerText};

/// What a link in memory meets when it is read.
#[derive(Debug, Drop)]
pub enum ConnEvent {
    /// Bytes that come together; an empty piece is passed over.
    Piece(Bytes),
    /// Nothing comes for a while.
    Tick,
    /// The peer sends no more.
    End,
    /// The read fails.
    Failed,
}

/// From the number of acts `from` on the clock says `at`, in milliseconds since 1970-01-01T00:00:00Z.
#[derive(Clone, Copy, Debug, PartialEq, Eq)]
pub struct Moment {
    pub from: u64,
    pub at: u64,
}

/// What a listener in memory gives, one after another; past the script's end it has ended.
#[derive(Drop)]
pub enum AcceptEvent {
    Conn(MemConn, PeerText),
    Tick,
    Failed,
    Ended,
}

/// What dials in memory meet, one after another; past the script's end they fail.
#[derive(Drop)]
pub enum DialEvent {
    Conn(MemConn),
    Failed,
}

/// What a wire in memory plays, with the room of its log: so many acts with so many bytes.
#[derive(Drop)]
pub struct Script {
    pub accepts: Vec<AcceptEvent>,
    pub dials: Vec<DialEvent>,
    pub moments: Vec<Moment>,
    pub acts: u32,
    pub bytes: u32,
}
