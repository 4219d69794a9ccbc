//! What the pool answers.

use crate::entry::Entry;

/// What a want is answered by the pool.
pub enum CoreWant<C> {
    /// It was made, with this number.
    Made(u64),
    /// Nothing was made: this idle connection was expired and is to be closed; ask again.
    Expired(C),
    /// The journal has no room for a further want.
    JournalFull,
}

/// How a want stands in the pool.
pub enum CoreAsk<C> {
    /// A connection, with its number, whether it served a want before, and its host.
    Taken(C, u64, bool, u32),
    /// It may dial.
    Granted,
    /// It isn't served yet.
    NotYet,
    /// Its own dial failed before it was served.
    Failed,
}

/// What a closed pool leaves.
pub struct Closed<C> {
    /// The entries.
    pub journal: Vec<Entry>,
    /// The connections that were idle, the least recently idle first.
    pub idle: Vec<C>,
}
