//! The pool of idle connections of a gateway, on one thread.
#![tactic(auto)]

mod answers;
mod conns;
mod edit;
mod entry;
mod holding;
mod laws;
mod leases;
mod limits;
mod machine;
mod pool;
mod rows;
mod shelf;
mod solo;
mod wants;

pub use answers::{Closed, CoreAsk, CoreWant};
pub use entry::{Call, Entry, Offer, Reply};
pub use holding::{Holding, Tokens};
pub use laws::{
    connections_are_taken_back, dialed_connections_are_somewhere, journal_has_room, leases_stay,
    least_wants_come_first, limits_hold, nothing_is_held_back, wants_are_served_once, wants_go_on,
    wants_stand,
};
pub use leases::{Ask, DialToken, Lease, Leases, Put, Start, Ticket, Want};
pub use limits::Limits;
pub use pool::PoolCore;
pub use rows::{ConnRow, DialRow, Place, Stage, WantRow};
pub use solo::Solo;

/// Want of memory.
pub type NoMemory = std::alloc::AllocError;

#[cfg(test)]
mod tests;
