// The outside in memory: links, a wire and a world that play scripts and tell what happened.

mod honest_wire;
mod log;
mod meet_wire;
mod mem_conn;
mod mem_wire;
mod mem_world;
pub mod script;

pub use honest_wire::{HonestConn, HonestWire};
pub use meet_wire::{MeetConn, MeetWire};
pub use mem_conn::MemConn;
pub use mem_wire::MemWire;
pub use mem_world::MemWorld;
