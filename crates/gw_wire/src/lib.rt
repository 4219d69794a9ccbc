// The outside of the gateway: clients, backends, a clock, files and printed lines, as traits with contracts,
// and forms of these traits in memory, which tests run the gateway over.
#![tactic(auto)]

mod error;
mod laws;
mod memory;
mod traits;
mod values;

pub use error::NoMemory;
pub use laws::{
    other_links_differ, script_bytes_are_kept, second_sides_are_found, sides_are_found,
};
pub use memory::script::{AcceptEvent, ConnEvent, DialEvent, Moment, Script};
pub use memory::{HonestConn, HonestWire, MeetConn, MeetWire, MemConn, MemWire, MemWorld};
pub use traits::{Accept, Dial, Link, Listening, Loaded, Printed, Read, Wire, World, Write};
pub use values::{Act, Addr, Bytes, PeerText};

#[cfg(test)]
mod tests;
