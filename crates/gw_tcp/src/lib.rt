//! The real edge of the gateway: sockets, the route file, the clock and the output of the machine, as a wire and a world.
//! It meets the contracts of these traits, and tells nothing of what the sockets and files hold.
#![tactic(auto)]

mod tcp_wire;
mod tcp_world;

pub use tcp_wire::{TcpConn, TcpWire, listen};
pub use tcp_world::TcpWorld;
