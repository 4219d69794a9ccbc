//! What the gateway serves.

use gw_mux::Mux;
use gw_pool::Limits;
use gw_wire::{Addr, Bytes};

/// What a route does with its requests.
#[derive(Debug, Drop)]
pub enum Action {
    /// They go to the host of this number, from 0. The base stands before each path: it is empty, or has 1 to 1,024
    /// bytes from 0x21 to 0x7E other than `?`, `#` and `%`, the first of which is `/`.
    Backend { host: u32, base: Bytes },
    /// They shut the gate.
    Stop,
}

/// A route, whose pattern the table's router has under the same number.
#[derive(Debug, Drop)]
pub struct Route {
    /// The pattern's text, as the file has it.
    pub text: Bytes,
    /// What the route does.
    pub action: Action,
    /// How many milliseconds a request may take from its routing on: 1 to 3,600,000.
    pub timeout: u64,
    /// A request's body of so many bytes at most, from 0 to 1,048,576, is read whole before the request is sent.
    pub buffer: u32,
}

/// What the gateway serves.
#[derive(Debug, Drop)]
pub struct Table {
    /// The address to listen on.
    pub listen: Addr,
    /// How many workers there are.
    pub workers: u32,
    /// The limits of the pool: a pass for each worker, and each host of the table.
    pub limits: Limits,
    /// How many milliseconds one wait for a client may last: 1 to 86,400,000.
    pub client_ms: u64,
    /// How many milliseconds requests may go on behind the shut gate: 0 to 86,400,000.
    pub grace_ms: u64,
    /// The addresses of the backends, by their host's number, from 0: as they first appear in the file.
    pub hosts: Vec<Addr>,
    /// The routes, by their number, from 0.
    pub routes: Vec<Route>,
    /// The router, which has the routes' patterns.
    pub mux: Mux,
}
