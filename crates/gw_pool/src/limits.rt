//! The limits of a pool.

/// What a pool may hold. A number of connections of 0 in `conns_per_host` and a time of 0 in `idle_ms` mean no limit.
#[derive(Clone, Copy, Debug)]
pub struct Limits {
    /// How many connections may be idle, over all hosts.
    pub idle_total: u32,
    /// How many connections to one host may be idle.
    pub idle_per_host: u32,
    /// How many connections to one host may be open, being dialed or promised.
    pub conns_per_host: u32,
    /// How long a connection may be idle, in milliseconds.
    pub idle_ms: u64,
    /// How many entries the journal holds.
    pub journal: u32,
    /// How many callers there are.
    pub passes: u32,
    /// How many wants one caller may have at once.
    pub per_pass: u32,
    /// How many hosts there are.
    pub hosts: u32,
}
