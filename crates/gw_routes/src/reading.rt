//! From a file to its table.
ghost use Rattle.std.specs.Prelude.{◌≡◌, ◌≤◌, IfOk, MatchResult, length};
ghost use Rattle.gw_mux.specs.Table.{ArePatterns};
ghost use Rattle.gw_routes.specs.Files.{AreNumbered, HasWorkers, IsTableOf, Reads, Refuses, RefusesTop, limits_with, pool_text, top_text};

use crate::fault::RouteError;
use crate::placing::Placed;
use crate::pool_limits::PoolLimits;
use crate::table::Table;
use crate::top::{Top, read_file};
use gw_mux::{Mux, MuxError};
use gw_pool::Limits;
use std::alloc::Global;

/// The table that a route file says: a JSON object (RFC 8259) with the members `listen` (an address), `workers` (1 to
/// 64; 4 where it is missing), `idle_total` (1 to 1,000 idle connections; 100 where it is missing), `idle_per_host` (0 to
/// 1,000 idle connections of one backend; 2 where it is missing), `conns_per_host` (0 to 1,000 connections of one
/// backend in use, idle and being dialed; 0, which is no limit, where it is missing), `idle_ms` (0 to 86,400,000
/// milliseconds that a connection may be idle, of which 0 is no limit; 90,000 where it is missing), `client_ms` (1 to
/// 86,400,000 milliseconds that one wait for a client may last; 60,000 where it is missing), `grace_ms` (0 to 86,400,000
/// milliseconds that requests may go on behind the shut gate; 10,000 where it is missing), `journal` (16 to 4,194,304
/// entries; 1,048,576 where it is missing) and `routes` (a list of 1 to 1,024 objects). A route has the members `pattern`
/// (a text), `stop` (true or false; false where it is missing), `backend` (a text), `timeout` (1 to 3,600,000
/// milliseconds that a request may take; 30,000 where it is missing) and `buffer` (0 to 1,048,576 bytes of a request's
/// body that are read whole; 65,536 where it is missing). Where `stop` is true only `pattern` and `stop` are known, and
/// `timeout` and `buffer` are as where they are missing. Of two members of one name the later counts alone. Else the
/// error is the first fault: that of the JSON text, then those at the top, then those of the routes in their order; in an
/// object first a name that is not known, and then name by name, as they stand here. Where there is none, it is the first
/// conflict of two patterns. Want of memory may stand in the place of any answer.
pub fn read_routes(alloc: Global, bytes: &[u8]) -> Result<Table, RouteError>
    ensures table { MatchResult result (Reads bytes.now) (Refuses bytes.now) }
    ensures numbers { IfOk result AreNumbered }
    ensures workers { IfOk result HasWorkers }
{
    match read_file(alloc, bytes) {
        Ok(top) => table_of(alloc, top),
        Err(error) => Err(error),
    }
}

fn table_of(alloc: Global, top: Top) -> Result<Table, RouteError>
    requires patterns { ArePatterns top.routes.patterns.items }
    requires hosts { length top.routes.hosts ≤ 1024 }
    ensures { MatchResult result (IsTableOf (top_text top)) (RefusesTop top) }
{
    let Top {
        listen,
        workers,
        pool,
        client_ms,
        grace_ms,
        journal,
        routes,
    } = top;
    let Placed {
        hosts,
        routes,
        patterns,
    } = routes;
    let limits = limits_of(workers, pool, journal, hosts.len() as u32);
    match Mux::build(alloc, patterns) {
        Ok(mux) => Ok(Table {
            listen,
            workers,
            limits,
            client_ms: client_ms as u64,
            grace_ms: grace_ms as u64,
            hosts: hosts.into_addresses(),
            routes,
            mux,
        }),
        Err(MuxError::Conflict { first, second }) => Err(RouteError::Conflict { first, second }),
        Err(MuxError::NoMemory) => Err(RouteError::NoMemory),
    }
}

// The limits of the pool: the file's own numbers, a pass for each worker, and the hosts that its routes name.
fn limits_of(workers: u32, pool: PoolLimits, journal: u32, hosts: u32) -> Limits
    ensures { result ≡ limits_with workers (pool_text pool) journal hosts }
{
    Limits {
        idle_total: pool.idle_total,
        idle_per_host: pool.idle_per_host,
        conns_per_host: pool.conns_per_host,
        idle_ms: pool.idle_ms as u64,
        journal,
        passes: workers,
        per_pass: 1,
        hosts,
    }
}
