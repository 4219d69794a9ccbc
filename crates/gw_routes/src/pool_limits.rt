//! What a file says of the pool.
ghost use Rattle.std.specs.Prelude.{◌≡◌};
ghost use Rattle.serde_json.specs.View.{view};
ghost use Rattle.gw_routes.specs.Files.{pool_said, pool_text};
ghost use Rattle.gw_routes.specs.Kinds.{Gives};

use crate::fault::RouteError;
use crate::kinds::{Bounds, number_at};
use serde_json::Value;

const MIN_IDLE_TOTAL: u32 = 1;

const MAX_IDLE_TOTAL: u32 = 1_000;

const DEFAULT_IDLE_TOTAL: u32 = 100;

const MAX_IDLE_PER_HOST: u32 = 1_000;

const DEFAULT_IDLE_PER_HOST: u32 = 2;

// No limit by default.
const MAX_CONNS_PER_HOST: u32 = 1_000;

const DEFAULT_CONNS_PER_HOST: u32 = 0;

// A day.
const MAX_IDLE_MS: u32 = 86_400_000;

const DEFAULT_IDLE_MS: u32 = 90_000;

/// The limits of the pool that a file names. A number of connections to one host of 0 and a time of 0 are no limit.
#[derive(Clone, Copy)]
pub(crate) struct PoolLimits {
    /// How many connections may be idle.
    pub(crate) idle_total: u32,
    /// How many connections to one host may be idle.
    pub(crate) idle_per_host: u32,
    /// How many connections to one host may be in use, idle or being dialed.
    pub(crate) conns_per_host: u32,
    /// How many milliseconds a connection may be idle.
    pub(crate) idle_ms: u32,
}

/// The limits that a file names, each in its range, and the defaults of those that it doesn't name.
#[tactic(auto, unfolding(crate::specs::Files::pool_said))]
pub(crate) fn read_pool(file: &Value) -> Result<PoolLimits, RouteError>
    ensures { Gives pool_text result (pool_said (view file.now)) }
{
    let idle_total = Bounds {
        least: MIN_IDLE_TOTAL,
        most: MAX_IDLE_TOTAL,
        default: DEFAULT_IDLE_TOTAL,
    };
    let idle_total = number_at(file, "idle_total", idle_total, None)?;
    let idle_per_host = Bounds {
        least: 0,
        most: MAX_IDLE_PER_HOST,
        default: DEFAULT_IDLE_PER_HOST,
    };
    let idle_per_host = number_at(file, "idle_per_host", idle_per_host, None)?;
    let conns_per_host = Bounds {
        least: 0,
        most: MAX_CONNS_PER_HOST,
        default: DEFAULT_CONNS_PER_HOST,
    };
    let conns_per_host = number_at(file, "conns_per_host", conns_per_host, None)?;
    let idle_ms = Bounds {
        least: 0,
        most: MAX_IDLE_MS,
        default: DEFAULT_IDLE_MS,
    };
    let idle_ms = number_at(file, "idle_ms", idle_ms, None)?;
    Ok(PoolLimits {
        idle_total,
        idle_per_host,
        conns_per_host,
        idle_ms,
    })
}
