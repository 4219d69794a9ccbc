//! What stands at the top of a file.
ghost use Rattle.std.specs.Prelude.{◌≡◌, ◌≤◌, IfOk, length};
ghost use Rattle.serde_json.specs.View.{view};
ghost use Rattle.gw_mux.specs.Table.{ArePatterns};
ghost use Rattle.gw_routes.specs.Files.{file_said, listen_said, top_said, top_text};
ghost use Rattle.gw_routes.specs.Kinds.{Gives};

use crate::address::address_in;
use crate::fault::{GCode, RouteError};
use crate::kinds::{Bounds, number_at, read_value, text_at};
use crate::names::{ObjectKind, check_names};
use crate::placing::{Placed, read_all};
use crate::pool_limits::{PoolLimits, read_pool};
use gw_wire::Addr;
use serde_json::Value;
use std::alloc::Global;

/// What stands at the top of a file.
#[derive(Drop)]
pub(crate) struct Top {
    pub(crate) listen: Addr,
    pub(crate) workers: u32,
    pub(crate) pool: PoolLimits,
    pub(crate) client_ms: u32,
    pub(crate) grace_ms: u32,
    pub(crate) journal: u32,
    pub(crate) routes: Placed,
}

#[tactic(auto, unfolding(crate::specs::Files::listen_said))]
fn read_listen(file: &Value) -> Result<Addr, RouteError>
    ensures { Gives (λ addr. addr) result (listen_said (view file.now)) }
{
    let text = text_at(file, "listen", None)?;
    match address_in(text.as_bytes()) {
        Some(addr) => Ok(addr),
        None => Err(RouteError::bad(GCode::BadAddress, None)),
    }
}

// No more than the gate and the contexts have seats.
const WORKERS: Bounds = Bounds {
    least: 1,
    most: 64,
    default: 4,
};

// A day at most.
const CLIENT_MS: Bounds = Bounds {
    least: 1,
    most: 86_400_000,
    default: 60_000,
};

const GRACE_MS: Bounds = Bounds {
    least: 0,
    most: 86_400_000,
    default: 10_000,
};

const JOURNAL: Bounds = Bounds {
    least: 16,
    most: 4_194_304,
    default: 1_048_576,
};

#[tactic(auto, unfolding(crate::specs::Files::top_said))]
fn read_top(alloc: Global, file: &Value) -> Result<Top, RouteError>
    ensures top { Gives top_text result (top_said (view file.now)) }
    ensures patterns { IfOk result (λ t. ArePatterns t.routes.patterns.items) }
    ensures hosts { IfOk result (λ t. length t.routes.hosts ≤ 1024) }
{
    check_names(file, ObjectKind::File, None)?;
    let listen = read_listen(file)?;
    let workers = number_at(file, "workers", WORKERS, None)?;
    let pool = read_pool(file)?;
    let client_ms = number_at(file, "client_ms", CLIENT_MS, None)?;
    let grace_ms = number_at(file, "grace_ms", GRACE_MS, None)?;
    let journal = number_at(file, "journal", JOURNAL, None)?;
    let routes = read_all(alloc, file)?;
    Ok(Top {
        listen,
        workers,
        pool,
        client_ms,
        grace_ms,
        journal,
        routes,
    })
}

/// What a file says, before its patterns are compared.
#[tactic(auto, unfolding(crate::specs::Files::file_said))]
pub(crate) fn read_file(alloc: Global, bytes: &[u8]) -> Result<Top, RouteError>
    ensures top { Gives top_text result (file_said bytes.now) }
    ensures patterns { IfOk result (λ t. ArePatterns t.routes.patterns.items) }
    ensures hosts { IfOk result (λ t. length t.routes.hosts ≤ 1024) }
{
    let value = read_value(alloc, bytes)?;
    read_top(alloc, &value)
}
