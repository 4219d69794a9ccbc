//! The names that are known.
ghost use Rattle.std.specs.Prelude.{◌≡◌};
ghost use Rattle.serde_json.specs.View.{view, members_view};
ghost use Rattle.gw_routes.specs.Kinds.{Gives};
ghost use Rattle.gw_routes.specs.Names.{is_backend_name, is_known, is_pool_name, is_stop_name, is_top_name, is_wait_name, members_said, names_said, route_kind};

use crate::fault::{GCode, RouteError};
use serde_json::{Map, Value};

/// What an object of a route file is, which says what names it may have.
#[derive(Clone, Copy)]
pub(crate) enum ObjectKind {
    /// The whole file.
    File,
    /// A route whose requests go to a backend.
    BackendRoute,
    /// A route whose requests shut the gate.
    StopRoute,
}

fn is_pool_name(name: &str) -> bool
    ensures { result ≡ is_pool_name name.now }
{
    name == "idle_total" || name == "idle_per_host" || name == "conns_per_host" || name == "idle_ms"
}

fn is_wait_name(name: &str) -> bool
    ensures { result ≡ is_wait_name name.now }
{
    name == "client_ms" || name == "grace_ms"
}

fn is_top_name(name: &str) -> bool
    ensures { result ≡ is_top_name name.now }
{
    name == "listen"
        || name == "workers"
        || is_pool_name(name)
        || is_wait_name(name)
        || name == "journal"
        || name == "routes"
}

fn is_stop_name(name: &str) -> bool
    ensures { result ≡ is_stop_name name.now }
{
    name == "pattern" || name == "stop"
}

fn is_backend_name(name: &str) -> bool
    ensures { result ≡ is_backend_name name.now }
{
    is_stop_name(name) || name == "backend" || name == "timeout" || name == "buffer"
}

#[tactic(auto, unfolding(crate::specs::Names::is_known))]
fn is_known(kind: ObjectKind, name: &str) -> bool
    ensures { result ≡ is_known kind name.now }
{
    match kind {
        ObjectKind::File => is_top_name(name),
        ObjectKind::BackendRoute => is_backend_name(name),
        ObjectKind::StopRoute => is_stop_name(name),
    }
}

#[tactic(auto, unfolding(crate::specs::Names::members_said))]
fn check_members(
    members: &Map<String, Value>,
    kind: ObjectKind,
    route: Option<u32>,
) -> Result<(), RouteError>
    ensures { Gives (λ u. u) result (members_said kind route (members_view members.now.entries)) }
{
    for (name, _) in members.iter() {
        if !is_known(kind, name.as_str()) {
            return Err(RouteError::bad(GCode::UnknownName, route));
        }
    }
    Ok(())
}

/// The value is an object of this kind: each of its names is known. A fault is that of the route of this number, or of
/// the file.
#[tactic(auto, unfolding(crate::specs::Names::names_said))]
pub(crate) fn check_names(
    value: &Value,
    kind: ObjectKind,
    route: Option<u32>,
) -> Result<(), RouteError>
    ensures { Gives (λ u. u) result (names_said kind route (view value.now)) }
{
    match value.as_object() {
        Some(members) => check_members(members, kind, route),
        None => Err(RouteError::bad(GCode::WrongKind, route)),
    }
}

/// What a route is: one that shuts the gate only where its `stop` is true.
pub(crate) fn route_kind(value: &Value) -> ObjectKind
    ensures { result ≡ route_kind (view value.now) }
{
    let Some(stop) = value.get("stop") else {
        return ObjectKind::BackendRoute;
    };
    match stop.as_bool() {
        Some(true) => ObjectKind::StopRoute,
        _ => ObjectKind::BackendRoute,
    }
}
