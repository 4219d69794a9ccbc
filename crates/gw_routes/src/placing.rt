//! Routes in their order, and their hosts, numbered as they first appear.
ghost use Rattle.std.specs.Prelude.{◌≡◌, ◌≤◌, ◌<◌, ◌+◌, ◌^◌, [], ◌∷◌, ◌++◌, IfOk, length, position};
ghost use Rattle.serde_json.specs.View.{items_view, view};
ghost use Rattle.gw_mux.specs.Table.{ArePatterns};
ghost use Rattle.gw_routes.specs.Kinds.{Gives};
ghost use Rattle.gw_routes.specs.Routes.{action_of, hosts_of, items_said, no_routes, route_list, route_text, routes_from, routes_said, with_route};

use crate::fault::{GCode, RouteError};
use crate::hosts::Hosts;
use crate::kinds::list_at;
use crate::route::{Target, Written, read_route};
use crate::table::{Action, Route};
use gw_pattern::Pattern;
use serde_json::Value;
use std::alloc::{AllocError, Global};

/// The routes up to a place, with their patterns, and the hosts that they lead to.
#[derive(Drop)]
pub(crate) struct Placed {
    pub(crate) hosts: Hosts,
    pub(crate) routes: Vec<Route>,
    pub(crate) patterns: Vec<Pattern>,
}

// The hosts with the target's, and what its route does.
fn act(hosts: Hosts, target: Target) -> Result<(Hosts, Action), AllocError>
    requires { length hosts < 2 ^ 32 }
    ensures hosts { IfOk result (λ r. r.0 ≡ hosts_of hosts target) }
    ensures action { IfOk result (λ r. r.1 ≡ action_of hosts target) }
{
    match target {
        Target::Address { addr, base } => {
            let (hosts, host) = hosts.with_address(addr)?;
            Ok((hosts, Action::Backend { host, base }))
        }
        Target::Gate => Ok((hosts, Action::Stop)),
    }
}

// The routes before, and one more.
#[tactic(auto, unfolding(crate::specs::Routes::with_route))]
fn place(before: Placed, written: Written) -> Result<Placed, AllocError>
    requires { length before.hosts < 2 ^ 32 }
    ensures routes { IfOk result (λ p. route_list p ≡ with_route (route_list before) (route_text written)) }
    ensures hosts { IfOk result (λ p. length p.hosts ≤ length before.hosts + 1) }
    ensures patterns { IfOk result (λ p. p.patterns.items ≡ before.patterns.items ++ written.pattern ∷ []) }
{
    let Placed {
        hosts,
        mut routes,
        mut patterns,
    } = before;
    let Written {
        text,
        pattern,
        target,
        timeout,
        buffer,
    } = written;
    let (hosts, action) = act(hosts, target)?;
    routes.push(Route {
        text,
        action,
        timeout: timeout as u64,
        buffer,
    })?;
    patterns.push(pattern)?;
    Ok(Placed {
        hosts,
        routes,
        patterns,
    })
}

fn place_all(alloc: Global, values: &[Value]) -> Result<Placed, RouteError>
    requires { length values.now ≤ 1024 }
    ensures routes { Gives route_list result (routes_from 0 no_routes (items_view values.now)) }
    ensures patterns { IfOk result (λ p. ArePatterns p.patterns.items) }
    ensures hosts { IfOk result (λ p. length p.hosts ≤ 1024) }
{
    let mut placed = Placed {
        hosts: Hosts::new(alloc),
        routes: Vec::new(alloc),
        patterns: Vec::new(alloc),
    };
    for (i, value) in values.iter().enumerate() {
        let written = read_route(alloc, value, i as u32)?;
        placed = place(placed, written)?;
    }
    Ok(placed)
}

// How many routes a file has at most.
const MAX_ROUTES: usize = 1024;

#[tactic(auto, unfolding(crate::specs::Routes::items_said))]
fn place_some(alloc: Global, values: &[Value]) -> Result<Placed, RouteError>
    ensures routes { Gives route_list result (items_said (items_view values.now)) }
    ensures patterns { IfOk result (λ p. ArePatterns p.patterns.items) }
    ensures hosts { IfOk result (λ p. length p.hosts ≤ 1024) }
{
    if values.is_empty() {
        return Err(RouteError::bad(GCode::OutOfRange, None));
    }
    if values.len() > MAX_ROUTES {
        return Err(RouteError::bad(GCode::OutOfRange, None));
    }
    place_all(alloc, values)
}

/// The routes of a file.
#[tactic(auto, unfolding(crate::specs::Routes::routes_said))]
pub(crate) fn read_all(alloc: Global, file: &Value) -> Result<Placed, RouteError>
    ensures routes { Gives route_list result (routes_said (view file.now)) }
    ensures patterns { IfOk result (λ p. ArePatterns p.patterns.items) }
    ensures hosts { IfOk result (λ p. length p.hosts ≤ 1024) }
{
    let values = list_at(file, "routes", None)?;
    place_some(alloc, values)
}
