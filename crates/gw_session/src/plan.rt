//! What is done with a request whose head is whole.

ghost use Rattle.std.specs.Prelude.{◌<◌, IfOk, length};
ghost use Rattle.gw_routes.specs.Files.{AreNumbered};
ghost use Rattle.gw_session.specs.Routing.{IsDecided, Plans, PlansRoute};

use gw_head::{RequestHead, strip_port};
use gw_mux::Decision;
use gw_proxy::Own;
use gw_routes::{Action, Table};
use gw_wire::Bytes;
use std::alloc::{AllocError, Global};

/// What is done with a request.
pub enum Plan {
    /// It is passed on by the route of this number.
    Pass(u32),
    /// It shuts the gate, by the route of this number.
    Stop(u32),
    /// The gateway answers by itself.
    Own(Own),
}

/// What is done with a request. The error is want of memory.
pub fn make_plan(alloc: Global, table: &Table, head: &RequestHead) -> Result<Plan, AllocError>
    requires numbered { AreNumbered table.now }
    ensures { IfOk result (Plans table.now head.now) }
{
    if head.star {
        return Ok(Plan::Own(Own::Options));
    }
    match decide(alloc, table, head)? {
        Decision::Route(hit) => Ok(plan_of(table, hit.route)),
        Decision::Redirect(location) => Ok(Plan::Own(Own::Moved(Bytes::new(location)))),
        Decision::NotAllowed(methods) => Ok(Plan::Own(Own::NotAllowed(methods))),
        Decision::NotFound => Ok(Plan::Own(Own::Plain(404))),
    }
}

// What is done by the route of this number.
fn plan_of(table: &Table, number: u32) -> Plan
    requires within { number < length table.now.routes.items }
    ensures { PlansRoute table.now number result }
{
    match &table.routes[number as usize].action {
        Action::Backend { .. } => Plan::Pass(number),
        Action::Stop => Plan::Stop(number),
    }
}

// What the router decides for a request.
fn decide(alloc: Global, table: &Table, head: &RequestHead) -> Result<Decision, AllocError>
    ensures { IfOk result (IsDecided table.now head.now) }
{
    let query = match &head.query {
        Some(query) => Some(query.as_slice()),
        None => None,
    };
    table.mux.decide(
        alloc,
        head.method.as_str().as_bytes(),
        strip_port(head.host.as_slice()),
        head.path.as_slice(),
        query,
    )
}
