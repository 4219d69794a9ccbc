//! What the workers of a run share, and the place at which each of them works.

ghost use Rattle.std.specs.Prelude.{◌≡◌, ◌<◌, ◌≤◌, IfOk, length};
ghost use Rattle.gw_ctxwords.specs.Rule.{first_view as first_ctx_view, most_seats as most_ctx_seats};
ghost use Rattle.gw_gate.specs.Gate.{first_view as first_gate_view, most_seats as most_gate_seats};
ghost use Rattle.gw_routes.specs.Files.{HasWorkers};
ghost use Rattle.gw_turn.specs.Pass.{fresh_passes};
ghost use Rattle.gw_top.specs.House.{ArePlaces, ctx_rooms, gate_rooms};

use gw_ctxwords::{CtxSeat, CtxTable, NodeSpec};
use gw_gate::{Gate, GateSeat};
use gw_pool::Limits;
use gw_routes::Table;
use gw_transport::Buffers;
use gw_turn::{Pass, Pool};
use gw_wire::Link;
use std::alloc::{AllocError, Global};

/// The pool, the gate and the contexts of a run.
#[derive(Drop)]
pub(crate) struct House<C: Link> {
    pub(crate) pool: Pool<C>,
    pub(crate) gate: Gate,
    pub(crate) ctx: CtxTable,
}

/// The place of a worker: its pass of the pool, its seats at the gate and at the contexts, and its buffers.
#[derive(Drop)]
pub(crate) struct Place {
    pub(crate) pass: Pass,
    pub(crate) gate_seat: GateSeat,
    pub(crate) ctx_seat: CtxSeat,
    pub(crate) buffers: Buffers,
}

/// A house for the workers of a table, and the place of each of them.
pub(crate) fn build<C: Link>(
    alloc: Global,
    table: &Table,
) -> Result<(House<C>, Vec<Place>), AllocError>
    requires workers { HasWorkers table.now }
    requires units { 0 < table.now.limits.per_pass }
    ensures places { IfOk result (λ made. ArePlaces made.0 table.now.limits 0 made.1.items) }
    ensures count { IfOk result (λ made. length made.1.items ≡ table.now.workers) }
    ensures gates { IfOk result (λ made. gate_rooms made.1.items ≡ most_gate_seats) }
    ensures words { IfOk result (λ made. ctx_rooms made.1.items ≡ most_ctx_seats) }
{
    let (pool, passes) = Pool::open(alloc, table.limits)?;
    let (gate, gate_seat) = Gate::new(alloc)?;
    // A node for each seat, tied to the base.
    let nodes = vec![in alloc; NodeSpec {
        parent: 0,
        tied: true
    }; 65]?;
    let (ctx, ctx_seat) = CtxTable::new(alloc, nodes.as_slice())?;
    let house = House { pool, gate, ctx };
    let places = place_all(alloc, &house, table.limits, passes, gate_seat, ctx_seat)?;
    Ok((house, places))
}

/// The place of each worker: the passes in their order, each with a seat of its own at the gate and at the contexts. The
/// last one gets the seats themselves.
fn place_all<C: Link>(
    alloc: Global,
    house: &House<C>,
    limits: Limits,
    mut passes: Vec<Pass>,
    mut gate_seat: GateSeat,
    mut ctx_seat: CtxSeat,
) -> Result<Vec<Place>, AllocError>
    requires count { (0 < limits.passes) × (limits.passes ≤ 64) }
    requires passes { passes.items ≡ fresh_passes house.now.pool limits 0 limits.passes }
    requires gate { (gate_seat.name.gate ≡ house.now.gate) × (gate_seat.view ≡ first_gate_view) }
    requires words { (ctx_seat.table ≡ house.now.ctx.id) × (ctx_seat.view ≡ first_ctx_view) }
    requires nodes { limits.passes < length house.now.ctx.nodes }
    ensures places { IfOk result (λ places. ArePlaces house.now limits 0 places.items) }
    ensures count { IfOk result (λ places. length places.items ≡ limits.passes) }
    ensures gates { IfOk result (λ places. gate_rooms places.items ≡ most_gate_seats) }
    ensures words { IfOk result (λ places. ctx_rooms places.items ≡ most_ctx_seats) }
{
    let mut places = Vec::with_capacity(alloc, limits.passes as usize)?;
    let others = limits.passes - 1;
    for number in 0..others {
        places.push_reserved(Place {
            pass: passes.remove(0),
            gate_seat: house.gate.split(alloc, &mut gate_seat)?,
            ctx_seat: house.ctx.split(alloc, &mut ctx_seat)?,
            buffers: Buffers::new(alloc)?,
        });
    }
    places.push_reserved(Place {
        pass: passes.remove(0),
        gate_seat,
        ctx_seat,
        buffers: Buffers::new(alloc)?,
    });
    Ok(places)
}
