//! The close of a house behind its workers.

ghost use Rattle.std.specs.Prelude.{◌≡◌, ◌≤◌, ◌<◌, ◌∷◌, [], All, IfOk, length, vec_capacity};
ghost use Rattle.gw_top.specs.Closing.{IsBack, IsLeft, ctxs_of, gates_of, passes_of};
ghost use Rattle.gw_top.specs.Crew.{IsEnded, workers_of};

use crate::crew::Job;
use crate::house::{House, Place};
use crate::worker::Worker;
use gw_ctxwords::CtxSeat;
use gw_gate::GateSeat;
use gw_pool::{Closed, Entry};
use gw_routes::Table;
use gw_turn::Pass;
use gw_wire::Wire;
use std::alloc::AllocError;

/// What is left of a house: the pool's journal, the connections that are idle at its end, the least recently idle first,
/// and the workers.
#[derive(Drop)]
pub(crate) struct Left<W, C> {
    pub(crate) journal: Vec<Entry>,
    pub(crate) idle: Vec<C>,
    pub(crate) workers: Vec<Worker<W>>,
}

// What the workers had, taken back, and the workers.
struct Joined<W> {
    pass: Pass,
    gate_seat: GateSeat,
    ctx_seat: CtxSeat,
    workers: Vec<Worker<W>>,
}

/// Takes the passes and the seats of all workers back, and closes the contexts, the gate and the pool. An error is want of
/// memory.
pub(crate) fn close_house<W: Wire>(
    house: House<W::Conn>,
    table: &Table,
    jobs: Vec<Job<W>>,
    workers: Vec<Worker<W>>,
) -> Result<Left<W, W::Conn>, AllocError>
    requires ended { IsEnded W.wire house table.now jobs.items }
    requires nobody { workers.items ≡ [] }
    requires room { length jobs.items ≤ vec_capacity workers }
    ensures { IfOk result (λ left. IsLeft W.wire W.Conn.link table.now jobs.items left) }
{
    let mut jobs = jobs;
    let first = jobs.remove(0);
    let Joined {
        pass,
        gate_seat,
        ctx_seat,
        workers,
    } = join_all(&house, first, jobs, workers);
    let House { pool, gate, ctx } = house;
    let _cause = ctx.close(ctx_seat);
    let _shut = gate.close(gate_seat);
    match pool.close(pass) {
        Ok(Closed { journal, idle }) => Ok(Left {
            journal,
            idle,
            workers,
        }),
        Err(_) => Err(AllocError),
    }
}

/// Joins the pass and the seats of each other worker into those of the first.
fn join_all<W: Wire>(
    house: &House<W::Conn>,
    first: Job<W>,
    rest: Vec<Job<W>>,
    workers: Vec<Worker<W>>,
) -> Joined<W>
    requires first { IsBack house.now first }
    requires rest { All (IsBack house.now) rest.items }
    requires nobody { workers.items ≡ [] }
    requires room { length rest.items < vec_capacity workers }
    ensures pass { result.pass ≡ passes_of first.place.pass rest.items }
    ensures gate { result.gate_seat ≡ gates_of first.place.gate_seat rest.items }
    ensures ctx { result.ctx_seat ≡ ctxs_of first.place.ctx_seat rest.items }
    ensures workers { result.workers.items ≡ first.worker ∷ workers_of rest.items }
{
    let Job { worker, place } = first;
    let Place {
        mut pass,
        mut gate_seat,
        mut ctx_seat,
        buffers: _,
    } = place;
    let mut rest = rest;
    let mut workers = workers;
    workers.push_reserved(worker);
    for _joined in 0..rest.len() {
        let Job { worker, place } = rest.remove(0);
        let Place {
            pass: other_pass,
            gate_seat: other_gate_seat,
            ctx_seat: other_ctx_seat,
            buffers: _,
        } = place;
        house.pool.join_pass(&mut pass, other_pass);
        house.gate.join(&mut gate_seat, other_gate_seat);
        house.ctx.join(&mut ctx_seat, other_ctx_seat);
        workers.push_reserved(worker);
    }
    Joined {
        pass,
        gate_seat,
        ctx_seat,
        workers,
    }
}
