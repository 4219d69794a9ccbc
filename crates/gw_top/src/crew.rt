//! The workers of a run, each in a thread of its own.

ghost use Rattle.std.specs.Prelude.{ℕ, ◌≡◌, ◌<◌, All, length};
ghost use Rattle.std.specs.List.{slice_index_or};
ghost use Rattle.gw_routes.specs.Files.{AreNumbered};
ghost use Rattle.gw_top.specs.Crew.{IsAt, IsDone, IsJob, IsWorked};

use crate::house::{House, Place};
use crate::worker::{Worker, work};
use gw_routes::Table;
use gw_session::Shared;
use gw_turn::Desk;
use gw_wire::Wire;
use std::alloc::Global;
use std::sync::Wait;
use std::thread;
use std::thread::Threads;

/// A worker at its place.
#[derive(Drop)]
pub(crate) struct Job<W> {
    pub(crate) worker: Worker<W>,
    pub(crate) place: Place,
}

/// One worker serves clients until its end.
fn run_job<R: Wait, W: Wire>(
    rt: &R,
    alloc: Global,
    house: &House<W::Conn>,
    table: &Table,
    job: &mut Job<W>,
)
    requires job { IsJob W.wire house.now table.now job.old }
    requires numbered { AreNumbered table.now }
    ensures { IsDone W.wire table.now job.old job.new }
{
    let Job { worker, place } = job;
    serve_at(rt, alloc, house, table, worker, place);
}

/// A worker serves clients at its place.
fn serve_at<'a, R: Wait, W: Wire>(
    rt: &'a R,
    alloc: Global,
    house: &'a House<W::Conn>,
    table: &'a Table,
    worker: &'a mut Worker<W>,
    place: &'a mut Place,
)
    requires job { IsAt W.wire house.now table.now worker.old place.old }
    requires numbered { AreNumbered table.now }
    ensures { IsWorked W.wire table.now worker.old worker.new place.old place.new }
{
    let Place {
        pass,
        gate_seat,
        ctx_seat,
        buffers,
    } = place;
    let mut desk = Desk {
        rt,
        pool: &house.pool,
        pass,
    };
    let mut shared = Shared {
        gate: &house.gate,
        gate_seat,
        ctx: &house.ctx,
        ctx_seat,
        ctx_node: worker.number + 1,
        shut_at: None,
        buffers,
    };
    work(rt, alloc, worker, &mut desk, &mut shared, table);
}

/// All workers of a house serve clients side by side until each of them ended. Where a thread can't be made, a worker
/// begins when another one has ended.
pub(crate) fn run_all<R: Threads + Wait + Sync, W: Wire + Send>(
    rt: &R,
    alloc: Global,
    house: &House<W::Conn>,
    table: &Table,
    jobs: &mut [Job<W>],
)
    requires jobs { All (IsJob W.wire house.now table.now) jobs.old }
    requires numbered { AreNumbered table.now }
    ensures each { (i : ℕ) (d : Job W) → i < length jobs.old → IsDone W.wire table.now (slice_index_or jobs.old i d) (slice_index_or jobs.new i d) }
    ensures count { length jobs.new ≡ length jobs.old }
{
    thread::for_each_mut(
        rt,
        jobs,
        64,
        &|_, job: &mut Job<W>|
            requires { IsJob W.wire house.now table.now job.now × AreNumbered table.now }
            ensures { IsDone W.wire table.entry.now job.entry.now job.exit.now }
        { run_job(rt, alloc, house, table, job) },
    );
}
