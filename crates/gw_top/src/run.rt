// The top call of `gateway serve ROUTES`.

ghost use Rattle.std.specs.Prelude.{◌≡◌, ◌≤◌, ◌<◌, [], Some, None, map, IfOk, length, vec_capacity};
ghost use Rattle.gw_ctxwords.specs.Rule.{most_seats as most_ctx_seats};
ghost use Rattle.gw_gate.specs.Gate.{most_seats as most_gate_seats};
ghost use Rattle.gw_wire.specs.declared.values.Act.TheVariants.{Closed as ClosedAct};
ghost use Rattle.gw_wire.specs.Stretch.{Told, Acts};
ghost use Rattle.gw_wire.specs.Wire.{Later};
ghost use Rattle.gw_routes.specs.Files.{AreNumbered, HasWorkers};
ghost use Rattle.gw_top.specs.Crew.{AreJobs, places_of, workers_of};
ghost use Rattle.gw_top.specs.House.{ctx_rooms, gate_rooms};
ghost use Rattle.gw_top.specs.Lines.{unheard_line};
ghost use Rattle.gw_top.specs.Serving.{ClosesIdle, IsServed};
ghost use Rattle.gw_top.specs.Status.{Ran, Ends, Refuses, RefusesOr7, Finished, IsReady, any_failed};

use crate::closing::{Left, close_house};
use crate::command::{USAGE, serve_name};
use crate::crew::{Job, run_all};
use crate::house::{House, Place, build};
use crate::load::load_table;
use crate::setup::make_jobs;
use crate::worker::Worker;
use gw_pool::Entry;
use gw_routes::Table;
use gw_wire::{Addr, Listening, Wire, World};
use std::alloc::{AllocError, Global};
use std::sync::Wait;
use std::thread::Threads;

/// What a run leaves: its status, and where it came so far the table that it served, the pool's journal and the
/// workers.
#[derive(Drop)]
pub struct Report<W> {
    /// 0: every worker ended with the listener, or behind the shut gate. 2: the words are no command's form. 3: the route file can't be read.
    /// 4: the route file has a fault. 5: two of its patterns conflict. 6: the address can't be listened on. 7: want of memory. 8: an accept failed.
    pub status: u8,
    /// The table that was served.
    pub table: Option<Table>,
    /// The pool's calls, in their order.
    pub journal: Vec<Entry>,
    /// The workers, by their number.
    pub workers: Vec<Worker<W>>,
}

/// What workers that served leave: the pool's journal, and themselves.
pub(crate) struct Served<W> {
    pub(crate) journal: Vec<Entry>,
    pub(crate) workers: Vec<Worker<W>>,
}

// All that a run needs, made before it listens: a place for each worker, and room for the workers.
struct Setup<W: Wire> {
    table: Table,
    house: House<W::Conn>,
    places: Vec<Place>,
    jobs: Vec<Job<W>>,
    workers: Vec<Worker<W>>,
}

/// Serves the route file that the words `serve ROUTES` name, over this world, until the listener ends or an accept
/// fails. It prints the line of the status that it answers.
pub fn run_gateway<R: Threads + Wait + Sync, H: World>(
    rt: &R,
    alloc: Global,
    words: &[String],
    world: &mut H,
) -> Report<H::Wire>
    ensures { Ran H.Wire.wire (H.world world.old) (H.world world.new) words.now result }
{
    let Some(name) = serve_name(words) else {
        return refuse(alloc, world, 2, USAGE);
    };
    let table = match load_table(alloc, world, name) {
        Ok(table) => table,
        Err(status) => return stopped(alloc, status),
    };
    match prepare(alloc, table) {
        Ok(setup) => listen_and_serve(rt, alloc, world, setup),
        Err(AllocError) => refuse(alloc, world, 7, b"out of memory\n"),
    }
}

/// Reserves what a run over a table needs.
fn prepare<W: Wire>(alloc: Global, table: Table) -> Result<Setup<W>, AllocError>
    requires numbered { AreNumbered table }
    requires workers { HasWorkers table }
    ensures ready { IfOk result (λ setup. IsReady setup) }
    ensures serves { IfOk result (λ setup. setup.table ≡ table) }
{
    let (house, places) = build(alloc, &table)?;
    let count = places.len();
    Ok(Setup {
        table,
        house,
        places,
        jobs: Vec::with_capacity(alloc, count)?,
        workers: Vec::with_capacity(alloc, count)?,
    })
}

/// Listens, and serves until all workers ended.
fn listen_and_serve<R: Threads + Wait + Sync, H: World>(
    rt: &R,
    alloc: Global,
    world: &mut H,
    setup: Setup<H::Wire>,
) -> Report<H::Wire>
    requires { IsReady setup }
    ensures { Ends H.Wire.wire (H.world world.old) (H.world world.new) setup.table result }
{
    let Setup {
        table,
        house,
        places,
        jobs,
        workers,
    } = setup;
    let wires = match world.listen(&table.listen, table.workers) {
        Listening::Wires(wires) => wires,
        Listening::Failed => return cannot_listen(alloc, world, &table.listen),
        Listening::NoMemory => return refuse(alloc, world, 7, b"out of memory\n"),
    };
    let jobs = make_jobs(places, wires, jobs);
    match serve_all(rt, alloc, house, &table, jobs, workers) {
        Ok(served) => finish(world, table, served),
        Err(AllocError) => refuse(alloc, world, 7, b"out of memory\n"),
    }
}

/// All workers serve clients until each of them ended. Then the house is closed, and worker 0 closes the connections that
/// are still idle.
fn serve_all<R: Threads + Wait + Sync, W: Wire + Send>(
    rt: &R,
    alloc: Global,
    house: House<W::Conn>,
    table: &Table,
    jobs: Vec<Job<W>>,
    workers: Vec<Worker<W>>,
) -> Result<Served<W>, AllocError>
    requires jobs { AreJobs W.wire house table.now 0 jobs.items }
    requires numbered { AreNumbered table.now }
    requires count { (length jobs.items ≡ table.now.limits.passes) × (0 < length jobs.items) }
    requires gates { gate_rooms (places_of jobs.items) ≡ most_gate_seats }
    requires words { ctx_rooms (places_of jobs.items) ≡ most_ctx_seats }
    requires nobody { workers.items ≡ [] }
    requires room { length jobs.items ≤ vec_capacity workers }
    ensures { IfOk result (λ served. IsServed W.wire table.now (workers_of jobs.items) served) }
{
    let mut jobs = jobs;
    run_all(rt, alloc, &house, table, jobs.as_mut_slice());
    let Left {
        journal,
        idle,
        workers,
    } = close_house(house, table, jobs, workers)?;
    Ok(Served {
        journal,
        workers: close_idle(workers, idle),
    })
}

/// Worker 0 closes the connections that are still idle.
fn close_idle<W: Wire>(workers: Vec<Worker<W>>, idle: Vec<W::Conn>) -> Vec<Worker<W>>
    requires { 0 < length workers.items }
    ensures { ClosesIdle W.wire W.Conn.link workers.items idle.items result.items }
{
    let mut workers = workers;
    close_all(&mut workers[0].wire, idle);
    workers
}

/// Closes the connections that are still idle, the least recently idle first.
fn close_all<W: Wire>(wire: &mut W, idle: Vec<W::Conn>)
    ensures later { Later (W.wire wire.old) (W.wire wire.new) }
    ensures log { Told (W.wire wire.old).log (W.wire wire.new).log (Acts (map (λ c. ClosedAct (W.Conn.link c).number) idle.items)) }
{
    for conn in idle {
        wire.close(conn);
    }
}

/// The report of a run that served; it says where an accept failed.
fn finish<H: World>(world: &mut H, table: Table, served: Served<H::Wire>) -> Report<H::Wire>
    ensures { Finished (H.world world.old) (H.world world.new) table served result }
{
    if any_failed(served.workers.as_slice()) {
        let _ = world.print(b"accept failed\n");
        return report_on(8, table, served);
    }
    report_on(0, table, served)
}

/// The report on workers that served.
fn report_on<W>(status: u8, table: Table, served: Served<W>) -> Report<W>
    ensures status { result.status ≡ status }
    ensures table { result.table ≡ Some table }
    ensures journal { result.journal ≡ served.journal }
    ensures workers { result.workers ≡ served.workers }
{
    let Served { journal, workers } = served;
    Report {
        status,
        table: Some(table),
        journal,
        workers,
    }
}

/// Whether an accept of some worker failed.
fn any_failed<W>(workers: &[Worker<W>]) -> bool
    ensures { result ≡ any_failed workers.now }
{
    workers.iter().any(|worker| worker.accept_failed)
}

/// The report of a run whose route file gave no table.
fn stopped<W>(alloc: Global, status: u8) -> Report<W>
    ensures status { result.status ≡ status }
    ensures table { result.table ≡ None }
    ensures journal { result.journal.items ≡ [] }
    ensures workers { result.workers.items ≡ [] }
{
    Report {
        status,
        table: None,
        journal: Vec::new(alloc),
        workers: Vec::new(alloc),
    }
}

/// The address can't be listened on.
fn cannot_listen<H: World>(alloc: Global, world: &mut H, addr: &Addr) -> Report<H::Wire>
    ensures { RefusesOr7 (H.world world.old) (H.world world.new) 6 (unheard_line addr.now) result }
{
    match format!(in alloc; "cannot listen on {addr}\n") {
        Ok(line) => refuse(alloc, world, 6, line.as_bytes()),
        Err(AllocError) => refuse(alloc, world, 7, b"out of memory\n"),
    }
}

/// Prints a line, and answers this status.
fn refuse<H: World>(alloc: Global, world: &mut H, status: u8, line: &[u8]) -> Report<H::Wire>
    ensures { Refuses (H.world world.old) (H.world world.new) status line.now result }
{
    let _ = world.print(line);
    stopped(alloc, status)
}
