//! Whole sessions over a wire in memory: what each client and its backend are written, and why the session ends.

ghost use Rattle.std.specs.Prelude.{◌≡◌, ◌<◌, IfOk, false, length};
ghost use Rattle.gw_stream.specs.Outbox.{out_size};
ghost use Rattle.gw_transport.specs.Leasing.{IsRested};
ghost use Rattle.gw_session.specs.Routing.{IsServable};

use crate::end::{Ended, Served, Why};
use crate::session::serve_connection;
use crate::session_rows::{Before, Comes, Link, ROWS, Row};
use crate::shared::Shared;
use gw_context::Cause;
use gw_ctxwords::{CtxSeat, CtxTable, NodeSpec};
use gw_gate::{Gate, GateSeat};
use gw_pool::Solo;
use gw_routes::{Table, read_routes};
use gw_transport::Buffers;
use gw_wire::{Act, Bytes, ConnEvent, DialEvent, MemConn, MemWire, Moment, PeerText, Script};
use std::alloc::{AllocError, Global};
use std::test::Fail;

/// The moment at which each test begins: Sun, 06 Nov 1994 08:49:37 GMT.
const NOW: u64 = 784_111_777_000;

const NODES: [NodeSpec; 2] = [
    NodeSpec {
        parent: 0,
        tied: false,
    },
    NodeSpec {
        parent: 0,
        tied: true,
    },
];

/// What a session is served with.
#[derive(Drop)]
struct Rig {
    table: Table,
    wire: MemWire,
    pool: Solo<MemConn>,
    gate: Gate,
    gate_seat: GateSeat,
    ctx: CtxTable,
    ctx_seat: CtxSeat,
    buffers: Buffers,
}

fn link(alloc: Global, number: u64, line: &Link) -> Result<MemConn, AllocError> {
    let mut events = Vec::new(alloc);
    for comes in line.comes {
        events.push(match comes {
            Comes::Text(text) => ConnEvent::Piece(Bytes::new(text.to_vec(alloc)?)),
            Comes::Tick => ConnEvent::Tick,
            Comes::Fails => ConnEvent::Failed,
        })?;
    }
    Ok(MemConn::new(number, events, line.takes.to_vec(alloc)?))
}

// A wire whose dials give these links, numbered from 2. From so many acts on its clock says `later`.
fn wire(alloc: Global, row: &Row) -> Result<MemWire, AllocError>
    requires year { row.now.late_ms < 1_000_000 }
    ensures { IfOk result (λ wire. wire.aged ≡ false) }
{
    let mut dials = Vec::new(alloc);
    for (i, line) in row.backends.iter().enumerate() {
        dials.push(DialEvent::Conn(link(alloc, i as u64 + 2, line)?))?;
    }
    let later = Moment {
        from: row.late_from,
        at: NOW + row.late_ms,
    };
    MemWire::new(
        alloc,
        Script {
            accepts: Vec::new(alloc),
            dials,
            moments: vec![in alloc; Moment { from: 0, at: NOW }, later]?,
            acts: 64,
            bytes: 131_072,
        },
    )
}

fn make_rig(alloc: Global, row: &Row) -> Result<Rig, Fail>
    requires year { row.now.late_ms < 1_000_000 }
    ensures fresh { IfOk result (λ rig. rig.wire.aged ≡ false) }
    ensures rested { IfOk result (λ rig. IsRested rig.pool) }
    ensures servable { IfOk result (λ rig. IsServable rig.table rig.pool) }
    ensures outside { IfOk result (λ rig. rig.gate_seat.view.held ≡ false) }
    ensures gate { IfOk result (λ rig. rig.gate_seat.name.gate ≡ rig.gate) }
    ensures ctx { IfOk result (λ rig. rig.ctx_seat.table ≡ rig.ctx.id) }
    ensures node { IfOk result (λ rig. 1 < length rig.ctx.nodes) }
    ensures room { IfOk result (λ rig. rig.buffers.out.size ≡ out_size) }
{
    let Ok(table) = read_routes(alloc, row.file.as_bytes()) else {
        return Err(Fail::from(AllocError));
    };
    let pool = Solo::open(alloc, table.limits)?;
    let (gate, gate_seat) = Gate::new(alloc)?;
    let (ctx, ctx_seat) = CtxTable::new(alloc, &NODES)?;
    Ok(Rig {
        wire: wire(alloc, row)?,
        table,
        pool,
        gate,
        gate_seat,
        ctx,
        ctx_seat,
        buffers: Buffers::new(alloc)?,
    })
}

// Serves the client of a row, behind what was done before.
fn serve(alloc: Global, rig: &mut Rig, row: &Row, client: MemConn, peer: PeerText) -> Served
    requires fresh { rig.old.wire.aged ≡ false }
    requires rested { IsRested rig.old.pool }
    requires servable { IsServable rig.old.table rig.old.pool }
    requires outside { rig.old.gate_seat.view.held ≡ false }
    requires gate { rig.old.gate_seat.name.gate ≡ rig.old.gate }
    requires ctx { rig.old.ctx_seat.table ≡ rig.old.ctx.id }
    requires node { 1 < length rig.old.ctx.nodes }
    requires room { rig.old.buffers.out.size ≡ out_size }
{
    match row.before {
        Before::Nothing => {}
        Before::Shut => {
            let _first = rig.gate.shut(&mut rig.gate_seat);
        }
        Before::Cancelled => {
            let _now = rig.ctx.cancel(&mut rig.ctx_seat, 0, Cause::Canceled);
        }
    }
    let mut shared = Shared {
        gate: &rig.gate,
        gate_seat: &mut rig.gate_seat,
        ctx: &rig.ctx,
        ctx_seat: &mut rig.ctx_seat,
        ctx_node: 1,
        shut_at: None,
        buffers: &mut rig.buffers,
    };
    let wire = &mut rig.wire;
    let pool = &mut rig.pool;
    serve_connection(alloc, client, peer, wire, pool, &mut shared, &rig.table)
}

// What was written to a link.
fn taken(alloc: Global, acts: &[Act], link: u64) -> Result<Vec<u8>, AllocError> {
    let mut text = Vec::new(alloc);
    for act in acts {
        if let Act::Wrote(number, piece) = act
            && *number == link
        {
            text.extend_from_slice(piece.as_slice())?;
        }
    }
    Ok(text)
}

fn dials(acts: &[Act]) -> usize {
    acts.iter()
        .filter(|act| matches!(act, Act::Dialed(..)))
        .count()
}

// Whether a row's session is as it says.
fn is_so(alloc: Global, row: &Row) -> Result<bool, Fail>
    requires year { row.now.late_ms < 1_000_000 }
{
    let Some(peer) = PeerText::new(b"10.0.0.7") else {
        return Ok(false);
    };
    let client = link(alloc, 1, &row.client)?;
    let mut rig = make_rig(alloc, row)?;
    let served = serve(alloc, &mut rig, row, client, peer);
    let acts = rig.wire.acts();
    let said = taken(alloc, acts, 1)?;
    let passed = taken(alloc, acts, u64::from(row.dials) + 1)?;
    Ok(
        served.ended == Ended::Closed(row.why)
            && served.begun == row.begun
            && said.as_slice() == row.to_client
            && dials(acts) == row.dials as usize
            && (row.dials == 0 || passed.as_slice() == row.to_backend),
    )
}

#[test]
fn rows(rt: HostRuntime) -> Result<(), Fail> {
    for row in &ROWS {
        if row.late_ms < 1_000_000 {
            let so = is_so(rt.alloc(), row)?;
            assert_eq!(rt; (row.name, so), (row.name, true));
        }
    }
    Ok(())
}

// A client that says a part of its head, and nothing more for a million ticks.
fn silent(alloc: Global) -> Result<(MemConn, PeerText), Fail> {
    let Some(peer) = PeerText::new(b"10.0.0.7") else {
        return Err(Fail::from(AllocError));
    };
    let mut events = Vec::with_capacity(alloc, 1_000_001)?;
    events.push(ConnEvent::Piece(Bytes::new(b"GE".to_vec(alloc)?)))?;
    for _tick in 0..1_000_000 {
        events.push(ConnEvent::Tick)?;
    }
    Ok((MemConn::new(1, events, Vec::new(alloc)), peer))
}

// How it is served with what a row has.
fn serve_silent(alloc: Global, row: &Row) -> Result<Served, Fail>
    requires year { row.now.late_ms < 1_000_000 }
{
    let (client, peer) = silent(alloc)?;
    let mut rig = make_rig(alloc, row)?;
    let served = serve(alloc, &mut rig, row, client, peer);
    Ok(served)
}

/// A client that says nothing more inside its head is let go at the millionth tick.
#[test]
fn million_ticks(rt: HostRuntime) -> Result<(), Fail> {
    let row = &ROWS[0];
    if row.late_ms >= 1_000_000 {
        return Err(Fail::from(AllocError));
    }
    let served = Served {
        ended: Ended::Closed(Why::Timeout),
        begun: 1,
    };
    assert_eq!(rt; serve_silent(rt.alloc(), row)?, served);
    Ok(())
}
