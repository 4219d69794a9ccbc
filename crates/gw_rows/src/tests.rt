//! Several callers of one pool on one thread: what the tests of their trips share.

ghost use Rattle.std.specs.Prelude.{◌≡◌, ◌<◌, ◌≤◌, IfOk, false};
ghost use Rattle.gw_wire.specs.MemoryLink.{conn_view};
ghost use Rattle.gw_transport.specs.Leasing.{IsLeased, IsRested, Left};

use gw_pool::{Lease, Limits};
use gw_stream::{Guard, Timer};
use gw_transport::{Leased, end_lease, lease};
use gw_turn::{Desk, Pass, Pool};
use gw_wire::{Act, Addr, DialEvent, MemConn, MemWire, Moment, Script, Wire};
use std::alloc::{AllocError, Global};
use std::process::Abort;
use std::sync::Wait;

pub(crate) const NOW: u64 = 784_111_777_000;

pub(crate) const BACKEND: Addr = Addr {
    local: true,
    ip: [127, 0, 0, 1],
    port: 9_000,
};

// So many passes, connections of one host and idle ones.
pub(crate) fn limits(passes: u32, conns: u32, idle: u32) -> Limits
    ensures hosts { result.hosts ≡ 1 }
    ensures passes { result.passes ≡ passes }
    ensures per_pass { result.per_pass ≡ 1 }
{
    Limits {
        idle_total: 16,
        idle_per_host: idle,
        conns_per_host: conns,
        idle_ms: 90_000,
        journal: 256,
        passes,
        per_pass: 1,
        hosts: 1,
    }
}

// A wire without clients whose dials give links with the numbers from 1 to `links`, and then fail.
pub(crate) fn wire(alloc: Global, links: u64) -> Result<MemWire, AllocError>
    ensures fresh { IfOk result (λ wire. wire.aged ≡ false) }
{
    let mut dials = Vec::new(alloc);
    for before in 0..links {
        dials.push(DialEvent::Conn(MemConn::new(before + 1, Vec::new(alloc), Vec::new(alloc))))?;
    }
    MemWire::new(
        alloc,
        Script {
            accepts: Vec::new(alloc),
            dials,
            moments: vec![in alloc; Moment { from: 0, at: NOW }]?,
            acts: 32,
            bytes: 16,
        },
    )
}

/// What a trip does with a link.
#[derive(Clone, Copy, Debug, PartialEq, Eq)]
pub(crate) enum Deed {
    Dialed(u64),
    Closed(u64),
    Else,
}

fn deed_of(act: &Act) -> Deed {
    match act {
        Act::Dialed(0, _, link) => Deed::Dialed(*link),
        Act::Closed(link) => Deed::Closed(*link),
        _ => Deed::Else,
    }
}

// Compares what a wire told with what it should have.
pub(crate) fn shows<R: Abort>(rt: &R, acts: &[Act], deeds: &[Deed]) {
    assert_eq!(rt; acts.len(), deeds.len(), "how many acts");
    for (act, deed) in acts.iter().zip(deeds.iter()) {
        assert_eq!(rt; deed_of(act), *deed);
    }
}

// The way of a caller to a connection.
pub(crate) fn come<R: Wait, W: Wire<Conn = MemConn>, G: Guard>(
    rt: &R,
    pool: &Pool<MemConn>,
    pass: &mut Pass,
    wire: &mut W,
    guard: &mut G,
) -> Leased<MemConn>
    requires of { pass.old.pool ≡ pool.now }
    requires rested { IsRested pass.old.lent }
    requires host { 0 < pass.old.lent.limits.hosts }
    requires fresh { (W.wire wire.old).aged ≡ false }
    requires looked { (G.guard guard.old).last ≤ (W.wire wire.old).moment }
    ensures left { Left conn_view pass.new.lent result }
    ensures of { pass.new.pool ≡ pass.old.pool }
    ensures host { 0 < pass.new.lent.limits.hosts }
    ensures fresh { (W.wire wire.new).aged ≡ false }
{
    let mut desk = Desk { rt, pool, pass };
    lease(wire, &mut desk, guard, 0, &BACKEND)
}

// The connection that a caller comes to.
pub(crate) fn held<R: Wait + Abort, W: Wire<Conn = MemConn>>(
    rt: &R,
    pool: &Pool<MemConn>,
    pass: &mut Pass,
    wire: &mut W,
) -> Lease<MemConn>
    requires of { pass.old.pool ≡ pool.now }
    requires rested { IsRested pass.old.lent }
    requires host { 0 < pass.old.lent.limits.hosts }
    requires fresh { (W.wire wire.old).aged ≡ false }
    ensures leased { IsLeased conn_view pass.new.lent result }
    ensures of { pass.new.pool ≡ pass.old.pool }
    ensures host { 0 < pass.new.lent.limits.hosts }
    ensures fresh { (W.wire wire.new).aged ≡ false }
{
    match come(rt, pool, pass, wire, &mut Timer::new(None)) {
        Leased::Lease(lease) => lease,
        Leased::Unreachable | Leased::Full | Leased::Cancelled | Leased::Late => {
            panic!(rt; "it comes to a connection")
        }
    }
}

// Ends a caller's lease.
pub(crate) fn end<R: Wait, W: Wire<Conn = MemConn>>(
    rt: &R,
    pool: &Pool<MemConn>,
    pass: &mut Pass,
    wire: &mut W,
    lease: Lease<MemConn>,
    reusable: bool,
)
    requires of { pass.old.pool ≡ pool.now }
    requires leased { IsLeased conn_view pass.old.lent lease }
    requires host { 0 < pass.old.lent.limits.hosts }
    requires fresh { (W.wire wire.old).aged ≡ false }
    ensures rested { IsRested pass.new.lent }
    ensures of { pass.new.pool ≡ pass.old.pool }
    ensures host { 0 < pass.new.lent.limits.hosts }
    ensures fresh { (W.wire wire.new).aged ≡ false }
{
    let mut desk = Desk { rt, pool, pass };
    end_lease(wire, &mut desk, lease, reusable);
}

// A lease that is ended at once: its link, and whether that served before.
pub(crate) fn trip<R: Wait + Abort, W: Wire<Conn = MemConn>>(
    rt: &R,
    pool: &Pool<MemConn>,
    pass: &mut Pass,
    wire: &mut W,
    reusable: bool,
) -> (u64, bool)
    requires of { pass.old.pool ≡ pool.now }
    requires rested { IsRested pass.old.lent }
    requires host { 0 < pass.old.lent.limits.hosts }
    requires fresh { (W.wire wire.old).aged ≡ false }
    ensures rested { IsRested pass.new.lent }
    ensures of { pass.new.pool ≡ pass.old.pool }
    ensures host { 0 < pass.new.lent.limits.hosts }
    ensures fresh { (W.wire wire.new).aged ≡ false }
{
    let lease = held(rt, pool, pass, wire);
    let came = (lease.link, lease.reused);
    end(rt, pool, pass, wire, lease, reusable);
    came
}
