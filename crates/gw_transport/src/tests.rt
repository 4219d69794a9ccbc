//! What the tests of trips share: a wire in memory and a pool with one caller.

ghost use Rattle.std.specs.Prelude.{◌≡◌, ◌<◌, ◌≤◌, IfOk, false};
ghost use Rattle.gw_transport.specs.Leasing.{IsRested};

use crate::leasing::{Leased, end_lease, lease};
use gw_pool::{Limits, Solo};
use gw_stream::Timer;
use gw_wire::{Addr, DialEvent, MemConn, MemWire, Moment, Script};
use std::alloc::{AllocError, Global};

pub(crate) const NOW: u64 = 784_111_777_000;

pub(crate) const BACKEND: Addr = Addr {
    local: true,
    ip: [127, 0, 0, 1],
    port: 9_000,
};

pub(crate) fn half_a_minute() -> Timer
    ensures { result.last ≡ 0 }
{
    Timer::new(Some(NOW + 30_000))
}

pub(crate) fn limits(journal: u32) -> Limits
    ensures hosts { 0 < result.hosts }
    ensures passes { 0 < result.passes }
    ensures per_pass { 0 < result.per_pass }
{
    Limits {
        idle_total: 4,
        idle_per_host: 4,
        conns_per_host: 0,
        idle_ms: 1_000,
        journal,
        passes: 1,
        per_pass: 1,
        hosts: 1,
    }
}

// A wire without clients whose dials give links with these numbers, and then fail. Behind the second act the clock says
// `later`.
pub(crate) fn wire(alloc: Global, links: &[u64], later: u64) -> Result<MemWire, AllocError>
    requires after { 784_111_777_000 ≤ later }
    requires year { later < 253_402_300_800_000 }
    ensures { IfOk result (λ wire. wire.aged ≡ false) }
{
    let mut dials = Vec::new(alloc);
    for number in links {
        dials.push(DialEvent::Conn(MemConn::new(*number, Vec::new(alloc), Vec::new(alloc))))?;
    }
    MemWire::new(
        alloc,
        Script {
            accepts: Vec::new(alloc),
            dials,
            moments: vec![in alloc; Moment { from: 0, at: NOW }, Moment { from: 2, at: later }]?,
            acts: 64,
            bytes: 1_024,
        },
    )
}

/// What came of a trip whose lease was ended at once: its link, and whether that served before.
#[derive(Clone, Copy, Debug, PartialEq, Eq)]
pub(crate) enum Came {
    Over(u64, bool),
    Unreachable,
    Full,
    Cancelled,
    Late,
}

// A trip to host 0, whose lease is given back or dropped.
pub(crate) fn trip(
    wire: &mut MemWire,
    pool: &mut Solo<MemConn>,
    guard: &mut Timer,
    reusable: bool,
) -> Came
    requires fresh { wire.old.aged ≡ false }
    requires looked { guard.old.last ≡ 0 }
    requires rested { IsRested pool.old }
    requires within { 0 < pool.old.limits.hosts }
    ensures fresh { wire.new.aged ≡ false }
    ensures rested { IsRested pool.new }
    ensures within { 0 < pool.new.limits.hosts }
{
    match lease(wire, pool, guard, 0, &BACKEND) {
        Leased::Lease(got) => {
            let came = Came::Over(got.link, got.reused);
            end_lease(wire, pool, got, reusable);
            came
        }
        Leased::Unreachable => Came::Unreachable,
        Leased::Full => Came::Full,
        Leased::Cancelled => Came::Cancelled,
        Leased::Late => Came::Late,
    }
}
