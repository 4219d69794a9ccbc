// A worker accepts one client after another and serves each to its end.

ghost use Rattle.std.specs.Prelude.{◌≡◌, false, true};
ghost use Rattle.gw_account.specs.Did.{span};
ghost use Rattle.gw_stream.specs.Outbox.{out_size};
ghost use Rattle.gw_transport.specs.Leasing.{IsRested};
ghost use Rattle.gw_wire.specs.Causes.{Rose};
ghost use Rattle.gw_session.specs.Routing.{IsServable};
ghost use Rattle.gw_session.specs.Seats.{IsSameShared, seats_of};
ghost use Rattle.gw_top.specs.Run.{Worked, unkept};

use gw_pool::Leases;
use gw_routes::Table;
use gw_session::{Ended, Shared, look_shut, serve_connection};
use gw_wire::{Accept, Wire};
use std::alloc::Global;
use std::sync::Wait;

/// A worker, as its run leaves it.
#[derive(Drop)]
pub struct Worker<W> {
    /// Its number.
    pub number: u32,
    /// Its wire.
    pub wire: W,
    /// How many requests began, each at a granted `enter` of the gate; it stands still at its type's end.
    pub entered: u64,
    /// How many sessions ended for want of memory; it stands still at its type's end.
    pub unkept: u64,
    /// Whether it ended because an accept failed.
    pub accept_failed: bool,
}

/// Serves clients until the listener ends, an accept fails, or the gate is seen shut between two clients.
pub fn work<R: Wait, W: Wire, L: Leases<W::Conn>>(
    rt: &R,
    alloc: Global,
    worker: &mut Worker<W>,
    leases: &mut L,
    shared: &mut Shared<'_>,
    table: &Table,
)
    requires fresh { (W.wire worker.old.wire).aged ≡ false }
    requires rested { IsRested (L.lent leases.old) }
    requires servable { IsServable table.now (L.lent leases.old) }
    requires outside { shared.old.gate_seat.now.view.held ≡ false }
    requires room { shared.old.buffers.now.out.size ≡ out_size }
    requires serving { worker.old.accept_failed ≡ false }
    requires nobody { worker.old.entered ≡ 0 }
    requires kept { worker.old.unkept ≡ 0 }
    ensures worked { Worked (span (W.wire worker.old.wire) (W.wire worker.new.wire) (L.lent leases.old) (L.lent leases.new)) (seats_of shared.old) (seats_of shared.new) table.now
        shared.old.ctx_node worker.new }
    ensures number { worker.new.number ≡ worker.old.number }
    ensures failed { worker.new.accept_failed ≡ true → Rose (W.wire worker.old.wire).accept_faults (W.wire worker.new.wire).accept_faults }
    ensures same { IsSameShared shared.old shared.new }
    ensures leases { L.keeper leases.new ≡ L.keeper leases.old }
{
    for _client in rt.forever() {
        let now = worker.wire.now();
        if look_shut(shared, now) {
            return;
        }
        match worker.wire.accept() {
            Accept::Conn(client, peer) => {
                let wire = &mut worker.wire;
                let served = serve_connection(alloc, client, peer, wire, leases, shared, table);
                worker.entered = worker.entered.saturating_add(u64::from(served.begun));
                worker.unkept = worker.unkept.saturating_add(unkept(served.ended));
            }
            Accept::Tick => {}
            Accept::Ended => return,
            Accept::Failed => {
                worker.accept_failed = true;
                return;
            }
        }
    }
}

// 1 for a session that ended for want of memory.
fn unkept(ended: Ended) -> u64
    ensures { result ≡ unkept ended }
{
    match ended {
        Ended::NoMemory => 1,
        Ended::Closed(_) => 0,
    }
}
