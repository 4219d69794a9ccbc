//! What tests of trips run on: a wire whose links play, a pool with one caller, and a worker's buffers.

ghost use Rattle.std.specs.Prelude.{◌≡◌, ◌≤◌, ◌<◌, [], IfOk, false};
ghost use Rattle.gw_stream.specs.Outbox.{out_size};
ghost use Rattle.gw_transport.specs.Leasing.{IsRested};

use crate::buffers::Buffers;
use crate::test_links::{Line, wire};
use crate::tests::{NOW, limits};
use gw_pool::Solo;
use gw_wire::{MemConn, MemWire};
use std::alloc::{AllocError, Global};

/// The link that is dialed where link 7 was lost.
pub(crate) const EIGHT: Line = Line {
    number: 8,
    sends: &[b"HTTP/1.1 200 OK\r\nContent-Length: 5\r\n\r\nhello"],
    fails: false,
    takes: &[],
};

#[derive(Drop)]
pub(crate) struct Rig {
    pub(crate) wire: MemWire,
    pub(crate) pool: Solo<MemConn>,
    pub(crate) buffers: Buffers,
}

/// A wire whose first dial gives this link, and the second one link 8. From so many acts on its clock says `later`.
pub(crate) fn make_rig_at(
    alloc: Global,
    first: &Line,
    from: u64,
    later: u64,
) -> Result<Rig, AllocError>
    requires after { 784_111_777_000 ≤ later }
    requires year { later < 253_402_300_800_000 }
    ensures fresh { IfOk result (λ rig. rig.wire.aged ≡ false) }
    ensures rested { IfOk result (λ rig. IsRested rig.pool) }
    ensures within { IfOk result (λ rig. 0 < rig.pool.limits.hosts) }
    ensures unread { IfOk result (λ rig. rig.buffers.client.inbox ≡ []) }
    ensures room { IfOk result (λ rig. rig.buffers.out.size ≡ out_size) }
{
    Ok(Rig {
        wire: wire(alloc, first, &EIGHT, from, later)?,
        pool: Solo::open(alloc, limits(64))?,
        buffers: Buffers::new(alloc)?,
    })
}

/// The same with a clock that stands still.
pub(crate) fn make_rig(alloc: Global, first: &Line) -> Result<Rig, AllocError>
    ensures fresh { IfOk result (λ rig. rig.wire.aged ≡ false) }
    ensures rested { IfOk result (λ rig. IsRested rig.pool) }
    ensures within { IfOk result (λ rig. 0 < rig.pool.limits.hosts) }
    ensures unread { IfOk result (λ rig. rig.buffers.client.inbox ≡ []) }
    ensures room { IfOk result (λ rig. rig.buffers.out.size ≡ out_size) }
{
    make_rig_at(alloc, first, 1, NOW)
}
