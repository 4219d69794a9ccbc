//! What a session shares with others.

ghost use Rattle.std.specs.Prelude.{◌≡◌, ◌<◌, length};

use gw_ctxwords::{CtxSeat, CtxTable};
use gw_gate::{Gate, GateSeat};
use gw_transport::Buffers;

/// What a worker lends to its sessions: its seats at what the workers share, and its buffers.
#[derive(Drop)]
pub struct Shared<'a> {
    /// The gate, at which each request begins.
    pub gate: &'a Gate,
    /// The worker's seat there.
    pub gate_seat: &'a mut GateSeat,
    /// The contexts that the workers share; node 0 is the base.
    pub ctx: &'a CtxTable,
    /// The worker's seat there.
    pub ctx_seat: &'a mut CtxSeat,
    /// The worker's own node there.
    pub ctx_node: u32,
    /// The moment at which the worker first saw the gate shut, in milliseconds since 1970-01-01T00:00:00Z.
    pub shut_at: Option<u64>,
    /// What it reads into and writes from.
    pub buffers: &'a mut Buffers,
    ghost own: { ctx_node < length ctx.now.nodes },
    ghost seat: { ctx_seat.now.table ≡ ctx.now.id },
    ghost place: { gate_seat.now.name.gate ≡ gate.now },
}
