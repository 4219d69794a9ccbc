//! What a worker's trip looks at: the gate, the contexts that threads share, and the tree of the session's deadlines.

ghost use Rattle.std.specs.Prelude.{◌≡◌, ◌≤◌, ◌<◌, length};
ghost use Rattle.gw_stream.specs.Guard.{LookStep};
ghost use Rattle.gw_transport.specs.Watch.{CtxStep, FirstDeadlineIsLeast, GateStep, IsLeast, IsRunning, Keeper, seats_of, watched};

use gw_context::{Cause, Tree, expired_under_due, live_before_deadline};
use gw_ctxwords::{CtxSeat, CtxTable, Looked};
use gw_gate::{Gate, GateSeat, Look};
use gw_stream::{Guard, Sight};

/// What a trip of a worker looks at before it waits. It is cancelled where the word of the worker's own node was read
/// ended, and late where the deadline of its node of the tree has come. A worker that sees the gate shut notes the moment;
/// where a later look is more than the time of grace past it, that look cancels the base, node 0 of the shared contexts.
#[derive(Drop)]
pub struct Watch<'a> {
    /// The deadlines of the session.
    pub tree: &'a mut Tree,
    /// The trip's node of the tree. Its deadline is the least of those that end it.
    pub node: u32,
    /// The contexts that the workers share.
    pub ctx: &'a CtxTable,
    /// The worker's seat there.
    pub ctx_seat: &'a mut CtxSeat,
    /// The worker's own node there.
    pub ctx_node: u32,
    /// The gate.
    pub gate: &'a Gate,
    /// The worker's seat there.
    pub gate_seat: &'a mut GateSeat,
    /// How long after the gate was seen shut trips may go on, in milliseconds.
    pub grace_ms: u64,
    /// The moment at which the worker first saw the gate shut, in milliseconds since 1970-01-01T00:00:00Z.
    pub shut_at: Option<u64>,
    /// How long a client may let the worker wait for its bytes, or for room for the reply's, in milliseconds.
    pub client_ms: u64,
    ghost inside: { node < length tree.now.nodes },
    ghost running: { IsRunning tree.now node },
    ghost least: { IsLeast tree.now.nodes node },
    ghost own: { ctx_node < length ctx.now.nodes },
    ghost seat: { ctx_seat.now.table ≡ ctx.now.id },
    ghost place: { gate_seat.now.name.gate ≡ gate.now },
}

impl<'a> Guard for Watch<'a> {
    ghost guard = { λ w. watched w.tree.now w.node (seats_of w.ctx_seat.now w.ctx_node w.gate_seat.now) w.grace_ms w.shut_at };

    ghost Keeper = { Keeper };

    ghost keeper = { λ w. record {
      tree = w.tree.ghost_name;
      words = w.ctx_seat.ghost_name;
      gate = w.gate_seat.ghost_name;
      table = w.ctx.now;
      door = w.gate.now;
      client_ms = w.client_ms;
    } };

    fn look(&mut self, now: u64) -> Sight {
        self.tree.advance(now);
        live_before_deadline(self.tree);
        expired_under_due(self.tree);
        note_gate(self.gate, self.gate_seat, &mut self.shut_at, now);
        cancel_past(self.ctx, self.ctx_seat, self.shut_at, self.grace_ms, now);
        match self.ctx.cause(self.ctx_seat, self.ctx_node) {
            Looked::Ended(_cause) => return Sight::Cancelled,
            Looked::Live => {}
        }
        match self.tree.cause(self.node) {
            Some(_cause) => Sight::Late,
            None => Sight::On,
        }
    }
}

// Notes the moment at which the gate is first seen shut.
fn note_gate(gate: &Gate, seat: &mut GateSeat, shut_at: &mut Option<u64>, now: u64)
    requires place { seat.old.name.gate ≡ gate.now }
    ensures { GateStep seat.old seat.new shut_at.old shut_at.new now }
{
    if shut_at.is_some() {
        return;
    }
    match gate.look(seat) {
        Look::Open => {}
        Look::Shut => *shut_at = Some(now),
    }
}

// Cancels the base where the gate was seen shut longer ago than the time of grace.
fn cancel_past(ctx: &CtxTable, seat: &mut CtxSeat, shut_at: Option<u64>, grace_ms: u64, now: u64)
    requires seat { seat.old.table ≡ ctx.now.id }
    requires some { 0 < length ctx.now.nodes }
    ensures { CtxStep seat.old seat.new shut_at grace_ms now }
{
    if let Some(at) = shut_at
        && now.saturating_sub(at) > grace_ms
    {
        let _first = ctx.cancel(seat, 0, Cause::Canceled);
    }
}

/// A node that is made by `Tree::with_deadline` under a root alone, which has no deadline, meets what `Watch` asks of its
/// node.
pub fn first_deadline_is_least()
    ensures { FirstDeadlineIsLeast }
{}
