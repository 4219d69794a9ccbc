//! What waits for a client look at.

ghost use Rattle.std.specs.Prelude.{◌≡◌, ◌<◌, ◌==◌, ◌||◌, true};
ghost use Rattle.gw_stream.specs.Guard.{LookStep};

use gw_gate::{Gate, GateSeat, Look};
use gw_stream::{Guard, Sight};

/// A wait for a client's next request looks at the gate at each tick: its looks but the first do, and what finds the gate
/// shut ends the wait.
#[derive(Drop)]
pub(crate) struct Door<'a> {
    pub gate: &'a Gate,
    pub seat: &'a mut GateSeat,
    /// The moment at which the gate was first seen shut.
    pub shut_at: Option<u64>,
    /// Whether the first look was made.
    pub ticking: bool,
    /// The last moment looked at.
    pub last: u64,
    /// How many looks found the gate shut.
    pub found: u64,
    ghost place: { seat.now.name.gate ≡ gate.now },
    ghost told: { (found == 0 || seat.now.view.seen_shut) ≡ true },
}

impl<'a> Guard for Door<'a> {
    ghost use Rattle.std.specs.Prelude.{ℕ, None};
    ghost use Rattle.gw_context.specs.Tree.{new_tree};
    ghost use Rattle.gw_session.specs.Patience.{nobody};

    ghost guard = { λ d. record {
      tree = new_tree;
      node = 0;
      deadline = None;
      words = nobody;
      own = 0;
      gate = d.seat.now;
      grace = 0;
      shut_at = d.shut_at;
      last = d.last;
      cancels = d.found;
    } };

    ghost Keeper = { ℕ };

    ghost keeper = { λ d. d.seat.ghost_name };

    fn look(&mut self, now: u64) -> Sight {
        self.last = now;
        // The first finding ends the wait, so the count is never full; a full one couldn't rise.
        if !self.ticking || self.found == u64::MAX {
            self.ticking = true;
            return Sight::On;
        }
        match self.gate.look(self.seat) {
            Look::Open => Sight::On,
            Look::Shut => {
                if self.shut_at.is_none() {
                    self.shut_at = Some(now);
                }
                self.found += 1;
                Sight::Cancelled
            }
        }
    }
}
