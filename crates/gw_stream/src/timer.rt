//! A guard with a deadline alone.

ghost use Rattle.std.specs.Prelude.{◌≡◌, ◌≤◌, false};
ghost use Rattle.gw_stream.specs.Guard.{LookStep};

use crate::guard::{Guard, Sight};

/// A guard for a caller that shares neither contexts nor a gate: what it guards is late from its deadline on, and over once
/// it was cancelled.
#[derive(Drop)]
pub struct Timer {
    /// The deadline, in milliseconds since 1970-01-01T00:00:00Z, if there is one.
    pub deadline: Option<u64>,
    /// Whether it was cancelled.
    pub cancelled: bool,
    /// The last moment at which it was looked at, in milliseconds since 1970-01-01T00:00:00Z; 0 before the first.
    pub last: u64,
    /// How many looks found it cancelled.
    pub cancels: u64,
}

impl Timer {
    /// A guard that nobody has looked at yet.
    pub fn new(deadline: Option<u64>) -> Timer
        ensures { result ≡ record { deadline = deadline; cancelled = false; last = 0; cancels = 0 } }
    {
        Timer {
            deadline,
            cancelled: false,
            last: 0,
            cancels: 0,
        }
    }
}

impl Guard for Timer {
    ghost use Rattle.std.specs.Prelude.{None, []};
    ghost use Rattle.gw_context.specs.Tree.{new_tree};
    ghost use Rattle.gw_ctxwords.specs.Rule as words;
    ghost use Rattle.gw_gate.specs.Gate as gate;

    ghost guard = { λ t. record {
      tree = new_tree;
      node = 0;
      deadline = t.deadline;
      words = record { table = record { words = 0; slots = 0; views_name = 0; atom = 0; block = 0; offset = 0; slot_names = [] }; view = words.first_view };
      own = 0;
      gate = record { name = record { gate = record { words = 0; slots = 0; views_name = 0; atom = 0; block = 0; offset = 0; slot_names = [] }; number = 0 }; view = gate.first_view };
      grace = 0;
      shut_at = None;
      last = t.last;
      cancels = t.cancels;
    } };

    ghost Keeper = { Unit {0} };

    ghost keeper = { λ t. tt };

    fn look(&mut self, now: u64) -> Sight {
        self.last = now;
        if self.cancelled {
            self.cancels = self.cancels.saturating_add(1);
            return Sight::Cancelled;
        }
        match self.deadline {
            None => Sight::On,
            Some(deadline) => {
                if now < deadline {
                    Sight::On
                } else {
                    Sight::Late
                }
            }
        }
    }
}
