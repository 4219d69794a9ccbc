//! What waits for a client look at.

use gw_stream::{Guard, Sight};

/// A wait for a client inside a request looks at nothing: only the client's silence ends it.
#[derive(Drop)]
pub(crate) struct Patience {
    /// The last moment looked at.
    pub last: u64,
}

impl Guard for Patience {
    ghost use Rattle.std.specs.Prelude.{None, []};
    ghost use Rattle.gw_context.specs.Tree.{new_tree};
    ghost use Rattle.gw_session.specs.Patience.{nobody, nowhere};

    ghost guard = { λ p. record {
      tree = new_tree;
      node = 0;
      deadline = None;
      words = nobody;
      own = 0;
      gate = nowhere;
      grace = 0;
      shut_at = None;
      last = p.last;
      cancels = 0;
    } };

    ghost Keeper = { Unit {0} };

    ghost keeper = { λ p. tt };

    fn look(&mut self, now: u64) -> Sight {
        self.last = now;
        Sight::On
    }
}
