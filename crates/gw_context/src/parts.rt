//! What a tree is made of.
ghost use Rattle.std.specs.Prelude.{◌≡◌};
ghost use Rattle.gw_context.specs.Node.{is_due};

/// Why a node ended.
#[derive(Clone, Copy, Debug, PartialEq, Eq)]
pub enum Cause {
    /// It, or a node above it, was cancelled.
    Canceled,
    /// Its deadline, or that of a node above it, has come.
    DeadlineExceeded,
}

/// A node of a tree, as contracts see it.
#[derive(Clone, Copy, Debug)]
pub struct Node {
    /// The number of the node above it; node 0 is its own parent.
    pub parent: u32,
    /// Whether it ends with its parent.
    pub tied: bool,
    /// The moment at which it ends, in the unit of the tree's moments.
    pub deadline: Option<u64>,
    /// Why it ended, if it has.
    pub cause: Option<Cause>,
}

/// Whether there is a deadline, and it is at or before the moment.
pub fn is_due(now: u64, deadline: Option<u64>) -> bool
    ensures { result ≡ is_due now deadline }
{
    match deadline {
        Some(deadline) => deadline <= now,
        None => false,
    }
}
