//! The nodes, and what their words say.
ghost use Rattle.std.specs.Prelude.{◌≡◌, ◌<◌, length};
ghost use Rattle.gw_ctxwords.specs.Words.{word_of, cause_of};

use gw_context::Cause;

/// A node, by the node above it.
#[derive(Clone, Copy, Debug, PartialEq, Eq)]
pub struct NodeSpec {
    /// The number of the node above it, which is lower than its own; node 0 is its own parent.
    pub parent: u32,
    /// Whether it ends with its parent. Node 0 is tied to nobody.
    pub tied: bool,
}

// The word of a node that hasn't ended.
pub(crate) const LIVE: u64 = 0;

/// The word of a node that ended.
pub(crate) fn word_of(cause: Cause) -> u64
    ensures { result ≡ word_of cause }
{
    match cause {
        Cause::Canceled => 1,
        Cause::DeadlineExceeded => 2,
    }
}

/// The cause in a word that isn't `LIVE`.
pub(crate) fn cause_of(word: u64) -> Cause
    ensures { result ≡ cause_of word }
{
    if word == 1 {
        Cause::Canceled
    } else {
        Cause::DeadlineExceeded
    }
}
