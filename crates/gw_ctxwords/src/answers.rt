//! What the calls answer.
use gw_context::Cause;

/// The answer of `CtxTable::cancel`.
#[derive(Clone, Copy, Debug, PartialEq, Eq)]
pub enum Cancelled {
    /// This call ended the node.
    Now,
    /// The node had ended, for this cause.
    Already(Cause),
}

/// The answer of `CtxTable::cause`.
#[derive(Clone, Copy, Debug, PartialEq, Eq)]
pub enum Looked {
    /// Neither the node nor a node above it that it is tied to had ended, when each was read.
    Live,
    /// The node has ended, for this cause. Later answers are the same.
    Ended(Cause),
}
