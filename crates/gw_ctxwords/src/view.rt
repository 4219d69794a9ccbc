//! What a seat knows.
use gw_context::Cause;
use std::collections::LinkedList;

/// What a seat of shared contexts knows, for contracts. No value of it is made.
pub struct CtxView {
    /// How many seats may come of it, itself included.
    pub room: u64,
    /// The nodes that it, the seat that it was split from before that, or a seat joined into it, found ended or ended
    /// itself, each with its cause.
    pub ended: LinkedList<(u32, Cause)>,
    /// The nodes that it, or a seat joined into it, ended by `cancel`, each with its cause.
    pub cancels: LinkedList<(u32, Cause)>,
    /// The nodes whose words it loaded, in order, each with the word.
    pub reads: LinkedList<(u32, u64)>,
}
