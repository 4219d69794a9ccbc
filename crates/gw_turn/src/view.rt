//! What a pass knows.

use gw_pool::{Entry, Holding, Limits};
use std::collections::LinkedList;

/// What is known of the pass of a number, for contracts. No value of it is made.
pub struct Member {
    /// The number of the pass, from 0 on.
    pub number: u32,
    /// The history that it has seen.
    pub seen: LinkedList<Entry>,
    /// Its own entries, in their order.
    pub mine: LinkedList<Entry>,
    /// The wants whose tokens were handed out by it and not taken back.
    pub out: LinkedList<Holding>,
}

/// What a pass knows, for contracts. No value of it is made.
pub struct PassView {
    /// Whether it wasn't joined into another.
    pub live: bool,
    /// The limits of the pool.
    pub limits: Limits,
    /// What it knows of itself.
    pub own: Member,
    /// What those that were joined into it knew of themselves.
    pub joined: LinkedList<Member>,
    /// The histories that it and those joined into it had seen when others were joined into them.
    pub past: LinkedList<LinkedList<Entry>>,
    /// The wants that it made since another was last joined into it.
    pub fresh: LinkedList<u64>,
    /// How often its `ask` answered `NotYet`.
    pub waits: u64,
    /// Whether it has the turn.
    pub turn: bool,
    /// While it has the turn: the journal of the pool's state.
    pub journal: LinkedList<Entry>,
    /// While it has the turn: the wants whose connection was handed out.
    pub taken: LinkedList<u64>,
}
