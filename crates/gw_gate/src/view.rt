//! What a seat knows.

/// What a seat of a gate knows, for contracts. No value of it is made.
pub struct GateView {
    /// How many seats may come of it, itself included.
    pub room: u64,
    /// It holds an `Inside`.
    pub held: bool,
    /// Its refused `enter` isn't undone yet.
    pub undoing: bool,
    /// It, or a seat joined into it, made the step that set the bit.
    pub shut: bool,
    /// It, the seat that it was split from before that, or a seat joined into it, has read the bit or set it.
    pub seen_shut: bool,
    /// One of these has read the word shut with 0 inside.
    pub drained: bool,
    /// The word before its last `enter`, `leave`, `shut`, `look` or `drained`.
    pub last: u64,
}
