//! Whether a trip may go on: the trait by which it looks.

ghost use Rattle.std.specs.Prelude.{◌≡◌, ◌≤◌};
ghost use Rattle.gw_stream.specs.Guard.{GuardView, LookStep};

/// What a look finds.
#[derive(Clone, Copy, Debug, PartialEq, Eq)]
pub enum Sight {
    /// The trip may go on.
    On,
    /// The trip was cancelled.
    Cancelled,
    /// The trip's deadline has come.
    Late,
}

/// What a trip looks at before it waits. What no look changes of an implementer is its `keeper`, as which loans it holds.
pub trait Guard {
    ghost guard: { Self → GuardView };

    ghost Keeper: { Type 0 };

    ghost keeper: { Self → Keeper };

    /// Whether the trip may go on at this moment, in milliseconds since 1970-01-01T00:00:00Z, which is none before the
    /// last one looked at.
    fn look(&mut self, now: u64) -> Sight
        requires later { (guard self.old).last ≤ now }
        ensures step { LookStep (guard self.old) (guard self.new) now result }
        ensures stays { keeper self.new ≡ keeper self.old };
}
