//! The rows of the pool's state.

ghost use Rattle.std.specs.Prelude.{◌≡◌};
ghost use Rattle.gw_pool.specs.Places.{is_waiting, is_granted, is_out_to, is_idle, has_stamp, stamp_of, since_of, want_room, conn_room};

/// Where a want stands that no connection was found for.
#[derive(Clone, Copy, Debug)]
pub enum Stage {
    /// It waits for a connection or a place.
    Waiting,
    /// It may dial.
    Granted,
    /// Its dial was begun.
    Dialing,
}

impl Stage {
    /// Whether a want waits.
    pub fn is_waiting(&self) -> bool
        ensures { result ≡ is_waiting self.now }
    {
        matches!(self, Stage::Waiting)
    }

    /// How many entries a want at this stage can still make, at most.
    pub fn room(&self) -> usize
        ensures { result ≡ want_room self.now }
    {
        match self {
            Stage::Waiting | Stage::Granted => 5,
            Stage::Dialing => 1,
        }
    }

    /// Whether a want may dial.
    pub fn is_granted(&self) -> bool
        ensures { result ≡ is_granted self.now }
    {
        matches!(self, Stage::Granted)
    }
}

/// A want that no connection was found for.
#[derive(Clone, Copy, Debug)]
pub struct WantRow {
    /// Its number.
    pub want: u64,
    /// The host that a connection is wanted to.
    pub host: u32,
    /// Who wants it.
    pub caller: u32,
    /// How far it is.
    pub stage: Stage,
}

/// A dial that was begun and hasn't ended.
#[derive(Clone, Copy, Debug)]
pub struct DialRow {
    /// The want that it was begun for.
    pub want: u64,
    /// The host that is dialed.
    pub host: u32,
    /// Who dials.
    pub caller: u32,
}

/// Where a connection is.
#[derive(Clone, Copy, Debug)]
pub enum Place {
    /// Out to a want of a caller.
    Out { want: u64, caller: u32 },
    /// Idle since a time; of two connections the one with the lesser stamp has been so for longer.
    Idle { stamp: u64, since: u64 },
}

impl Place {
    /// Whether a connection is out to a want.
    pub fn is_out_to(&self, want: u64) -> bool
        ensures { result ≡ is_out_to want self.now }
    {
        match self {
            Place::Out { want: w, .. } => *w == want,
            Place::Idle { .. } => false,
        }
    }

    /// Whether a connection is idle.
    pub fn is_idle(&self) -> bool
        ensures { result ≡ is_idle self.now }
    {
        matches!(self, Place::Idle { .. })
    }

    /// Whether a connection is idle with a stamp.
    pub fn has_stamp(&self, n: u64) -> bool
        ensures { result ≡ has_stamp n self.now }
    {
        match self {
            Place::Out { .. } => false,
            Place::Idle { stamp, .. } => *stamp == n,
        }
    }

    /// How many entries a connection there can still make, at most.
    pub fn room(&self) -> usize
        ensures { result ≡ conn_room self.now }
    {
        match self {
            Place::Out { .. } => 2,
            Place::Idle { .. } => 1,
        }
    }

    /// The stamp of an idle connection, and 0 for others.
    pub fn stamp(&self) -> u64
        ensures { result ≡ stamp_of self.now }
    {
        match self {
            Place::Out { .. } => 0,
            Place::Idle { stamp, .. } => *stamp,
        }
    }

    /// Since when a connection is idle, in milliseconds since 1970-01-01T00:00:00Z, and 0 for others.
    pub fn since(&self) -> u64
        ensures { result ≡ since_of self.now }
    {
        match self {
            Place::Out { .. } => 0,
            Place::Idle { since, .. } => *since,
        }
    }
}

/// A connection of the pool.
#[derive(Clone, Copy, Debug)]
pub struct ConnRow {
    /// Its number in the pool.
    pub conn: u64,
    /// The host that it leads to.
    pub host: u32,
    /// The number of its link.
    pub link: u64,
    /// Whether it was offered before.
    pub reused: bool,
    /// Where it is.
    pub place: Place,
}
