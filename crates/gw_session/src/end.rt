//! How sessions end.

/// Why a client's link was closed.
#[derive(Clone, Copy, Debug, PartialEq, Eq)]
pub enum Why {
    /// The client sends no more.
    End,
    /// Its link failed.
    Failed,
    /// In one wait for it more than `client_ms` passed, or a million ticks did.
    Timeout,
    /// A request began behind the shut gate.
    Refused,
    /// The gate was seen shut while no request was under way, or as a reply was made.
    Shut,
    /// A head or a body with a fault was answered.
    BadRequest,
    /// The backend failed behind the beginning of its reply.
    Cut,
    /// The client speaks HTTP/1.0.
    Old,
    /// The client asked for it, or the connection had its last request.
    Asked,
    /// The request's body wasn't read to its end.
    Unread,
}

/// How a session ended.
#[derive(Clone, Copy, Debug, PartialEq, Eq)]
pub enum Ended {
    /// The link was closed for this reason.
    Closed(Why),
    /// Memory was wanting.
    NoMemory,
}

/// A session that ended.
#[derive(Clone, Copy, Debug, PartialEq, Eq)]
pub struct Served {
    /// How it ended.
    pub ended: Ended,
    /// How many requests began: each at a granted `enter` of the gate.
    pub begun: u32,
}
