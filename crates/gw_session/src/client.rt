//! A client that is served.

ghost use Rattle.std.specs.Prelude.{◌≡◌};
ghost use Rattle.gw_session.specs.Stand.{is_last};

use gw_context::Tree;
use gw_routes::Table;
use gw_wire::PeerText;

/// How many requests one connection serves.
pub(crate) const REQUESTS: u32 = 4_294_967_295;

/// A client that is served.
pub struct Client<'a, C> {
    /// Its link.
    pub conn: C,
    /// Its address, as it is forwarded.
    pub peer: PeerText,
    /// What it is served.
    pub table: &'a Table,
    /// The deadlines of its requests, each below node 0.
    pub tree: Tree,
    /// How many of its requests began.
    pub requests: u32,
}

impl<'a, C> Client<'a, C> {
    /// Whether its connection serves no further request.
    pub fn is_last(&self) -> bool
        ensures { result ≡ is_last self.now.requests }
    {
        self.requests == REQUESTS
    }
}
