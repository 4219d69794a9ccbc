//! Laws of sessions. Each is a function whose `ensures` is the law.

ghost use Rattle.gw_session.specs.Closing.{SessionsCloseWhatLeaves};

/// Each connection that the entries of a session take out of the pool is closed in it once, in their order, then its
/// client's, and no other link is.
pub fn connections_are_closed_once()
    ensures { SessionsCloseWhatLeaves }
{}
