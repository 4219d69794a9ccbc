//! Laws of what is sent. Each is a function with an empty body, whose `ensures` is the law.
ghost use Rattle.gw_proxy.specs.Asked.{PassedRequestsAreRead};
ghost use Rattle.gw_proxy.specs.Laws.{OneDate};
ghost use Rattle.gw_proxy.specs.Read.{OwnRepliesAreRead, PassedRepliesAreRead};

/// A moment has one date, so a reply of a moment has one text.
pub fn one_date_at_a_moment()
    ensures { OneDate }
{}

/// What the gateway answers by itself is read as it was meant: a head with the reply's code and version, which says
/// whether the link closes, and behind it the body that this head announces. A location is visible ASCII, methods are
/// tokens, and the text has at most 65,536 bytes.
pub fn own_replies_are_read()
    ensures { OwnRepliesAreRead }
{}

/// The head of a backend's reply that goes on to a client is read there with the code that it came with, says whether
/// the link closes, and announces the body as it is sent on, where it has at most 65,536 bytes and 128 fields.
pub fn passed_replies_are_read()
    ensures { PassedRepliesAreRead }
{}

/// The head of a request that is passed on is read by the backend as it was asked: with the same method, the host that
/// it had or else the address, the path behind the base, the same query and the same framing. It is of HTTP/1.1,
/// expects nothing and doesn't close the link. What went into it can stand in a head, and it has at most 65,536 bytes
/// and 128 fields.
pub fn passed_requests_are_read()
    ensures { PassedRequestsAreRead }
{}
