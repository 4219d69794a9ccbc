//! When a request whose exchange failed may be sent again (RFC 9110, section 9.2.2, and Go's `net/http`,
//! "Transport"): the kinds of failure, the kinds of body, and the rule.
#![tactic(auto)]

ghost use Rattle.std.specs.Prelude.{◌≡◌, ◌≢◌, ℕ, ◌<◌, Bool, true, List, IsTrue};
ghost use Rattle.gw_retry.specs.declared.BodyKind.{BodyKind};
ghost use Rattle.gw_retry.specs.declared.BodyKind.TheVariants.{Once};
ghost use Rattle.gw_retry.specs.declared.Failure.{Failure};
ghost use Rattle.gw_retry.specs.declared.Failure.TheVariants.{NothingWritten};
ghost use Rattle.gw_retry.specs.Retry.{may_retry_of, only_reads, IsHarmless};

use http::Method;

#[cfg(test)]
mod tests;

/// The most attempts that are made of one request.
pub const MAX_ATTEMPTS: u32 = 8;

/// Why an attempt to exchange a request for a reply failed.
#[derive(Clone, Copy, Debug, PartialEq, Eq)]
pub enum Failure {
    /// A write failed before a byte of this attempt was taken.
    NothingWritten,
    /// The read of the reply's first byte failed.
    FirstByte,
    /// The connection ended where the reply's first byte was due.
    ServerClosed,
    /// A later write failed, or the reply broke off after its first byte.
    Broken,
    /// The reply is not well formed.
    BadResponse,
    /// The time for the exchange is over.
    Deadline,
    /// The exchange was cancelled.
    Cancelled,
}

/// Whether a request's body can be sent a second time.
#[derive(Clone, Copy, Debug, PartialEq, Eq)]
pub enum BodyKind {
    /// There is none, or it has no byte.
    Empty,
    /// It is kept whole.
    Rewindable,
    /// It is read from the client as it is sent, so what was sent is gone.
    Once,
}

/// Whether a request may be sent again after its attempt number `attempt`, counted from 1, failed by `f` on a
/// connection that was `reused`, or else fresh. `has_key` says that the request has a field `Idempotency-Key` or
/// `X-Idempotency-Key`.
///
/// A reused connection may have been closed by its server just then, so a request of which nothing was
/// written may go out again. One that may have been read goes out again only where its method or its key
/// says that a second request does no harm.
pub fn may_retry(
    f: Failure,
    reused: bool,
    method: &Method,
    has_key: bool,
    body: BodyKind,
    attempt: u32,
) -> bool
    ensures { result ≡ may_retry_of f reused method.now has_key body attempt }
{
    if !reused || attempt >= MAX_ATTEMPTS {
        return false;
    }
    match body {
        BodyKind::Once => return false,
        BodyKind::Empty | BodyKind::Rewindable => {}
    }
    match f {
        Failure::NothingWritten => true,
        Failure::FirstByte | Failure::ServerClosed => only_reads(method) || has_key,
        Failure::Broken | Failure::BadResponse | Failure::Deadline | Failure::Cancelled => false,
    }
}

// Whether the method is one of those that only read (RFC 9110, section 9.2.1).
fn only_reads(method: &Method) -> bool
    ensures { result ≡ only_reads method.now }
{
    matches!(method.as_str(), "GET" | "HEAD" | "OPTIONS" | "TRACE")
}

/// Nothing that may have been acted on is sent again unless its method or a key allows it.
pub fn acted_on_once()
    ensures { (f : Failure) (reused : Bool) (method : List ℕ) (has_key : Bool) (body : BodyKind) (attempt : ℕ)
        → IsTrue (may_retry_of f reused method has_key body attempt)
        → f ≢ NothingWritten → IsHarmless method has_key }
{}

/// Nothing is sent again after a fresh connection failed.
pub fn fresh_failure_is_final()
    ensures { (f : Failure) (reused : Bool) (method : List ℕ) (has_key : Bool) (body : BodyKind) (attempt : ℕ)
        → IsTrue (may_retry_of f reused method has_key body attempt)
        → IsTrue reused }
{}

/// The eighth attempt is the last.
pub fn eight_attempts_at_most()
    ensures { (f : Failure) (reused : Bool) (method : List ℕ) (has_key : Bool) (body : BodyKind) (attempt : ℕ)
        → IsTrue (may_retry_of f reused method has_key body attempt)
        → attempt < 8 }
{}

/// A body that is read as it is sent goes out once.
pub fn streamed_body_is_sent_once()
    ensures { (f : Failure) (reused : Bool) (method : List ℕ) (has_key : Bool) (body : BodyKind) (attempt : ℕ)
        → IsTrue (may_retry_of f reused method has_key body attempt)
        → body ≢ Once }
{}
