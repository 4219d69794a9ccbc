//! Whether a pattern matches a request.
ghost use Rattle.std.specs.Prelude.{◌≡◌, ◌<◌, ◌↔◌, IsTrue, All, length, Option};
ghost use Rattle.gw_pattern.specs.Pattern.{IsWellFormed};
ghost use Rattle.gw_sets.specs.Comparison.{is_get, is_head, matches_host, matches_method, matches_segs, takes};
ghost use Rattle.gw_sets.specs.Matches.{Matches};
ghost use Rattle.gw_sets.specs.Shape.{asked_of};

use crate::shape::Shape;
use gw_pattern::{Pattern, Seg};
use gw_wire::Bytes;
use http::Method;

/// Whether the pattern matches what is asked for. Methods and hosts are compared byte for byte. Takes no memory.
pub fn matches(p: &Pattern, s: &Shape) -> bool
    requires well_formed { IsWellFormed p.now }
    requires segments { All (λ part. 0 < length part) s.now.segs.items }
    ensures { IsTrue result ↔ Matches p.now (asked_of s.now) }
{
    if !matches_method(&p.method, s.method.as_slice()) {
        return false;
    }
    if !matches_host(p.host.as_slice(), s.host.as_slice()) {
        return false;
    }
    matches_segs(&p.segs, &s.segs, s.slash)
}

fn matches_method(method: &Option<Method>, asked: &[u8]) -> bool
    ensures { result ≡ matches_method method.now asked.now }
{
    match method {
        None => true,
        Some(method) => {
            let method = method.as_str().as_bytes();
            asked == method || is_get(method) && is_head(asked)
        }
    }
}

/// Whether a method is GET.
pub(crate) fn is_get(method: &[u8]) -> bool
    ensures { result ≡ is_get method.now }
{
    method == b"GET".as_slice()
}

/// Whether a method is HEAD.
pub(crate) fn is_head(method: &[u8]) -> bool
    ensures { result ≡ is_head method.now }
{
    method == b"HEAD".as_slice()
}

fn matches_host(host: &[u8], asked: &[u8]) -> bool
    ensures { result ≡ matches_host host.now asked.now }
{
    host.is_empty() || asked == host
}

// The segments from the left, each against the next part of the path.
fn matches_segs(segs: &[Seg], parts: &[Bytes], slash: bool) -> bool
    ensures { result ≡ matches_segs segs.now parts.now slash }
{
    let mut left = parts;
    for seg in segs {
        match seg {
            Seg::End => return left.is_empty() && slash,
            Seg::Rest(_) => return !left.is_empty() || slash,
            Seg::Literal(_) | Seg::One(_) => {}
        }
        let [part, after @ ..] = left else {
            return false;
        };
        if !takes(seg, part) {
            return false;
        }
        left = after;
    }
    left.is_empty() && !slash
}

// The segment takes that part alone.
fn takes(seg: &Seg, part: &Bytes) -> bool
    ensures { result ≡ takes seg.now part.now }
{
    match seg {
        Seg::Literal(bytes) => part.as_slice() == bytes.as_slice(),
        Seg::One(_) => true,
        Seg::Rest(_) | Seg::End => false,
    }
}
