//! Patterns against a path as it is sent: the walk makes no list of its segments.
ghost use Rattle.std.specs.Prelude.{◌≡◌, ◌<◌, ◌≤◌, [], IfSome, MatchOption, length, position};
ghost use Rattle.gw_pattern.specs.Path.{is_slash};
ghost use Rattle.gw_pattern.specs.Pattern.{wildcard_count};
ghost use Rattle.gw_mux.specs.Request.{is_exact, spans_of};
ghost use Rattle.gw_mux.specs.Walk.{CutsSlash, TakesPart, segments_in};

use crate::answer::Spans;
use gw_pattern::Seg;

/// The path without its last slash, and whether it has one.
pub(crate) fn cut_slash(path: &[u8]) -> (&[u8], bool)
    ensures { CutsSlash path.now result.0.now result.1 }
{
    match path {
        [body @ .., b'/'] => (body, true),
        _ => (path, false),
    }
}

/// Whether the segments, which match the path, leave nothing of it to a `Rest`.
pub(crate) fn is_exact(segs: &[Seg], body: &[u8]) -> bool
    ensures { result ≡ is_exact segs.now (segments_in body.now) }
{
    let mut left = body;
    for seg in segs {
        match seg {
            Seg::End => return true,
            Seg::Rest(_) => return left.is_empty(),
            Seg::Literal(_) | Seg::One(_) => {}
        }
        let Some((_, after)) = next_part(left) else {
            return true;
        };
        left = after;
    }
    true
}

/// The places in the path of what the named wildcards take.
pub(crate) fn spans(segs: &[Seg], path: &[u8]) -> Spans
    requires { wildcard_count segs.now ≤ 16 }
    ensures { result ≡ spans_of segs.now path.now }
{
    let mut spans = Spans::new();
    let mut left = path;
    for seg in segs {
        let Some((part, after)) = next_part(left) else {
            return spans;
        };
        let from = path.len() - left.len() + 1;
        match seg {
            Seg::End => return spans,
            Seg::Rest(name) => {
                if !name.as_slice().is_empty() {
                    spans.push(from, path.len());
                }
                return spans;
            }
            Seg::One(_) => spans.push(from, from + part.len()),
            Seg::Literal(_) => {}
        }
        left = after;
    }
    spans
}

/// The part behind the slash with which the path begins, and what follows it.
pub(crate) fn next_part(path: &[u8]) -> Option<(&[u8], &[u8])>
    ensures { MatchOption result (path.now ≡ []) (λ x. TakesPart path.now x.0.now x.1.now) }
{
    let [_, tail @ ..] = path else {
        return None;
    };
    match slash_in(tail) {
        None => Some((tail, &[])),
        Some(end) => Some((&tail[..end], &tail[end..])),
    }
}

// The place of the first slash.
fn slash_in(bytes: &[u8]) -> Option<usize>
    ensures place { result ≡ position is_slash bytes.now }
    ensures within { IfSome result (λ at. at < length bytes.now) }
{
    bytes.iter().position(|b| *b == b'/')
}
