//! The pattern that is more specific than every other that matches.
ghost use Rattle.std.specs.Prelude.{◌≡◌, ◌<◌, ◌↔◌, IsTrue, MatchOption, length};
ghost use Rattle.gw_sets.specs.Shape.{IsShape};
ghost use Rattle.gw_mux.specs.Best.{IsAnswered, IsChosen, IsExactOf, WantsSlashBy};
ghost use Rattle.gw_mux.specs.Order.{IsOrder};
ghost use Rattle.gw_mux.specs.Sent.{AreLengths};
ghost use Rattle.gw_mux.specs.Table.{IsTable};
ghost use Rattle.gw_mux.specs.Walk.{asked_by, segments_in};

use crate::label::{Asked, Label};
use crate::order::run_of;
use crate::sent::SentPath;
use crate::tree::first_of;
use crate::walk::is_exact;
use gw_pattern::Pattern;

/// The best of the candidates for a path, which is given without its last slash. Takes no memory.
pub(crate) fn best(
    patterns: &[Pattern],
    order: &[u32],
    method: &[u8],
    host: &[u8],
    path: SentPath<'_>,
) -> Option<u32>
    requires table { IsTable patterns.now }
    requires order { IsOrder patterns.now order.now }
    requires shape { IsShape (asked_by method.now host.now path.body.now path.slash) }
    requires lengths { AreLengths path.lengths.now path.body.now }
    ensures { IsAnswered patterns.now (asked_by method.now host.now path.entry.body.now path.entry.slash) result }
{
    match best_with_host(patterns, order, method, host, path) {
        Some(best) => Some(best),
        None if host.is_empty() => None,
        None => best_with_host(patterns, order, method, &[], path),
    }
}

/// Whether a redirect is due from the path to that with a slash more, where that is the best for the path.
pub(crate) fn wants_slash(
    patterns: &[Pattern],
    order: &[u32],
    found: Option<u32>,
    method: &[u8],
    host: &[u8],
    path: SentPath<'_>,
) -> bool
    requires table { IsTable patterns.now }
    requires order { IsOrder patterns.now order.now }
    requires shape { IsShape (asked_by method.now host.now path.body.now path.slash) }
    requires lengths { AreLengths path.lengths.now path.body.now }
    requires answered { IsAnswered patterns.now (asked_by method.now host.now path.body.now path.slash) found }
    ensures { IsTrue result ↔ WantsSlashBy patterns.now method.now host.now path.entry.body.now path.entry.slash }
{
    if path.slash || is_exact_best(patterns, found, path.body) {
        return false;
    }
    let slashed = SentPath {
        slash: true,
        ..path
    };
    let other = best(patterns, order, method, host, slashed);
    is_exact_best(patterns, other, path.body)
}

// Whether there is such a pattern and it leaves nothing of the path to a `Rest`.
fn is_exact_best(patterns: &[Pattern], best: Option<u32>, body: &[u8]) -> bool
    requires { MatchOption best (Unit {0}) (λ i. i < length patterns.now) }
    ensures { IsTrue result ↔ IsExactOf patterns.now (segments_in body.now) best }
{
    match best {
        Some(best) => is_exact(&patterns[best as usize].segs, body),
        None => false,
    }
}

// The most specific of the patterns with these host bytes that match.
fn best_with_host(
    patterns: &[Pattern],
    order: &[u32],
    method: &[u8],
    host: &[u8],
    path: SentPath<'_>,
) -> Option<u32>
    requires table { IsTable patterns.now }
    requires order { IsOrder patterns.now order.now }
    requires shape { IsShape (asked_by method.now host.now path.body.now path.slash) }
    requires lengths { AreLengths path.lengths.now path.body.now }
    ensures { IsChosen patterns.now (asked_by method.now host.now path.entry.body.now path.entry.slash) (length patterns.now) result }
{
    let node = run_of(patterns, order, 0, &Asked::Label(Label::Host(host)));
    first_of(patterns, node, 0, method, path)
}
