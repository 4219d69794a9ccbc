//! The first conflict in a list of patterns.
ghost use Rattle.std.specs.Prelude.{ℕ, ◌<◌, All, MatchOption, length};
ghost use Rattle.gw_pattern.specs.Pattern.{IsWellFormed};
ghost use Rattle.gw_mux.specs.Table.{DoConflict, HasNoConflict, IsFirstConflict};

use gw_pattern::Pattern;
use gw_sets::conflict;

/// The least number of a pattern that conflicts with one of a lower number, and before it the least such lower
/// number.
pub(crate) fn first_conflict(patterns: &[Pattern]) -> Option<(usize, usize)>
    requires { All IsWellFormed patterns.now }
    ensures first { MatchOption result (HasNoConflict patterns.now) (λ x. IsFirstConflict patterns.now x.0 x.1) }
    ensures within { MatchOption result (Unit {0}) (λ x. (x.0 < length patterns.now) × (x.1 < length patterns.now)) }
{
    for second in 0..patterns.len() {
        if let Some(first) = lower_conflict(patterns, second) {
            return Some((first, second));
        }
    }
    None
}

// The least number below that one of a pattern that conflicts with it.
fn lower_conflict(patterns: &[Pattern], second: usize) -> Option<usize>
    requires within { second < length patterns.now }
    requires formed { All IsWellFormed patterns.now }
    ensures { MatchOption result
        ((i : ℕ) → DoConflict patterns.now i second → ⊥)
        (λ first. DoConflict patterns.now first second × ((i : ℕ) → i < first → DoConflict patterns.now i second → ⊥)) }
{
    for first in 0..second {
        if conflict(&patterns[first], &patterns[second]) {
            return Some(first);
        }
    }
    None
}
