//! Whether two patterns conflict.
ghost use Rattle.std.specs.Prelude.{◌≡◌, ◌↔◌, IsTrue};
ghost use Rattle.gw_pattern.specs.Pattern.{IsWellFormed};
ghost use Rattle.gw_sets.specs.Relation.{Conflicts};

use crate::comparison::relate;
use gw_pattern::Pattern;

/// Whether the two have the same host bytes, some request is matched by both, and neither is more specific: then
/// no best pattern would answer that request. Takes no memory.
pub fn conflict(p: &Pattern, q: &Pattern) -> bool
    requires first { IsWellFormed p.now }
    requires second { IsWellFormed q.now }
    ensures { IsTrue result ↔ Conflicts p.now q.now }
{
    has_same_host(p, q) && relate(p, q).is_ambiguous()
}

// An empty host is the same as another empty one alone.
fn has_same_host(p: &Pattern, q: &Pattern) -> bool
    ensures { IsTrue result ↔ (p.now.host ≡ q.now.host) }
{
    p.host.as_slice() == q.host.as_slice()
}
