//! Laws of what the contracts speak of. Each is a function with an empty body, whose `ensures` is the law.
ghost use Rattle.std.specs.Prelude.{◌≡◌, ◌≢◌, ℕ, All, List, length, Option, ◌⊎◌};
ghost use Rattle.gw_pattern.specs.declared.form.Pattern.{Pattern};
ghost use Rattle.gw_pattern.specs.Path.{IsClean};
ghost use Rattle.gw_pattern.specs.Pattern.{IsWellFormed, wildcard_count};
ghost use Rattle.gw_sets.specs.Shape.{AreBytes, Asked, IsShape};
ghost use Rattle.gw_mux.specs.declared.answer.Decision.{Decision};
ghost use Rattle.gw_mux.specs.declared.answer.Hit.{Hit};
ghost use Rattle.gw_mux.specs.Answer.{Decides, IsHit};
ghost use Rattle.gw_mux.specs.Decision.{IsBest, IsCandidate, IsMoreSpecific};
ghost use Rattle.gw_mux.specs.Laws.{HasVisibleTarget, IsSpanIn, NamesMethod, told_by};
ghost use Rattle.gw_mux.specs.Table.{AreProper, HasNoConflict, IsAt};

/// In a list without conflicts, of two candidates of one request one is more specific than the other.
pub fn candidates_are_ordered()
    ensures { (patterns : List Pattern) (a : Asked) (i j : ℕ)
        → AreProper patterns → HasNoConflict patterns → IsShape a
        → IsCandidate patterns a i → IsCandidate patterns a j → i ≢ j
        → IsMoreSpecific patterns i j ⊎ IsMoreSpecific patterns j i }
{}

/// In a list without conflicts a request that has a candidate has a best one.
pub fn best_is_there()
    ensures { (patterns : List Pattern) (a : Asked) (i : ℕ)
        → AreProper patterns → HasNoConflict patterns → IsShape a
        → IsCandidate patterns a i → (b : ℕ) × IsBest patterns a b }
{}

/// A request has one decision at most.
pub fn decisions_are_unique()
    ensures { (patterns : List Pattern) (method host path : List ℕ) (query : Option (List ℕ)) (first second : Decision)
        → Decides patterns method host path query first → Decides patterns method host path query second
        → told_by first ≡ told_by second }
{}

/// A hit for a clean path has a span for each named wildcard of its pattern, and each lies in the path.
pub fn wildcards_have_spans()
    ensures { (patterns : List Pattern) (method host path : List ℕ) (hit : Hit) (p : Pattern)
        → IsClean path → IsHit patterns method host path hit → IsAt patterns hit.route p → IsWellFormed p
        → (length hit.spans ≡ wildcard_count p.segs.items) × All (IsSpanIn (length path)) hit.spans }
{}

/// In a list without conflicts an answer that only some methods are allowed names one (RFC 9110, section 15.5.6).
pub fn refusals_name_a_method()
    ensures { (patterns : List Pattern) (method host path : List ℕ) (query : Option (List ℕ)) (decision : Decision)
        → AreProper patterns → HasNoConflict patterns → AreBytes method → AreBytes host → AreBytes path
        → Decides patterns method host path query decision → NamesMethod decision }
{}

/// The target of a redirect is visible ASCII (RFC 3986, section 2), whatever was sent.
pub fn targets_are_visible()
    ensures { (patterns : List Pattern) (method host path : List ℕ) (query : Option (List ℕ)) (decision : Decision)
        → Decides patterns method host path query decision → HasVisibleTarget decision }
{}
