//! Laws of what the contracts speak of. Each is a function with an empty body, whose `ensures` is the law.
ghost use Rattle.std.specs.Prelude.{◌≡◌, ◌↔◌, ℕ, List, ◌∷◌, Ok};
ghost use Rattle.gw_pattern.specs.Grammar.{Spells};
ghost use Rattle.gw_pattern.specs.Path.{cleaned, slash, IsClean, IsTidy};
ghost use Rattle.gw_pattern.specs.Pattern.{Spelled};
ghost use Rattle.gw_pattern.specs.Text.{pattern_said};

/// A cleaned path is clean: cleaning it again changes nothing.
pub fn cleaned_is_clean()
    ensures { (path : List ℕ) → IsClean (cleaned path) }
{}

/// A cleaned path begins with a slash.
pub fn cleaned_begins_with_slash()
    ensures { (path : List ℕ) → (tail : List ℕ) × (cleaned path ≡ slash ∷ tail) }
{}

/// The clean paths are a slash and then parts of which none is `.` or `..`, and none but the last is empty.
pub fn clean_paths()
    ensures { (path : List ℕ) → IsClean path ↔ ((tail : List ℕ) × (path ≡ slash ∷ tail) × IsTidy tail) }
{}

/// A text spells the pattern that it says, as the grammar `[METHOD ][HOST]/[PATH]` has it.
pub fn texts_spell_patterns()
    ensures { (text : List ℕ) (p : Spelled) → pattern_said text ≡ Ok p → Spells text p }
{}
