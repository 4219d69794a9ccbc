//! Laws of every gate. Each is a function with an empty body, whose `ensures` is the law. A state here is any that meets
//! the rule of the gate, which holds between any two steps of its seats.
ghost use Rattle.std.specs.Prelude.{◌≡◌, ℕ, true, false, All, slice_index};
ghost use mathlib.Core.Option.{some};
ghost use lib.ListN.{get_elem?};
ghost use Rattle.gw_gate.specs.Gate.{GateState, IsKept, IsShut, Gate};
ghost use Rattle.gw_gate.specs.declared.view.GateView.{GateView};

/// The bit of the word says that some seat shut the gate, and its number is that of the seats that hold an `Inside` or
/// are undoing a refused `enter`, at most 64.
pub fn word_counts_seats()
    ensures { (s : GateState) → IsKept s → Gate s }
{}

/// The bit is never taken away: while a seat knows that it was seen, it is there.
pub fn seen_is_shut()
    ensures { (s : GateState) (number : ℕ) (view : GateView) → IsKept s → get_elem? s.views number ≡ some view → view.seen_shut ≡ true → IsShut (slice_index s.words 0) }
{}

/// While a seat knows that the gate was drained, it is shut, and no seat holds an `Inside`. So none is granted any more.
pub fn drained_is_empty()
    ensures { (s : GateState) (number : ℕ) (view : GateView) → IsKept s → get_elem? s.views number ≡ some view → view.drained ≡ true → IsShut (slice_index s.words 0) × All (λ v. v.held ≡ false) s.views }
{}
