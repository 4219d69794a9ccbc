//! Laws of every table of shared contexts. Each is a function with an empty body, whose `ensures` is the law. A state
//! here is any that meets the rule of the contexts, which holds between any two steps of its seats.
ghost use Rattle.std.specs.Prelude.{◌≡◌, ◌++◌, ℕ, List, Some, None};
ghost use Rattle.std.specs.List.{Contains};
ghost use mathlib.Core.Option.{some};
ghost use lib.ListN.{get_elem?};
ghost use Rattle.gw_context.specs.declared.parts.Cause.{Cause};
ghost use Rattle.gw_ctxwords.specs.declared.nodes.NodeSpec.{NodeSpec};
ghost use Rattle.gw_ctxwords.specs.declared.view.CtxView.{CtxView};
ghost use Rattle.gw_ctxwords.specs.declared.answers.Looked.TheVariants.{Live};
ghost use Rattle.gw_ctxwords.specs.Nodes.{Under};
ghost use Rattle.gw_ctxwords.specs.Words.{live_word, word_of};
ghost use Rattle.gw_ctxwords.specs.Rule.{CtxState, IsKept, Caused, word_at};
ghost use Rattle.gw_ctxwords.specs.Calls.{LookedAt};

/// A word that isn't live never changes: while a seat knows a node's cause, its word has it.
pub fn ended_for_good()
    ensures { (nodes : List NodeSpec) (s : CtxState) (number : ℕ) (v : CtxView) (node : ℕ) (cause : Cause) → IsKept nodes s → get_elem? s.views number ≡ some v → Contains v.ended (node, cause) → word_at s node ≡ word_of cause }
{}

/// A cause that a seat knows was set by a `cancel` of the node, or of one above it that it is tied to.
pub fn cause_was_set()
    ensures { (nodes : List NodeSpec) (s : CtxState) (number : ℕ) (v : CtxView) (node : ℕ) (cause : Cause) → IsKept nodes s → get_elem? s.views number ≡ some v → Contains v.ended (node, cause) → Caused nodes s.views node (word_of cause) }
{}

/// Where a node is called live, it and each node above it that it is tied to was read live in that call.
pub fn live_on_the_whole_way()
    ensures { (nodes : List NodeSpec) (node : ℕ) (before now : CtxView) → LookedAt nodes node before now Live → (more : List (ℕ × ℕ)) × (now.reads ≡ before.reads ++ more) × ((above : ℕ) → Under nodes above node → Contains more (above, live_word)) }
{}
