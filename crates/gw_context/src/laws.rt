//! Laws of what the calls do. Each is a function with an empty body, whose `ensures` is the law.
ghost use Rattle.std.specs.Prelude.{◌≡◌, ℕ, Some, max};
ghost use Rattle.gw_context.specs.declared.parts.Cause.{Cause};
ghost use Rattle.gw_context.specs.Node.{node_at, Under, IsUnderDue};
ghost use Rattle.gw_context.specs.Tree.{TreeView, Cancelled, Advanced};

/// The first cause of a node stays.
pub fn first_cause_stays()
    ensures cancel { (n i : ℕ) (cause : Cause) (before now : TreeView) → Cancelled n before now → (node_at before.nodes i).cause ≡ Some cause → node_at now.nodes i ≡ node_at before.nodes i }
    ensures advance { (moment i : ℕ) (cause : Cause) (before now : TreeView) → Advanced moment before now → (node_at before.nodes i).cause ≡ Some cause → node_at now.nodes i ≡ node_at before.nodes i }
{}

/// A node that is not under the cancelled one, or not under one whose deadline has come, keeps what it has.
pub fn others_stay()
    ensures cancel { (n i : ℕ) (before now : TreeView) → Cancelled n before now → ¬ (Under before.nodes n i) → node_at now.nodes i ≡ node_at before.nodes i }
    ensures advance { (moment i : ℕ) (before now : TreeView) → Advanced moment before now → ¬ (IsUnderDue before.nodes moment i) → node_at now.nodes i ≡ node_at before.nodes i }
{}

/// Two moments told one after the other do what the later of them does.
pub fn later_moment_counts()
    ensures { (a b : ℕ) (first second third : TreeView) → Advanced a first second → Advanced b second third → Advanced (max a b) first third }
{}
