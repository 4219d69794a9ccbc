//! Ending nodes of a list in one pass, since parents come before their children.
ghost use Rattle.std.specs.Prelude.{◌≡◌, ◌<◌, true, ◌||◌, length, slice_set};
ghost use Rattle.gw_context.specs.declared.parts.Cause.TheVariants.{Canceled, DeadlineExceeded};
ghost use Rattle.gw_context.specs.Node.{node_at, Under, IsUnderDue, Ends, IsLinked, IsTied};
ghost use Rattle.gw_context.specs.Pass.{hangs, ended_if};

use crate::parts::{Cause, Node, is_due};

// Whether the node is tied to one that has ended.
fn hangs(nodes: &[Node], node: Node) -> bool
    requires { IsTied node → node.parent < length nodes.now }
    ensures { result ≡ hangs nodes.now node }
{
    node.tied && nodes[node.parent as usize].cause.is_some()
}

// Ends the node at a place where it is live and begins to end, or hangs on one that has ended.
fn settle(nodes: &mut [Node], i: usize, begins: bool, cause: Cause)
    requires inside { i < length nodes.old }
    requires lower { IsTied (node_at nodes.old i) → (node_at nodes.old i).parent < i }
    ensures { nodes.new ≡ slice_set nodes.old i (ended_if (begins || hangs nodes.old (node_at nodes.old i)) cause (node_at nodes.old i)) }
{
    let node = nodes[i];
    if node.cause.is_none() && (begins || hangs(nodes, node)) {
        nodes[i].cause = Some(cause);
    }
}

/// Ends the live nodes under a node with `Canceled`.
pub fn end_under(nodes: &mut [Node], node: usize)
    requires inside { node < length nodes.old }
    requires linked { IsLinked nodes.old }
    ensures { Ends Canceled (Under nodes.old node) nodes.old nodes.new }
{
    for i in node..nodes.len() {
        settle(nodes, i, i == node, Cause::Canceled);
    }
}

/// Ends the live nodes under a node whose deadline is at or before the moment with `DeadlineExceeded`.
pub fn end_due(nodes: &mut [Node], now: u64)
    requires { IsLinked nodes.old }
    ensures { Ends DeadlineExceeded (IsUnderDue nodes.old now) nodes.old nodes.new }
{
    for i in 0..nodes.len() {
        let begins = is_due(now, nodes[i].deadline);
        settle(nodes, i, begins, Cause::DeadlineExceeded);
    }
}
