//! The tree.
ghost use Rattle.std.specs.Prelude.{◌≡◌, ◌+◌, ◌-◌, ◌^◌, ◌<◌, ℕ, length, IfOk, OnErr, IsSome, IfSome};
ghost use Rattle.gw_context.specs.Node.{node_at, IsLive, Under, IsUnderDue, Joins};
ghost use Rattle.gw_context.specs.Tree.{new_tree, added, child_of, timed_child_of, loose_child_of, lesser, cause_at_birth, Cancelled, Advanced, truncated};

use crate::parts::{Cause, Node, is_due};
use crate::spread::{end_due, end_under};
use std::alloc::{AllocError, Global};
use std::marker::Model;

/// There was no memory.
pub type NoMemory = AllocError;

/// A cancel tree of one thread. Its nodes are numbered from 0 on, and its moments are numbers that the caller
/// reads off one clock.
#[derive(Drop)]
pub struct Tree {
    last: u64,
    nodes: Vec<Node>,
}

impl Model for Tree {
    ghost use Rattle.gw_context.specs.Node.{IsSound};
    ghost use Rattle.gw_context.specs.Tree.{TreeView};

    ghost Value = { TreeView };

    ghost view = { λ t. record { last = t.last; nodes = t.nodes.items } };

    ghost invariant = { λ t. IsSound t.last t.nodes.items };
}

impl Tree {
    /// Node 0 alone, live and without a deadline, at the moment 0.
    pub fn new(alloc: Global) -> Result<Tree, NoMemory>
        ensures { IfOk result (λ tree. tree ≡ new_tree) }
    {
        let mut nodes = Vec::new(alloc);
        nodes.push(untied(0))?;
        Ok(Tree { last: 0, nodes })
    }

    /// Adds a node that ends with its parent, and gives its number. It has its parent's cause, and no deadline of
    /// its own. Without memory the tree is unchanged.
    pub fn child(&mut self, parent: u32) -> Result<u32, NoMemory>
        requires inside { parent < length self.old.nodes }
        requires room { length self.old.nodes < 2 ^ 32 - 1 }
        ensures ok { IfOk result (λ n. (n ≡ length self.old.nodes) × (self.new ≡ added self.old (child_of self.old parent))) }
        ensures err { OnErr result (self.new ≡ self.old) }
    {
        let cause = self.nodes[parent as usize].cause;
        self.add(Node {
            parent,
            tied: true,
            deadline: None,
            cause,
        })
    }

    /// Adds a node that ends with its parent, and no later than at the moment `at` or its parent's deadline, and
    /// gives its number. It has its parent's cause; under a live parent it ends at once where its deadline is at
    /// or before the last moment. Without memory the tree is unchanged.
    pub fn with_deadline(&mut self, parent: u32, at: u64) -> Result<u32, NoMemory>
        requires inside { parent < length self.old.nodes }
        requires room { length self.old.nodes < 2 ^ 32 - 1 }
        ensures ok { IfOk result (λ n. (n ≡ length self.old.nodes) × (self.new ≡ added self.old (timed_child_of self.old parent at))) }
        ensures err { OnErr result (self.new ≡ self.old) }
    {
        let above = self.nodes[parent as usize];
        let deadline = lesser(at, above.deadline);
        let cause = cause_at_birth(self.last, deadline, above.cause);
        self.add(Node {
            parent,
            tied: true,
            deadline: Some(deadline),
            cause,
        })
    }

    /// Adds a live node that is tied to nobody and has no deadline, and gives its number. Without memory the tree
    /// is unchanged.
    pub fn without_cancel(&mut self, parent: u32) -> Result<u32, NoMemory>
        requires inside { parent < length self.old.nodes }
        requires room { length self.old.nodes < 2 ^ 32 - 1 }
        ensures ok { IfOk result (λ n. (n ≡ length self.old.nodes) × (self.new ≡ added self.old (loose_child_of parent))) }
        ensures err { OnErr result (self.new ≡ self.old) }
    {
        self.add(untied(parent))
    }

    /// Ends a node and what is tied below it with `Canceled`, where it is live.
    pub fn cancel(&mut self, node: u32)
        requires { node < length self.old.nodes }
        ensures { Cancelled node self.old self.new }
    {
        end_under(&mut self.nodes, node as usize);
    }

    /// Tells the tree a moment. The last moment never falls. Nodes whose deadline is at or before the moment, and
    /// what is tied below them, end with `DeadlineExceeded`, where they are live.
    pub fn advance(&mut self, now: u64)
        ensures { Advanced now self.old self.new }
    {
        self.last = self.last.max(now);
        end_due(&mut self.nodes, now);
    }

    /// Forgets the nodes from the number n on. Node 0 stays.
    pub fn truncate(&mut self, n: u32)
        requires { 0 < n }
        ensures { self.new ≡ truncated n self.old }
    {
        self.nodes.truncate(n as usize);
    }

    /// Why a node ended, if it has. The first cause stays.
    pub fn cause(&self, node: u32) -> Option<Cause>
        requires { node < length self.now.nodes }
        ensures { result ≡ (node_at self.now.nodes node).cause }
    {
        self.nodes[node as usize].cause
    }

    // Adds a node behind the others.
    fn add(&mut self, node: Node) -> Result<u32, NoMemory>
        requires joins { Joins self.old.last self.old.nodes node }
        requires room { length self.old.nodes < 2 ^ 32 - 1 }
        ensures ok { IfOk result (λ n. (n ≡ length self.old.nodes) × (self.new ≡ added self.old node)) }
        ensures err { OnErr result (self.new ≡ self.old) }
    {
        let number = self.nodes.len() as u32;
        self.nodes.push(node)?;
        Ok(number)
    }
}

/// What is under an ended node has ended.
pub fn below_ended_is_ended(tree: &Tree)
    ensures { (n m : ℕ) → Under tree.now.nodes n m → IsSome (node_at tree.now.nodes n).cause → IsSome (node_at tree.now.nodes m).cause }
{
    let _sound = &tree.nodes;
}

/// The deadline of a live node is after the last moment.
pub fn live_before_deadline(tree: &Tree)
    ensures { (n : ℕ) → IsLive (node_at tree.now.nodes n) → IfSome (node_at tree.now.nodes n).deadline (λ deadline. tree.now.last < deadline) }
{
    let _sound = &tree.nodes;
}

/// A node that ended by a deadline is under one whose deadline is at or before the last moment.
pub fn expired_under_due(tree: &Tree)
    ensures { (n : ℕ) → (node_at tree.now.nodes n).cause ≡ Some Cause.DeadlineExceeded → IsUnderDue tree.now.nodes tree.now.last n }
{
    let _sound = &tree.nodes;
}

// A live node that is tied to nobody.
fn untied(parent: u32) -> Node
    ensures { result ≡ loose_child_of parent }
{
    Node {
        parent,
        tied: false,
        deadline: None,
        cause: None,
    }
}

// The lesser of a moment and a deadline, if there is one.
fn lesser(at: u64, deadline: Option<u64>) -> u64
    ensures { result ≡ lesser at deadline }
{
    match deadline {
        Some(deadline) => at.min(deadline),
        None => at,
    }
}

// The cause that a node is born with.
fn cause_at_birth(last: u64, deadline: u64, above: Option<Cause>) -> Option<Cause>
    ensures { result ≡ cause_at_birth last deadline above }
{
    match above {
        Some(cause) => Some(cause),
        None if is_due(last, Some(deadline)) => Some(Cause::DeadlineExceeded),
        None => None,
    }
}
