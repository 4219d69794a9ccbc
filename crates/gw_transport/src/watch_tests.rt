//! What a worker's looks find at their moments.

ghost use Rattle.std.specs.Prelude.{◌≡◌, ◌≤◌};

use crate::watch::{Watch, first_deadline_is_least};
use gw_context::Tree;
use gw_ctxwords::{CtxTable, NodeSpec};
use gw_gate::Gate;
use gw_stream::{Guard, Sight};
use std::alloc::Global;
use std::test::Fail;

const NOW: u64 = 784_111_777_000;

// The base, and a worker's own node under it.
const NODES: [NodeSpec; 2] = [
    NodeSpec {
        parent: 0,
        tied: false,
    },
    NodeSpec {
        parent: 0,
        tied: true,
    },
];

// What three looks find at their moments, where the gate is shut behind the first one or stays open, and when the gate was
// seen shut.
fn looks(
    alloc: Global,
    deadline: u64,
    first: u64,
    second: u64,
    third: u64,
    shuts: bool,
) -> Result<([Sight; 3], Option<u64>), Fail>
    requires rises { (first ≤ second) × (second ≤ third) }
{
    let mut tree = Tree::new(alloc)?;
    first_deadline_is_least();
    let node = tree.with_deadline(0, deadline)?;
    let (ctx, mut ctx_seat) = CtxTable::new(alloc, &NODES)?;
    let (gate, mut gate_seat) = Gate::new(alloc)?;
    let mut other = gate.split(alloc, &mut gate_seat)?;
    let mut watch = Watch {
        tree: &mut tree,
        node,
        ctx: &ctx,
        ctx_seat: &mut ctx_seat,
        ctx_node: 1,
        gate: &gate,
        gate_seat: &mut gate_seat,
        grace_ms: 100,
        shut_at: None,
        client_ms: 500,
    };
    let one = watch.look(first);
    if shuts {
        let _answer = gate.shut(&mut other);
    }
    let two = watch.look(second);
    let three = watch.look(third);
    Ok(([one, two, three], watch.shut_at))
}

#[test]
fn deadline(rt: HostRuntime) -> Result<(), Fail> {
    let seen = looks(rt.alloc(), NOW + 500, NOW, NOW + 499, NOW + 500, false)?;
    assert_eq!(rt; seen, ([Sight::On, Sight::On, Sight::Late], None));
    Ok(())
}

/// Behind a shut gate a trip goes on for the time of grace, counted from the look that saw it shut.
#[test]
fn contexts(rt: HostRuntime) -> Result<(), Fail> {
    let shut_at = Some(NOW + 1);
    let seen = looks(rt.alloc(), NOW + 500, NOW, NOW + 1, NOW + 101, true)?;
    assert_eq!(rt; seen, ([Sight::On, Sight::On, Sight::On], shut_at));
    let seen = looks(rt.alloc(), NOW + 500, NOW, NOW + 1, NOW + 102, true)?;
    assert_eq!(rt; seen, ([Sight::On, Sight::On, Sight::Cancelled], shut_at));
    Ok(())
}
