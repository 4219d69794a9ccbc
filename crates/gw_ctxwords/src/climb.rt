//! The way up from a node.
ghost use Rattle.std.specs.Prelude.{◌≡◌, ◌<◌, length, IsTrue};
ghost use Rattle.std.specs.List.{Contains};
ghost use Rattle.gw_ctxwords.specs.Nodes.{Under, is_forest};
ghost use Rattle.gw_ctxwords.specs.Steps.{IsAt, IsSame, heard};
ghost use Rattle.gw_ctxwords.specs.Calls.{Above, Climbed, Knows};

use crate::nodes::{LIVE, NodeSpec, cause_of};
use crate::steps;
use crate::steps::{Place, Words};
use gw_context::Cause;

// The node that a node is tied to.
fn above(nodes: &[NodeSpec], node: u32) -> Option<u32>
    requires { node < length nodes.now }
    ensures { Above nodes.now node result }
{
    let spec = nodes[node as usize];
    if node > 0 && spec.tied {
        Some(spec.parent)
    } else {
        None
    }
}

/// The first node that has ended on the way up, and its cause.
pub(crate) fn climb(
    nodes: &[NodeSpec],
    words: &Words,
    place: &mut Place,
    node: u32,
) -> Option<(u32, Cause)>
    requires nodes { (words.now.key.items ≡ nodes.now) × IsTrue (is_forest nodes.now) }
    requires seat { IsAt nodes.now words.now.table_id place.old }
    requires node { node < length nodes.now }
    ensures same { IsSame place.old place.new }
    ensures slots { place.new.me.1 ≡ place.old.me.1 }
    ensures climbed { Climbed nodes.now node place.old.me.0 place.new.me.0 result }
    ensures known { Knows node place.old.me.0 result }
{
    let word = steps::load(words, place, node);
    if word != LIVE {
        return Some((node, cause_of(word)));
    }
    match above(nodes, node) {
        Some(parent) => climb(nodes, words, place, parent),
        None => None,
    }
}

/// Ends a node for the cause of one above it, and gives the cause that the node ended for.
pub(crate) fn settled(
    words: &Words,
    place: &mut Place,
    node: u32,
    above: u32,
    cause: Cause,
) -> Cause
    requires seat { IsAt words.now.key.items words.now.table_id place.old }
    requires node { node < length words.now.key.items }
    requires cause { Under words.now.key.items above node × Contains place.old.me.0.ended (above, cause) }
    ensures same { IsSame place.old place.new }
    ensures slots { place.new.me.1 ≡ place.old.me.1 }
    ensures view { place.new.me.0 ≡ heard node result place.old.me.0 }
{
    let found = steps::settle(words, place, node, above, cause);
    if found == LIVE {
        cause
    } else {
        cause_of(found)
    }
}
