//! The rule of the words, and their five kinds of step.
ghost use Rattle.std.specs.Prelude.{◌≡◌, ◌<◌, [], length};
ghost use Rattle.std.specs.List.{Contains};
ghost use Rattle.gw_ctxwords.specs.Nodes.{Under};
ghost use Rattle.gw_ctxwords.specs.Words.{cause_of};
ghost use Rattle.gw_ctxwords.specs.Rule.{spent};
ghost use Rattle.gw_ctxwords.specs.Steps.{IsAt, IsSame, Loads, Cancels, Settles, split_left, split_right, joined};

use crate::nodes::{LIVE, NodeSpec, word_of};
use crate::view::CtxView;
use atomic_table::{Join, Play, Seat, Shared, Split, TableRule};
use gw_context::Cause;

pub struct CtxRule;

impl TableRule<(), CtxView, Vec<NodeSpec>> for CtxRule {
    ghost use Rattle.gw_ctxwords.specs.Rule.{IsKept, first_view};

    ghost holds = { λ nodes. IsKept nodes.items };

    ghost first = { λ _. first_view };
}

pub(crate) type Words = Shared<(), CtxView, Vec<NodeSpec>, CtxRule>;

pub(crate) type Place = Seat<(), CtxView>;

struct Loading;

impl Play<(), CtxView> for Loading {
    ghost then = { λ step me n now. Loads step.word me n now };
}

struct Cancelling;

impl Play<(), CtxView> for Cancelling {
    ghost then = { λ step me n now. Cancels step.word (cause_of step.second) me n now };
}

struct Settling;

impl Play<(), CtxView> for Settling {
    ghost then = { λ step me n now. Settles step.word (cause_of step.second) me n now };
}

struct Splitting;

impl Split<CtxView> for Splitting {
    ghost left = { split_left };

    ghost right = { split_right };
}

struct Joining;

impl Join<CtxView> for Joining {
    ghost both = { joined };

    ghost spent = { spent };
}

/// Reads a node's word. Each step gives the word before it.
pub(crate) fn load(words: &Words, place: &mut Place, node: u32) -> u64
    requires seat { IsAt words.now.key.items words.now.table_id place.old }
    requires node { node < length words.now.key.items }
    ensures same { IsSame place.old place.new }
    ensures view { Loads node place.old.me result place.new.me }
{
    words.load::<Loading>(place, node as usize)
}

/// Ends a node that is live.
pub(crate) fn cancel(words: &Words, place: &mut Place, node: u32, cause: Cause) -> u64
    requires seat { IsAt words.now.key.items words.now.table_id place.old }
    requires node { node < length words.now.key.items }
    ensures same { IsSame place.old place.new }
    ensures view { Cancels node cause place.old.me result place.new.me }
{
    words.compare_exchange::<Cancelling>(place, node as usize, LIVE, word_of(cause))
}

/// Ends a node that is live, for the cause of a node above it.
pub(crate) fn settle(words: &Words, place: &mut Place, node: u32, above: u32, cause: Cause) -> u64
    requires seat { IsAt words.now.key.items words.now.table_id place.old }
    requires node { node < length words.now.key.items }
    requires cause { Under words.now.key.items above node × Contains place.old.me.0.ended (above, cause) }
    ensures same { IsSame place.old place.new }
    ensures view { Settles node cause place.old.me result place.new.me }
{
    words.compare_exchange::<Settling>(place, node as usize, LIVE, word_of(cause))
}

/// Cuts a seat in two.
pub(crate) fn split(words: &Words, place: &mut Place) -> Place
    requires seat { IsAt words.now.key.items words.now.table_id place.old }
    requires some { 0 < length words.now.key.items }
    requires room { 1 < place.old.me.0.room }
    ensures same { IsSame place.old place.new }
    ensures old { place.new.me ≡ (split_left place.old.me.0, place.old.me.1) }
    ensures new { (result.table_id ≡ place.old.table_id) × (result.me ≡ (split_right place.old.me.0, [])) }
{
    words.split_seat::<Splitting>(place)
}

/// Makes two seats one.
pub(crate) fn join(words: &Words, place: &mut Place, other: Place)
    requires seats { IsAt words.now.key.items words.now.table_id place.old × IsAt words.now.key.items words.now.table_id other }
    requires some { 0 < length words.now.key.items }
    ensures same { IsSame place.old place.new }
    ensures view { place.new.me ≡ (joined place.old.me.0 other.me.0, place.old.me.1) }
{
    words.join_seat::<Joining>(place, other);
}
