//! The turn of one pass, from its taking to its release.
ghost use Rattle.std.specs.Prelude.{◌≡◌, ◌≤◌, true, false, [], ◌∷◌, length, Some};
ghost use Rattle.atomic_table.specs.Seated.{TableId};
ghost use Rattle.gw_turn.specs.Meeting.{Meeting, Entering, Leaving};
ghost use Rattle.gw_turn.specs.Steps.{IsAt, IsSame, Met, took, core_of, lent_of, released, slot_core};

use crate::steps;
use crate::steps::{Place, Words};
use crate::view::PassView;
use atomic_table::Badge;
use gw_pool::Tokens;
use gw_wire::Link;
use std::marker::Brand;
use std::mem;
use std::sync::Wait;
use std::thread::yield_now;

/// Waits until the turn is this seat's.
fn wait_turn<R: Wait, C: Link>(rt: &R, words: &Words<C>, place: &mut Place<C>)
    requires seat { IsAt words.now.table_id place.old }
    requires idle { (place.old.me.0.turn ≡ false) × (place.old.me.1 ≡ []) }
    ensures same { IsSame place.old place.new }
    ensures met { Met place.old.me place.new.me }
{
    for _ in rt.forever() {
        if steps::try_turn(words, place) == 0 {
            return;
        }
        yield_now();
    }
    unreachable!()
}

/// Takes the turn: the pool's state is the seat's until its release, in its slot.
pub(crate) fn begin<R: Wait, C: Link>(
    rt: &R,
    words: &Words<C>,
    badge: &mut Badge<PassView>,
) -> Place<C>
    requires table { (2 ≤ words.now.table_id.words) × (1 ≤ words.now.table_id.slots) }
    requires seat { badge.old.table_id ≡ words.now.table_id }
    requires view { (v : PassView) × (badge.old.views ≡ v ∷ []) × (v.live ≡ true) × (v.turn ≡ false) }
    ensures seat { result.table_id ≡ words.now.table_id }
    ensures slot { result.me.1 ≡ (0, Some (slot_core result.me.1)) ∷ [] }
    ensures view { (v : PassView) × (badge.old.views ≡ v ∷ []) × (result.me.0 ≡ took (slot_core result.me.1) v) × Meeting (lent_of v) (slot_core result.me.1) }
{
    let mut place = mem::replace(badge, Badge::blank()).into_seat();
    wait_turn(rt, words, &mut place);
    place
}

/// Ends a turn in which the pass made no entry, or one that was counted up.
pub(crate) fn leave<C: Link>(
    words: &Words<C>,
    mut place: Place<C>,
    out: &Tokens,
    waits: u64,
) -> Badge<PassView>
    requires seat { IsAt words.now.table_id place }
    requires turn { place.me.0.turn ≡ true }
    requires slot { place.me.1 ≡ (0, Some (slot_core place.me.1)) ∷ [] }
    requires leave { Leaving place.me.0.own.number (core_of place.me.0) (slot_core place.me.1) place.me.0.own.out out.now.out }
    ensures seat { result.table_id ≡ place.table_id }
    ensures view { result.views ≡ released (slot_core place.me.1) out.now.out waits place.me.0 ∷ [] }
{
    steps::release::<Brand, C>(words, &mut place, out, waits);
    place.into_badge()
}

/// Ends a turn in which the pass made an entry, which is counted up.
pub(crate) fn enter<C: Link>(
    words: &Words<C>,
    mut place: Place<C>,
    out: &Tokens,
    waits: u64,
) -> Badge<PassView>
    requires seat { IsAt words.now.table_id place }
    requires turn { place.me.0.turn ≡ true }
    requires slot { place.me.1 ≡ (0, Some (slot_core place.me.1)) ∷ [] }
    requires entry { Entering place.me.0.own.number (core_of place.me.0) (slot_core place.me.1) place.me.0.own.out out.now.out }
    ensures seat { result.table_id ≡ place.table_id }
    ensures view { result.views ≡ released (slot_core place.me.1) out.now.out waits place.me.0 ∷ [] }
{
    let count = entries(words, &mut place);
    steps::count_up::<Brand, C>(words, &mut place, count, out);
    leave(words, place, out, waits)
}

/// How many entries the journal has.
pub(crate) fn entries<C: Link>(words: &Words<C>, place: &mut Place<C>) -> u64
    requires seat { IsAt words.now.table_id place.old }
    requires slot { place.old.me.1 ≡ (0, Some (slot_core place.old.me.1)) ∷ [] }
    ensures same { IsSame place.old place.new }
    ensures me { place.new.me ≡ place.old.me }
    ensures count { result ≡ length (slot_core place.old.me.1).journal }
{
    match &*place.slot_mut(words, steps::STATE) {
        Some(core) => core.journal().len() as u64,
        None => unreachable!(),
    }
}
