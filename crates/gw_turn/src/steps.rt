//! The rule of the turn, and its kinds of step.
ghost use Rattle.std.specs.Prelude.{◌≡◌, ℕ, ◌+◌, true, false, List, [], ◌∷◌, length, All, Some, None};
ghost use Rattle.gw_pool.specs.Core.{CoreView};
ghost use Rattle.gw_pool.specs.declared.holding.Holding.{Holding};
ghost use Rattle.gw_turn.specs.Turn.{spent};
ghost use Rattle.gw_turn.specs.Steps.{IsAt, IsSame, Tries, Ends, Others, core_of, counted, released, split_left, split_right, joined};
ghost use Rattle.gw_turn.specs.Meeting.{Entering, Leaving};

use crate::view::PassView;
use atomic_table::{Join, Play, Seat, Shared, Split, TableRule};
use gw_pool::{Limits, PoolCore, Tokens};
use gw_wire::Link;
use std::marker::{Brand, PhantomData};

// The words.
const TURN: usize = 0;

const COUNT: usize = 1;

// The slot of the pool's state.
pub(crate) const STATE: usize = 0;

pub struct TurnRule;

impl<C: Link> TableRule<Option<PoolCore<C>>, PassView, Limits> for TurnRule {
    ghost use Rattle.gw_turn.specs.Turn.{IsKept, first_view};

    ghost holds = { IsKept };

    ghost first = { first_view };
}

pub(crate) type Words<C> = Shared<Option<PoolCore<C>>, PassView, Limits, TurnRule>;

pub(crate) type Place<C> = Seat<Option<PoolCore<C>>, PassView>;

struct Trying;

impl<C: Link> Play<Option<PoolCore<C>>, PassView> for Trying {
    ghost then = { λ _ me n now. Tries me n now };
}

/// Takes the turn, where it is free: the word before is 0 then.
pub(crate) fn try_turn<C: Link>(words: &Words<C>, place: &mut Place<C>) -> u64
    requires seat { IsAt words.now.table_id place.old }
    requires idle { (place.old.me.0.turn ≡ false) × (place.old.me.1 ≡ []) }
    ensures same { IsSame place.old place.new }
    ensures view { Tries place.old.me result place.new.me }
{
    words.compare_exchange::<Trying>(place, TURN, 0, 1)
}

struct Ending;

impl<C: Link> Play<Option<PoolCore<C>>, PassView> for Ending {
    ghost then = { λ _ me n now. Ends me n now };
}

/// Takes the turn, which is free, by the one pass that is left.
pub(crate) fn end_turns<C: Link>(words: &Words<C>, place: &mut Place<C>)
    requires seat { IsAt words.now.table_id place.old }
    requires idle { (place.old.me.0.turn ≡ false) × (place.old.me.1 ≡ []) }
    requires alone { length place.old.me.0.joined + 1 ≡ place.old.me.0.limits.passes }
    requires spent { (place.old.me.0.own.out ≡ []) × All (λ m. m.out ≡ []) place.old.me.0.joined }
    ensures same { IsSame place.old place.new }
    ensures view { Ends place.old.me 0 place.new.me }
{
    words.compare_exchange::<Ending>(place, TURN, 0, 1);
}

/// Takes the pool's state out.
pub(crate) fn state_out<C: Link>(words: &Words<C>, place: &mut Place<C>) -> PoolCore<C>
    requires seat { IsAt words.now.table_id place.old }
    requires slot { (core : CoreView) × (place.old.me.1 ≡ (0, Some core) ∷ []) }
    ensures same { IsSame place.old place.new }
    ensures slot { (place.old.me.1 ≡ (0, Some result) ∷ []) × (place.new.me ≡ (place.old.me.0, (0, None) ∷ [])) }
{
    match words.exchange(place, STATE, None) {
        Some(core) => core,
        None => unreachable!(),
    }
}

/// Puts the pool's state home, which others see once the turn is released.
pub(crate) fn state_home<C: Link>(words: &Words<C>, place: &mut Place<C>, core: PoolCore<C>)
    requires seat { IsAt words.now.table_id place.old }
    requires slot { place.old.me.1 ≡ (0, None) ∷ [] }
    ensures same { IsSame place.old place.new }
    ensures slot { place.new.me ≡ (place.old.me.0, (0, Some core) ∷ []) }
{
    let _ = words.exchange(place, STATE, Some(core));
}

/// What a step makes of the pool's state and of what its pass knows, for the proof.
pub(crate) trait Becomes {
    ghost use Rattle.gw_pool.specs.Core.{CoreView};
    ghost use Rattle.gw_pool.specs.declared.holding.Holding.{Holding};

    ghost core: { CoreView };

    ghost out: { List Holding };

    ghost waits: { ℕ };
}

impl Becomes for Brand {
    ghost use Rattle.std.specs.Prelude.{[]};
    ghost use Rattle.gw_turn.specs.Turn.{core_at, no_limits};

    ghost core = { core_at no_limits [] [] };

    ghost out = { [] };

    ghost waits = { 0 };
}

struct CountingUp<E> {
    becomes: PhantomData<E>,
}

impl<C: Link, E: Becomes> Play<Option<PoolCore<C>>, PassView> for CountingUp<E> {
    ghost then = { λ _ me n now. now ≡ (counted E.core E.out me.0, me.1) };
}

/// Counts an entry up: the one step of a call that makes one.
pub(crate) fn count_up<E: Becomes, C: Link>(
    words: &Words<C>,
    place: &mut Place<C>,
    count: u64,
    _out: &Tokens,
)
    requires seat { IsAt words.now.table_id place.old }
    requires turn { place.old.me.0.turn ≡ true }
    requires becomes { (count ≡ length E.core.journal) × (E.out ≡ _out.now.out) }
    requires entry { Entering place.old.me.0.own.number (core_of place.old.me.0) E.core place.old.me.0.own.out _out.now.out }
    ensures same { IsSame place.old place.new }
    ensures view { place.new.me ≡ (counted E.core _out.now.out place.old.me.0, place.old.me.1) }
{
    words.swap::<CountingUp<E>>(place, COUNT, count);
}

struct Releasing<E> {
    becomes: PhantomData<E>,
}

impl<C: Link, E: Becomes> Play<Option<PoolCore<C>>, PassView> for Releasing<E> {
    ghost then = { λ _ me n now. now ≡ (released E.core E.out E.waits me.0, []) };
}

/// Releases the turn, by which the state is home.
pub(crate) fn release<E: Becomes, C: Link>(
    words: &Words<C>,
    place: &mut Place<C>,
    _out: &Tokens,
    _waits: u64,
)
    requires seat { IsAt words.now.table_id place.old }
    requires turn { place.old.me.0.turn ≡ true }
    requires becomes { (E.out ≡ _out.now.out) × (E.waits ≡ _waits) }
    requires slot { place.old.me.1 ≡ (0, Some E.core) ∷ [] }
    requires leave { Leaving place.old.me.0.own.number (core_of place.old.me.0) E.core place.old.me.0.own.out _out.now.out }
    ensures same { IsSame place.old place.new }
    ensures view { place.new.me ≡ (released E.core _out.now.out _waits place.old.me.0, []) }
{
    words.swap::<Releasing<E>>(place, TURN, 0);
}

struct Splitting;

impl Split<PassView> for Splitting {
    ghost left = { split_left };

    ghost right = { split_right };
}

struct Joining;

impl Join<PassView> for Joining {
    ghost both = { joined };

    ghost spent = { spent };
}

/// Cuts the passes of the other numbers off.
pub(crate) fn split<C: Link>(words: &Words<C>, place: &mut Place<C>) -> Place<C>
    requires seat { IsAt words.now.table_id place.old }
    requires idle { place.old.me.0.turn ≡ false }
    requires others { Others place.old.me.0 }
    ensures same { IsSame place.old place.new }
    ensures old { place.new.me ≡ (split_left place.old.me.0, place.old.me.1) }
    ensures new { (result.table_id ≡ place.old.table_id) × (result.me ≡ (split_right place.old.me.0, [])) }
{
    words.split_seat::<Splitting>(place)
}

/// Makes two seats one.
pub(crate) fn join<C: Link>(words: &Words<C>, place: &mut Place<C>, other: Place<C>)
    requires seats { IsAt words.now.table_id place.old × IsAt words.now.table_id other }
    requires idle { (place.old.me.0.turn ≡ false) × (other.me.0.turn ≡ false) × (other.me.1 ≡ []) }
    ensures same { IsSame place.old place.new }
    ensures view { place.new.me ≡ (joined place.old.me.0 other.me.0, place.old.me.1) }
{
    words.join_seat::<Joining>(place, other);
}
