//! The rule of the gate's word, and its seven kinds of step.
ghost use Rattle.std.specs.Prelude.{◌≡◌, ◌<◌, true, false, []};
ghost use Rattle.gw_gate.specs.Gate.{spent};
ghost use Rattle.gw_gate.specs.Steps.{IsAt, IsSame, Enters, Leaves, Undoes, Shuts, Loads, split_left, split_right, joined};

use crate::view::GateView;
use atomic_table::{Join, Play, Seat, Shared, Split, TableRule};

// Bit 63 of the word.
pub(crate) const SHUT: u64 = 1 << 63;

pub struct GateRule;

impl TableRule<(), GateView, ()> for GateRule {
    ghost use Rattle.gw_gate.specs.Gate.{IsKept, first_view};

    ghost holds = { λ _. IsKept };

    ghost first = { λ _. first_view };
}

pub(crate) type Words = Shared<(), GateView, (), GateRule>;

pub(crate) type Place = Seat<(), GateView>;

struct Entering;

impl Play<(), GateView> for Entering {
    ghost then = { λ _ me n now. Enters me n now };
}

struct Leaving;

impl Play<(), GateView> for Leaving {
    ghost then = { λ _ me n now. Leaves me n now };
}

struct Undoing;

impl Play<(), GateView> for Undoing {
    ghost then = { λ _ me n now. Undoes me n now };
}

struct Shutting;

impl Play<(), GateView> for Shutting {
    ghost then = { λ _ me n now. Shuts me n now };
}

struct Loading;

impl Play<(), GateView> for Loading {
    ghost then = { λ _ me n now. Loads me n now };
}

struct Splitting;

impl Split<GateView> for Splitting {
    ghost left = { split_left };

    ghost right = { split_right };
}

struct Joining;

impl Join<GateView> for Joining {
    ghost both = { joined };

    ghost spent = { spent };
}

/// Counts a seat in. Each step gives the word before it.
pub(crate) fn enter(words: &Words, place: &mut Place) -> u64
    requires seat { IsAt words.now.table_id place.old }
    requires out { (place.old.me.0.held ≡ false) × (place.old.me.0.undoing ≡ false) }
    ensures same { IsSame place.old place.new }
    ensures view { Enters place.old.me result place.new.me }
{
    words.fetch_add::<Entering>(place, 0, 1)
}

/// Counts a seat out that is inside.
pub(crate) fn leave(words: &Words, place: &mut Place) -> u64
    requires seat { IsAt words.now.table_id place.old }
    requires inside { (place.old.me.0.held ≡ true) × (place.old.me.0.undoing ≡ false) }
    ensures same { IsSame place.old place.new }
    ensures view { Leaves place.old.me result place.new.me }
{
    words.fetch_sub::<Leaving>(place, 0, 1)
}

/// Counts a seat out whose `enter` was refused.
pub(crate) fn undo(words: &Words, place: &mut Place) -> u64
    requires seat { IsAt words.now.table_id place.old }
    requires refused { (place.old.me.0.held ≡ false) × (place.old.me.0.undoing ≡ true) }
    ensures same { IsSame place.old place.new }
    ensures view { Undoes place.old.me result place.new.me }
{
    words.fetch_sub::<Undoing>(place, 0, 1)
}

/// Sets the bit.
pub(crate) fn shut(words: &Words, place: &mut Place) -> u64
    requires { IsAt words.now.table_id place.old }
    ensures same { IsSame place.old place.new }
    ensures view { Shuts place.old.me result place.new.me }
{
    words.fetch_or::<Shutting>(place, 0, SHUT)
}

/// Reads the word.
pub(crate) fn load(words: &Words, place: &mut Place) -> u64
    requires { IsAt words.now.table_id place.old }
    ensures same { IsSame place.old place.new }
    ensures view { Loads place.old.me result place.new.me }
{
    words.load::<Loading>(place, 0)
}

/// Cuts a seat in two.
pub(crate) fn split(words: &Words, place: &mut Place) -> Place
    requires seat { IsAt words.now.table_id place.old }
    requires room { 1 < place.old.me.0.room }
    ensures same { IsSame place.old place.new }
    ensures old { place.new.me ≡ (split_left place.old.me.0, place.old.me.1) }
    ensures new { (result.table_id ≡ place.old.table_id) × (result.me ≡ (split_right place.old.me.0, [])) }
{
    words.split_seat::<Splitting>(place)
}

/// Makes two seats one.
pub(crate) fn join(words: &Words, place: &mut Place, other: Place)
    requires seats { IsAt words.now.table_id place.old × IsAt words.now.table_id other }
    requires out { (other.me.0.held ≡ false) × (other.me.0.undoing ≡ false) }
    ensures same { IsSame place.old place.new }
    ensures view { place.new.me ≡ (joined place.old.me.0 other.me.0, place.old.me.1) }
{
    words.join_seat::<Joining>(place, other);
}
