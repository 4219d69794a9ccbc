//! The gate, its seats and its calls.
ghost use Rattle.std.specs.Prelude.{◌≡◌, ◌<◌, true, false, IfOk, IsOkAnd, IsTrue, ◌↔◌};
ghost use Rattle.gw_gate.specs.Gate.{first_view, most_seats};
ghost use Rattle.gw_gate.specs.Seat.{with_view};
ghost use Rattle.gw_gate.specs.Steps.{split_left, split_right, joined};

use crate::steps;
use crate::steps::{GateRule, Place, SHUT};
use crate::view::GateView;
use atomic_table::Table;
use std::alloc::{AllocError, Global};
use std::marker::Model;
use std::snapshot::Snapshot;

/// There was no memory.
pub type NoMemory = AllocError;

/// A gate. Its other bits count who is inside. Contracts see which gate it is.
#[derive(Drop)]
pub struct Gate {
    table: Table<(), GateView, (), GateRule, Global>,
}

impl Model for Gate {
    ghost use Rattle.std.specs.Prelude.{◌≡◌};
    ghost use Rattle.atomic_table.specs.Seated.{TableId, table_id_coded};

    ghost Value = { TableId };

    ghost coded = { table_id_coded };

    ghost view = { λ g. g.table.shared.table_id };

    ghost invariant = { λ g. (g.table.shared.table_id.words ≡ 1) × (g.table.shared.table_id.slots ≡ 0) };
}

/// One thread's seat at a gate. Contracts see which seat it is and what it knows (`GateView`). It has no bytes.
#[derive(Drop)]
pub struct GateSeat {
    seat: Place,
}

impl Model for GateSeat {
    ghost use Rattle.std.specs.Prelude.{◌≡◌, ◌<◌, false, []};
    ghost use Rattle.gw_gate.specs.Seat.{SeatState};

    ghost Value = { SeatState };

    ghost view = { λ s. record { name = record { gate = s.seat.table_id; number = s.seat.id }; view = s.seat.me.0 } };

    ghost invariant = { λ s. (s.seat.me.1 ≡ []) × (0 < s.seat.me.0.room) × (s.seat.me.0.undoing ≡ false) };
}

/// Who has it is inside. Contracts see whose it is. It has to be spent, by the `leave` of its seat.
pub struct Inside {
    of: Snapshot<GateSeat>,
}

impl Model for Inside {
    ghost use Rattle.gw_gate.specs.Seat.{SeatName};

    ghost Value = { SeatName };

    ghost view = { λ i. i.of.value.name };
}

/// The answer of `Gate::enter`.
pub enum Enter {
    /// The gate was open. Leave by the `Inside`.
    Granted(Inside),
    /// The gate was shut.
    Shut,
}

/// The answer of `Gate::shut`.
#[derive(Clone, Copy, Debug, PartialEq, Eq)]
pub enum ShutAnswer {
    /// This call shut the gate.
    First,
    /// The gate was shut before.
    Already,
}

/// The answer of `Gate::look`.
#[derive(Clone, Copy, Debug, PartialEq, Eq)]
pub enum Look {
    /// The gate was open.
    Open,
    /// The gate was shut.
    Shut,
}

/// The answer of `Gate::drained`.
#[derive(Clone, Copy, Debug, PartialEq, Eq)]
pub enum Drained {
    /// The gate was shut, with nobody inside. Nobody comes in any more.
    Yes,
    /// The gate was open, or somebody counted as inside. The number is that of the seats that held an `Inside` or
    /// were undoing a refused `enter`.
    No(u64),
}

impl Gate {
    ghost use Rattle.gw_gate.specs.Calls.{Entered, Left, ShutBy, Reads, LookOf, DrainedOf};

    /// An open gate, and its first seat, of which 64 seats may come.
    pub fn new(alloc: Global) -> Result<(Gate, GateSeat), NoMemory>
        ensures { IfOk result (λ made. made.1 ≡ record { name = record { gate = made.0; number = 0 }; view = first_view }) }
    {
        let (table, seat) = Table::of_words(alloc, &[0], &())?;
        Ok((Gate { table }, GateSeat { seat }))
    }

    /// Another seat, for another thread. It has seen what the old one has. It takes no memory, so it is always made.
    pub fn split(&self, _alloc: Global, s: &mut GateSeat) -> Result<GateSeat, NoMemory>
        requires seat { s.old.name.gate ≡ self.now }
        requires room { 1 < s.old.view.room }
        ensures made { IsOkAnd result (λ new. (new.name.gate ≡ self.now) × (new.view ≡ split_right s.old.view)) }
        ensures old { s.new ≡ with_view s.old (split_left s.old.view) }
    {
        let seat = steps::split(&self.table.shared, &mut s.seat);
        Ok(GateSeat { seat })
    }

    /// Goes in, where the gate was open at the one step that counts this seat in. Where it was shut, the seat is
    /// counted out again.
    pub fn enter(&self, s: &mut GateSeat) -> Enter
        requires seat { s.old.name.gate ≡ self.now }
        requires outside { s.old.view.held ≡ false }
        ensures answer { Entered s.old s.new result }
        ensures told { result ≡ Enter.Shut → s.new.view.seen_shut ≡ true }
        ensures never_again { s.old.view.seen_shut ≡ true → result ≡ Enter.Shut }
    {
        let found = steps::enter(&self.table.shared, &mut s.seat);
        if found < SHUT {
            let of = Snapshot::of(s);
            return Enter::Granted(Inside { of });
        }
        steps::undo(&self.table.shared, &mut s.seat);
        Enter::Shut
    }

    /// Goes out, by the seat that went in.
    pub fn leave(&self, s: &mut GateSeat, i: Inside)
        requires seat { s.old.name.gate ≡ self.now }
        requires inside { (i ≡ s.old.name) × (s.old.view.held ≡ true) }
        ensures { Left s.old s.new }
    {
        let Inside { of: _ } = i;
        steps::leave(&self.table.shared, &mut s.seat);
    }

    /// Shuts the gate, for good.
    pub fn shut(&self, s: &mut GateSeat) -> ShutAnswer
        requires { s.old.name.gate ≡ self.now }
        ensures answer { ShutBy s.old s.new result }
        ensures told { s.new.view.seen_shut ≡ true }
        ensures never_again { s.old.view.seen_shut ≡ true → result ≡ ShutAnswer.Already }
    {
        if steps::shut(&self.table.shared, &mut s.seat) < SHUT {
            ShutAnswer::First
        } else {
            ShutAnswer::Already
        }
    }

    /// Whether the gate is shut.
    pub fn look(&self, s: &mut GateSeat) -> Look
        requires { s.old.name.gate ≡ self.now }
        ensures answer { LookOf s.new.view.last result }
        ensures seat { Reads s.old s.new }
        ensures told { result ≡ Look.Shut → s.new.view.seen_shut ≡ true }
        ensures never_again { s.old.view.seen_shut ≡ true → result ≡ Look.Shut }
    {
        if steps::load(&self.table.shared, &mut s.seat) < SHUT {
            Look::Open
        } else {
            Look::Shut
        }
    }

    /// Whether the gate is shut with nobody inside. After a `Yes` nobody holds an `Inside`, for good; a later call may
    /// still say `No`, while a refused `enter` is being undone.
    pub fn drained(&self, s: &mut GateSeat) -> Drained
        requires { s.old.name.gate ≡ self.now }
        ensures answer { DrainedOf s.new.view.last result }
        ensures seat { Reads s.old s.new }
        ensures told { result ≡ Drained.Yes → (s.new.view.seen_shut ≡ true) × (s.new.view.drained ≡ true) }
    {
        let found = steps::load(&self.table.shared, &mut s.seat);
        if found == SHUT {
            Drained::Yes
        } else {
            Drained::No(found % SHUT)
        }
    }

    /// Takes a seat back. What it knew the other one knows.
    pub fn join(&self, a: &mut GateSeat, b: GateSeat)
        requires seats { (a.old.name.gate ≡ self.now) × (b.name.gate ≡ self.now) }
        requires outside { b.view.held ≡ false }
        ensures { a.new ≡ with_view a.old (joined a.old.view b.view) }
    {
        let GateSeat { seat } = b;
        steps::join(&self.table.shared, &mut a.seat, seat);
    }

    /// Ends the gate, once all other seats were joined into this one, and says whether it is shut.
    pub fn close(self, last: GateSeat) -> bool
        requires seat { last.name.gate ≡ self }
        requires alone { last.view.room ≡ most_seats }
        ensures shut { IsTrue result ↔ (last.view.shut ≡ true) }
        ensures seen { last.view.seen_shut ≡ true → last.view.shut ≡ true }
    {
        let Gate { table } = self;
        let GateSeat { seat } = last;
        let closed = table.close_with(seat);
        let word = closed.word(0);
        closed.free();
        word >= SHUT
    }
}
