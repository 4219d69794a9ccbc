//! The states.
ghost use Rattle.std.specs.Prelude.{◌≡◌};
ghost use Rattle.gw_conn.specs.States.{FirstByte};

use gw_gate::{Enter, Inside};
use std::marker::Model;

/// A connection on which no byte was read yet.
pub struct New {
    state: (),
}

/// A connection between two requests.
pub struct Idle {
    state: (),
}

/// A connection with a request that began and isn't answered yet. Contracts see whose `Inside` it holds: the seat that
/// has to leave.
pub struct Active {
    inside: Inside,
}

impl Model for Active {
    ghost use Rattle.gw_gate.specs.Seat.{SeatName};

    ghost Value = { SeatName };

    ghost view = { λ a. a.inside };
}

impl New {
    /// A connection that was just accepted.
    pub fn made() -> New {
        New { state: () }
    }

    /// Its first byte was read, and then the gate was asked. None is Closed.
    pub fn first_byte(self, e: Enter) -> Option<Active>
        ensures { FirstByte e result }
    {
        let New { state: () } = self;
        begun(e)
    }

    /// Closed, with nothing to leave.
    pub fn close(self) {
        let New { state: () } = self;
    }
}

impl Idle {
    /// The first byte of a further request was read, and then the gate was asked. None is Closed.
    pub fn first_byte(self, e: Enter) -> Option<Active>
        ensures { FirstByte e result }
    {
        let Idle { state: () } = self;
        begun(e)
    }

    /// Closed, with nothing to leave.
    pub fn close(self) {
        let Idle { state: () } = self;
    }
}

impl Active {
    /// The request is answered. Hands back the `Inside`.
    pub fn idle(self) -> (Inside, Idle)
        ensures { result.0 ≡ self }
    {
        (self.close(), Idle { state: () })
    }

    /// Closed. Hands back the `Inside`.
    pub fn close(self) -> Inside
        ensures { result ≡ self }
    {
        let Active { inside } = self;
        inside
    }
}

// A request begins where the gate was open.
fn begun(e: Enter) -> Option<Active>
    ensures { FirstByte e result }
{
    match e {
        Enter::Granted(inside) => Some(Active { inside }),
        Enter::Shut => None,
    }
}
