//! Looks at the gate between the parts of a session.

ghost use Rattle.std.specs.Prelude.{◌≡◌};
ghost use Rattle.gw_session.specs.Seats.{IsSameShared, NotesShut, seats_of};

use crate::shared::Shared;
use gw_gate::Look;

/// Whether the gate is shut. The moment at which that is first seen is noted.
pub fn look_shut(shared: &mut Shared<'_>, now: u64) -> bool
    ensures step { NotesShut (seats_of shared.old) (seats_of shared.new) now result }
    ensures same { IsSameShared shared.old shared.new }
    ensures buffers { shared.new.buffers.now ≡ shared.old.buffers.now }
{
    match shared.gate.look(shared.gate_seat) {
        Look::Open => false,
        Look::Shut => {
            if shared.shut_at.is_none() {
                shared.shut_at = Some(now);
            }
            true
        }
    }
}
