//! The passes of a pool.
ghost use Rattle.std.specs.Prelude.{◌≡◌, ◌<◌, [], IfOk};
ghost use Rattle.gw_turn.specs.Pass.{fresh_pass};
ghost use Rattle.gw_turn.specs.Turn.{begun, unused};

use crate::steps::Place;
use crate::view::PassView;
use atomic_table::Badge;
use gw_pool::{Limits, Tokens};
use gw_wire::Link;
use std::alloc::{AllocError, Global};
use std::marker::Model;

/// One worker's pass of a pool: what it needs to call it, and what it knows of it. Contracts see whose pass it is, what
/// it knows (`Lent`), what the passes knew that were joined into it, and what had been seen when they were.
#[derive(Drop)]
pub struct Pass {
    pub(crate) badge: Badge<PassView>,
    pub(crate) out: Tokens,
    pub(crate) waits: u64,
    pub(crate) number: u32,
}

impl Model for Pass {
    ghost use Rattle.gw_turn.specs.Pass.{PassState, IsPass, state_of};

    ghost Value = { PassState };

    ghost view = { λ p. state_of p.badge.table_id p.badge.views };

    ghost invariant = { λ p. IsPass p.badge.views p.out p.waits p.number };
}

impl Pass {
    /// The pass of a number at a seat that knows nothing yet.
    pub(crate) fn new<C: Link>(
        alloc: Global,
        place: Place<C>,
        number: u32,
        limits: Limits,
    ) -> Result<Pass, AllocError>
        requires { place.me ≡ (begun limits (unused number) [], []) }
        ensures { IfOk result (λ p. p ≡ fresh_pass place.table_id limits number) }
    {
        let out = Tokens::new(alloc, limits.per_pass as usize)?;
        Ok(Pass {
            badge: place.into_badge(),
            out,
            waits: 0,
            number,
        })
    }
}
