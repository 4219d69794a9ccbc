//! One pool of connections for all workers.
ghost use Rattle.std.specs.Prelude.{◌≡◌, ◌+◌, ◌-◌, ◌<◌, ◌≤◌, [], length, map, All, IfOk, IfErr};
ghost use Rattle.gw_pool.specs.History.{IsLegal, AreBelow, mine};
ghost use Rattle.gw_pool.specs.Idle.{idle_links};
ghost use Rattle.gw_turn.specs.Pass.{fresh_passes, with_pass};
ghost use Rattle.gw_turn.specs.Steps.{IsAt, IsIn};
ghost use Rattle.gw_turn.specs.Turn.{Begins, first_view};

use crate::pass::Pass;
use crate::steps;
use crate::steps::{Place, TurnRule, Words};
use crate::turn::leave;
use crate::view::PassView;
use atomic_table::{Badge, Table};
use gw_pool::{Closed, Limits, PoolCore};
use gw_wire::Link;
use std::alloc::{AllocError, Global};
use std::marker::Model;
use std::mem;

/// One pool of connections for all workers, of which each calls it by a pass of its own, at a `Desk`. Contracts see which
/// pool it is.
#[derive(Drop)]
pub struct Pool<C: Link> {
    pub(crate) table: Table<Option<PoolCore<C>>, PassView, Limits, TurnRule, Global>,
}

impl<C: Link> Model for Pool<C> {
    ghost use Rattle.std.specs.Prelude.{◌≤◌};
    ghost use Rattle.atomic_table.specs.Seated.{TableId, table_id_coded};

    ghost Value = { TableId };

    ghost coded = { table_id_coded };

    ghost view = { λ p. p.table.shared.table_id };

    ghost invariant = { λ p. (2 ≤ p.table.shared.table_id.words) × (1 ≤ p.table.shared.table_id.slots) };
}

impl<C: Link> Pool<C> {
    /// Opens a pool, and reserves all that its limits allow. It gives as many passes as they say, with numbers from 0. An
    /// error is want of memory.
    pub fn open(alloc: Global, limits: Limits) -> Result<(Pool<C>, Vec<Pass>), AllocError>
        requires passes { 0 < limits.passes }
        requires per_pass { 0 < limits.per_pass }
        ensures { IfOk result (λ made. made.1.items ≡ fresh_passes made.0 limits 0 limits.passes) }
    {
        let core = PoolCore::open(alloc, limits)?;
        let mut slots = Vec::with_capacity(alloc, 1)?;
        slots.push_reserved(Some(core));
        match Table::new(alloc, &[0, 0], slots, &limits) {
            Ok((table, place)) => {
                let passes = hand_out(alloc, &table.shared, place, limits)?;
                Ok((Pool { table }, passes))
            }
            Err(_) => Err(AllocError),
        }
    }

    /// Takes a pass back into another, which knows then what both have seen.
    pub fn join_pass(&self, a: &mut Pass, b: Pass)
        requires { (a.old.pool ≡ self.now) × (b.pool ≡ self.now) }
        ensures { a.new ≡ with_pass a.old b }
    {
        let Pass {
            badge,
            out: _,
            waits: _,
            number: _,
        } = b;
        let mut place = mem::replace(&mut a.badge, Badge::blank()).into_seat();
        steps::join(&self.table.shared, &mut place, badge.into_seat());
        a.badge = place.into_badge();
    }

    /// Closes the pool, by the one pass that is left: all others were joined into it, and no token of any is out. It gives
    /// the journal, and the idle connections, the least recently idle first. An error is want of memory and gives the
    /// pool and the pass back as they were.
    pub fn close(self, mut last: Pass) -> Result<Closed<C>, (Pool<C>, Pass)>
        requires pool { last.pool ≡ self }
        requires alone { length last.joined + 1 ≡ last.lent.limits.passes }
        requires spent { (last.lent.out ≡ []) × All (λ m. m.out ≡ []) last.joined }
        ensures journal { IfOk result (λ c. c.journal.items ≡ last.lent.seen) }
        ensures legal { IfOk result (λ c. IsLegal last.lent.limits c.journal.items) }
        ensures callers { IfOk result (λ c. AreBelow last.lent.limits.passes c.journal.items) }
        ensures own { IfOk result (λ c. mine c.journal.items last.lent.number ≡ last.lent.mine) }
        ensures joined { IfOk result (λ c. All (IsIn c.journal.items) last.joined) }
        ensures past { IfOk result (λ c. All (Begins c.journal.items) last.past) }
        ensures idle { IfOk result (λ c. map (λ conn. (C.link conn).number) c.idle.items ≡ idle_links last.lent.limits last.lent.seen) }
        ensures back { IfErr result (λ b. (b.0 ≡ self) × (b.1 ≡ last)) }
    {
        let mut place = mem::replace(&mut last.badge, Badge::blank()).into_seat();
        steps::end_turns(&self.table.shared, &mut place);
        let core = steps::state_out(&self.table.shared, &mut place);
        match core.close() {
            Ok((journal, idle)) => Ok(Closed { journal, idle }),
            Err(core) => {
                steps::state_home(&self.table.shared, &mut place, core);
                last.badge = leave(&self.table.shared, place, &last.out, last.waits);
                Err((self, last))
            }
        }
    }
}

/// Makes the passes of all numbers, by cutting one after the other off.
fn hand_out<C: Link>(
    alloc: Global,
    words: &Words<C>,
    mut place: Place<C>,
    limits: Limits,
) -> Result<Vec<Pass>, AllocError>
    requires passes { 0 < limits.passes }
    requires seat { IsAt words.now.table_id place }
    requires view { place.me ≡ (first_view limits, []) }
    ensures { IfOk result (λ passes. passes.items ≡ fresh_passes place.table_id limits 0 limits.passes) }
{
    let mut passes = Vec::with_capacity(alloc, limits.passes as usize)?;
    for number in 1..limits.passes {
        let rest = steps::split(words, &mut place);
        let first = mem::replace(&mut place, rest);
        passes.push_reserved(Pass::new(alloc, first, number - 1, limits)?);
    }
    passes.push_reserved(Pass::new(alloc, place, limits.passes - 1, limits)?);
    Ok(passes)
}
