//! A worker's desk: the pool as its pass sees it.
ghost use Rattle.std.specs.Prelude.{◌≡◌, ◌<◌, true, false, length};
ghost use Rattle.gw_turn.specs.Pass.{Keeper, keeper};
ghost use Rattle.gw_pool.specs.Lent.{WantStep, AskStep, LooksAtRows, StartStep, DialedStep, DialFailedStep, CancelStep, BackStep, DropStep, IdleStep, LeaseOf};
ghost use Rattle.gw_pool.specs.Tokens.{has_ticket, has_dial};
ghost use Rattle.gw_pool.specs.declared.entry.Call.TheVariants as call;

use crate::pass::Pass;
use crate::pool::Pool;
use gw_pool::{Ask, DialToken, Lease, Leases, Put, Start, Ticket, Want};
use gw_wire::Link;
use std::sync::Wait;

/// A pool with the pass by which a worker calls it. Each call takes the turn, for which it may wait, and releases it.
#[derive(Drop)]
pub struct Desk<'a, R: Wait, C: Link> {
    /// Where a call waits.
    pub rt: &'a R,
    /// The pool.
    pub pool: &'a Pool<C>,
    /// A pass of the pool.
    pub pass: &'a mut Pass,
    ghost is_of: { pass.now.pool ≡ pool.now },
}

impl<'a, R: Wait, C: Link> Leases<C> for Desk<'a, R, C> {
    ghost lent = { λ d. d.pass.now.lent };

    ghost Keeper = { Keeper };

    ghost keeper = { λ d. keeper d.pass.ghost_name d.pass.now };

    fn want(&mut self, host: u32, now: u64) -> Want<C>
        requires host { host < self.old.pass.now.lent.limits.hosts }
        requires few { length self.old.pass.now.lent.out < self.old.pass.now.lent.limits.per_pass }
        requires running { self.old.pass.now.lent.ended ≡ false }
        ensures step { WantStep C.link self.old.pass.now.lent self.new.pass.now.lent host now result }
        ensures stays { keeper self.new.pass.ghost_name self.new.pass.now ≡ keeper self.old.pass.ghost_name self.old.pass.now }
    {
        self.pool.want(self.rt, self.pass, host, now)
    }

    fn ask(&mut self, t: Ticket) -> Ask<C>
        requires token { has_ticket t.want self.old.pass.now.lent.out ≡ true }
        requires running { self.old.pass.now.lent.ended ≡ false }
        ensures step { AskStep C.link self.old.pass.now.lent self.new.pass.now.lent t result }
        ensures rows { LooksAtRows self.new.pass.now.lent t result }
        ensures stays { keeper self.new.pass.ghost_name self.new.pass.now ≡ keeper self.old.pass.ghost_name self.old.pass.now }
    {
        self.pool.ask(self.rt, self.pass, t)
    }

    fn start(&mut self, t: &Ticket) -> Start
        requires token { has_ticket t.now.want self.old.pass.now.lent.out ≡ true }
        requires running { self.old.pass.now.lent.ended ≡ false }
        ensures step { StartStep self.old.pass.now.lent self.new.pass.now.lent t.now result }
        ensures stays { keeper self.new.pass.ghost_name self.new.pass.now ≡ keeper self.old.pass.ghost_name self.old.pass.now }
    {
        self.pool.start(self.rt, self.pass, t)
    }

    fn dialed(&mut self, d: DialToken, conn: C, now: u64) -> Put<C>
        requires token { has_dial d.want self.old.pass.now.lent.out ≡ true }
        requires running { self.old.pass.now.lent.ended ≡ false }
        ensures step { DialedStep C.link self.old.pass.now.lent self.new.pass.now.lent d (C.link conn).number now result }
        ensures stays { keeper self.new.pass.ghost_name self.new.pass.now ≡ keeper self.old.pass.ghost_name self.old.pass.now }
    {
        self.pool.dialed(self.rt, self.pass, d, conn, now)
    }

    fn dial_failed(&mut self, d: DialToken)
        requires token { has_dial d.want self.old.pass.now.lent.out ≡ true }
        requires running { self.old.pass.now.lent.ended ≡ false }
        ensures step { DialFailedStep self.old.pass.now.lent self.new.pass.now.lent d }
        ensures stays { keeper self.new.pass.ghost_name self.new.pass.now ≡ keeper self.old.pass.ghost_name self.old.pass.now }
    {
        self.pool.dial_failed(self.rt, self.pass, d);
    }

    fn cancel(&mut self, t: Ticket, now: u64) -> Put<C>
        requires token { has_ticket t.want self.old.pass.now.lent.out ≡ true }
        requires running { self.old.pass.now.lent.ended ≡ false }
        ensures step { CancelStep C.link self.old.pass.now.lent self.new.pass.now.lent t now result }
        ensures stays { keeper self.new.pass.ghost_name self.new.pass.now ≡ keeper self.old.pass.ghost_name self.old.pass.now }
    {
        self.pool.cancel(self.rt, self.pass, t, now)
    }

    fn give_back(&mut self, l: Lease<C>, now: u64) -> Put<C>
        requires lease { LeaseOf C.link self.old.pass.now.lent l }
        requires running { self.old.pass.now.lent.ended ≡ false }
        ensures step { BackStep C.link self.old.pass.now.lent self.new.pass.now.lent l.no l.want now result }
        ensures stays { keeper self.new.pass.ghost_name self.new.pass.now ≡ keeper self.old.pass.ghost_name self.old.pass.now }
    {
        self.pool.give_back(self.rt, self.pass, l, now)
    }

    fn drop_conn(&mut self, l: Lease<C>) -> C
        requires lease { LeaseOf C.link self.old.pass.now.lent l }
        requires running { self.old.pass.now.lent.ended ≡ false }
        ensures conn { result ≡ l.conn }
        ensures step { DropStep self.old.pass.now.lent self.new.pass.now.lent l.no l.want }
        ensures stays { keeper self.new.pass.ghost_name self.new.pass.now ≡ keeper self.old.pass.ghost_name self.old.pass.now }
    {
        self.pool.drop_conn(self.rt, self.pass, l)
    }

    fn expire(&mut self, now: u64) -> Option<C>
        requires running { self.old.pass.now.lent.ended ≡ false }
        ensures step { IdleStep C.link self.old.pass.now.lent self.new.pass.now.lent (call.Expire now) result }
        ensures stays { keeper self.new.pass.ghost_name self.new.pass.now ≡ keeper self.old.pass.ghost_name self.old.pass.now }
    {
        self.pool.expire(self.rt, self.pass, now)
    }

    fn close_idle(&mut self) -> Option<C>
        requires running { self.old.pass.now.lent.ended ≡ false }
        ensures step { IdleStep C.link self.old.pass.now.lent self.new.pass.now.lent call.CloseIdle result }
        ensures stays { keeper self.new.pass.ghost_name self.new.pass.now ≡ keeper self.old.pass.ghost_name self.old.pass.now }
    {
        self.pool.close_idle(self.rt, self.pass)
    }
}
