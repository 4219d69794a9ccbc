//! The pool of a gateway with one caller.

ghost use Rattle.std.specs.Prelude.{◌≡◌, ◌<◌, [], true, false, map, IfOk, IfErr};
ghost use Rattle.gw_pool.specs.History.{IsLegal, AreBelow};
ghost use Rattle.gw_pool.specs.Idle.{idle_links};
ghost use Rattle.gw_pool.specs.Lent.{LeaseOf, AskStep, BackStep, DropStep, LooksAtRows};
ghost use Rattle.gw_pool.specs.Tokens.{has_ticket};

use crate::answers::{Closed, CoreAsk, CoreWant};
use crate::holding::{Holding, Tokens};
use crate::leases::{Ask, DialToken, Lease, Leases, Put, Start, Ticket, Want};
use crate::limits::Limits;
use crate::pool::PoolCore;
use gw_wire::Link;
use std::alloc::{AllocError, Global};
use std::marker::Model;

/// A pool whose one caller has the number 0; it knows its whole journal, and all entries are its own.
#[derive(Drop)]
pub struct Solo<C: Link> {
    core: PoolCore<C>,
    out: Tokens,
    waits: u64,
}

impl<C: Link> Model for Solo<C> {
    ghost use Rattle.std.specs.Prelude.{false};
    ghost use Rattle.gw_pool.specs.Lent.{Lent};
    ghost use Rattle.gw_pool.specs.Owner.{made_in};
    ghost use Rattle.gw_pool.specs.Ties.{SoloHolds};

    ghost Value = { Lent };

    ghost view = { λ s. record { limits = s.core.limits; number = 0; seen = s.core.journal; mine = s.core.journal; out = s.out.out; waits = s.waits; fresh = made_in s.core.journal; audit_failed = 0; ended = false } };

    ghost invariant = { λ s. SoloHolds s.core s.out };
}

impl<C: Link> Solo<C> {
    /// Opens a pool, and reserves all that its limits allow. An error is want of memory.
    pub fn open(alloc: Global, limits: Limits) -> Result<Solo<C>, AllocError>
        requires passes { 0 < limits.passes }
        requires per_pass { 0 < limits.per_pass }
        ensures limits { IfOk result (λ s. s.limits ≡ limits) }
        ensures number { IfOk result (λ s. s.number ≡ 0) }
        ensures seen { IfOk result (λ s. s.seen ≡ []) }
        ensures mine { IfOk result (λ s. s.mine ≡ []) }
        ensures out { IfOk result (λ s. s.out ≡ []) }
        ensures waits { IfOk result (λ s. s.waits ≡ 0) }
        ensures fresh { IfOk result (λ s. s.fresh ≡ []) }
        ensures audit { IfOk result (λ s. s.audit_failed ≡ 0) }
        ensures running { IfOk result (λ s. s.ended ≡ false) }
    {
        let core = PoolCore::open(alloc, limits)?;
        let out = Tokens::new(alloc, limits.per_pass as usize)?;
        Ok(Solo {
            core,
            out,
            waits: 0,
        })
    }

    /// Closes the pool, none of whose tokens is out: its journal, and the idle connections, the least recently idle
    /// first. An error is want of memory and gives the pool back as it was.
    pub fn close(self) -> Result<Closed<C>, Solo<C>>
        requires { self.out ≡ [] }
        ensures journal { IfOk result (λ c. c.journal.items ≡ self.seen) }
        ensures mine { IfOk result (λ c. c.journal.items ≡ self.mine) }
        ensures legal { IfOk result (λ c. IsLegal self.limits c.journal.items) }
        ensures callers { IfOk result (λ c. AreBelow self.limits.passes c.journal.items) }
        ensures idle { IfOk result (λ c. map (λ conn. (C.link conn).number) c.idle.items ≡ idle_links self.limits self.seen) }
        ensures back { IfErr result (λ s. s ≡ self) }
    {
        let Solo { core, out, waits } = self;
        match core.close() {
            Ok((journal, idle)) => Ok(Closed { journal, idle }),
            Err(core) => Err(Solo { core, out, waits }),
        }
    }
}

impl<C: Link> Leases<C> for Solo<C> {
    ghost lent = { λ s. s };

    ghost Keeper = { Unit {0} };

    ghost keeper = { λ _. tt };

    fn want(&mut self, host: u32, now: u64) -> Want<C> {
        match self.core.want(0, host, now) {
            CoreWant::Made(want) => {
                self.out.hand_out(want);
                Want::Ticket(Ticket { want, host })
            }
            CoreWant::Expired(conn) => Want::Expired(conn),
            CoreWant::JournalFull => Want::JournalFull,
        }
    }

    fn ask(&mut self, t: Ticket) -> Ask<C>
        requires token { has_ticket t.want self.old.out ≡ true }
        requires running { self.old.ended ≡ false }
        ensures step { AskStep C.link self.old self.new t result }
        ensures rows { LooksAtRows self.new t result }
        ensures stays { Unit {0} }
    {
        match self.core.ask(t.want) {
            CoreAsk::Taken(conn, no, reused, host) => {
                let Ticket { want, host: _ } = t;
                self.out.lease(want);
                let link = conn.number();
                Ask::Taken(Lease {
                    conn,
                    no,
                    want,
                    host,
                    link,
                    reused,
                })
            }
            CoreAsk::Granted => Ask::Granted(t),
            CoreAsk::NotYet => {
                self.waits = self.waits.saturating_add(1);
                Ask::NotYet(t)
            }
            CoreAsk::Failed => {
                let Ticket { want, host: _ } = t;
                self.out.spend_ticket(want);
                Ask::Failed
            }
        }
    }

    fn start(&mut self, t: &Ticket) -> Start {
        if self.core.start(t.want) {
            self.out.hand_out_dial(t.want);
            Start::Go(DialToken {
                want: t.want,
                host: t.host,
            })
        } else {
            Start::NotGranted
        }
    }

    fn dialed(&mut self, d: DialToken, conn: C, now: u64) -> Put<C> {
        let DialToken { want, host: _ } = d;
        self.out.spend_dial(want);
        self.core.dialed(want, conn, now)
    }

    fn dial_failed(&mut self, d: DialToken) {
        let DialToken { want, host: _ } = d;
        self.out.spend_dial(want);
        self.core.dial_failed(want);
    }

    fn cancel(&mut self, t: Ticket, now: u64) -> Put<C> {
        let Ticket { want, host: _ } = t;
        self.out.spend_ticket(want);
        self.core.cancel(want, now)
    }

    fn give_back(&mut self, l: Lease<C>, now: u64) -> Put<C>
        requires lease { LeaseOf C.link self.old l }
        requires running { self.old.ended ≡ false }
        ensures step { BackStep C.link self.old self.new l.no l.want now result }
        ensures stays { Unit {0} }
    {
        let Lease {
            conn,
            no,
            want,
            host: _,
            link: _,
            reused: _,
        } = l;
        self.out.spend_lease(want);
        self.core.give_back(no, conn, now)
    }

    fn drop_conn(&mut self, l: Lease<C>) -> C
        requires lease { LeaseOf C.link self.old l }
        requires running { self.old.ended ≡ false }
        ensures conn { result ≡ l.conn }
        ensures step { DropStep self.old self.new l.no l.want }
        ensures stays { Unit {0} }
    {
        let Lease {
            conn,
            no,
            want,
            host: _,
            link: _,
            reused: _,
        } = l;
        self.out.spend_lease(want);
        self.core.drop_conn(no);
        conn
    }

    fn expire(&mut self, now: u64) -> Option<C> {
        self.core.expire(0, now)
    }

    fn close_idle(&mut self) -> Option<C> {
        self.core.close_idle(0)
    }
}
