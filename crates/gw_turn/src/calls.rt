//! The calls of a pass. Each takes the turn, and is one call of the pool's state; one that makes an entry counts it up.
ghost use Rattle.std.specs.Prelude.{◌≡◌, ◌<◌, true, length};
ghost use Rattle.gw_pool.specs.Lent.{WantStep, AskStep, LooksAtRows, StartStep, DialedStep, DialFailedStep, CancelStep, BackStep, DropStep, IdleStep, LeaseOf};
ghost use Rattle.gw_pool.specs.Tokens.{has_ticket, has_dial};
ghost use Rattle.gw_pool.specs.declared.entry.Call.TheVariants as call;

use crate::pass::Pass;
use crate::pool::Pool;
use crate::steps::STATE;
use crate::turn::{begin, enter, entries, leave};
use gw_pool::{Ask, CoreAsk, CoreWant, DialToken, Lease, Put, Start, Ticket, Want};
use gw_wire::Link;
use std::sync::Wait;

impl<C: Link> Pool<C> {
    /// Wants a connection to a host.
    pub(crate) fn want<R: Wait>(&self, rt: &R, pass: &mut Pass, host: u32, now: u64) -> Want<C>
        requires of { pass.old.pool ≡ self.now }
        requires host { host < pass.old.lent.limits.hosts }
        requires few { length pass.old.lent.out < pass.old.lent.limits.per_pass }
        ensures pass { (pass.new.pool ≡ pass.old.pool) × (pass.new.joined ≡ pass.old.joined) × (pass.new.past ≡ pass.old.past) }
        ensures step { WantStep C.link pass.old.lent pass.new.lent host now result }
    {
        let words = &self.table.shared;
        let mut place = begin(rt, words, &mut pass.badge);
        let made = match place.slot_mut(words, STATE) {
            Some(core) => core.want(pass.number, host, now),
            None => unreachable!(),
        };
        match made {
            CoreWant::Made(want) => {
                pass.out.hand_out(want);
                pass.badge = enter(words, place, &pass.out, pass.waits);
                Want::Ticket(Ticket { want, host })
            }
            CoreWant::Expired(conn) => {
                pass.badge = enter(words, place, &pass.out, pass.waits);
                Want::Expired(conn)
            }
            CoreWant::JournalFull => {
                pass.badge = leave(words, place, &pass.out, pass.waits);
                Want::JournalFull
            }
        }
    }

    /// Asks how a want stands.
    pub(crate) fn ask<R: Wait>(&self, rt: &R, pass: &mut Pass, t: Ticket) -> Ask<C>
        requires of { pass.old.pool ≡ self.now }
        requires token { has_ticket t.want pass.old.lent.out ≡ true }
        ensures pass { (pass.new.pool ≡ pass.old.pool) × (pass.new.joined ≡ pass.old.joined) × (pass.new.past ≡ pass.old.past) }
        ensures step { AskStep C.link pass.old.lent pass.new.lent t result }
        ensures rows { LooksAtRows pass.new.lent t result }
    {
        let words = &self.table.shared;
        let mut place = begin(rt, words, &mut pass.badge);
        let asked = match place.slot_mut(words, STATE) {
            Some(core) => core.ask(t.want),
            None => unreachable!(),
        };
        match asked {
            CoreAsk::Taken(conn, no, reused, host) => {
                let Ticket { want, host: _ } = t;
                pass.out.lease(want);
                pass.badge = leave(words, place, &pass.out, pass.waits);
                let link = conn.number();
                Ask::Taken(Lease {
                    conn,
                    no,
                    want,
                    host,
                    link,
                    reused,
                })
            }
            CoreAsk::Granted => {
                pass.badge = leave(words, place, &pass.out, pass.waits);
                Ask::Granted(t)
            }
            CoreAsk::NotYet => {
                pass.waits = pass.waits.saturating_add(1);
                pass.badge = leave(words, place, &pass.out, pass.waits);
                Ask::NotYet(t)
            }
            CoreAsk::Failed => {
                let Ticket { want, host: _ } = t;
                pass.out.spend_ticket(want);
                pass.badge = leave(words, place, &pass.out, pass.waits);
                Ask::Failed
            }
        }
    }

    /// Begins a dial.
    pub(crate) fn start<R: Wait>(&self, rt: &R, pass: &mut Pass, t: &Ticket) -> Start
        requires of { pass.old.pool ≡ self.now }
        requires token { has_ticket t.now.want pass.old.lent.out ≡ true }
        ensures pass { (pass.new.pool ≡ pass.old.pool) × (pass.new.joined ≡ pass.old.joined) × (pass.new.past ≡ pass.old.past) }
        ensures step { StartStep pass.old.lent pass.new.lent t.now result }
    {
        let words = &self.table.shared;
        let mut place = begin(rt, words, &mut pass.badge);
        let begun = match place.slot_mut(words, STATE) {
            Some(core) => core.start(t.want),
            None => unreachable!(),
        };
        if begun {
            pass.out.hand_out_dial(t.want);
            pass.badge = enter(words, place, &pass.out, pass.waits);
            Start::Go(DialToken {
                want: t.want,
                host: t.host,
            })
        } else {
            pass.badge = leave(words, place, &pass.out, pass.waits);
            Start::NotGranted
        }
    }

    /// Ends a dial by the connection that it gave.
    pub(crate) fn dialed<R: Wait>(
        &self,
        rt: &R,
        pass: &mut Pass,
        d: DialToken,
        conn: C,
        now: u64,
    ) -> Put<C>
        requires of { pass.old.pool ≡ self.now }
        requires token { has_dial d.want pass.old.lent.out ≡ true }
        ensures pass { (pass.new.pool ≡ pass.old.pool) × (pass.new.joined ≡ pass.old.joined) × (pass.new.past ≡ pass.old.past) }
        ensures step { DialedStep C.link pass.old.lent pass.new.lent d (C.link conn).number now result }
    {
        let DialToken { want, host: _ } = d;
        let words = &self.table.shared;
        let mut place = begin(rt, words, &mut pass.badge);
        let put = match place.slot_mut(words, STATE) {
            Some(core) => core.dialed(want, conn, now),
            None => unreachable!(),
        };
        pass.out.spend_dial(want);
        pass.badge = enter(words, place, &pass.out, pass.waits);
        put
    }

    /// Ends a dial that failed.
    pub(crate) fn dial_failed<R: Wait>(&self, rt: &R, pass: &mut Pass, d: DialToken)
        requires of { pass.old.pool ≡ self.now }
        requires token { has_dial d.want pass.old.lent.out ≡ true }
        ensures pass { (pass.new.pool ≡ pass.old.pool) × (pass.new.joined ≡ pass.old.joined) × (pass.new.past ≡ pass.old.past) }
        ensures step { DialFailedStep pass.old.lent pass.new.lent d }
    {
        let DialToken { want, host: _ } = d;
        let words = &self.table.shared;
        let mut place = begin(rt, words, &mut pass.badge);
        match place.slot_mut(words, STATE) {
            Some(core) => core.dial_failed(want),
            None => unreachable!(),
        }
        pass.out.spend_dial(want);
        pass.badge = enter(words, place, &pass.out, pass.waits);
    }

    /// Gives a want up.
    pub(crate) fn cancel<R: Wait>(&self, rt: &R, pass: &mut Pass, t: Ticket, now: u64) -> Put<C>
        requires of { pass.old.pool ≡ self.now }
        requires token { has_ticket t.want pass.old.lent.out ≡ true }
        ensures pass { (pass.new.pool ≡ pass.old.pool) × (pass.new.joined ≡ pass.old.joined) × (pass.new.past ≡ pass.old.past) }
        ensures step { CancelStep C.link pass.old.lent pass.new.lent t now result }
    {
        let Ticket { want, host: _ } = t;
        let words = &self.table.shared;
        let mut place = begin(rt, words, &mut pass.badge);
        let before = entries(words, &mut place);
        let put = match place.slot_mut(words, STATE) {
            Some(core) => core.cancel(want, now),
            None => unreachable!(),
        };
        pass.out.spend_ticket(want);
        if entries(words, &mut place) > before {
            pass.badge = enter(words, place, &pass.out, pass.waits);
        } else {
            pass.badge = leave(words, place, &pass.out, pass.waits);
        }
        put
    }

    /// Gives a connection back.
    pub(crate) fn give_back<R: Wait>(
        &self,
        rt: &R,
        pass: &mut Pass,
        l: Lease<C>,
        now: u64,
    ) -> Put<C>
        requires of { pass.old.pool ≡ self.now }
        requires lease { LeaseOf C.link pass.old.lent l }
        ensures pass { (pass.new.pool ≡ pass.old.pool) × (pass.new.joined ≡ pass.old.joined) × (pass.new.past ≡ pass.old.past) }
        ensures step { BackStep C.link pass.old.lent pass.new.lent l.no l.want now result }
    {
        let Lease {
            conn,
            no,
            want,
            host: _,
            link: _,
            reused: _,
        } = l;
        let words = &self.table.shared;
        let mut place = begin(rt, words, &mut pass.badge);
        let put = match place.slot_mut(words, STATE) {
            Some(core) => core.give_back(no, conn, now),
            None => unreachable!(),
        };
        pass.out.spend_lease(want);
        pass.badge = enter(words, place, &pass.out, pass.waits);
        put
    }

    /// Takes a connection out of the pool.
    pub(crate) fn drop_conn<R: Wait>(&self, rt: &R, pass: &mut Pass, l: Lease<C>) -> C
        requires of { pass.old.pool ≡ self.now }
        requires lease { LeaseOf C.link pass.old.lent l }
        ensures conn { result ≡ l.conn }
        ensures pass { (pass.new.pool ≡ pass.old.pool) × (pass.new.joined ≡ pass.old.joined) × (pass.new.past ≡ pass.old.past) }
        ensures step { DropStep pass.old.lent pass.new.lent l.no l.want }
    {
        let Lease {
            conn,
            no,
            want,
            host: _,
            link: _,
            reused: _,
        } = l;
        let words = &self.table.shared;
        let mut place = begin(rt, words, &mut pass.badge);
        match place.slot_mut(words, STATE) {
            Some(core) => core.drop_conn(no),
            None => unreachable!(),
        }
        pass.out.spend_lease(want);
        pass.badge = enter(words, place, &pass.out, pass.waits);
        conn
    }

    /// Takes the least recently idle connection out, where it is expired.
    pub(crate) fn expire<R: Wait>(&self, rt: &R, pass: &mut Pass, now: u64) -> Option<C>
        requires of { pass.old.pool ≡ self.now }
        ensures pass { (pass.new.pool ≡ pass.old.pool) × (pass.new.joined ≡ pass.old.joined) × (pass.new.past ≡ pass.old.past) }
        ensures step { IdleStep C.link pass.old.lent pass.new.lent (call.Expire now) result }
    {
        let words = &self.table.shared;
        let mut place = begin(rt, words, &mut pass.badge);
        let taken = match place.slot_mut(words, STATE) {
            Some(core) => core.expire(pass.number, now),
            None => unreachable!(),
        };
        match taken {
            Some(conn) => {
                pass.badge = enter(words, place, &pass.out, pass.waits);
                Some(conn)
            }
            None => {
                pass.badge = leave(words, place, &pass.out, pass.waits);
                None
            }
        }
    }

    /// Takes the least recently idle connection out.
    pub(crate) fn close_idle<R: Wait>(&self, rt: &R, pass: &mut Pass) -> Option<C>
        requires of { pass.old.pool ≡ self.now }
        ensures pass { (pass.new.pool ≡ pass.old.pool) × (pass.new.joined ≡ pass.old.joined) × (pass.new.past ≡ pass.old.past) }
        ensures step { IdleStep C.link pass.old.lent pass.new.lent call.CloseIdle result }
    {
        let words = &self.table.shared;
        let mut place = begin(rt, words, &mut pass.badge);
        let taken = match place.slot_mut(words, STATE) {
            Some(core) => core.close_idle(pass.number),
            None => unreachable!(),
        };
        match taken {
            Some(conn) => {
                pass.badge = enter(words, place, &pass.out, pass.waits);
                Some(conn)
            }
            None => {
                pass.badge = leave(words, place, &pass.out, pass.waits);
                None
            }
        }
    }
}
