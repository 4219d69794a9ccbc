//! The pool over one list of entries, for callers by number.

ghost use Rattle.std.specs.Prelude.{◌++◌, ◌∷◌, vec_len, vec_capacity, ◌≡◌, ◌<◌, ◌+◌, ◌^◌, ◌≤◌, [], true, false, length, IsSome, IfOk, IfErr, None, find, map};
ghost use Rattle.gw_pool.specs.declared.entry.Call.TheVariants as call;
ghost use Rattle.gw_pool.specs.State.{wants_it, is_with, dials_for, has_number};
ghost use Rattle.gw_pool.specs.Idle.{idle_links};
ghost use Rattle.gw_pool.specs.Shelf.{is_among};
ghost use Rattle.gw_pool.specs.Machine.{units, standing};
ghost use Rattle.gw_pool.specs.Core.{CoreView, state_at, WantDone, AskDone, StartDone, Done as DoneBy, DonePut, CancelDone, Looks, IsOut, IsBack, IdleDone, IsQuiet, entry_of};

use crate::answers::{CoreAsk, CoreWant};
use crate::conns::{find_conn, find_conn_with};
use crate::entry::{Call, Entry, Reply};
use crate::leases::Put;
use crate::limits::Limits;
use crate::machine::{Done, Rows};
use crate::rows::{Place, Stage};
use crate::shelf::{Resting, Shelf, Shelved};
use crate::wants::{find_dial, find_want};
use gw_wire::Link;
use std::alloc::{AllocError, Global};
use std::marker::Model;

/// The pool on one thread. Contracts see its limits, its journal, and the wants whose connection was handed out.
#[derive(Drop)]
pub struct PoolCore<C: Link> {
    rows: Rows<C>,
    journal: Vec<Entry>,
    alloc: Global,
}

impl<C: Link> Model for PoolCore<C> {
    ghost use Rattle.gw_pool.specs.Core.{CoreView, Holds};

    ghost Value = { CoreView };

    ghost view = { λ p. record { limits = p.rows.limits; journal = p.journal.items; taken = p.rows.conns.taken } };

    ghost invariant = { λ p. Holds p.rows p.journal };
}

impl<C: Link> PoolCore<C> {
    /// Opens a pool, and reserves all that its limits allow. An error is want of memory.
    pub fn open(alloc: Global, limits: Limits) -> Result<PoolCore<C>, AllocError>
        requires passes { 0 < limits.passes }
        requires per_pass { 0 < limits.per_pass }
        ensures limits { IfOk result (λ p. p.limits ≡ limits) }
        ensures journal { IfOk result (λ p. p.journal ≡ []) }
        ensures taken { IfOk result (λ p. p.taken ≡ []) }
    {
        let units = limits.passes as usize * limits.per_pass as usize;
        Ok(PoolCore {
            rows: Rows {
                limits,
                wants: Vec::with_capacity(alloc, units + 1)?,
                dials: Vec::with_capacity(alloc, units + 1)?,
                conns: Shelf::new(alloc, units + limits.idle_total as usize + 1)?,
                next_want: 0,
                next_conn: 0,
                next_stamp: 0,
            },
            journal: Vec::with_capacity(alloc, limits.journal as usize + 1)?,
            alloc,
        })
    }

    /// The entries.
    pub fn journal(&self) -> &[Entry]
        ensures { result.now ≡ self.now.journal }
    {
        self.journal.as_slice()
    }

    /// A caller wants a connection to a host.
    pub fn want(&mut self, caller: u32, host: u32, now: u64) -> CoreWant<C>
        requires host { host < self.old.limits.hosts }
        requires caller { caller < self.old.limits.passes }
        requires few { length (units (state_at self.old) caller) < self.old.limits.per_pass }
        ensures { WantDone C.link self.old self.new caller host now result }
    {
        if self.journal.len() + self.rows.room() + 6 > self.rows.limits.journal as usize {
            return CoreWant::JournalFull;
        }
        let want = self.rows.next_want;
        let Done { reply, close } = self.rows.want(caller, host, now);
        enter(&mut self.journal, caller, Call::Want { host, now }, reply);
        match close {
            Some(conn) => CoreWant::Expired(conn),
            None => CoreWant::Made(want),
        }
    }

    /// How a want stands. A connection that is out to it is handed out. Nothing is entered.
    pub fn ask(&mut self, want: u64) -> CoreAsk<C>
        requires { is_among want self.old.taken ≡ false }
        ensures { AskDone C.link self.old self.new want result }
    {
        if let Some(Shelved { row, conn }) = self.rows.conns.lend(want) {
            return match conn {
                Some(conn) => CoreAsk::Taken(conn, row.conn, row.reused, row.host),
                None => unreachable!(),
            };
        }
        self.look(want)
    }

    /// How a want stands to which no connection is out.
    fn look(&self, want: u64) -> CoreAsk<C>
        requires { find (is_with want) (state_at self.now).conns ≡ None }
        ensures { Looks result (standing (state_at self.now) want) }
    {
        match find_want(self.rows.wants.as_slice(), want) {
            Some(row) => {
                if row.stage.is_granted() {
                    CoreAsk::Granted
                } else {
                    CoreAsk::NotYet
                }
            }
            None => CoreAsk::Failed,
        }
    }

    /// Begins the dial of a want that may dial; false where it may not, and nothing is entered then.
    pub fn start(&mut self, want: u64) -> bool
        requires { is_among want self.old.taken ≡ false }
        ensures { StartDone self.old self.new want result }
    {
        match find_want(self.rows.wants.as_slice(), want) {
            Some(row) => {
                if row.stage.is_granted() {
                    self.rows.start(row);
                    enter(
                        &mut self.journal,
                        row.caller,
                        Call::Start { want },
                        Reply::Go,
                    );
                    true
                } else {
                    false
                }
            }
            None => false,
        }
    }

    /// The dial for a want gave a connection.
    pub fn dialed(&mut self, want: u64, conn: C, now: u64) -> Put<C>
        requires { IsSome (find (dials_for want) (state_at self.old).dials) }
        ensures { DonePut C.link self.old self.new (call.Dialed want (C.link conn).number now) result.close }
    {
        let link = conn.number();
        match find_dial(self.rows.dials.as_slice(), want) {
            Some(dial) => {
                let Done { reply, close } = self.rows.dialed(dial, link, conn, now);
                enter(
                    &mut self.journal,
                    dial.caller,
                    Call::Dialed { want, link, now },
                    reply,
                );
                Put { close }
            }
            None => unreachable!(),
        }
    }

    /// The dial for a want failed.
    pub fn dial_failed(&mut self, want: u64)
        requires { IsSome (find (dials_for want) (state_at self.old).dials) }
        ensures { DoneBy self.old self.new (call.DialFailed want) }
    {
        match find_dial(self.rows.dials.as_slice(), want) {
            Some(dial) => {
                let reply = self.rows.failed(dial);
                enter(
                    &mut self.journal,
                    dial.caller,
                    Call::DialFailed { want },
                    reply,
                );
            }
            None => unreachable!(),
        }
    }

    /// A want whose connection wasn't handed out is given up. For one whose own dial failed before it was served
    /// nothing is entered.
    pub fn cancel(&mut self, want: u64, now: u64) -> Put<C>
        requires { is_among want self.old.taken ≡ false }
        ensures { CancelDone C.link self.old self.new want now result.close (standing (state_at self.old) want) }
    {
        match find_want(self.rows.wants.as_slice(), want) {
            Some(row) => {
                let reply = self.rows.cancel_want(row);
                enter(
                    &mut self.journal,
                    row.caller,
                    Call::Cancel { want, now },
                    reply,
                );
                Put { close: None }
            }
            None => self.cancel_conn(want, now),
        }
    }

    /// A want that has no row but may have a connection, which wasn't handed out, is given up.
    fn cancel_conn(&mut self, want: u64, now: u64) -> Put<C>
        requires kept { is_among want self.old.taken ≡ false }
        requires none { find (wants_it want) (state_at self.old).wants ≡ None }
        ensures { CancelDone C.link self.old self.new want now result.close (standing (state_at self.old) want) }
    {
        match find_conn_with(self.rows.conns.rows(), want) {
            Some(row) => match row.place {
                Place::Out { caller, .. } => {
                    let Done { reply, close } = self.rows.cancel_conn(want, row, now);
                    enter(&mut self.journal, caller, Call::Cancel { want, now }, reply);
                    Put { close }
                }
                Place::Idle { .. } => unreachable!(),
            },
            None => Put { close: None },
        }
    }

    /// A connection that is out is given back for further use: it goes to the least want of its host, becomes idle, or
    /// is to be closed.
    pub fn give_back(&mut self, no: u64, conn: C, now: u64) -> Put<C>
        requires { IsBack C.link conn (find (has_number no) (state_at self.old).conns) }
        ensures { DonePut C.link self.old self.new (call.GiveBack no now) result.close }
    {
        match find_conn(self.rows.conns.rows(), no) {
            Some(row) => match row.place {
                Place::Out { caller, .. } => {
                    let Done { reply, close } = self.rows.give_back(row, conn, now);
                    enter(
                        &mut self.journal,
                        caller,
                        Call::GiveBack { conn: no, now },
                        reply,
                    );
                    Put { close }
                }
                Place::Idle { .. } => unreachable!(),
            },
            None => unreachable!(),
        }
    }

    /// A connection that is out is given up.
    pub fn drop_conn(&mut self, no: u64)
        requires { IsOut (find (has_number no) (state_at self.old).conns) }
        ensures { DoneBy self.old self.new (call.Drop no) }
    {
        match find_conn(self.rows.conns.rows(), no) {
            Some(row) => match row.place {
                Place::Out { caller, .. } => {
                    let reply = self.rows.drop_conn(row);
                    enter(&mut self.journal, caller, Call::Drop { conn: no }, reply);
                }
                Place::Idle { .. } => unreachable!(),
            },
            None => unreachable!(),
        }
    }

    /// Takes out the least recently idle connection, which the caller closes, where it is expired; else nothing is
    /// entered.
    pub fn expire(&mut self, caller: u32, now: u64) -> Option<C>
        requires { caller < self.old.limits.passes }
        ensures { IdleDone C.link self.old self.new caller (call.Expire now) result }
    {
        match self.rows.take_expired(now) {
            Some(Resting { row, conn }) => {
                let reply = Reply::Taken { conn: row.conn };
                enter(&mut self.journal, caller, Call::Expire { now }, reply);
                Some(conn)
            }
            None => None,
        }
    }

    /// Takes out the least recently idle connection, which the caller closes; None where none is idle, and nothing is
    /// entered then.
    pub fn close_idle(&mut self, caller: u32) -> Option<C>
        requires { caller < self.old.limits.passes }
        ensures { IdleDone C.link self.old self.new caller call.CloseIdle result }
    {
        match self.rows.take_oldest() {
            Some(Resting { row, conn }) => {
                let reply = Reply::Taken { conn: row.conn };
                enter(&mut self.journal, caller, Call::CloseIdle, reply);
                Some(conn)
            }
            None => None,
        }
    }

    /// Closes the pool, which has no want, no dial and no connection that is out: its journal, and the idle
    /// connections, the least recently idle first. An error is want of memory and gives the pool back as it was.
    pub fn close(mut self) -> Result<(Vec<Entry>, Vec<C>), PoolCore<C>>
        requires { IsQuiet (state_at self) }
        ensures journal { IfOk result (λ r. r.0.items ≡ self.journal) }
        ensures idle { IfOk result (λ r. map (λ c. (C.link c).number) r.1.items ≡ idle_links self.limits self.journal) }
        ensures back { IfErr result (λ p. p ≡ self) }
    {
        match Vec::with_capacity(self.alloc, self.rows.conns.rows().len()) {
            Ok(mut idle) => {
                self.rows.empty_into(&mut idle);
                let PoolCore {
                    rows: _,
                    journal,
                    alloc: _,
                } = self;
                Ok((journal, idle))
            }
            Err(_) => Err(self),
        }
    }
}

/// Makes an entry.
fn enter(journal: &mut Vec<Entry>, caller: u32, call: Call, reply: Reply)
    requires { vec_len journal.old < vec_capacity journal.old }
    ensures items { journal.new.items ≡ journal.old.items ++ entry_of caller call reply ∷ [] }
    ensures room { vec_capacity journal.new ≡ vec_capacity journal.old }
{
    journal.push_reserved(Entry {
        caller,
        call,
        reply,
    });
}
