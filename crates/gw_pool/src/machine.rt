//! The pool's machine over its rows: one function for each case of the definition.

ghost use Rattle.std.specs.Prelude.{◌≡◌, ◌<◌, ◌≤◌, ◌+◌, ◌^◌, ◌++◌, None, Some, false, find, nat_lt, map, IfSome, IfNone, length, OnSome, vec_len, vec_capacity, option_map, ◌↔◌, true};
ghost use Rattle.gw_pool.specs.Places.{is_idle, since_of};
ghost use Rattle.gw_pool.specs.State.{remove_first, has_number, is_free, is_expired, take_newest, take_oldest, least_want, least_waiting, wants_it, is_with, dials_for};
ghost use Rattle.gw_pool.specs.Offer.{grant_to, grant, evict, rest, freed, offer_to, offer_conn};
ghost use Rattle.gw_pool.specs.Machine.{want_new, want_idle, want_by, want_step, start_row, dialed_conn, dialed_to, dialed_row, failed_to, failed_row, cancel_row, cancel_conn, back_row, drop_row, expire_by};
ghost use Rattle.gw_pool.specs.History.{room};
ghost use Rattle.gw_pool.specs.Idle.{idle_rows};
ghost use Rattle.gw_pool.specs.Rows.{state_of, HasRoom, Keeps};
ghost use Rattle.gw_pool.specs.Shelf.{resting_row, is_lent, IsKept};
ghost use Rattle.gw_pool.specs.Closes.{Closes};

use crate::conns::{
    conn_at, conn_with_at, count_conns, count_idle, count_idle_for, find_stamped, newest, oldest,
    stamped_at, stamped_for_at,
};
use crate::entry::{Offer, Reply};
use crate::limits::Limits;
use crate::rows::{ConnRow, DialRow, Place, Stage, WantRow};
use crate::shelf::{Resting, Shelf, Shelved, with_conn};
use crate::wants::{
    count_dials, count_granted, find_want, least_waiting_of, least_want_of, take_dial,
    take_waiting, take_want, take_want_as,
};
use gw_wire::Link;

/// The state of the pool.
#[derive(Drop)]
pub struct Rows<C: Link> {
    pub limits: Limits,
    pub wants: Vec<WantRow>,
    pub dials: Vec<DialRow>,
    pub conns: Shelf<C>,
    pub next_want: u64,
    pub next_conn: u64,
    pub next_stamp: u64,
}

/// Where an offered connection went, and the connection that is to be closed by it.
pub struct Offered<C> {
    pub offer: Offer,
    pub close: Option<C>,
}

/// What a step gives: the machine's reply, and the connection that left the pool by it.
pub struct Done<C> {
    pub reply: Reply,
    pub close: Option<C>,
}

impl<C: Link> Rows<C> {
    /// Whether a host has a free place.
    #[tactic(auto, unfolding(crate::specs::State::is_free, crate::specs::State::used))]
    fn is_free(&self, host: u32) -> bool
        ensures { result ≡ is_free self.now.limits (state_of self.now) host }
    {
        let limit = self.limits.conns_per_host as usize;
        if limit == 0 {
            return true;
        }
        let conns = count_conns(self.conns.rows(), host);
        let dials = count_dials(self.dials.as_slice(), host);
        let granted = count_granted(self.wants.as_slice(), host);
        is_sum_below(conns, dials, granted, limit)
    }

    /// Whether a connection that is idle since a time is expired at another.
    #[tactic(auto, unfolding(crate::specs::State::is_expired))]
    fn is_expired(&self, since: u64, now: u64) -> bool
        ensures { result ≡ is_expired self.now.limits since now }
    {
        if self.limits.idle_ms == 0 {
            return false;
        }
        if now <= since {
            return false;
        }
        now - since > self.limits.idle_ms
    }

    /// A place goes to this want.
    #[tactic(auto, using(crate::proofs::Edits::length_left), unfolding(crate::specs::Offer::grant_to))]
    fn grant_to(&mut self, row: Option<WantRow>) -> Option<u64>
        requires { vec_len self.old.wants < vec_capacity self.old.wants }
        ensures next { result ≡ (grant_to (state_of self.old) row).0 }
        ensures state { state_of self.new ≡ (grant_to (state_of self.old) row).1 }
        ensures keeps { Keeps self.old self.new }
    {
        match row {
            None => None,
            Some(row) => {
                take_waiting(&mut self.wants, row.host, row.want);
                self.wants.push_reserved(WantRow {
                    stage: Stage::Granted,
                    ..row
                });
                Some(row.want)
            }
        }
    }

    /// A place of a host that may be free goes to the least want of it that waits.
    #[tactic(auto, unfolding(crate::specs::Offer::grant, crate::specs::State::least_waiting))]
    fn grant(&mut self, host: u32) -> Option<u64>
        requires { vec_len self.old.wants < vec_capacity self.old.wants }
        ensures next { result ≡ (grant self.old.limits (state_of self.old) host).0 }
        ensures state { state_of self.new ≡ (grant self.old.limits (state_of self.old) host).1 }
        ensures keeps { Keeps self.old self.new }
    {
        if self.is_free(host) {
            let row = least_waiting_of(self.wants.as_slice(), host);
            self.grant_to(row)
        } else {
            None
        }
    }

    /// Takes out the most recently idle connection of a host.
    #[tactic(auto, using(crate::proofs::Edits::length_left), unfolding(crate::specs::State::take_newest, crate::specs::State::newest_stamp))]
    fn take_newest(&mut self, host: u32) -> Option<Resting<C>>
        ensures row { resting_row result ≡ (take_newest (state_of self.old) host).0 }
        ensures state { state_of self.new ≡ (take_newest (state_of self.old) host).1 }
        ensures number { IfSome result (λ r. (C.link r.conn).number ≡ r.row.link) }
        ensures room { HasRoom self.old → HasRoom self.new }
        ensures next { self.new.next_want ≡ self.old.next_want }
        ensures keeps { Keeps self.old self.new }
    {
        match newest(self.conns.rows(), host) {
            None => None,
            Some(stamp) => {
                let at = stamped_for_at(self.conns.rows(), host, stamp);
                with_conn(self.conns.take(at))
            }
        }
    }

    /// Takes out the least recently idle connection.
    #[tactic(auto, using(crate::proofs::Edits::length_left), unfolding(crate::specs::State::take_oldest, crate::specs::State::oldest_stamp))]
    pub fn take_oldest(&mut self) -> Option<Resting<C>>
        ensures row { resting_row result ≡ (take_oldest (state_of self.old)).0 }
        ensures state { state_of self.new ≡ (take_oldest (state_of self.old)).1 }
        ensures number { IfSome result (λ r. (C.link r.conn).number ≡ r.row.link) }
        ensures room { HasRoom self.old → HasRoom self.new }
        ensures next { self.new.next_want ≡ self.old.next_want }
        ensures fewer { OnSome result (length self.new.conns.rows + 1 ≡ length self.old.conns.rows) }
        ensures same { IfNone result (self.new ≡ self.old) }
        ensures keeps { Keeps self.old self.new }
    {
        match oldest(self.conns.rows()) {
            None => None,
            Some(stamp) => {
                let at = stamped_at(self.conns.rows(), stamp);
                with_conn(self.conns.take(at))
            }
        }
    }

    /// Of more idle connections than the limit permits the least recently idle one goes.
    #[tactic(auto, unfolding(crate::specs::Offer::evict))]
    fn evict(&mut self) -> Offered<C>
        ensures offer { result.offer ≡ (evict self.old.limits (state_of self.old)).offer }
        ensures close { Closes C.link result.close (evict self.old.limits (state_of self.old)).gone }
        ensures state { state_of self.new ≡ (evict self.old.limits (state_of self.old)).state }
        ensures keeps { Keeps self.old self.new }
    {
        if count_idle(self.conns.rows()) > self.limits.idle_total as usize {
            match self.take_oldest() {
                Some(Resting { row, conn }) => Offered {
                    offer: Offer::Idle {
                        evicted: Some(row.conn),
                    },
                    close: Some(conn),
                },
                None => Offered {
                    offer: Offer::Idle { evicted: None },
                    close: None,
                },
            }
        } else {
            Offered {
                offer: Offer::Idle { evicted: None },
                close: None,
            }
        }
    }

    /// A connection whose host has no want becomes idle, or is to be closed where its host has enough idle ones.
    #[tactic(auto, unfolding(crate::specs::Offer::rest))]
    fn rest(&mut self, row: ConnRow, conn: C, now: u64) -> Offered<C>
        requires room { HasRoom self.old }
        requires stamp { self.old.next_stamp < 2 ^ 63 }
        requires number { (C.link conn).number ≡ row.link }
        ensures offer { result.offer ≡ (rest self.old.limits (state_of self.old) row now).offer }
        ensures close { Closes C.link result.close (rest self.old.limits (state_of self.old) row now).gone }
        ensures state { state_of self.new ≡ (rest self.old.limits (state_of self.old) row now).state }
        ensures keeps { Keeps self.old self.new }
    {
        if count_idle_for(self.conns.rows(), row.host) < self.limits.idle_per_host as usize {
            let place = Place::Idle {
                stamp: self.next_stamp,
                since: now,
            };
            self.conns.put(ConnRow { place, ..row }, conn);
            self.next_stamp += 1;
            self.evict()
        } else {
            Offered {
                offer: Offer::Closed,
                close: Some(conn),
            }
        }
    }

    /// The place that a served want may have had goes to the next.
    #[tactic(auto, unfolding(crate::specs::Offer::freed))]
    fn freed(&mut self, want: WantRow) -> Option<u64>
        requires { vec_len self.old.wants < vec_capacity self.old.wants }
        ensures next { result ≡ (freed self.old.limits (state_of self.old) want).0 }
        ensures state { state_of self.new ≡ (freed self.old.limits (state_of self.old) want).1 }
        ensures keeps { Keeps self.old self.new }
    {
        if want.stage.is_granted() {
            self.grant(want.host)
        } else {
            None
        }
    }

    /// A connection goes to this want, or else rests.
    #[tactic(auto, using(crate::proofs::Edits::length_left), unfolding(crate::specs::Offer::offer_to))]
    fn offer_to(&mut self, row: ConnRow, conn: C, now: u64, want: Option<WantRow>) -> Offered<C>
        requires room { HasRoom self.old }
        requires stamp { self.old.next_stamp < 2 ^ 63 }
        requires number { (C.link conn).number ≡ row.link }
        ensures offer { result.offer ≡ (offer_to self.old.limits (state_of self.old) row now want).offer }
        ensures close { Closes C.link result.close (offer_to self.old.limits (state_of self.old) row now want).gone }
        ensures state { state_of self.new ≡ (offer_to self.old.limits (state_of self.old) row now want).state }
        ensures keeps { Keeps self.old self.new }
    {
        match want {
            None => self.rest(row, conn, now),
            Some(want) => {
                take_want_as(&mut self.wants, want.host, want.want);
                let place = Place::Out {
                    want: want.want,
                    caller: want.caller,
                };
                self.conns.put(ConnRow { place, ..row }, conn);
                let next = self.freed(want);
                Offered {
                    offer: Offer::ToWant {
                        want: want.want,
                        next,
                    },
                    close: None,
                }
            }
        }
    }

    /// Offers a connection whose row stands in no list.
    #[tactic(auto, unfolding(crate::specs::Offer::offer_conn, crate::specs::State::least_want))]
    fn offer_conn(&mut self, row: ConnRow, conn: C, now: u64) -> Offered<C>
        requires room { HasRoom self.old }
        requires stamp { self.old.next_stamp < 2 ^ 63 }
        requires number { (C.link conn).number ≡ row.link }
        ensures offer { result.offer ≡ (offer_conn self.old.limits (state_of self.old) row now).offer }
        ensures close { Closes C.link result.close (offer_conn self.old.limits (state_of self.old) row now).gone }
        ensures state { state_of self.new ≡ (offer_conn self.old.limits (state_of self.old) row now).state }
        ensures keeps { Keeps self.old self.new }
    {
        let want = least_want_of(self.wants.as_slice(), row.host);
        self.offer_to(
            ConnRow {
                reused: true,
                ..row
            },
            conn,
            now,
            want,
        )
    }

    /// A want for which no connection is idle may dial, or waits.
    #[tactic(auto, unfolding(crate::specs::Machine::want_new))]
    fn want_new(&mut self, caller: u32, host: u32) -> Reply
        requires room { HasRoom self.old }
        requires number { self.old.next_want < 2 ^ 63 }
        ensures reply { result ≡ (want_new self.old.limits (state_of self.old) caller host).reply }
        ensures gone { (want_new self.old.limits (state_of self.old) caller host).gone ≡ None }
        ensures state { state_of self.new ≡ (want_new self.old.limits (state_of self.old) caller host).state }
        ensures keeps { Keeps self.old self.new }
    {
        let want = self.next_want;
        let free = self.is_free(host);
        self.next_want += 1;
        if free {
            self.wants.push_reserved(WantRow {
                want,
                host,
                caller,
                stage: Stage::Granted,
            });
            Reply::Granted { want }
        } else {
            self.wants.push_reserved(WantRow {
                want,
                host,
                caller,
                stage: Stage::Waiting,
            });
            Reply::Waiting { want }
        }
    }

    /// A want for which this connection was idle is given it, unless that is expired.
    #[tactic(auto, unfolding(crate::specs::Machine::want_idle))]
    fn want_idle(&mut self, caller: u32, row: ConnRow, conn: C, now: u64) -> Done<C>
        requires room { HasRoom self.old }
        requires want { self.old.next_want < 2 ^ 63 }
        requires number { (C.link conn).number ≡ row.link }
        ensures reply { result.reply ≡ (want_idle self.old.limits (state_of self.old) caller row now).reply }
        ensures close { Closes C.link result.close (want_idle self.old.limits (state_of self.old) caller row now).gone }
        ensures state { state_of self.new ≡ (want_idle self.old.limits (state_of self.old) caller row now).state }
        ensures keeps { Keeps self.old self.new }
    {
        if self.is_expired(row.place.since(), now) {
            return Done {
                reply: Reply::Expired { conn: row.conn },
                close: Some(conn),
            };
        }
        let want = self.next_want;
        self.next_want += 1;
        self.conns.put(
            ConnRow {
                place: Place::Out { want, caller },
                ..row
            },
            conn,
        );
        Done {
            reply: Reply::Given {
                want,
                conn: row.conn,
            },
            close: None,
        }
    }

    /// A want.
    #[tactic(auto, unfolding(crate::specs::Machine::want_step, crate::specs::Machine::want_by))]
    pub fn want(&mut self, caller: u32, host: u32, now: u64) -> Done<C>
        requires room { HasRoom self.old }
        requires want { self.old.next_want < 2 ^ 63 }
        ensures reply { result.reply ≡ (want_step self.old.limits (state_of self.old) caller host now).reply }
        ensures close { Closes C.link result.close (want_step self.old.limits (state_of self.old) caller host now).gone }
        ensures state { state_of self.new ≡ (want_step self.old.limits (state_of self.old) caller host now).state }
        ensures keeps { Keeps self.old self.new }
    {
        match self.take_newest(host) {
            None => Done {
                reply: self.want_new(caller, host),
                close: None,
            },
            Some(Resting { row, conn }) => self.want_idle(caller, row, conn, now),
        }
    }

    /// A granted want becomes one that is being dialed for.
    #[tactic(auto, using(crate::proofs::Edits::length_left), unfolding(crate::specs::Machine::start_row))]
    pub fn start(&mut self, row: WantRow)
        requires room { HasRoom self.old }
        ensures state { state_of self.new ≡ (start_row (state_of self.old) row).state }
        ensures keeps { Keeps self.old self.new }
    {
        let _ = take_want(&mut self.wants, row.want);
        self.wants.push_reserved(WantRow {
            stage: Stage::Dialing,
            ..row
        });
        self.dials.push_reserved(DialRow {
            want: row.want,
            host: row.host,
            caller: row.caller,
        });
    }

    /// The connection that a dial gave goes to its own want, if that still has a row, and else is offered.
    #[tactic(auto, using(crate::proofs::Edits::length_left), unfolding(crate::specs::Machine::dialed_to, crate::specs::Machine::dialed_conn))]
    fn dialed_to(
        &mut self,
        dial: DialRow,
        link: u64,
        conn: C,
        now: u64,
        want: Option<WantRow>,
    ) -> Done<C>
        requires room { HasRoom self.old }
        requires conn { self.old.next_conn < 2 ^ 63 }
        requires stamp { self.old.next_stamp < 2 ^ 63 }
        requires number { (C.link conn).number ≡ link }
        ensures reply { result.reply ≡ (dialed_to self.old.limits (state_of self.old) dial link now want).reply }
        ensures close { Closes C.link result.close (dialed_to self.old.limits (state_of self.old) dial link now want).gone }
        ensures state { state_of self.new ≡ (dialed_to self.old.limits (state_of self.old) dial link now want).state }
        ensures keeps { Keeps self.old self.new }
    {
        let no = self.next_conn;
        let row = ConnRow {
            conn: no,
            host: dial.host,
            link,
            reused: false,
            place: Place::Out {
                want: dial.want,
                caller: dial.caller,
            },
        };
        self.next_conn += 1;
        match want {
            Some(_) => {
                let _ = take_want(&mut self.wants, dial.want);
                self.conns.put(row, conn);
                Done {
                    reply: Reply::Kept { conn: no },
                    close: None,
                }
            }
            None => {
                let Offered { offer, close } = self.offer_conn(row, conn, now);
                Done {
                    reply: Reply::Offered { conn: no, offer },
                    close,
                }
            }
        }
    }

    /// A want's own dial failed.
    #[tactic(auto, using(crate::proofs::Edits::length_left), unfolding(crate::specs::Machine::failed_to))]
    fn failed_to(&mut self, dial: DialRow, want: Option<WantRow>) -> Reply
        requires { vec_len self.old.wants < vec_capacity self.old.wants }
        ensures reply { result ≡ (failed_to self.old.limits (state_of self.old) dial want).reply }
        ensures state { state_of self.new ≡ (failed_to self.old.limits (state_of self.old) dial want).state }
        ensures keeps { Keeps self.old self.new }
    {
        match want {
            Some(_) => {
                let _ = take_want(&mut self.wants, dial.want);
                Reply::Ended {
                    next: self.grant(dial.host),
                }
            }
            None => Reply::Late {
                next: self.grant(dial.host),
            },
        }
    }

    /// A dial's row goes. The row of its want is answered, if that still has one.
    #[tactic(auto, using(crate::proofs::Edits::length_left))]
    fn end_dial(&mut self, dial: DialRow) -> Option<WantRow>
        ensures want { result ≡ find (wants_it dial.want) self.old.wants.items }
        ensures state { state_of self.new ≡ record (state_of self.old) { dials = remove_first (dials_for dial.want) self.old.dials.items } }
        ensures wants { self.new.wants ≡ self.old.wants }
        ensures numbers { (self.new.next_conn ≡ self.old.next_conn) × (self.new.next_stamp ≡ self.old.next_stamp) }
        ensures room { HasRoom self.old → HasRoom self.new }
        ensures keeps { Keeps self.old self.new }
    {
        let want = find_want(self.wants.as_slice(), dial.want);
        let _ = take_dial(&mut self.dials, dial.want);
        want
    }

    /// A dial gave a connection.
    #[tactic(auto, using(crate::proofs::Edits::length_left), unfolding(crate::specs::Machine::dialed_row))]
    pub fn dialed(&mut self, dial: DialRow, link: u64, conn: C, now: u64) -> Done<C>
        requires room { HasRoom self.old }
        requires conn { self.old.next_conn < 2 ^ 63 }
        requires stamp { self.old.next_stamp < 2 ^ 63 }
        requires number { (C.link conn).number ≡ link }
        ensures reply { result.reply ≡ (dialed_row self.old.limits (state_of self.old) dial link now).reply }
        ensures close { Closes C.link result.close (dialed_row self.old.limits (state_of self.old) dial link now).gone }
        ensures state { state_of self.new ≡ (dialed_row self.old.limits (state_of self.old) dial link now).state }
        ensures keeps { Keeps self.old self.new }
    {
        let want = self.end_dial(dial);
        self.dialed_to(dial, link, conn, now, want)
    }

    /// A dial failed.
    #[tactic(auto, using(crate::proofs::Edits::length_left), unfolding(crate::specs::Machine::failed_row))]
    pub fn failed(&mut self, dial: DialRow) -> Reply
        requires { vec_len self.old.wants < vec_capacity self.old.wants }
        ensures reply { result ≡ (failed_row self.old.limits (state_of self.old) dial).reply }
        ensures state { state_of self.new ≡ (failed_row self.old.limits (state_of self.old) dial).state }
        ensures keeps { Keeps self.old self.new }
    {
        let want = self.end_dial(dial);
        self.failed_to(dial, want)
    }

    /// A want that has no connection is given up.
    #[tactic(auto, using(crate::proofs::Edits::length_left), unfolding(crate::specs::Machine::cancel_row))]
    pub fn cancel_want(&mut self, row: WantRow) -> Reply
        requires { vec_len self.old.wants < vec_capacity self.old.wants }
        ensures reply { result ≡ (cancel_row self.old.limits (state_of self.old) row).reply }
        ensures state { state_of self.new ≡ (cancel_row self.old.limits (state_of self.old) row).state }
        ensures keeps { Keeps self.old self.new }
    {
        let _ = take_want(&mut self.wants, row.want);
        if row.stage.is_granted() {
            Reply::Gone {
                next: self.grant(row.host),
            }
        } else {
            Reply::Gone { next: None }
        }
    }

    /// A want that has a connection, which wasn't handed out, is given up.
    #[tactic(auto, using(crate::proofs::Edits::length_left), unfolding(crate::specs::Machine::cancel_conn))]
    pub fn cancel_conn(&mut self, want: u64, row: ConnRow, now: u64) -> Done<C>
        requires room { HasRoom self.old }
        requires stamp { self.old.next_stamp < 2 ^ 63 }
        requires found { find (is_with want) self.old.conns.rows ≡ Some row }
        requires kept { is_lent self.old.conns.taken row.place ≡ false }
        ensures reply { result.reply ≡ (cancel_conn self.old.limits (state_of self.old) want row now).reply }
        ensures close { Closes C.link result.close (cancel_conn self.old.limits (state_of self.old) want row now).gone }
        ensures state { state_of self.new ≡ (cancel_conn self.old.limits (state_of self.old) want row now).state }
        ensures keeps { Keeps self.old self.new }
    {
        let at = conn_with_at(self.conns.rows(), want);
        match self.conns.take(at) {
            Some(Shelved { row, conn }) => match conn {
                Some(conn) => {
                    let Offered { offer, close } = self.offer_conn(row, conn, now);
                    let reply = Reply::Returned {
                        conn: row.conn,
                        offer,
                    };
                    Done { reply, close }
                }
                None => unreachable!(),
            },
            None => unreachable!(),
        }
    }

    /// Takes out the row of a connection.
    #[tactic(auto, using(crate::proofs::Edits::length_left))]
    fn take_number(&mut self, no: u64)
        ensures conns { self.new.conns.rows ≡ remove_first (has_number no) self.old.conns.rows }
        ensures state { state_of self.new ≡ record (state_of self.old) { conns = remove_first (has_number no) self.old.conns.rows } }
        ensures room { HasRoom self.old → HasRoom self.new }
        ensures next { self.new.next_stamp ≡ self.old.next_stamp }
        ensures keeps { Keeps self.old self.new }
    {
        let at = conn_at(self.conns.rows(), no);
        let _ = self.conns.take(at);
    }

    /// A connection that was handed out comes back, and is offered.
    #[tactic(auto, unfolding(crate::specs::Machine::back_row))]
    pub fn give_back(&mut self, row: ConnRow, conn: C, now: u64) -> Done<C>
        requires room { HasRoom self.old }
        requires stamp { self.old.next_stamp < 2 ^ 63 }
        requires number { (C.link conn).number ≡ row.link }
        ensures reply { result.reply ≡ (back_row self.old.limits (state_of self.old) row now).reply }
        ensures close { Closes C.link result.close (back_row self.old.limits (state_of self.old) row now).gone }
        ensures state { state_of self.new ≡ (back_row self.old.limits (state_of self.old) row now).state }
        ensures keeps { Keeps self.old self.new }
    {
        self.take_number(row.conn);
        let Offered { offer, close } = self.offer_conn(row, conn, now);
        Done {
            reply: Reply::Put { offer },
            close,
        }
    }

    /// The row of the least recently idle connection.
    #[tactic(auto, unfolding(crate::specs::State::take_oldest, crate::specs::State::oldest_stamp))]
    fn oldest_row(&self) -> Option<ConnRow>
        ensures { result ≡ (take_oldest (state_of self.now)).0 }
    {
        match oldest(self.conns.rows()) {
            None => None,
            Some(stamp) => find_stamped(self.conns.rows(), stamp),
        }
    }

    /// Takes out the least recently idle connection, where it is expired.
    pub fn take_expired(&mut self, now: u64) -> Option<Resting<C>>
        ensures row { IfSome result (λ r. (take_oldest (state_of self.old)).0 ≡ Some r.row) }
        ensures state { IfSome result (λ r. state_of self.new ≡ (take_oldest (state_of self.old)).1) }
        ensures expired { IfSome result (λ r. is_expired self.old.limits (since_of r.row.place) now ≡ true) }
        ensures number { IfSome result (λ r. (C.link r.conn).number ≡ r.row.link) }
        ensures none { IfNone result (expire_by self.old.limits now (take_oldest (state_of self.old)) ≡ None) }
        ensures same { IfNone result (self.new ≡ self.old) }
        ensures keeps { Keeps self.old self.new }
    {
        match self.oldest_row() {
            Some(oldest) => {
                if self.is_expired(oldest.place.since(), now) {
                    self.take_oldest()
                } else {
                    None
                }
            }
            None => None,
        }
    }

    /// A connection that is out is given up.
    #[tactic(auto, unfolding(crate::specs::Machine::drop_row))]
    pub fn drop_conn(&mut self, row: ConnRow) -> Reply
        requires { vec_len self.old.wants < vec_capacity self.old.wants }
        ensures reply { result ≡ (drop_row self.old.limits (state_of self.old) row).reply }
        ensures state { state_of self.new ≡ (drop_row self.old.limits (state_of self.old) row).state }
        ensures keeps { Keeps self.old self.new }
    {
        self.take_number(row.conn);
        Reply::Dropped {
            next: self.grant(row.host),
        }
    }

    /// How many entries the rows can still make, at most.
    #[tactic(auto, unfolding(crate::specs::History::room))]
    pub fn room(&self) -> usize
        requires { room (state_of self.now) < 2 ^ 63 }
        ensures { result ≡ room (state_of self.now) }
    {
        let wants: usize = self.wants.iter().map(|row| row.stage.room()).sum();
        let conns: usize = self.conns.rows().iter().map(|row| row.place.room()).sum();
        wants + 3 * self.dials.len() + conns
    }

    /// Moves the idle connections behind others, the least recently idle first.
    pub fn empty_into(&mut self, idle: &mut Vec<C>)
        requires { vec_len idle.old + length self.old.conns.rows ≤ vec_capacity idle.old }
        ensures { map (λ c. (C.link c).number) idle.new.items ≡ map (λ c. (C.link c).number) idle.old.items ++ map (λ row. row.link) (idle_rows (state_of self.old)) }
    {
        while let Some(Resting { row: _, conn }) = self.take_oldest() {
            idle.push_reserved(conn);
        }
    }
}

/// Whether a sum of three numbers is below a bound; the sum itself needn't fit.
fn is_sum_below(a: usize, b: usize, c: usize, bound: usize) -> bool
    ensures { result ≡ nat_lt (a + b + c) bound }
{
    if a >= bound {
        return false;
    }
    if b >= bound - a {
        return false;
    }
    c < bound - a - b
}
