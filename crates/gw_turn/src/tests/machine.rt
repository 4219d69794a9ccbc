//! The pool's machine written plainly, over lists of rows, and the replay of a journal by it.

use gw_pool::{Call, Entry, Limits, Offer, Reply};
use std::alloc::{AllocError, Global};

#[derive(Clone, Copy)]
enum Stage {
    Waiting,
    Granted,
    Dialing,
}

#[derive(Clone, Copy)]
struct Wanted {
    want: u64,
    host: u32,
    caller: u32,
    stage: Stage,
}

#[derive(Clone, Copy)]
struct Dialing {
    want: u64,
    host: u32,
    caller: u32,
}

#[derive(Clone, Copy)]
enum Place {
    Out { want: u64, caller: u32 },
    Idle { stamp: u64, since: u64 },
}

#[derive(Clone, Copy)]
struct Connected {
    conn: u64,
    host: u32,
    link: u64,
    place: Place,
}

/// The rows of a pool, and the numbers that come next.
#[derive(Drop)]
pub(super) struct Machine {
    alloc: Global,
    limits: Limits,
    wants: Vec<Wanted>,
    dials: Vec<Dialing>,
    conns: Vec<Connected>,
    next_want: u64,
    next_conn: u64,
    next_stamp: u64,
}

/// What comes of the replay of a journal. An entry is named by its place.
#[derive(Drop)]
pub(super) enum Replayed {
    /// Each call fits, and its reply is the machine's, which this is at the end.
    Whole(Machine),
    /// The call of this entry doesn't fit.
    Unfit(usize),
    /// The machine answers the call of this entry otherwise.
    Otherwise(usize, Reply),
}

impl Connected {
    fn is_out_to(&self, caller: u32) -> bool {
        match self.place {
            Place::Out { caller: c, .. } => c == caller,
            Place::Idle { .. } => false,
        }
    }

    fn serves(&self, want: u64) -> bool {
        match self.place {
            Place::Out { want: w, .. } => w == want,
            Place::Idle { .. } => false,
        }
    }

    fn is_idle(&self) -> bool {
        matches!(self.place, Place::Idle { .. })
    }
}

impl Machine {
    /// The machine of a pool of which nothing was asked.
    pub(super) fn new(alloc: Global, limits: Limits) -> Machine {
        Machine {
            alloc,
            limits,
            wants: Vec::new(alloc),
            dials: Vec::new(alloc),
            conns: Vec::new(alloc),
            next_want: 0,
            next_conn: 0,
            next_stamp: 0,
        }
    }

    fn want_row(&self, want: u64) -> Option<Wanted> {
        for row in self.wants.iter() {
            if row.want == want {
                return Some(*row);
            }
        }
        None
    }

    fn dial_row(&self, want: u64) -> Option<Dialing> {
        for row in self.dials.iter() {
            if row.want == want {
                return Some(*row);
            }
        }
        None
    }

    fn conn_row(&self, conn: u64) -> Option<Connected> {
        for row in self.conns.iter() {
            if row.conn == conn {
                return Some(*row);
            }
        }
        None
    }

    fn conn_of(&self, want: u64) -> Option<Connected> {
        for row in self.conns.iter() {
            if row.serves(want) {
                return Some(*row);
            }
        }
        None
    }

    fn remove_want(&mut self, want: u64) {
        self.wants.retain(|row| row.want != want);
    }

    fn remove_dial(&mut self, want: u64) {
        self.dials.retain(|row| row.want != want);
    }

    fn remove_conn(&mut self, conn: u64) {
        self.conns.retain(|row| row.conn != conn);
    }

    /// The host's row with the least want.
    fn least_want(&self, host: u32) -> Option<Wanted> {
        let mut least: Option<Wanted> = None;
        for row in self.wants.iter() {
            if row.host == host {
                match least {
                    Some(best) if best.want <= row.want => {}
                    _ => least = Some(*row),
                }
            }
        }
        least
    }

    /// The least of the host's wants that wait.
    fn least_waiting(&self, host: u32) -> Option<u64> {
        let mut least: Option<u64> = None;
        for row in self.wants.iter() {
            if row.host == host && matches!(row.stage, Stage::Waiting) {
                match least {
                    Some(best) if best <= row.want => {}
                    _ => least = Some(row.want),
                }
            }
        }
        least
    }

    /// The host's idle row with the greatest stamp, with the time since when it is idle.
    fn newest(&self, host: u32) -> Option<(Connected, u64)> {
        let mut found: Option<(u64, Connected, u64)> = None;
        for row in self.conns.iter() {
            match row.place {
                Place::Idle { stamp, since } if row.host == host => match found {
                    Some((best, _, _)) if best >= stamp => {}
                    _ => found = Some((stamp, *row, since)),
                },
                _ => {}
            }
        }
        match found {
            Some((_, row, since)) => Some((row, since)),
            None => None,
        }
    }

    /// The idle row with the least stamp, with the time since when it is idle.
    fn oldest(&self) -> Option<(Connected, u64)> {
        let mut found: Option<(u64, Connected, u64)> = None;
        for row in self.conns.iter() {
            match row.place {
                Place::Idle { stamp, since } => match found {
                    Some((best, _, _)) if best <= stamp => {}
                    _ => found = Some((stamp, *row, since)),
                },
                Place::Out { .. } => {}
            }
        }
        match found {
            Some((_, row, since)) => Some((row, since)),
            None => None,
        }
    }

    fn is_expired(&self, since: u64, now: u64) -> bool {
        self.limits.idle_ms != 0 && now.saturating_sub(since) > self.limits.idle_ms
    }

    fn granted(&self, host: u32) -> usize {
        self.wants
            .iter()
            .filter(|row| row.host == host && matches!(row.stage, Stage::Granted))
            .count()
    }

    fn used(&self, host: u32) -> usize {
        let conns = self.conns.iter().filter(|row| row.host == host).count();
        let dials = self.dials.iter().filter(|row| row.host == host).count();
        conns
            .saturating_add(dials)
            .saturating_add(self.granted(host))
    }

    fn is_free(&self, host: u32) -> bool {
        let most = self.limits.conns_per_host as usize;
        most == 0 || self.used(host) < most
    }

    fn idle(&self) -> usize {
        self.conns.iter().filter(|row| row.is_idle()).count()
    }

    fn idle_of(&self, host: u32) -> usize {
        self.conns
            .iter()
            .filter(|row| row.host == host && row.is_idle())
            .count()
    }

    fn put_stage(&mut self, want: u64, stage: Stage) {
        for row in self.wants.iter_mut() {
            if row.want == want {
                row.stage = stage;
            }
        }
    }

    /// A free place of the host goes to the least want that waits.
    fn grant(&mut self, host: u32) -> Option<u64> {
        if !self.is_free(host) {
            return None;
        }
        let next = self.least_waiting(host);
        if let Some(want) = next {
            self.put_stage(want, Stage::Granted);
        }
        next
    }

    /// A place that a granted want leaves goes on to the next.
    fn hand_on(&mut self, left: Wanted) -> Option<u64> {
        match left.stage {
            Stage::Granted => self.grant(left.host),
            Stage::Waiting | Stage::Dialing => None,
        }
    }

    /// Offers a connection whose row stands in the list no more.
    fn offer(&mut self, row: Connected, now: u64) -> Result<Offer, AllocError> {
        match self.least_want(row.host) {
            Some(served) => {
                self.remove_want(served.want);
                let place = Place::Out {
                    want: served.want,
                    caller: served.caller,
                };
                self.conns.push(Connected { place, ..row })?;
                Ok(Offer::ToWant {
                    want: served.want,
                    next: self.hand_on(served),
                })
            }
            None => self.rest(row, now),
        }
    }

    /// A connection that no want of its host takes becomes idle, where there is room.
    fn rest(&mut self, row: Connected, now: u64) -> Result<Offer, AllocError> {
        if self.idle_of(row.host) >= self.limits.idle_per_host as usize {
            return Ok(Offer::Closed);
        }
        let place = Place::Idle {
            stamp: self.next_stamp,
            since: now,
        };
        self.next_stamp = self.next_stamp.wrapping_add(1);
        self.conns.push(Connected { place, ..row })?;
        if self.idle() <= self.limits.idle_total as usize {
            return Ok(Offer::Idle { evicted: None });
        }
        match self.oldest() {
            Some((old, _)) => {
                self.remove_conn(old.conn);
                Ok(Offer::Idle {
                    evicted: Some(old.conn),
                })
            }
            None => Ok(Offer::Idle { evicted: None }),
        }
    }
}

fn add_unit(units: &mut Vec<u64>, want: u64) -> Result<(), AllocError> {
    for unit in units.iter() {
        if *unit == want {
            return Ok(());
        }
    }
    units.push(want)?;
    Ok(())
}

impl Machine {
    fn add_wants(&self, units: &mut Vec<u64>, caller: u32) -> Result<(), AllocError> {
        for row in self.wants.iter() {
            if row.caller == caller {
                add_unit(units, row.want)?;
            }
        }
        Ok(())
    }

    fn add_dials(&self, units: &mut Vec<u64>, caller: u32) -> Result<(), AllocError> {
        for row in self.dials.iter() {
            if row.caller == caller {
                add_unit(units, row.want)?;
            }
        }
        Ok(())
    }

    fn add_conns(&self, units: &mut Vec<u64>, caller: u32) -> Result<(), AllocError> {
        for row in self.conns.iter() {
            match row.place {
                Place::Out { want, caller: c } if c == caller => add_unit(units, want)?,
                _ => {}
            }
        }
        Ok(())
    }

    /// How many units a caller has: the wants that have a row, a dial or a connection of it, each once.
    fn units(&self, caller: u32) -> Result<usize, AllocError> {
        let mut units = Vec::new(self.alloc);
        self.add_wants(&mut units, caller)?;
        self.add_dials(&mut units, caller)?;
        self.add_conns(&mut units, caller)?;
        Ok(units.len())
    }

    fn new_want(&mut self) -> u64 {
        let want = self.next_want;
        self.next_want = want.wrapping_add(1);
        want
    }

    fn want(&mut self, caller: u32, host: u32, now: u64) -> Result<Option<Reply>, AllocError> {
        if self.units(caller)? >= self.limits.per_pass as usize {
            return Ok(None);
        }
        let Some((row, since)) = self.newest(host) else {
            return Ok(Some(self.want_place(caller, host)?));
        };
        self.remove_conn(row.conn);
        let conn = row.conn;
        if self.is_expired(since, now) {
            return Ok(Some(Reply::Expired { conn }));
        }
        let want = self.new_want();
        let place = Place::Out { want, caller };
        self.conns.push(Connected { place, ..row })?;
        Ok(Some(Reply::Given { want, conn }))
    }

    /// A want that no idle connection serves.
    fn want_place(&mut self, caller: u32, host: u32) -> Result<Reply, AllocError> {
        let free = self.is_free(host);
        let want = self.new_want();
        let stage = if free { Stage::Granted } else { Stage::Waiting };
        self.wants.push(Wanted {
            want,
            host,
            caller,
            stage,
        })?;
        if free {
            Ok(Reply::Granted { want })
        } else {
            Ok(Reply::Waiting { want })
        }
    }

    fn start(&mut self, caller: u32, want: u64) -> Result<Option<Reply>, AllocError> {
        let Some(row) = self.want_row(want) else {
            return Ok(None);
        };
        if row.caller != caller || !matches!(row.stage, Stage::Granted) {
            return Ok(None);
        }
        self.put_stage(want, Stage::Dialing);
        self.dials.push(Dialing {
            want,
            host: row.host,
            caller,
        })?;
        Ok(Some(Reply::Go))
    }

    fn dialed(
        &mut self,
        caller: u32,
        want: u64,
        link: u64,
        now: u64,
    ) -> Result<Option<Reply>, AllocError> {
        let Some(dial) = self.dial_row(want) else {
            return Ok(None);
        };
        if dial.caller != caller {
            return Ok(None);
        }
        self.remove_dial(want);
        let conn = self.next_conn;
        self.next_conn = conn.wrapping_add(1);
        let row = Connected {
            conn,
            host: dial.host,
            link,
            place: Place::Out { want, caller },
        };
        match self.want_row(want) {
            Some(_) => {
                self.remove_want(want);
                self.conns.push(row)?;
                Ok(Some(Reply::Kept { conn }))
            }
            None => {
                let offer = self.offer(row, now)?;
                Ok(Some(Reply::Offered { conn, offer }))
            }
        }
    }

    fn dial_failed(&mut self, caller: u32, want: u64) -> Option<Reply> {
        let dial = match self.dial_row(want) {
            Some(dial) if dial.caller == caller => dial,
            _ => return None,
        };
        self.remove_dial(want);
        match self.want_row(want) {
            Some(_) => {
                self.remove_want(want);
                Some(Reply::Ended {
                    next: self.grant(dial.host),
                })
            }
            None => Some(Reply::Late {
                next: self.grant(dial.host),
            }),
        }
    }

    fn cancel(&mut self, caller: u32, want: u64, now: u64) -> Result<Option<Reply>, AllocError> {
        if let Some(row) = self.want_row(want) {
            if row.caller != caller {
                return Ok(None);
            }
            self.remove_want(want);
            return Ok(Some(Reply::Gone {
                next: self.hand_on(row),
            }));
        }
        match self.conn_of(want) {
            Some(row) if row.is_out_to(caller) => {
                let conn = row.conn;
                self.remove_conn(conn);
                let offer = self.offer(row, now)?;
                Ok(Some(Reply::Returned { conn, offer }))
            }
            _ => Ok(None),
        }
    }

    fn give_back(&mut self, caller: u32, conn: u64, now: u64) -> Result<Option<Reply>, AllocError> {
        match self.conn_row(conn) {
            Some(row) if row.is_out_to(caller) => {
                self.remove_conn(conn);
                let offer = self.offer(row, now)?;
                Ok(Some(Reply::Put { offer }))
            }
            _ => Ok(None),
        }
    }

    fn drop_conn(&mut self, caller: u32, conn: u64) -> Option<Reply> {
        match self.conn_row(conn) {
            Some(row) if row.is_out_to(caller) => {
                self.remove_conn(conn);
                Some(Reply::Dropped {
                    next: self.grant(row.host),
                })
            }
            _ => None,
        }
    }

    fn expire(&mut self, now: u64) -> Option<Reply> {
        match self.oldest() {
            Some((row, since)) if self.is_expired(since, now) => {
                self.remove_conn(row.conn);
                Some(Reply::Taken { conn: row.conn })
            }
            _ => None,
        }
    }

    fn close_idle(&mut self) -> Option<Reply> {
        match self.oldest() {
            Some((row, _)) => {
                self.remove_conn(row.conn);
                Some(Reply::Taken { conn: row.conn })
            }
            None => None,
        }
    }

    /// Makes a call, and says what it is answered; None where it doesn't fit.
    fn step(&mut self, caller: u32, call: Call) -> Result<Option<Reply>, AllocError> {
        match call {
            Call::Want { host, now } => self.want(caller, host, now),
            Call::Start { want } => self.start(caller, want),
            Call::Dialed { want, link, now } => self.dialed(caller, want, link, now),
            Call::DialFailed { want } => Ok(self.dial_failed(caller, want)),
            Call::Cancel { want, now } => self.cancel(caller, want, now),
            Call::GiveBack { conn, now } => self.give_back(caller, conn, now),
            Call::Drop { conn } => Ok(self.drop_conn(caller, conn)),
            Call::Expire { now } => Ok(self.expire(now)),
            Call::CloseIdle => Ok(self.close_idle()),
        }
    }

    /// Whether no want has a row, a dial or a connection.
    pub(super) fn is_quiet(&self) -> bool {
        self.wants.len() == 0 && self.dials.len() == 0 && self.idle() == self.conns.len()
    }

    /// Takes the links of the idle connections out, the least recently idle first.
    pub(super) fn take_idle(&mut self) -> Result<Vec<u64>, AllocError> {
        let mut links = Vec::new(self.alloc);
        for _ in 0..self.conns.len() {
            match self.oldest() {
                Some((row, _)) => {
                    self.remove_conn(row.conn);
                    links.push(row.link)?;
                }
                None => return Ok(links),
            }
        }
        Ok(links)
    }
}

fn same_offer(a: Offer, b: Offer) -> bool {
    match (a, b) {
        (Offer::ToWant { want, next }, Offer::ToWant { want: w, next: n }) => {
            want == w && next == n
        }
        (Offer::Closed, Offer::Closed) => true,
        (Offer::Idle { evicted }, Offer::Idle { evicted: e }) => evicted == e,
        _ => false,
    }
}

fn same_reply(a: Reply, b: Reply) -> bool {
    match (a, b) {
        (Reply::Expired { conn }, Reply::Expired { conn: c }) => conn == c,
        (Reply::Given { want, conn }, Reply::Given { want: w, conn: c }) => want == w && conn == c,
        (Reply::Granted { want }, Reply::Granted { want: w }) => want == w,
        (Reply::Waiting { want }, Reply::Waiting { want: w }) => want == w,
        (Reply::Go, Reply::Go) => true,
        (Reply::Kept { conn }, Reply::Kept { conn: c }) => conn == c,
        (Reply::Offered { conn, offer }, Reply::Offered { conn: c, offer: o }) => {
            conn == c && same_offer(offer, o)
        }
        (Reply::Ended { next }, Reply::Ended { next: n }) => next == n,
        (Reply::Late { next }, Reply::Late { next: n }) => next == n,
        (Reply::Gone { next }, Reply::Gone { next: n }) => next == n,
        (Reply::Returned { conn, offer }, Reply::Returned { conn: c, offer: o }) => {
            conn == c && same_offer(offer, o)
        }
        (Reply::Put { offer }, Reply::Put { offer: o }) => same_offer(offer, o),
        (Reply::Dropped { next }, Reply::Dropped { next: n }) => next == n,
        (Reply::Taken { conn }, Reply::Taken { conn: c }) => conn == c,
        _ => false,
    }
}

/// Replays a journal from its beginning.
pub(super) fn replay(
    alloc: Global,
    limits: Limits,
    journal: &[Entry],
) -> Result<Replayed, AllocError> {
    let mut machine = Machine::new(alloc, limits);
    for (at, entry) in journal.iter().enumerate() {
        match machine.step(entry.caller, entry.call)? {
            Some(reply) => {
                if !same_reply(reply, entry.reply) {
                    return Ok(Replayed::Otherwise(at, reply));
                }
            }
            None => return Ok(Replayed::Unfit(at)),
        }
    }
    Ok(Replayed::Whole(machine))
}
