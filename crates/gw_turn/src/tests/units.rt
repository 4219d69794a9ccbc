//! Units of all kinds, and the count of the calls that a thread makes for them.

ghost use Rattle.std.specs.Prelude.{◌≡◌, ◌<◌, ◌∷◌, [], true, false, IfSome, IfNone};
ghost use Rattle.gw_pool.specs.Lent.{LeaseOf};
ghost use Rattle.gw_pool.specs.Tokens.{ticket_of, has_dial, change, without_dial, leased};

use crate::desk::Desk;
use crate::pass::Pass;
use crate::pool::Pool;
use gw_pool::{Ask, Call, DialToken, Entry, Lease, Leases, Put, Start, Ticket, Want};
use gw_wire::Link;
use std::process::Abort;
use std::sync::Wait;
use std::sync::atomic::{AtomicU64, Ordering};
use std::thread::yield_now;

/// How many calls of each kind made an entry.
#[derive(Clone, Copy, Debug, PartialEq, Eq)]
pub(super) struct Tally {
    pub(super) wants: u64,
    pub(super) starts: u64,
    pub(super) dialed: u64,
    pub(super) failed: u64,
    pub(super) cancelled: u64,
    pub(super) given_back: u64,
    pub(super) dropped: u64,
    pub(super) expired: u64,
    pub(super) idle_closed: u64,
}

/// What a thread counts: its calls, and the connections that it had to close.
#[derive(Clone, Copy, Debug)]
pub(super) struct Counts {
    pub(super) calls: Tally,
    pub(super) closed: u64,
}

impl Tally {
    pub(super) fn new() -> Tally {
        Tally {
            wants: 0,
            starts: 0,
            dialed: 0,
            failed: 0,
            cancelled: 0,
            given_back: 0,
            dropped: 0,
            expired: 0,
            idle_closed: 0,
        }
    }

    /// Counts a call.
    pub(super) fn add(&mut self, call: &Call) {
        let count = match call {
            Call::Want { .. } => &mut self.wants,
            Call::Start { .. } => &mut self.starts,
            Call::Dialed { .. } => &mut self.dialed,
            Call::DialFailed { .. } => &mut self.failed,
            Call::Cancel { .. } => &mut self.cancelled,
            Call::GiveBack { .. } => &mut self.given_back,
            Call::Drop { .. } => &mut self.dropped,
            Call::Expire { .. } => &mut self.expired,
            Call::CloseIdle => &mut self.idle_closed,
        };
        *count = count.saturating_add(1);
    }

    /// How many calls it counts.
    pub(super) fn total(&self) -> u64 {
        let dials = self
            .starts
            .saturating_add(self.dialed)
            .saturating_add(self.failed);
        let leases = self.given_back.saturating_add(self.dropped);
        let idle = self.expired.saturating_add(self.idle_closed);
        self.wants
            .saturating_add(self.cancelled)
            .saturating_add(dials)
            .saturating_add(leases)
            .saturating_add(idle)
    }
}

impl Counts {
    pub(super) fn new() -> Counts {
        Counts {
            calls: Tally::new(),
            closed: 0,
        }
    }

    fn close<C: Link>(&mut self, conn: Option<C>) {
        if conn.is_some() {
            self.closed = self.closed.saturating_add(1);
        }
    }
}

/// What a unit does with its want and with the connection that serves it.
#[derive(Clone, Copy)]
pub(super) enum Plan {
    /// It gives the connection back.
    GiveBack,
    /// It drops the connection.
    DropIt,
    /// A dial for it fails.
    FailDial,
    /// It is cancelled before it is asked for.
    CancelFirst,
    /// It is cancelled where it waits or may dial.
    CancelWaiting,
    /// It is cancelled while it is dialed for; the dial then gives a connection.
    CancelDialing,
    /// It is cancelled while it is dialed for; the dial then fails.
    CancelFailing,
}

/// A want to be made and ended. A dial for it gives a link of this number.
#[derive(Clone, Copy)]
pub(super) struct Unit {
    pub(super) plan: Plan,
    pub(super) host: u32,
    pub(super) link: u64,
    pub(super) now: u64,
}

/// Wants a connection; None where the idle one was expired.
fn want_once<R: Wait + Abort>(
    rt: &R,
    pool: &Pool<u64>,
    pass: &mut Pass,
    counts: &mut Counts,
    unit: Unit,
) -> Option<Ticket>
    requires of { pass.old.pool ≡ pool.now }
    requires running { pass.old.lent.ended ≡ false }
    requires host { unit.host < pass.old.lent.limits.hosts }
    requires few { 0 < pass.old.lent.limits.per_pass }
    requires free { pass.old.lent.out ≡ [] }
    ensures ticket { IfSome result (λ t. pass.new.lent.out ≡ ticket_of t.want ∷ []) }
    ensures expired { IfNone result (pass.new.lent.out ≡ []) }
    ensures stays { (pass.new.pool ≡ pass.old.pool) × (pass.new.joined ≡ pass.old.joined) × (pass.new.lent.limits ≡ pass.old.lent.limits) × (pass.new.lent.number ≡ pass.old.lent.number) × (pass.new.lent.ended ≡ pass.old.lent.ended) }
{
    let mut desk = Desk { rt, pool, pass };
    match desk.want(unit.host, unit.now) {
        Want::Ticket(t) => {
            counts.calls.wants = counts.calls.wants.saturating_add(1);
            Some(t)
        }
        Want::Expired(conn) => {
            counts.calls.wants = counts.calls.wants.saturating_add(1);
            counts.close(Some(conn));
            None
        }
        Want::JournalFull => panic!(rt; "the journal has room"),
    }
}

/// Wants a connection until the want is made.
fn wanted<R: Wait + Abort>(
    rt: &R,
    pool: &Pool<u64>,
    pass: &mut Pass,
    counts: &mut Counts,
    unit: Unit,
) -> Ticket
    requires of { pass.old.pool ≡ pool.now }
    requires running { pass.old.lent.ended ≡ false }
    requires host { unit.host < pass.old.lent.limits.hosts }
    requires few { 0 < pass.old.lent.limits.per_pass }
    requires free { pass.old.lent.out ≡ [] }
    ensures out { pass.new.lent.out ≡ ticket_of result.want ∷ [] }
    ensures stays { (pass.new.pool ≡ pass.old.pool) × (pass.new.joined ≡ pass.old.joined) × (pass.new.lent.limits ≡ pass.old.lent.limits) × (pass.new.lent.number ≡ pass.old.lent.number) × (pass.new.lent.ended ≡ pass.old.lent.ended) }
{
    for _ in rt.forever() {
        if let Some(t) = want_once(rt, pool, pass, counts, unit) {
            return t;
        }
    }
    unreachable!()
}

/// Gives a want up.
fn cancelled<R: Wait>(
    rt: &R,
    pool: &Pool<u64>,
    pass: &mut Pass,
    counts: &mut Counts,
    t: Ticket,
    now: u64,
)
    requires of { pass.old.pool ≡ pool.now }
    requires running { pass.old.lent.ended ≡ false }
    requires out { pass.old.lent.out ≡ ticket_of t.want ∷ [] }
    ensures out { pass.new.lent.out ≡ [] }
    ensures stays { (pass.new.pool ≡ pass.old.pool) × (pass.new.joined ≡ pass.old.joined) × (pass.new.lent.limits ≡ pass.old.lent.limits) × (pass.new.lent.number ≡ pass.old.lent.number) × (pass.new.lent.ended ≡ pass.old.lent.ended) }
{
    let mut desk = Desk { rt, pool, pass };
    let Put { close } = desk.cancel(t, now);
    counts.calls.cancelled = counts.calls.cancelled.saturating_add(1);
    counts.close(close);
}

/// Ends a lease, while which other threads may run.
fn ended<R: Wait, C: Link>(
    rt: &R,
    pool: &Pool<C>,
    pass: &mut Pass,
    counts: &mut Counts,
    l: Lease<C>,
    unit: Unit,
)
    requires of { pass.old.pool ≡ pool.now }
    requires running { pass.old.lent.ended ≡ false }
    requires lease { LeaseOf C.link pass.old.lent l }
    requires out { pass.old.lent.out ≡ leased (ticket_of l.want) ∷ [] }
    ensures out { pass.new.lent.out ≡ [] }
    ensures stays { (pass.new.pool ≡ pass.old.pool) × (pass.new.joined ≡ pass.old.joined) × (pass.new.lent.limits ≡ pass.old.lent.limits) × (pass.new.lent.number ≡ pass.old.lent.number) × (pass.new.lent.ended ≡ pass.old.lent.ended) }
{
    yield_now();
    let mut desk = Desk { rt, pool, pass };
    match unit.plan {
        Plan::DropIt => {
            let conn = desk.drop_conn(l);
            counts.calls.dropped = counts.calls.dropped.saturating_add(1);
            counts.close(Some(conn));
        }
        _ => {
            let Put { close } = desk.give_back(l, unit.now);
            counts.calls.given_back = counts.calls.given_back.saturating_add(1);
            counts.close(close);
        }
    }
}

/// Ends a dial, while which other threads may run.
fn dial_ended<R: Wait>(
    rt: &R,
    pool: &Pool<u64>,
    pass: &mut Pass,
    counts: &mut Counts,
    d: DialToken,
    unit: Unit,
)
    requires of { pass.old.pool ≡ pool.now }
    requires running { pass.old.lent.ended ≡ false }
    requires dial { has_dial d.want pass.old.lent.out ≡ true }
    ensures out { pass.new.lent.out ≡ change d.want without_dial pass.old.lent.out }
    ensures stays { (pass.new.pool ≡ pass.old.pool) × (pass.new.joined ≡ pass.old.joined) × (pass.new.lent.limits ≡ pass.old.lent.limits) × (pass.new.lent.number ≡ pass.old.lent.number) × (pass.new.lent.ended ≡ pass.old.lent.ended) }
{
    yield_now();
    let mut desk = Desk { rt, pool, pass };
    match unit.plan {
        Plan::FailDial | Plan::CancelFailing => {
            desk.dial_failed(d);
            counts.calls.failed = counts.calls.failed.saturating_add(1);
        }
        _ => {
            let Put { close } = desk.dialed(d, unit.link, unit.now);
            counts.calls.dialed = counts.calls.dialed.saturating_add(1);
            counts.close(close);
        }
    }
}

/// Dials for a want, if it may dial still.
fn dialed<R: Wait>(
    rt: &R,
    pool: &Pool<u64>,
    pass: &mut Pass,
    counts: &mut Counts,
    t: &Ticket,
    unit: Unit,
)
    requires of { pass.old.pool ≡ pool.now }
    requires running { pass.old.lent.ended ≡ false }
    requires out { pass.old.lent.out ≡ ticket_of t.now.want ∷ [] }
    ensures out { pass.new.lent.out ≡ pass.old.lent.out }
    ensures stays { (pass.new.pool ≡ pass.old.pool) × (pass.new.joined ≡ pass.old.joined) × (pass.new.lent.limits ≡ pass.old.lent.limits) × (pass.new.lent.number ≡ pass.old.lent.number) × (pass.new.lent.ended ≡ pass.old.lent.ended) }
{
    let mut desk = Desk { rt, pool, pass };
    match desk.start(t) {
        Start::Go(d) => {
            counts.calls.starts = counts.calls.starts.saturating_add(1);
            dial_ended(rt, pool, desk.pass, counts, d, unit);
        }
        Start::NotGranted => {}
    }
}

/// Waits until a want is served or may dial; then dials for it, and ends the lease.
fn waited<R: Wait>(
    rt: &R,
    pool: &Pool<u64>,
    pass: &mut Pass,
    counts: &mut Counts,
    mut t: Ticket,
    unit: Unit,
)
    requires of { pass.old.pool ≡ pool.now }
    requires running { pass.old.lent.ended ≡ false }
    requires out { pass.old.lent.out ≡ ticket_of t.want ∷ [] }
    ensures out { pass.new.lent.out ≡ [] }
    ensures stays { (pass.new.pool ≡ pass.old.pool) × (pass.new.joined ≡ pass.old.joined) × (pass.new.lent.limits ≡ pass.old.lent.limits) × (pass.new.lent.number ≡ pass.old.lent.number) × (pass.new.lent.ended ≡ pass.old.lent.ended) }
{
    for _ in rt.forever() {
        let mut desk = Desk {
            rt,
            pool,
            pass: &mut *pass,
        };
        match desk.ask(t) {
            Ask::Taken(l) => return ended(rt, pool, pass, counts, l, unit),
            Ask::Failed => return,
            Ask::Granted(back) => {
                dialed(rt, pool, pass, counts, &back, unit);
                t = back;
            }
            Ask::NotYet(back) => {
                yield_now();
                t = back;
            }
        }
    }
    unreachable!()
}

/// Gives a want up that isn't served.
fn asked_and_cancelled<R: Wait>(
    rt: &R,
    pool: &Pool<u64>,
    pass: &mut Pass,
    counts: &mut Counts,
    t: Ticket,
    unit: Unit,
)
    requires of { pass.old.pool ≡ pool.now }
    requires running { pass.old.lent.ended ≡ false }
    requires out { pass.old.lent.out ≡ ticket_of t.want ∷ [] }
    ensures out { pass.new.lent.out ≡ [] }
    ensures stays { (pass.new.pool ≡ pass.old.pool) × (pass.new.joined ≡ pass.old.joined) × (pass.new.lent.limits ≡ pass.old.lent.limits) × (pass.new.lent.number ≡ pass.old.lent.number) × (pass.new.lent.ended ≡ pass.old.lent.ended) }
{
    let mut desk = Desk { rt, pool, pass };
    match desk.ask(t) {
        Ask::Taken(l) => ended(rt, pool, desk.pass, counts, l, unit),
        Ask::Failed => {}
        Ask::Granted(t) => cancelled(rt, pool, desk.pass, counts, t, unit.now),
        Ask::NotYet(t) => cancelled(rt, pool, desk.pass, counts, t, unit.now),
    }
}

/// Gives a want up while it is dialed for, or where it may not dial.
fn started_and_cancelled<R: Wait>(
    rt: &R,
    pool: &Pool<u64>,
    pass: &mut Pass,
    counts: &mut Counts,
    t: Ticket,
    unit: Unit,
)
    requires of { pass.old.pool ≡ pool.now }
    requires running { pass.old.lent.ended ≡ false }
    requires out { pass.old.lent.out ≡ ticket_of t.want ∷ [] }
    ensures out { pass.new.lent.out ≡ [] }
    ensures stays { (pass.new.pool ≡ pass.old.pool) × (pass.new.joined ≡ pass.old.joined) × (pass.new.lent.limits ≡ pass.old.lent.limits) × (pass.new.lent.number ≡ pass.old.lent.number) × (pass.new.lent.ended ≡ pass.old.lent.ended) }
{
    let mut desk = Desk { rt, pool, pass };
    match desk.start(&t) {
        Start::Go(d) => {
            counts.calls.starts = counts.calls.starts.saturating_add(1);
            let Put { close } = desk.cancel(t, unit.now);
            counts.calls.cancelled = counts.calls.cancelled.saturating_add(1);
            counts.close(close);
            dial_ended(rt, pool, desk.pass, counts, d, unit);
        }
        Start::NotGranted => cancelled(rt, pool, desk.pass, counts, t, unit.now),
    }
}

/// Makes a unit and ends it.
fn one_unit<R: Wait + Abort>(
    rt: &R,
    pool: &Pool<u64>,
    pass: &mut Pass,
    counts: &mut Counts,
    unit: Unit,
)
    requires of { pass.old.pool ≡ pool.now }
    requires running { pass.old.lent.ended ≡ false }
    requires host { unit.host < pass.old.lent.limits.hosts }
    requires few { 0 < pass.old.lent.limits.per_pass }
    requires free { pass.old.lent.out ≡ [] }
    ensures out { pass.new.lent.out ≡ [] }
    ensures stays { (pass.new.pool ≡ pass.old.pool) × (pass.new.joined ≡ pass.old.joined) × (pass.new.lent.limits ≡ pass.old.lent.limits) × (pass.new.lent.number ≡ pass.old.lent.number) × (pass.new.lent.ended ≡ pass.old.lent.ended) }
{
    let t = wanted(rt, pool, pass, counts, unit);
    match unit.plan {
        Plan::GiveBack | Plan::DropIt | Plan::FailDial => {
            waited(rt, pool, pass, counts, t, unit);
        }
        Plan::CancelFirst => cancelled(rt, pool, pass, counts, t, unit.now),
        Plan::CancelWaiting => asked_and_cancelled(rt, pool, pass, counts, t, unit),
        Plan::CancelDialing | Plan::CancelFailing => {
            started_and_cancelled(rt, pool, pass, counts, t, unit);
        }
    }
}

/// Takes an idle connection out: one that is expired, or any.
fn idle_out<R: Wait>(
    rt: &R,
    pool: &Pool<u64>,
    pass: &mut Pass,
    counts: &mut Counts,
    expired: bool,
    now: u64,
)
    requires of { pass.old.pool ≡ pool.now }
    requires running { pass.old.lent.ended ≡ false }
    requires free { pass.old.lent.out ≡ [] }
    ensures out { pass.new.lent.out ≡ [] }
    ensures stays { (pass.new.pool ≡ pass.old.pool) × (pass.new.joined ≡ pass.old.joined) × (pass.new.lent.limits ≡ pass.old.lent.limits) × (pass.new.lent.number ≡ pass.old.lent.number) × (pass.new.lent.ended ≡ pass.old.lent.ended) }
{
    let mut desk = Desk { rt, pool, pass };
    if expired {
        if let Some(conn) = desk.expire(now) {
            counts.calls.expired = counts.calls.expired.saturating_add(1);
            counts.close(Some(conn));
        }
    } else {
        if let Some(conn) = desk.close_idle() {
            counts.calls.idle_closed = counts.calls.idle_closed.saturating_add(1);
            counts.close(Some(conn));
        }
    }
}

/// Waits until so many threads have arrived.
fn arrived<R: Wait>(rt: &R, meeting: &AtomicU64, threads: u64) {
    for _ in rt.forever() {
        if meeting.load(Ordering::SeqCst) >= threads {
            return;
        }
        yield_now();
    }
    unreachable!()
}

/// Dials for a want, and holds the connection until all four threads have arrived.
fn held<R: Wait + Abort>(
    rt: &R,
    pool: &Pool<u64>,
    pass: &mut Pass,
    counts: &mut Counts,
    meeting: &AtomicU64,
    unit: Unit,
)
    requires of { pass.old.pool ≡ pool.now }
    requires running { pass.old.lent.ended ≡ false }
    requires host { unit.host < pass.old.lent.limits.hosts }
    requires few { 0 < pass.old.lent.limits.per_pass }
    requires free { pass.old.lent.out ≡ [] }
    ensures out { pass.new.lent.out ≡ [] }
    ensures stays { (pass.new.pool ≡ pass.old.pool) × (pass.new.joined ≡ pass.old.joined) × (pass.new.lent.limits ≡ pass.old.lent.limits) × (pass.new.lent.number ≡ pass.old.lent.number) × (pass.new.lent.ended ≡ pass.old.lent.ended) }
{
    let t = wanted(rt, pool, pass, counts, unit);
    dialed(rt, pool, pass, counts, &t, unit);
    let mut desk = Desk { rt, pool, pass };
    match desk.ask(t) {
        Ask::Taken(l) => {
            meeting.fetch_add(1, Ordering::SeqCst);
            arrived(rt, meeting, 4);
            ended(rt, pool, desk.pass, counts, l, unit);
        }
        Ask::Granted(Ticket { want: _, host: _ }) => panic!(rt; "it was dialed for"),
        Ask::NotYet(Ticket { want: _, host: _ }) => panic!(rt; "it was dialed for"),
        Ask::Failed => panic!(rt; "its dial didn't fail"),
    }
}

/// Makes a want while two other threads hold all connections of its host, and waits for one of theirs.
fn served<R: Wait + Abort>(
    rt: &R,
    pool: &Pool<u64>,
    pass: &mut Pass,
    counts: &mut Counts,
    meeting: &AtomicU64,
    unit: Unit,
)
    requires of { pass.old.pool ≡ pool.now }
    requires running { pass.old.lent.ended ≡ false }
    requires host { unit.host < pass.old.lent.limits.hosts }
    requires few { 0 < pass.old.lent.limits.per_pass }
    requires free { pass.old.lent.out ≡ [] }
    ensures out { pass.new.lent.out ≡ [] }
    ensures stays { (pass.new.pool ≡ pass.old.pool) × (pass.new.joined ≡ pass.old.joined) × (pass.new.lent.limits ≡ pass.old.lent.limits) × (pass.new.lent.number ≡ pass.old.lent.number) × (pass.new.lent.ended ≡ pass.old.lent.ended) }
{
    arrived(rt, meeting, 2);
    let t = wanted(rt, pool, pass, counts, unit);
    meeting.fetch_add(1, Ordering::SeqCst);
    waited(rt, pool, pass, counts, t, unit);
}

/// The plan of a thread's unit of a number.
fn plan_of(number: u64) -> Plan {
    match number % 16 {
        0 => Plan::CancelFirst,
        2 => Plan::CancelWaiting,
        4 => Plan::CancelDialing,
        6 => Plan::CancelFailing,
        7 | 13 => Plan::FailDial,
        3 | 8 | 11 => Plan::DropIt,
        _ => Plan::GiveBack,
    }
}

/// The unit of a number of the thread of a number. Three of four want a connection to host 0.
fn unit_of(thread: u64, number: u64) -> Unit
    ensures { result.host < 2 }
{
    Unit {
        plan: plan_of(number.wrapping_add(thread.wrapping_mul(5))),
        host: if number % 4 == 3 { 1 } else { 0 },
        link: thread.wrapping_mul(1_000_000).wrapping_add(number),
        now: number.wrapping_mul(3),
    }
}

/// Begins the work of two threads: dials that fail, and then a connection that is held until all four have arrived.
/// Until then no connection is idle, and each host has room for both, so each of these wants may dial.
fn begun_first<R: Wait + Abort>(
    rt: &R,
    pool: &Pool<u64>,
    pass: &mut Pass,
    counts: &mut Counts,
    meeting: &AtomicU64,
    unit: Unit,
)
    requires of { pass.old.pool ≡ pool.now }
    requires running { pass.old.lent.ended ≡ false }
    requires host { unit.host < pass.old.lent.limits.hosts }
    requires few { 0 < pass.old.lent.limits.per_pass }
    requires free { pass.old.lent.out ≡ [] }
    ensures out { pass.new.lent.out ≡ [] }
    ensures stays { (pass.new.pool ≡ pass.old.pool) × (pass.new.joined ≡ pass.old.joined) × (pass.new.lent.limits ≡ pass.old.lent.limits) × (pass.new.lent.number ≡ pass.old.lent.number) × (pass.new.lent.ended ≡ pass.old.lent.ended) }
{
    let fails = Unit {
        plan: Plan::FailDial,
        ..unit
    };
    one_unit(rt, pool, pass, counts, fails);
    let late = Unit {
        plan: Plan::CancelFailing,
        ..unit
    };
    one_unit(rt, pool, pass, counts, late);
    held(rt, pool, pass, counts, meeting, unit);
}

/// Makes and ends units: first those by which two threads wait for the two others, and then as many as are said.
pub(super) fn work<R: Wait + Abort>(
    rt: &R,
    pool: &Pool<u64>,
    mut pass: Pass,
    meeting: &AtomicU64,
    thread: u64,
    units: u64,
) -> (Pass, Counts)
    requires of { pass.pool ≡ pool.now }
    requires running { pass.lent.ended ≡ false }
    requires host { pass.lent.limits.hosts ≡ 2 }
    requires few { 0 < pass.lent.limits.per_pass }
    requires free { pass.lent.out ≡ [] }
    ensures out { result.0.lent.out ≡ [] }
    ensures stays { (result.0.pool ≡ pass.pool) × (result.0.joined ≡ pass.joined) × (result.0.lent.limits ≡ pass.lent.limits) × (result.0.lent.ended ≡ pass.lent.ended) }
{
    let mut counts = Counts::new();
    let first = Unit {
        plan: Plan::GiveBack,
        host: 0,
        link: thread.wrapping_mul(1_000_000),
        now: 0,
    };
    if thread < 2 {
        begun_first(rt, pool, &mut pass, &mut counts, meeting, first);
    } else {
        served(rt, pool, &mut pass, &mut counts, meeting, first);
    }
    for number in 1..units {
        one_unit(rt, pool, &mut pass, &mut counts, unit_of(thread, number));
        if number % 8 == 5 {
            idle_out(
                rt,
                pool,
                &mut pass,
                &mut counts,
                number % 16 == 5,
                number.wrapping_mul(3),
            );
        }
    }
    (pass, counts)
}

/// Counts the calls of one caller.
pub(super) fn tally_of(journal: &[Entry], caller: u32) -> Tally {
    let mut tally = Tally::new();
    for entry in journal.iter() {
        if entry.caller == caller {
            tally.add(&entry.call);
        }
    }
    tally
}
