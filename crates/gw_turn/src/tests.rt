//! Passes used in turn on one thread, and by four threads, whose journal a plain machine replays.

mod machine;
mod replay_tests;
mod units;

ghost use Rattle.std.specs.Prelude.{◌≡◌, ◌<◌, ◌∷◌, [], false};
ghost use Rattle.gw_pool.specs.Tokens.{ticket_of};

use crate::desk::Desk;
use crate::pass::Pass;
use crate::pool::Pool;
use crate::tests::machine::{Replayed, replay};
use crate::tests::units::{Counts, tally_of, work};
use gw_pool::{Ask, Closed, Entry, Lease, Leases, Limits, Offer, Reply, Start, Ticket, Want};
use std::alloc::{AllocError, Global};
use std::process::Abort;
use std::sync::Wait;
use std::sync::atomic::AtomicU64;
use std::test::Fail;
use std::thread::{Threads, join};

/// How many units each of the four threads makes.
const UNITS: u64 = 1_500;

fn limits(passes: u32, journal: u32) -> Limits
    ensures hosts { result.hosts ≡ 1 }
    ensures passes { result.passes ≡ passes }
    ensures per_pass { result.per_pass ≡ 1 }
{
    Limits {
        idle_total: 100,
        idle_per_host: 2,
        conns_per_host: 1,
        idle_ms: 90_000,
        journal,
        passes,
        per_pass: 1,
        hosts: 1,
    }
}

/// Wants a connection to host 0.
fn made<R: Wait + Abort>(rt: &R, pool: &Pool<u64>, pass: &mut Pass) -> Ticket
    requires of { pass.old.pool ≡ pool.now }
    requires running { pass.old.lent.ended ≡ false }
    requires host { 0 < pass.old.lent.limits.hosts }
    requires few { 0 < pass.old.lent.limits.per_pass }
    requires free { pass.old.lent.out ≡ [] }
    ensures out { pass.new.lent.out ≡ ticket_of result.want ∷ [] }
    ensures stays { (pass.new.pool ≡ pass.old.pool) × (pass.new.joined ≡ pass.old.joined) × (pass.new.lent.limits ≡ pass.old.lent.limits) × (pass.new.lent.number ≡ pass.old.lent.number) × (pass.new.lent.ended ≡ pass.old.lent.ended) }
{
    let mut desk = Desk { rt, pool, pass };
    match desk.want(0, 0) {
        Want::Ticket(t) => t,
        Want::Expired(_) => panic!(rt; "nothing is idle"),
        Want::JournalFull => panic!(rt; "the journal has room"),
    }
}

/// Asks for a want that may dial.
fn granted<R: Wait + Abort>(rt: &R, pool: &Pool<u64>, pass: &mut Pass, t: Ticket) -> Ticket
    requires of { pass.old.pool ≡ pool.now }
    requires running { pass.old.lent.ended ≡ false }
    requires out { pass.old.lent.out ≡ ticket_of t.want ∷ [] }
    ensures same { result ≡ t }
    ensures out { pass.new.lent.out ≡ pass.old.lent.out }
    ensures stays { (pass.new.pool ≡ pass.old.pool) × (pass.new.joined ≡ pass.old.joined) × (pass.new.lent.limits ≡ pass.old.lent.limits) × (pass.new.lent.number ≡ pass.old.lent.number) × (pass.new.lent.ended ≡ pass.old.lent.ended) }
{
    let mut desk = Desk { rt, pool, pass };
    match desk.ask(t) {
        Ask::Granted(t) => t,
        Ask::NotYet(Ticket { want: _, host: _ }) => panic!(rt; "it may dial"),
        Ask::Taken(
            Lease {
                conn: _,
                no: _,
                want: _,
                host: _,
                link: _,
                reused: _,
            },
        ) => panic!(rt; "it may dial"),
        Ask::Failed => panic!(rt; "it may dial"),
    }
}

/// Asks for a want that isn't served yet.
fn not_yet<R: Wait + Abort>(rt: &R, pool: &Pool<u64>, pass: &mut Pass, t: Ticket) -> Ticket
    requires of { pass.old.pool ≡ pool.now }
    requires running { pass.old.lent.ended ≡ false }
    requires out { pass.old.lent.out ≡ ticket_of t.want ∷ [] }
    ensures same { result ≡ t }
    ensures out { pass.new.lent.out ≡ pass.old.lent.out }
    ensures stays { (pass.new.pool ≡ pass.old.pool) × (pass.new.joined ≡ pass.old.joined) × (pass.new.lent.limits ≡ pass.old.lent.limits) × (pass.new.lent.number ≡ pass.old.lent.number) × (pass.new.lent.ended ≡ pass.old.lent.ended) }
{
    let mut desk = Desk { rt, pool, pass };
    match desk.ask(t) {
        Ask::NotYet(t) => t,
        Ask::Granted(Ticket { want: _, host: _ }) => panic!(rt; "it waits"),
        Ask::Taken(
            Lease {
                conn: _,
                no: _,
                want: _,
                host: _,
                link: _,
                reused: _,
            },
        ) => panic!(rt; "it waits"),
        Ask::Failed => panic!(rt; "it waits"),
    }
}

/// Begins the dial of a want that may dial, which fails.
fn dial_fails<R: Wait + Abort>(rt: &R, pool: &Pool<u64>, pass: &mut Pass, t: Ticket)
    requires of { pass.old.pool ≡ pool.now }
    requires running { pass.old.lent.ended ≡ false }
    requires out { pass.old.lent.out ≡ ticket_of t.want ∷ [] }
    ensures out { pass.new.lent.out ≡ [] }
    ensures stays { (pass.new.pool ≡ pass.old.pool) × (pass.new.joined ≡ pass.old.joined) × (pass.new.lent.limits ≡ pass.old.lent.limits) × (pass.new.lent.number ≡ pass.old.lent.number) × (pass.new.lent.ended ≡ pass.old.lent.ended) }
{
    let mut desk = Desk { rt, pool, pass };
    match desk.start(&t) {
        Start::Go(d) => desk.dial_failed(d),
        Start::NotGranted => panic!(rt; "it may dial"),
    }
    match desk.ask(t) {
        Ask::Failed => {}
        Ask::NotYet(Ticket { want: _, host: _ }) => panic!(rt; "its dial failed"),
        Ask::Granted(Ticket { want: _, host: _ }) => panic!(rt; "its dial failed"),
        Ask::Taken(
            Lease {
                conn: _,
                no: _,
                want: _,
                host: _,
                link: _,
                reused: _,
            },
        ) => panic!(rt; "its dial failed"),
    }
}

#[test]
fn two_passes_in_turn(rt: HostRuntime) -> Result<(), Fail> {
    let (pool, mut passes) = Pool::<u64>::open(rt.alloc(), limits(2, 100))?;
    let mut one = match passes.pop() {
        Some(pass) => pass,
        None => unreachable!(),
    };
    let mut zero = match passes.pop() {
        Some(pass) => pass,
        None => unreachable!(),
    };
    let first = made(&rt, &pool, &mut zero);
    let first = granted(&rt, &pool, &mut zero, first);
    let second = made(&rt, &pool, &mut one);
    let second = not_yet(&rt, &pool, &mut one, second);
    dial_fails(&rt, &pool, &mut zero, first);
    let second = granted(&rt, &pool, &mut one, second);
    dial_fails(&rt, &pool, &mut one, second);
    pool.join_pass(&mut zero, one);
    match pool.close(zero) {
        Ok(Closed { journal, idle }) => {
            assert_eq!(rt; idle.len(), 0);
            let text = format!(in rt.alloc(); "{journal:?}")?;
            assert_eq!(rt;
                text.as_str(),
                "[Entry { caller: 0, call: Want { host: 0, now: 0 }, reply: Granted { want: 0 } }, Entry { caller: 1, call: Want { host: 0, now: 0 }, reply: Waiting { want: 1 } }, Entry { caller: 0, call: Start { want: 0 }, reply: Go }, Entry { caller: 0, call: DialFailed { want: 0 }, reply: Ended { next: Some(1) } }, Entry { caller: 1, call: Start { want: 1 }, reply: Go }, Entry { caller: 1, call: DialFailed { want: 1 }, reply: Ended { next: None } }]"
            );
            Ok(())
        }
        Err(_) => Err("no memory".into()),
    }
}

/// Limits under which four threads often wait for one another.
fn narrow() -> Limits
    ensures hosts { result.hosts ≡ 2 }
    ensures passes { result.passes ≡ 4 }
    ensures per_pass { result.per_pass ≡ 1 }
{
    Limits {
        idle_total: 1,
        idle_per_host: 1,
        conns_per_host: 2,
        idle_ms: 42,
        journal: 60_000,
        passes: 4,
        per_pass: 1,
        hosts: 2,
    }
}

/// Two threads of work.
fn work_both<R: Threads + Wait + Abort + Sync>(
    rt: &R,
    pool: &Pool<u64>,
    meeting: &AtomicU64,
    one: Pass,
    two: Pass,
    thread: u64,
) -> ((Pass, Counts), (Pass, Counts))
    requires one { (one.pool ≡ pool.now) × (one.lent.limits.hosts ≡ 2) × (0 < one.lent.limits.per_pass) × (one.lent.out ≡ []) × (one.lent.ended ≡ false) }
    requires two { (two.pool ≡ pool.now) × (two.lent.limits.hosts ≡ 2) × (0 < two.lent.limits.per_pass) × (two.lent.out ≡ []) × (two.lent.ended ≡ false) }
    ensures one { (result.0.0.lent.out ≡ []) × (result.0.0.pool ≡ one.pool) × (result.0.0.joined ≡ one.joined) × (result.0.0.lent.limits ≡ one.lent.limits) × (result.0.0.lent.ended ≡ one.lent.ended) }
    ensures two { (result.1.0.lent.out ≡ []) × (result.1.0.pool ≡ two.pool) × (result.1.0.joined ≡ two.joined) × (result.1.0.lent.limits ≡ two.lent.limits) × (result.1.0.lent.ended ≡ two.lent.ended) }
{
    join(
        rt,
        || work(rt, pool, one, meeting, thread, UNITS),
        || work(rt, pool, two, meeting, thread.wrapping_add(1), UNITS),
    )
}

/// How many entries have replies of which some come in every schedule.
#[derive(Clone, Copy)]
struct Seen {
    made: u64,
    waiting: u64,
    handed_over: u64,
    ended: u64,
    late: u64,
}

impl Seen {
    fn add(&mut self, reply: &Reply) {
        match reply {
            Reply::Given { .. } | Reply::Granted { .. } => self.made = self.made.saturating_add(1),
            Reply::Waiting { .. } => {
                self.made = self.made.saturating_add(1);
                self.waiting = self.waiting.saturating_add(1);
            }
            Reply::Put {
                offer: Offer::ToWant { .. },
            } => self.handed_over = self.handed_over.saturating_add(1),
            Reply::Ended { .. } => self.ended = self.ended.saturating_add(1),
            Reply::Late { .. } => self.late = self.late.saturating_add(1),
            _ => {}
        }
    }
}

fn seen_in(journal: &[Entry]) -> Seen {
    let mut seen = Seen {
        made: 0,
        waiting: 0,
        handed_over: 0,
        ended: 0,
        late: 0,
    };
    for entry in journal.iter() {
        seen.add(&entry.reply);
    }
    seen
}

/// Two threads begin by a dial that fails, by one that fails after its want was cancelled, and by a connection that the
/// two others wait for.
fn shows<R: Abort>(rt: &R, seen: Seen) {
    assert_eq!(rt; seen.made, 4 * UNITS + 4, "units");
    assert!(rt; seen.waiting >= 2, "wants that wait");
    assert!(rt;
        seen.handed_over >= 2,
        "connections that go from one thread to another"
    );
    assert!(rt; seen.ended >= 2, "dials that fail");
    assert!(rt;
        seen.late >= 2,
        "dials that fail after their wants were cancelled"
    );
}

/// Replays a journal, and compares what is idle at its end.
fn replays<R: Abort>(
    rt: &R,
    alloc: Global,
    limits: Limits,
    journal: &[Entry],
    idle: &[u64],
) -> Result<(), AllocError> {
    match replay(alloc, limits, journal)? {
        Replayed::Whole(mut machine) => {
            assert!(rt; machine.is_quiet(), "a unit is left");
            let links = machine.take_idle()?;
            assert_eq!(rt; links.as_slice(), idle);
            Ok(())
        }
        Replayed::Unfit(at) => panic!(rt; "the call of entry {at} doesn't fit"),
        Replayed::Otherwise(at, reply) => {
            panic!(rt; "the machine answers the call of entry {at} by {reply:?}")
        }
    }
}

/// Compares what the threads counted with the journal.
fn counted<R: Abort>(rt: &R, journal: &[Entry], counts: &[Counts], idle: usize) {
    let mut entries = 0u64;
    let mut dialed = 0u64;
    let mut closed = idle as u64;
    let mut caller = 0u32;
    for count in counts.iter() {
        let tally = tally_of(journal, caller);
        assert_eq!(rt; tally, count.calls, "the calls of caller {caller}");
        caller = caller.saturating_add(1);
        entries = entries.saturating_add(tally.total());
        dialed = dialed.saturating_add(tally.dialed);
        closed = closed.saturating_add(count.closed);
    }
    assert_eq!(rt; entries, journal.len() as u64, "entries of other callers");
    assert_eq!(rt;
        dialed,
        closed,
        "connections that came to be, and that were closed or are idle"
    );
}

#[test]
fn four_threads(rt: HostRuntime) -> Result<(), Fail> {
    let (pool, mut passes) = Pool::<u64>::open(rt.alloc(), narrow())?;
    let (Some(d), Some(c), Some(b), Some(a)) = (
        passes.pop(),
        passes.pop(),
        passes.pop(),
        passes.pop(),
    ) else {
        unreachable!()
    };
    let meeting = AtomicU64::new(0);
    let (((mut a, first), (b, second)), ((c, third), (d, fourth))) = join(
        &rt,
        || work_both(&rt, &pool, &meeting, a, b, 0),
        || work_both(&rt, &pool, &meeting, c, d, 2),
    );
    pool.join_pass(&mut a, b);
    pool.join_pass(&mut a, c);
    pool.join_pass(&mut a, d);
    match pool.close(a) {
        Ok(Closed { journal, idle }) => {
            replays(
                &rt,
                rt.alloc(),
                narrow(),
                journal.as_slice(),
                idle.as_slice(),
            )?;
            counted(
                &rt,
                journal.as_slice(),
                &[first, second, third, fourth],
                idle.len(),
            );
            shows(&rt, seen_in(journal.as_slice()));
            Ok(())
        }
        Err(_) => Err("no memory".into()),
    }
}
