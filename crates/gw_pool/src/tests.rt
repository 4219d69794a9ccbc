//! Exchanges by a caller of any leases, and calls of several callers of one pool, over ample memory.

ghost use Rattle.std.specs.Prelude.{◌≡◌, ◌<◌, ◌∷◌, [], false, length, find, IsSome, IfOk};
ghost use Rattle.std.specs.Option.{ForSome};
ghost use Rattle.gw_pool.specs.History.{IsLegal};
ghost use Rattle.gw_pool.specs.Lent.{LeaseOf};
ghost use Rattle.gw_pool.specs.Tokens.{ticket_of, leased};
ghost use Rattle.gw_pool.specs.State.{wants_it, dials_for, has_number};
ghost use Rattle.gw_pool.specs.Shelf.{is_among, LeavesTaken, LeavesOthers};
ghost use Rattle.gw_pool.specs.Machine.{units, want_step, start_row, dialed_row, back_row};
ghost use Rattle.gw_pool.specs.Core.{state_at, IsBack};

use crate::answers::{Closed, CoreAsk, CoreWant};
use crate::leases::{Ask, Lease, Leases, Put, Start, Ticket, Want};
use crate::limits::Limits;
use crate::pool::PoolCore;
use crate::solo::Solo;
use gw_wire::Link;
use std::process::Abort;
use std::test::Fail;

fn limits() -> Limits
    ensures hosts { 0 < result.hosts }
    ensures passes { 0 < result.passes }
    ensures per_pass { 0 < result.per_pass }
{
    Limits {
        idle_total: 100,
        idle_per_host: 2,
        conns_per_host: 0,
        idle_ms: 90_000,
        journal: 16,
        passes: 1,
        per_pass: 1,
        hosts: 1,
    }
}

fn given_up<L: Leases<u64>>(pool: &mut L, t: Ticket) -> Option<u64>
    requires out { (L.lent pool.old).out ≡ ticket_of t.want ∷ [] }
    requires running { (L.lent pool.old).ended ≡ false }
    ensures out { (L.lent pool.new).out ≡ [] }
    ensures running { (L.lent pool.new).ended ≡ false }
    ensures legal { IsLegal (L.lent pool.new).limits (L.lent pool.new).seen }
{
    let Put { close: _ } = pool.cancel(t, 7);
    None
}

/// Wants, dials and drops a connection with the link number 40, and says which was dropped.
fn exchange<L: Leases<u64>>(pool: &mut L) -> Option<u64>
    requires out { (L.lent pool.old).out ≡ [] }
    requires running { (L.lent pool.old).ended ≡ false }
    requires host { 0 < (L.lent pool.old).limits.hosts }
    requires few { 0 < (L.lent pool.old).limits.per_pass }
    ensures out { (L.lent pool.new).out ≡ [] }
    ensures running { (L.lent pool.new).ended ≡ false }
    ensures legal { IsLegal (L.lent pool.new).limits (L.lent pool.new).seen }
{
    let t = match pool.want(0, 7) {
        Want::Ticket(t) => t,
        Want::Expired(_) => return None,
        Want::JournalFull => return None,
    };
    let t = match pool.ask(t) {
        Ask::Granted(t) => t,
        Ask::NotYet(t) => return given_up(pool, t),
        Ask::Taken(l) => return Some(pool.drop_conn(l)),
        Ask::Failed => return None,
    };
    let d = match pool.start(&t) {
        Start::Go(d) => d,
        Start::NotGranted => return given_up(pool, t),
    };
    let Put { close: _ } = pool.dialed(d, 40, 7);
    match pool.ask(t) {
        Ask::Taken(l) => Some(pool.drop_conn(l)),
        Ask::Granted(t) => given_up(pool, t),
        Ask::NotYet(t) => given_up(pool, t),
        Ask::Failed => None,
    }
}

#[test]
fn first_exchange(rt: HostRuntime) -> Result<(), Fail> {
    let mut pool = Solo::open(rt.alloc(), limits())?;
    assert_eq!(rt; exchange(&mut pool), Some(40));
    match pool.close() {
        Ok(Closed { journal, idle }) => {
            assert_eq!(rt; idle.len(), 0);
            let text = format!(in rt.alloc(); "{journal:?}")?;
            assert_eq!(rt;
                text.as_str(),
                "[Entry { caller: 0, call: Want { host: 0, now: 7 }, reply: Granted { want: 0 } }, Entry { caller: 0, call: Start { want: 0 }, reply: Go }, Entry { caller: 0, call: Dialed { want: 0, link: 40, now: 7 }, reply: Kept { conn: 0 } }, Entry { caller: 0, call: Drop { conn: 0 }, reply: Dropped { next: None } }]"
            );
            Ok(())
        }
        Err(_) => Err("no memory".into()),
    }
}

#[test]
fn opened_and_closed(rt: HostRuntime) -> Result<(), Fail> {
    let core = PoolCore::<u64>::open(rt.alloc(), limits())?;
    assert_eq!(rt; core.journal().len(), 0);
    match core.close() {
        Ok((journal, idle)) => {
            assert_eq!(rt; journal.len(), 0);
            assert_eq!(rt; idle.len(), 0);
            Ok(())
        }
        Err(_) => Err("no memory".into()),
    }
}

/// Gets a connection to a host, by a dial with this link number where none is idle, and gives it back: Some of what is
/// left to be closed, and None where there was no connection.
fn round_trip<L: Leases<u64>>(pool: &mut L, host: u32, link: u64, now: u64) -> Option<Option<u64>>
    requires out { (L.lent pool.old).out ≡ [] }
    requires running { (L.lent pool.old).ended ≡ false }
    requires host { host < (L.lent pool.old).limits.hosts }
    requires few { 0 < (L.lent pool.old).limits.per_pass }
    ensures out { (L.lent pool.new).out ≡ [] }
    ensures running { (L.lent pool.new).ended ≡ false }
    ensures limits { (L.lent pool.new).limits ≡ (L.lent pool.old).limits }
{
    let t = match pool.want(host, now) {
        Want::Ticket(t) => t,
        Want::Expired(_) => return None,
        Want::JournalFull => return None,
    };
    let t = match pool.ask(t) {
        Ask::Granted(t) => t,
        Ask::NotYet(t) => return nothing(pool, t),
        Ask::Taken(l) => return given_back(pool, l, now),
        Ask::Failed => return None,
    };
    let d = match pool.start(&t) {
        Start::Go(d) => d,
        Start::NotGranted => return nothing(pool, t),
    };
    let Put { close: _ } = pool.dialed(d, link, now);
    match pool.ask(t) {
        Ask::Taken(l) => given_back(pool, l, now),
        Ask::Granted(t) => nothing(pool, t),
        Ask::NotYet(t) => nothing(pool, t),
        Ask::Failed => None,
    }
}

fn nothing<L: Leases<u64>>(pool: &mut L, t: Ticket) -> Option<Option<u64>>
    requires out { (L.lent pool.old).out ≡ ticket_of t.want ∷ [] }
    requires running { (L.lent pool.old).ended ≡ false }
    ensures out { (L.lent pool.new).out ≡ [] }
    ensures running { (L.lent pool.new).ended ≡ false }
    ensures limits { (L.lent pool.new).limits ≡ (L.lent pool.old).limits }
{
    let Put { close: _ } = pool.cancel(t, 7);
    None
}

fn given_back<C: Link, L: Leases<C>>(pool: &mut L, l: Lease<C>, now: u64) -> Option<Option<C>>
    requires lease { LeaseOf C.link (L.lent pool.old) l }
    requires out { (L.lent pool.old).out ≡ leased (ticket_of l.want) ∷ [] }
    requires running { (L.lent pool.old).ended ≡ false }
    ensures out { (L.lent pool.new).out ≡ [] }
    ensures running { (L.lent pool.new).ended ≡ false }
    ensures limits { (L.lent pool.new).limits ≡ (L.lent pool.old).limits }
{
    let Put { close } = pool.give_back(l, now);
    Some(close)
}

#[test]
fn full_journal(rt: HostRuntime) -> Result<(), Fail> {
    let mut pool = Solo::open(rt.alloc(), limits())?;
    assert_eq!(rt; round_trip(&mut pool, 0, 40, 7), Some(None));
    assert_eq!(rt; round_trip(&mut pool, 0, 41, 7), Some(None));
    assert_eq!(rt; round_trip(&mut pool, 0, 42, 7), Some(None));
    assert_eq!(rt; round_trip(&mut pool, 0, 43, 7), Some(None));
    assert_eq!(rt; round_trip(&mut pool, 0, 44, 7), None);
    match pool.close() {
        Ok(Closed { journal, idle }) => {
            assert_eq!(rt; journal.len(), 10);
            assert_eq!(rt; idle.as_slice(), [40u64].as_slice());
            Ok(())
        }
        Err(_) => Err("no memory".into()),
    }
}

#[test]
fn evicted(rt: HostRuntime) -> Result<(), Fail> {
    let limits = Limits {
        idle_total: 1,
        hosts: 2,
        journal: 100,
        ..limits()
    };
    let mut pool = Solo::open(rt.alloc(), limits)?;
    assert_eq!(rt; round_trip(&mut pool, 0, 50, 7), Some(None));
    assert_eq!(rt; round_trip(&mut pool, 1, 51, 7), Some(Some(50)));
    assert_eq!(rt; pool.close_idle(), Some(51));
    assert_eq!(rt; pool.close_idle(), None);
    Ok(())
}

#[test]
fn expired(rt: HostRuntime) -> Result<(), Fail> {
    let limits = Limits {
        idle_ms: 1000,
        journal: 100,
        ..limits()
    };
    let mut pool = Solo::open(rt.alloc(), limits)?;
    assert_eq!(rt; round_trip(&mut pool, 0, 50, 7), Some(None));
    assert_eq!(rt; pool.expire(1007), None);
    assert_eq!(rt; pool.expire(1008), Some(50));
    assert_eq!(rt; round_trip(&mut pool, 0, 51, 2000), Some(None));
    match pool.want(0, 3001) {
        Want::Expired(conn) => {
            assert_eq!(rt; conn, 51);
            Ok(())
        }
        Want::Ticket(t) => {
            let _ = nothing(&mut pool, t);
            Err("an expired connection was handed out".into())
        }
        Want::JournalFull => Err("full".into()),
    }
}

#[test]
fn none_idle(rt: HostRuntime) -> Result<(), Fail> {
    let limits = Limits {
        idle_per_host: 0,
        ..limits()
    };
    let mut pool = Solo::open(rt.alloc(), limits)?;
    assert_eq!(rt; round_trip(&mut pool, 0, 50, 7), Some(Some(50)));
    assert_eq!(rt; pool.close_idle(), None);
    Ok(())
}

/// Limits of a pool with four callers, each with one want at a time.
fn several(idle_per_host: u32, conns_per_host: u32) -> Limits
    ensures { result ≡ record { idle_total = 100; idle_per_host = idle_per_host; conns_per_host = conns_per_host; idle_ms = 1000; journal = 100; passes = 4; per_pass = 1; hosts = 1 } }
{
    Limits {
        idle_total: 100,
        idle_per_host,
        conns_per_host,
        idle_ms: 1000,
        journal: 100,
        passes: 4,
        per_pass: 1,
        hosts: 1,
    }
}

/// The number of a want of host 0 that a caller made.
fn made(core: &mut PoolCore<u64>, caller: u32) -> Result<u64, Fail>
    requires host { 0 < core.old.limits.hosts }
    requires caller { caller < core.old.limits.passes }
    requires few { length (units (state_at core.old) caller) < core.old.limits.per_pass }
    ensures limits { IfOk result (λ _. core.new.limits ≡ core.old.limits) }
    ensures state { IfOk result (λ _. state_at core.new ≡ (want_step core.old.limits (state_at core.old) caller 0 0).state) }
    ensures taken { IfOk result (λ _. LeavesTaken core.old.taken core.new.taken) }
{
    match core.want(caller, 0, 0) {
        CoreWant::Made(want) => Ok(want),
        CoreWant::Expired(_) => Err("expired".into()),
        CoreWant::JournalFull => Err("full".into()),
    }
}

/// Begins the dial of a want.
fn started(core: &mut PoolCore<u64>, want: u64) -> Result<(), Fail>
    requires { is_among want core.old.taken ≡ false }
    ensures limits { IfOk result (λ _. core.new.limits ≡ core.old.limits) }
    ensures state { IfOk result (λ _. ForSome (find (wants_it want) (state_at core.old).wants) (λ row. state_at core.new ≡ (start_row (state_at core.old) row).state)) }
    ensures taken { IfOk result (λ _. LeavesTaken core.old.taken core.new.taken) }
{
    if core.start(want) {
        Ok(())
    } else {
        Err("the want may not dial".into())
    }
}

/// A want's dial gave a link: what is to be closed.
fn dialed(core: &mut PoolCore<u64>, want: u64, link: u64) -> Option<u64>
    requires { IsSome (find (dials_for want) (state_at core.old).dials) }
    ensures limits { core.new.limits ≡ core.old.limits }
    ensures state { ForSome (find (dials_for want) (state_at core.old).dials) (λ row. state_at core.new ≡ (dialed_row core.old.limits (state_at core.old) row link 0).state) }
    ensures taken { LeavesTaken core.old.taken core.new.taken }
{
    let Put { close } = core.dialed(want, link, 0);
    close
}

/// Gives a connection back, whose link this is: what is to be closed.
fn put_back(core: &mut PoolCore<u64>, no: u64, link: u64) -> Option<u64>
    requires { IsBack (λ n. record { number = n; faults = 0; ends = 0 }) link (find (has_number no) (state_at core.old).conns) }
    ensures limits { core.new.limits ≡ core.old.limits }
    ensures state { ForSome (find (has_number no) (state_at core.old).conns) (λ row. state_at core.new ≡ (back_row core.old.limits (state_at core.old) row 0).state) }
    ensures taken { LeavesTaken core.old.taken core.new.taken }
{
    let Put { close } = core.give_back(no, link, 0);
    close
}

/// How a want stands that has no connection.
fn asked(core: &mut PoolCore<u64>, want: u64) -> Result<&'static str, Fail>
    requires { is_among want core.old.taken ≡ false }
    ensures { IfOk result (λ _. core.new ≡ core.old) }
{
    match core.ask(want) {
        CoreAsk::Taken(_, _, _, _) => Err("the want has a connection".into()),
        CoreAsk::Granted => Ok("granted"),
        CoreAsk::NotYet => Ok("not yet"),
        CoreAsk::Failed => Ok("failed"),
    }
}

/// The connection that is handed out to a want: its link, its number, whether it served a want before, and its host.
fn taken(core: &mut PoolCore<u64>, want: u64) -> Result<(u64, u64, bool, u32), Fail>
    requires { is_among want core.old.taken ≡ false }
    ensures limits { IfOk result (λ _. core.new.limits ≡ core.old.limits) }
    ensures state { IfOk result (λ _. state_at core.new ≡ state_at core.old) }
    ensures taken { IfOk result (λ _. LeavesOthers want core.old.taken core.new.taken) }
{
    match core.ask(want) {
        CoreAsk::Taken(link, no, reused, host) => Ok((link, no, reused, host)),
        CoreAsk::Granted => Err("granted".into()),
        CoreAsk::NotYet => Err("not yet".into()),
        CoreAsk::Failed => Err("failed".into()),
    }
}

#[test]
fn place_handed_on(rt: HostRuntime) -> Result<(), Fail> {
    let mut core = PoolCore::open(rt.alloc(), several(2, 1))?;
    assert_eq!(rt; made(&mut core, 0)?, 0);
    assert_eq!(rt; made(&mut core, 1)?, 1);
    assert_eq!(rt; asked(&mut core, 1)?, "not yet");
    started(&mut core, 0)?;
    core.dial_failed(0);
    assert_eq!(rt; asked(&mut core, 0)?, "failed");
    assert_eq!(rt; asked(&mut core, 1)?, "granted");
    let journal = core.journal();
    let text = format!(in rt.alloc(); "{journal:?}")?;
    assert_eq!(rt;
        text.as_str(),
        "[Entry { caller: 0, call: Want { host: 0, now: 0 }, reply: Granted { want: 0 } }, Entry { caller: 1, call: Want { host: 0, now: 0 }, reply: Waiting { want: 1 } }, Entry { caller: 0, call: Start { want: 0 }, reply: Go }, Entry { caller: 0, call: DialFailed { want: 0 }, reply: Ended { next: Some(1) } }]"
    );
    Ok(())
}

/// Caller 0's want is served by a connection that caller 2 gives back while its own dial runs: what is to be closed of
/// that dial's connection.
fn dial_lost(rt: &impl Abort, core: &mut PoolCore<u64>) -> Result<Option<u64>, Fail>
    requires limits { core.old.limits ≡ record { idle_total = 100; idle_per_host = core.old.limits.idle_per_host; conns_per_host = 0; idle_ms = 1000; journal = 100; passes = 4; per_pass = 1; hosts = 1 } }
    requires journal { core.old.journal ≡ [] }
    requires taken { core.old.taken ≡ [] }
{
    assert_eq!(rt; made(core, 2)?, 0);
    started(core, 0)?;
    assert_eq!(rt; dialed(core, 0, 50), None);
    assert_eq!(rt; taken(core, 0)?, (50, 0, false, 0));
    assert_eq!(rt; made(core, 0)?, 1);
    started(core, 1)?;
    assert_eq!(rt; put_back(core, 0, 50), None);
    let close = dialed(core, 1, 51);
    assert_eq!(rt; taken(core, 1)?, (50, 0, true, 0));
    Ok(close)
}

#[test]
fn losing_dial(rt: HostRuntime) -> Result<(), Fail> {
    let mut core = PoolCore::open(rt.alloc(), several(2, 0))?;
    assert_eq!(rt; dial_lost(&rt, &mut core)?, None);
    let journal = core.journal();
    let text = format!(in rt.alloc(); "{journal:?}")?;
    assert_eq!(rt;
        text.as_str(),
        "[Entry { caller: 2, call: Want { host: 0, now: 0 }, reply: Granted { want: 0 } }, Entry { caller: 2, call: Start { want: 0 }, reply: Go }, Entry { caller: 2, call: Dialed { want: 0, link: 50, now: 0 }, reply: Kept { conn: 0 } }, Entry { caller: 0, call: Want { host: 0, now: 0 }, reply: Granted { want: 1 } }, Entry { caller: 0, call: Start { want: 1 }, reply: Go }, Entry { caller: 2, call: GiveBack { conn: 0, now: 0 }, reply: Put { offer: ToWant { want: 1, next: None } } }, Entry { caller: 0, call: Dialed { want: 1, link: 51, now: 0 }, reply: Offered { conn: 1, offer: Idle { evicted: None } } }]"
    );
    Ok(())
}

#[test]
fn losing_dial_closed(rt: HostRuntime) -> Result<(), Fail> {
    let mut core = PoolCore::open(rt.alloc(), several(0, 0))?;
    assert_eq!(rt; dial_lost(&rt, &mut core)?, Some(51));
    let journal = core.journal();
    assert_eq!(rt; journal.len(), 7);
    let text = format!(in rt.alloc(); "{:?}", journal.last())?;
    assert_eq!(rt;
        text.as_str(),
        "Some(Entry { caller: 0, call: Dialed { want: 1, link: 51, now: 0 }, reply: Offered { conn: 1, offer: Closed } })"
    );
    Ok(())
}

#[test]
fn cancelled_after_given(rt: HostRuntime) -> Result<(), Fail> {
    let mut core = PoolCore::open(rt.alloc(), several(2, 1))?;
    assert_eq!(rt; made(&mut core, 0)?, 0);
    started(&mut core, 0)?;
    assert_eq!(rt; dialed(&mut core, 0, 50), None);
    assert_eq!(rt; made(&mut core, 3)?, 1);
    let Put { close } = core.cancel(0, 0);
    assert_eq!(rt; close, None);
    assert_eq!(rt; taken(&mut core, 1)?, (50, 0, true, 0));
    let journal = core.journal();
    let text = format!(in rt.alloc(); "{journal:?}")?;
    assert_eq!(rt;
        text.as_str(),
        "[Entry { caller: 0, call: Want { host: 0, now: 0 }, reply: Granted { want: 0 } }, Entry { caller: 0, call: Start { want: 0 }, reply: Go }, Entry { caller: 0, call: Dialed { want: 0, link: 50, now: 0 }, reply: Kept { conn: 0 } }, Entry { caller: 3, call: Want { host: 0, now: 0 }, reply: Waiting { want: 1 } }, Entry { caller: 0, call: Cancel { want: 0, now: 0 }, reply: Returned { conn: 0, offer: ToWant { want: 1, next: None } } }]"
    );
    Ok(())
}
