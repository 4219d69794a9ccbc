//! Attempts on idle connections that all have ended.

ghost use Rattle.std.specs.Prelude.{◌≡◌, ◌<◌, ◌≤◌, ◌+◌, ◌++◌, ◌∷◌, [], ℕ, find, length, IfOk, true, false};
ghost use Rattle.gw_stream.specs.Outbox.{out_size};
ghost use Rattle.gw_pool.specs.Tokens.{change, has_dial, names, ticket_of, with_dial, without_dial, without_ticket};

use crate::buffers::Buffers;
use crate::test_rig::Rig;
use crate::tests::{BACKEND, Came as Leased, NOW, half_a_minute, limits, trip, wire};
use crate::trip_tests::{Came, get};
use gw_pool::{DialToken, Leases, Limits, Put, Solo, Start, Want};
use gw_retry::Failure;
use gw_wire::{Act, Dial, MemConn, MemWire, Wire};
use std::alloc::{AllocError, Global};
use std::process::Abort;
use std::test::Fail;

/// What a trip does with a link.
#[derive(Clone, Copy, Debug, PartialEq, Eq)]
enum Deed {
    Dialed(u64),
    Closed(u64),
    Else,
}

const CLOSES_ALL_BUT_ONE: [Deed; 17] = [
    Deed::Dialed(1),
    Deed::Dialed(2),
    Deed::Dialed(3),
    Deed::Dialed(4),
    Deed::Dialed(5),
    Deed::Dialed(6),
    Deed::Dialed(7),
    Deed::Dialed(8),
    Deed::Dialed(9),
    Deed::Closed(9),
    Deed::Closed(8),
    Deed::Closed(7),
    Deed::Closed(6),
    Deed::Closed(5),
    Deed::Closed(4),
    Deed::Closed(3),
    Deed::Closed(2),
];

fn room_for_nine() -> Limits
    ensures hosts { result.hosts ≡ 1 }
    ensures passes { result.passes ≡ 1 }
    ensures per_pass { result.per_pass ≡ 9 }
{
    Limits {
        idle_total: 16,
        idle_per_host: 16,
        per_pass: 9,
        passes: 1,
        hosts: 1,
        ..limits(256)
    }
}

// Begins the dial of the want of this number, which is given up then.
fn begun<R: Abort>(rt: &R, pool: &mut Solo<MemConn>, number: u64) -> DialToken
    requires running { pool.old.ended ≡ false }
    requires hosts { 0 < pool.old.limits.hosts }
    requires few { length pool.old.out < pool.old.limits.per_pass }
    requires unused { (want : ℕ) → number ≤ want → find (names want) pool.old.out ≡ None }
    ensures want { result.want ≡ number }
    ensures out { pool.new.out ≡ pool.old.out ++ without_ticket (with_dial (ticket_of number)) ∷ [] }
    ensures running { pool.new.ended ≡ false }
    ensures limits { pool.new.limits ≡ pool.old.limits }
{
    let ticket = match pool.want(0, NOW) {
        Want::Ticket(ticket) => ticket,
        Want::Expired(_) | Want::JournalFull => panic!(rt; "it is made"),
    };
    assert!(rt; ticket.want == number, "wants are numbered from 0");
    let token = match pool.start(&ticket) {
        Start::Go(token) => token,
        Start::NotGranted => panic!(rt; "it may dial"),
    };
    let Put { close } = pool.cancel(ticket, NOW);
    assert!(rt; close.is_none());
    token
}

// Ends a dial by a connection, which nobody wants.
fn ended<R: Abort>(rt: &R, wire: &mut MemWire, pool: &mut Solo<MemConn>, token: DialToken)
    requires running { pool.old.ended ≡ false }
    requires dial { has_dial token.want pool.old.out ≡ true }
    ensures fresh { wire.new.aged ≡ false }
    ensures out { pool.new.out ≡ change token.want without_dial pool.old.out }
    ensures running { pool.new.ended ≡ false }
    ensures limits { pool.new.limits ≡ pool.old.limits }
{
    let conn = match wire.dial(0, &BACKEND) {
        Dial::Conn(conn) => conn,
        Dial::Failed => panic!(rt; "it gives a link"),
    };
    let now = wire.now();
    let Put { close } = pool.dialed(token, conn, now);
    assert!(rt; close.is_none());
}

// Makes so many connections idle: all dials are under way before the first one ends.
fn make_idle<R: Abort>(
    rt: &R,
    wire: &mut MemWire,
    pool: &mut Solo<MemConn>,
    number: u64,
    count: u64,
)
    requires fresh { wire.old.aged ≡ false }
    requires running { pool.old.ended ≡ false }
    requires hosts { 0 < pool.old.limits.hosts }
    requires room { length pool.old.out + count ≤ pool.old.limits.per_pass }
    requires unused { (want : ℕ) → number ≤ want → find (names want) pool.old.out ≡ None }
    requires small { number + count < 1_000 }
    ensures fresh { wire.new.aged ≡ false }
    ensures out { pool.new.out ≡ pool.old.out }
    ensures running { pool.new.ended ≡ false }
    ensures limits { pool.new.limits ≡ pool.old.limits }
{
    if count == 0 {
        return;
    }
    let token = begun(rt, pool, number);
    make_idle(rt, wire, pool, number + 1, count - 1);
    ended(rt, wire, pool, token);
}

fn deed_of(act: &Act) -> Deed {
    match act {
        Act::Dialed(0, _, link) => Deed::Dialed(*link),
        Act::Closed(link) => Deed::Closed(*link),
        _ => Deed::Else,
    }
}

// Compares what a wire told of dials and closes with what it should have.
fn shows<R: Abort>(rt: &R, acts: &[Act], deeds: &[Deed]) {
    let mut at = 0;
    for act in acts {
        let deed = deed_of(act);
        if deed != Deed::Else {
            assert!(rt; at < deeds.len(), "there are more");
            assert_eq!(rt; deed, deeds[at]);
            at += 1;
        }
    }
    assert_eq!(rt; at, deeds.len());
}

// Nine links that end at once, and a pool with room for nine tokens.
fn nine(alloc: Global) -> Result<Rig, AllocError>
    ensures fresh { IfOk result (λ rig. rig.wire.aged ≡ false) }
    ensures running { IfOk result (λ rig. rig.pool.ended ≡ false) }
    ensures hosts { IfOk result (λ rig. rig.pool.limits.hosts ≡ 1) }
    ensures per_pass { IfOk result (λ rig. rig.pool.limits.per_pass ≡ 9) }
    ensures none { IfOk result (λ rig. rig.pool.out ≡ []) }
    ensures room { IfOk result (λ rig. rig.buffers.out.size ≡ out_size) }
{
    Ok(Rig {
        wire: wire(alloc, &[1, 2, 3, 4, 5, 6, 7, 8, 9], NOW)?,
        pool: Solo::open(alloc, room_for_nine())?,
        buffers: Buffers::new(alloc)?,
    })
}

/// Of nine idle connections that all end at a reply's first byte eight are tried, the newest first, and the one that was
/// idle longest is left.
#[test]
fn nine_idle(rt: HostRuntime) -> Result<(), Fail> {
    let alloc = rt.alloc();
    let mut rig = nine(alloc)?;
    make_idle(&rt, &mut rig.wire, &mut rig.pool, 0, 9);
    let went = get(alloc, &mut rig)?;
    assert_eq!(rt; went.came, Came::Failed(Failure::ServerClosed));
    shows(&rt, rig.wire.acts(), &CLOSES_ALL_BUT_ONE);
    assert_eq!(rt;
        trip(&mut rig.wire, &mut rig.pool, &mut half_a_minute(), true),
        Leased::Over(1, true)
    );
    Ok(())
}
