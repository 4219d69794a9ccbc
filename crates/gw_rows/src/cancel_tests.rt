//! A trip that is cancelled when its want has a connection already.

ghost use Rattle.std.specs.Prelude.{◌≡◌, ◌<◌, ◌≤◌, false};
ghost use Rattle.gw_transport.specs.Leasing.{IsRested};

use crate::owed::Owed;
use crate::tests::{Deed, come, held, limits, shows, trip, wire};
use gw_pool::Lease;
use gw_stream::{Guard, Sight, Timer};
use gw_transport::Leased;
use gw_turn::{Pass, Pool};
use gw_wire::{MemConn, MemWire};
use std::alloc::Global;
use std::process::Abort;
use std::sync::Wait;
use std::test::Fail;

const KEPT: [Deed; 2] = [Deed::Dialed(1), Deed::Closed(1)];

const CLOSED: [Deed; 4] = [
    Deed::Dialed(1),
    Deed::Closed(1),
    Deed::Dialed(2),
    Deed::Closed(2),
];

/// A guard of a trip that is cancelled at its second look, while another caller's lease is given back.
#[derive(Drop)]
struct Recalled<'a, R: Wait> {
    timer: Timer,
    owed: Option<Owed<'a, R>>,
    left: Option<MemConn>,
    looks: u32,
}

impl<'a, R: Wait> Guard for Recalled<'a, R> {
    ghost guard = { λ r. ⟦<Timer as Guard>⟧.guard r.timer };

    ghost Keeper = { Unit {0} };

    ghost keeper = { λ _. tt };

    fn look(&mut self, now: u64) -> Sight {
        self.looks = self.looks.saturating_add(1);
        if self.looks == 2 {
            if let Some(owed) = self.owed.take() {
                self.left = owed.give_back(now);
            }
            self.timer.cancelled = true;
        }
        self.timer.look(now)
    }
}

// A trip that is cancelled.
fn comes_in_vain<R: Wait + Abort>(
    rt: &R,
    pool: &Pool<MemConn>,
    pass: &mut Pass,
    wire: &mut MemWire,
    owed: Owed<'_, R>,
)
    requires of { pass.old.pool ≡ pool.now }
    requires rested { IsRested pass.old.lent }
    requires host { 0 < pass.old.lent.limits.hosts }
    requires fresh { wire.old.aged ≡ false }
    ensures rested { IsRested pass.new.lent }
    ensures of { pass.new.pool ≡ pass.old.pool }
    ensures host { 0 < pass.new.lent.limits.hosts }
    ensures fresh { wire.new.aged ≡ false }
{
    let mut guard = Recalled {
        timer: Timer::new(None),
        owed: Some(owed),
        left: None,
        looks: 0,
    };
    match come(rt, pool, pass, wire, &mut guard) {
        Leased::Cancelled => {}
        Leased::Unreachable | Leased::Full | Leased::Late => panic!(rt; "it is cancelled"),
        Leased::Lease(
            Lease {
                conn: _,
                no: _,
                want: _,
                host: _,
                link: _,
                reused: _,
            },
        ) => panic!(rt; "it is cancelled"),
    }
    assert_eq!(rt; guard.looks, 2);
    assert!(rt; guard.owed.is_none(), "it was given back");
    assert!(rt; guard.left.is_none(), "it serves the want");
}

// A trip that waits for the only place, and is cancelled once link 1 was given back to its want; then the connection that
// the next want has, with what was told. So many connections may be idle.
fn gives_up<R: Wait + Abort>(
    rt: &R,
    alloc: Global,
    idle: u32,
    next: (u64, bool),
    deeds: &[Deed],
) -> Result<(), Fail> {
    let mut wire = wire(alloc, 2)?;
    let (pool, mut passes) = Pool::open(alloc, limits(2, 1, idle))?;
    let (Some(mut second), Some(mut first)) = (passes.pop(), passes.pop()) else {
        panic!(rt; "two passes");
    };
    let lease = held(rt, &pool, &mut second, &mut wire);
    assert_eq!(rt; (lease.link, lease.reused), (1, false));
    let owed = Owed::new(rt, &pool, second, lease);
    comes_in_vain(rt, &pool, &mut first, &mut wire, owed);
    assert_eq!(rt; trip(rt, &pool, &mut first, &mut wire, false), next);
    shows(rt, wire.acts(), deeds);
    Ok(())
}

/// The want of a cancelled trip is given up; the connection that another caller's return gave it is kept idle and serves
/// the next want, or is closed where there is no room for it, and then its place serves the next want.
#[test]
fn cancelled_after_given(rt: HostRuntime) -> Result<(), Fail> {
    let alloc = rt.alloc();
    gives_up(&rt, alloc, 1, (1, true), &KEPT)?;
    gives_up(&rt, alloc, 0, (2, false), &CLOSED)
}
