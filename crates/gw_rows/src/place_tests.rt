//! Two callers of a pool that has room for one connection.

ghost use Rattle.std.specs.Prelude.{◌≡◌, ◌<◌, false};
ghost use Rattle.gw_transport.specs.Leasing.{IsRested};

use crate::tests::{Deed, come, end, held, limits, shows, trip, wire};
use gw_pool::Lease;
use gw_stream::Timer;
use gw_transport::Leased;
use gw_turn::{Pass, Pool};
use gw_wire::{MemConn, MemWire};
use std::process::Abort;
use std::sync::Wait;
use std::test::Fail;

// A caller that comes to none in a million rests.
fn waits_in_vain<R: Wait + Abort>(rt: &R, pool: &Pool<MemConn>, pass: &mut Pass, wire: &mut MemWire)
    requires of { pass.old.pool ≡ pool.now }
    requires rested { IsRested pass.old.lent }
    requires host { 0 < pass.old.lent.limits.hosts }
    requires fresh { wire.old.aged ≡ false }
    ensures rested { IsRested pass.new.lent }
    ensures of { pass.new.pool ≡ pass.old.pool }
    ensures host { 0 < pass.new.lent.limits.hosts }
    ensures fresh { wire.new.aged ≡ false }
{
    match come(rt, pool, pass, wire, &mut Timer::new(None)) {
        Leased::Late => {}
        Leased::Unreachable | Leased::Full | Leased::Cancelled => panic!(rt; "it is late"),
        Leased::Lease(
            Lease {
                conn: _,
                no: _,
                want: _,
                host: _,
                link: _,
                reused: _,
            },
        ) => panic!(rt; "it is late"),
    }
}

/// A want that waits for the only place is given up after a million rests; once the place's connection was given back,
/// the next want has it, and a connection that was dropped is dialed anew.
#[test]
fn one_place_for_two(rt: HostRuntime) -> Result<(), Fail> {
    let alloc = rt.alloc();
    let mut wire = wire(alloc, 2)?;
    let (pool, mut passes) = Pool::open(alloc, limits(2, 1, 4))?;
    let (Some(mut second), Some(mut first)) = (passes.pop(), passes.pop()) else {
        panic!(rt; "two passes");
    };
    let lease = held(&rt, &pool, &mut first, &mut wire);
    assert_eq!(rt; (lease.link, lease.reused), (1, false));
    waits_in_vain(&rt, &pool, &mut second, &mut wire);
    shows(&rt, wire.acts(), &[Deed::Dialed(1)]);
    end(&rt, &pool, &mut first, &mut wire, lease, true);
    assert_eq!(rt; trip(&rt, &pool, &mut second, &mut wire, false), (1, true));
    assert_eq!(rt; trip(&rt, &pool, &mut first, &mut wire, false), (2, false));
    Ok(())
}
