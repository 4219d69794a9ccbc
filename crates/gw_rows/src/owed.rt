//! A lease that is given back in the midst of another caller's call.

ghost use Rattle.std.specs.Prelude.{◌≡◌, true, false, find, Some};
ghost use Rattle.std.proofs.Props.{props};
ghost use Rattle.gw_wire.specs.MemoryLink.{conn_view};
ghost use Rattle.gw_pool.specs.History.{after};
ghost use Rattle.gw_pool.specs.Lent.{row_of};
ghost use Rattle.gw_pool.specs.State.{has_number};
ghost use Rattle.gw_pool.specs.Tokens.{has_lease};
ghost use Rattle.gw_transport.specs.Leasing.{IsLeased};

use gw_pool::{Lease, Leases, Put};
use gw_turn::{Desk, Pass, Pool};
use gw_wire::MemConn;
use std::sync::Wait;

/// A lease with the pass of its caller.
pub(crate) struct Owed<'a, R: Wait> {
    rt: &'a R,
    pool: &'a Pool<MemConn>,
    pass: Pass,
    lease: Lease<MemConn>,
    ghost is_of: { pass.pool ≡ pool.now },
    ghost running: { pass.lent.ended ≡ false },
    ghost out: { has_lease lease.want pass.lent.out ≡ true },
    ghost row: { find (has_number lease.no) (after pass.lent.limits pass.lent.seen).conns ≡ Some (row_of pass.lent.number lease) } by { Prim.hlevel props },
    ghost conn: { (conn_view lease.conn).number ≡ lease.link },
}

impl<'a, R: Wait> Owed<'a, R> {
    /// A caller's lease, by the pass that it was made with.
    pub(crate) fn new(
        rt: &'a R,
        pool: &'a Pool<MemConn>,
        pass: Pass,
        lease: Lease<MemConn>,
    ) -> Owed<'a, R>
        requires of { pass.pool ≡ pool.now }
        requires leased { IsLeased conn_view pass.lent lease }
    {
        Owed {
            rt,
            pool,
            pass,
            lease,
        }
    }

    /// Gives the connection back at this moment; it answers the one that is left to be closed.
    pub(crate) fn give_back(self, now: u64) -> Option<MemConn> {
        let Owed {
            rt,
            pool,
            mut pass,
            lease,
        } = self;
        let mut desk = Desk {
            rt,
            pool,
            pass: &mut pass,
        };
        let Put { close } = desk.give_back(lease, now);
        close
    }
}

impl<R: Wait> Drop for Owed<'_, R> {
    fn drop(self) {
        let Owed {
            rt: _,
            pool: _,
            pass: _,
            lease,
        } = self;
        let Lease {
            conn: _,
            no: _,
            want: _,
            host: _,
            link: _,
            reused: _,
        } = lease;
    }
}
