//! A want that is given up once its trip's deadline has come.

ghost use Rattle.std.specs.Prelude.{◌≡◌, ◌<◌, [], IfOk, false};
ghost use Rattle.gw_wire.specs.Memory.{wire_view};
ghost use Rattle.gw_transport.specs.Leasing.{IsRested};

use crate::owed::Owed;
use crate::tests::{Deed, NOW, come, held, limits, shows, trip, wire};
use gw_pool::Lease;
use gw_stream::Timer;
use gw_transport::Leased;
use gw_turn::{Pass, Pool};
use gw_wire::{Accept, Addr, Dial, DialEvent, MemConn, MemWire, Moment, Read, Script, Wire, Write};
use std::alloc::{AllocError, Global};
use std::process::Abort;
use std::sync::Wait;
use std::test::Fail;

/// Another caller without a unit of the pool, and its wire.
#[derive(Drop)]
struct Rival<'a, R: Wait> {
    rt: &'a R,
    pool: &'a Pool<MemConn>,
    pass: Pass,
    wire: MemWire,
    ghost is_of: { pass.pool ≡ pool.now },
    ghost nothing: { pass.lent.out ≡ [] },
    ghost running: { pass.lent.ended ≡ false },
    ghost few: { 0 < pass.lent.limits.per_pass },
    ghost host: { 0 < pass.lent.limits.hosts },
    ghost fresh: { wire.aged ≡ false },
}

impl<'a, R: Wait + Abort> Rival<'a, R> {
    // Dials, and holds the place of its connection.
    fn hold(self) -> Owed<'a, R> {
        let Rival {
            rt,
            pool,
            mut pass,
            mut wire,
        } = self;
        let lease = held(rt, pool, &mut pass, &mut wire);
        Owed::new(rt, pool, pass, lease)
    }
}

/// A wire on which another caller takes the place of a connection as soon as it is closed.
#[derive(Drop)]
struct Crowded<'a, R: Wait> {
    wire: MemWire,
    rival: Option<Rival<'a, R>>,
    owed: Option<Owed<'a, R>>,
}

impl<'a, R: Wait + Abort> Wire for Crowded<'a, R> {
    type Conn = MemConn;

    ghost wire = { λ m. wire_view m.wire };

    fn accept(&mut self) -> Accept<MemConn> {
        self.wire.accept()
    }

    fn dial(&mut self, host: u32, addr: &Addr) -> Dial<MemConn> {
        self.wire.dial(host, addr)
    }

    fn read(&mut self, c: &mut MemConn, buf: &mut [u8]) -> Read {
        self.wire.read(c, buf)
    }

    fn write(&mut self, c: &mut MemConn, bytes: &[u8]) -> Write {
        self.wire.write(c, bytes)
    }

    fn close(&mut self, c: MemConn) {
        if let Some(rival) = self.rival.take() {
            self.owed = Some(rival.hold());
        }
        self.wire.close(c);
    }

    fn rest(&mut self) {
        self.wire.rest();
    }

    fn now(&mut self) -> u64 {
        self.wire.now()
    }
}

// A wire whose only dial gives link 7. Behind two acts a connection that was idle from the first moment on is expired, and
// behind three 95 seconds are over.
fn ageing(alloc: Global) -> Result<MemWire, AllocError>
    ensures fresh { IfOk result (λ wire. wire.aged ≡ false) }
{
    let mut dials = Vec::new(alloc);
    dials.push(DialEvent::Conn(MemConn::new(7, Vec::new(alloc), Vec::new(alloc))))?;
    let moments = vec![in alloc;
        Moment { from: 0, at: NOW },
        Moment {
            from: 2,
            at: NOW + 90_001
        },
        Moment {
            from: 3,
            at: NOW + 100_000
        },
    ]?;
    MemWire::new(
        alloc,
        Script {
            accepts: Vec::new(alloc),
            dials,
            moments,
            acts: 32,
            bytes: 16,
        },
    )
}

// A trip that is late.
fn comes_late<R: Wait + Abort>(
    rt: &R,
    pool: &Pool<MemConn>,
    pass: &mut Pass,
    wire: &mut Crowded<'_, R>,
)
    requires of { pass.old.pool ≡ pool.now }
    requires rested { IsRested pass.old.lent }
    requires host { 0 < pass.old.lent.limits.hosts }
    requires fresh { wire.old.wire.aged ≡ false }
    ensures rested { IsRested pass.new.lent }
    ensures of { pass.new.pool ≡ pass.old.pool }
    ensures host { 0 < pass.new.lent.limits.hosts }
    ensures fresh { wire.new.wire.aged ≡ false }
{
    match come(rt, pool, pass, wire, &mut Timer::new(Some(NOW + 95_000))) {
        Leased::Late => {}
        Leased::Unreachable | Leased::Full | Leased::Cancelled => panic!(rt; "it is late"),
        Leased::Lease(
            Lease {
                conn: _,
                no: _,
                want: _,
                host: _,
                link: _,
                reused: _,
            },
        ) => panic!(rt; "it is late"),
    }
}

/// A want whose place another caller took is given up at its trip's deadline: the connection that comes back later is
/// idle, and serves the next want.
#[test]
fn given_up_at_its_deadline(rt: HostRuntime) -> Result<(), Fail> {
    let alloc = rt.alloc();
    let mut first_wire = ageing(alloc)?;
    let rivals = wire(alloc, 1)?;
    let (pool, mut passes) = Pool::open(alloc, limits(2, 1, 4))?;
    let (Some(second), Some(mut first)) = (passes.pop(), passes.pop()) else {
        panic!(rt; "two passes");
    };
    assert_eq!(rt;
        trip(&rt, &pool, &mut first, &mut first_wire, true),
        (7, false)
    );
    assert!(rt; matches!(first_wire.accept(), Accept::Ended));
    let mut crowded = Crowded {
        wire: first_wire,
        rival: Some(Rival {
            rt: &rt,
            pool: &pool,
            pass: second,
            wire: rivals,
        }),
        owed: None,
    };
    comes_late(&rt, &pool, &mut first, &mut crowded);
    shows(
        &rt,
        crowded.wire.acts(),
        &[Deed::Dialed(7), Deed::Else, Deed::Closed(7)],
    );
    let Some(owed) = crowded.owed.take() else {
        panic!(rt; "the place was taken");
    };
    assert!(rt; owed.give_back(NOW + 100_000).is_none(), "it becomes idle");
    assert_eq!(rt;
        trip(&rt, &pool, &mut first, &mut crowded, false),
        (1, true)
    );
    Ok(())
}
