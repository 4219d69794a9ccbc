//! The calls on one thread, and a run of several.
ghost use Rattle.std.specs.Prelude.{◌≡◌, ◌<◌, length};

use crate::{Cancelled, CtxSeat, CtxTable, Looked, NodeSpec};
use gw_context::Cause;
use std::test::Fail;
use std::thread::join;

#[test]
fn contexts(rt: HostRuntime) -> Result<(), Fail> {
    let nodes = [
        NodeSpec {
            parent: 0,
            tied: false,
        },
        NodeSpec {
            parent: 0,
            tied: true,
        },
        NodeSpec {
            parent: 0,
            tied: false,
        },
    ];
    let (table, mut seat) = CtxTable::new(rt.alloc(), &nodes)?;
    assert_eq!(rt; table.cause(&mut seat, 1), Looked::Live);
    assert_eq!(rt; table.cancel(&mut seat, 0, Cause::Canceled), Cancelled::Now);
    let again = table.cancel(&mut seat, 0, Cause::DeadlineExceeded);
    assert_eq!(rt; again, Cancelled::Already(Cause::Canceled));
    assert_eq!(rt; table.cause(&mut seat, 1), Looked::Ended(Cause::Canceled));
    assert_eq!(rt; table.cause(&mut seat, 2), Looked::Live);
    assert_eq!(rt; table.close(seat), Some(Cause::Canceled));
    Ok(())
}

#[test]
fn settled_before_a_later_cancel(rt: HostRuntime) -> Result<(), Fail> {
    let nodes = [
        NodeSpec {
            parent: 0,
            tied: false,
        },
        NodeSpec {
            parent: 0,
            tied: true,
        },
        NodeSpec {
            parent: 1,
            tied: true,
        },
    ];
    let (table, mut first) = CtxTable::new(rt.alloc(), &nodes)?;
    let mut second = table.split(rt.alloc(), &mut first)?;
    let ended = table.cancel(&mut first, 1, Cause::DeadlineExceeded);
    assert_eq!(rt; ended, Cancelled::Now);
    let seen = table.cause(&mut second, 2);
    assert_eq!(rt; seen, Looked::Ended(Cause::DeadlineExceeded));
    let settled = table.cancel(&mut first, 2, Cause::Canceled);
    assert_eq!(rt; settled, Cancelled::Already(Cause::DeadlineExceeded));
    assert_eq!(rt; table.cause(&mut second, 0), Looked::Live);
    table.join(&mut first, second);
    assert_eq!(rt; table.close(first), None);
    Ok(())
}

// Ends node 0, and says for which cause node 1 then ended.
fn race(table: &CtxTable, mut seat: CtxSeat, cause: Cause) -> (CtxSeat, Looked)
    requires { (seat.table ≡ table.now.id) × (1 < length table.now.nodes) }
    ensures { (result.0.table ≡ seat.table) × (result.0.view.room ≡ seat.view.room) }
{
    table.cancel(&mut seat, 0, cause);
    let looked = table.cause(&mut seat, 1);
    (seat, looked)
}

#[test]
fn threads_agree_on_the_cause(rt: HostRuntime) -> Result<(), Fail> {
    let nodes = [
        NodeSpec {
            parent: 0,
            tied: false,
        },
        NodeSpec {
            parent: 0,
            tied: true,
        },
    ];
    for _ in 0..200 {
        let (table, mut seat) = CtxTable::new(rt.alloc(), &nodes)?;
        let one = table.split(rt.alloc(), &mut seat)?;
        let two = table.split(rt.alloc(), &mut seat)?;
        let ((one, first), (two, second)) = join(
            &rt,
            || race(&table, one, Cause::Canceled),
            || race(&table, two, Cause::DeadlineExceeded),
        );
        assert!(rt; first != Looked::Live);
        assert_eq!(rt; first, second);
        table.join(&mut seat, one);
        table.join(&mut seat, two);
        assert_eq!(rt; table.cause(&mut seat, 1), first);
        let Some(cause) = table.close(seat) else {
            panic!(rt; "node 0 was ended")
        };
        assert_eq!(rt; first, Looked::Ended(cause));
    }
    Ok(())
}
