//! One worked tree, and each call with ample memory.
use crate::{Cause, Tree};
use std::test::Fail;

#[test]
fn contexts(rt: HostRuntime) -> Result<(), Fail> {
    let mut tree = Tree::new(rt.alloc())?;
    assert_eq!(rt; tree.child(0)?, 1);
    assert_eq!(rt; tree.with_deadline(1, 100)?, 2);
    assert_eq!(rt; tree.with_deadline(2, 200)?, 3);
    assert_eq!(rt; tree.without_cancel(2)?, 4);
    tree.advance(99);
    for node in 0..5 {
        assert_eq!(rt; tree.cause(node), None);
    }
    tree.advance(100);
    assert_eq!(rt; tree.cause(0), None);
    assert_eq!(rt; tree.cause(1), None);
    assert_eq!(rt; tree.cause(2), Some(Cause::DeadlineExceeded));
    assert_eq!(rt; tree.cause(3), Some(Cause::DeadlineExceeded));
    assert_eq!(rt; tree.cause(4), None);
    tree.cancel(1);
    assert_eq!(rt; tree.cause(0), None);
    assert_eq!(rt; tree.cause(1), Some(Cause::Canceled));
    assert_eq!(rt; tree.cause(2), Some(Cause::DeadlineExceeded));
    assert_eq!(rt; tree.cause(3), Some(Cause::DeadlineExceeded));
    assert_eq!(rt; tree.cause(4), None);
    Ok(())
}

#[test]
fn born_ended(rt: HostRuntime) -> Result<(), Fail> {
    let mut tree = Tree::new(rt.alloc())?;
    tree.advance(50);
    tree.advance(20);
    assert_eq!(rt; tree.with_deadline(0, 50)?, 1);
    assert_eq!(rt; tree.with_deadline(0, 51)?, 2);
    assert_eq!(rt; tree.cause(1), Some(Cause::DeadlineExceeded));
    assert_eq!(rt; tree.cause(2), None);
    tree.cancel(0);
    assert_eq!(rt; tree.child(2)?, 3);
    assert_eq!(rt; tree.cause(2), Some(Cause::Canceled));
    assert_eq!(rt; tree.cause(3), Some(Cause::Canceled));
    Ok(())
}

#[test]
fn numbers_after_truncate(rt: HostRuntime) -> Result<(), Fail> {
    let mut tree = Tree::new(rt.alloc())?;
    let request = tree.with_deadline(0, 10)?;
    assert_eq!(rt; request, 1);
    tree.advance(10);
    tree.truncate(1);
    let next = tree.with_deadline(0, 20)?;
    assert_eq!(rt; next, 1);
    assert_eq!(rt; tree.cause(next), None);
    Ok(())
}
