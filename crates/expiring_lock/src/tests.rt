//! One lock through its life, at values that were worked out by hand.

use super::{Busy, Lock, Stale};
use std::test::Fail;

#[test]
fn a_lock_is_taken_over_and_let_go(rt: HostRuntime) -> Result<(), Fail> {
    let mut lock = Lock::new();
    assert_eq!(rt; lock.busy(0), None);
    assert_eq!(rt; lock.check(0), Err(Stale::Ended));
    assert_eq!(rt; lock.check(1), Err(Stale::Other(0)));
    assert_eq!(rt; lock.let_go(0), Err(Stale::Ended));

    assert_eq!(rt; lock.take(0, 1, 0), Ok(30_000));
    let held = Busy {
        token: 1,
        until: 30_000,
    };
    assert_eq!(rt; lock.busy(29_999), Some(held));
    assert_eq!(rt; lock.busy(30_000), None);
    assert_eq!(rt; lock.take(29_999, 2, 1), Err(held));
    assert_eq!(rt; lock.check(1), Ok(()));
    assert_eq!(rt; lock.take(30_000, 2, 1), Ok(60_000));
    assert_eq!(rt; lock.check(0), Err(Stale::Other(2)));
    assert_eq!(rt; lock.check(1), Err(Stale::Other(2)));
    assert_eq!(rt; lock.check(2), Ok(()));
    assert_eq!(rt; lock.let_go(1), Err(Stale::Other(2)));
    assert_eq!(rt; lock.let_go(2), Ok(()));
    assert_eq!(rt; lock.check(2), Err(Stale::Ended));
    assert_eq!(rt; lock.let_go(2), Err(Stale::Ended));

    assert_eq!(rt; lock.take(30_001, 7, 0), Ok(60_001));
    assert_eq!(rt; lock.check(7), Ok(()));
    Ok(())
}
