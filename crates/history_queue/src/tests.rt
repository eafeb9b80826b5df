//! A queue that is filled, and handed out in parts.

use crate::{HistoryQueue, Item};
use ot_op::Op;
use ot_units::Name;
use std::alloc::Global;
use std::test::Fail;

// An item of this version, of document 0.
fn item(alloc: Global, v: u64) -> Result<Item, Fail> {
    Ok(Item {
        doc: 0,
        v,
        op: Op::empty(alloc),
        user: Name::read(alloc, "u")?.ok_or("a name")?,
        ms: 0,
        length_before: 0,
    })
}

#[test]
fn the_first_items_are_handed_out(rt: HostRuntime) -> Result<(), Fail> {
    let alloc = rt.alloc();
    let mut queue = HistoryQueue::new(alloc);
    assert_eq!(rt; queue.take(3)?.len(), 0);
    for v in 0..5 {
        queue.reserve()?;
        queue.push(item(alloc, v)?);
    }
    // How many are asked for, the version of the first that comes, how many come, and how many are left.
    for (n, first, count, left) in [
        (2, Some(0), 2, 3),
        (0, None, 0, 3),
        (1, Some(2), 1, 2),
        (u64::MAX, Some(3), 2, 0),
        (1, None, 0, 0),
    ] {
        let taken = queue.take(n)?;
        assert_eq!(rt; taken.first().map(|item| item.v), first);
        assert_eq!(rt; taken.len(), count);
        assert_eq!(rt; queue.len(), left);
    }
    queue.reserve()?;
    queue.push(item(alloc, 5)?);
    assert_eq!(rt; queue.len(), 1);
    Ok(())
}
