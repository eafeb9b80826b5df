//! Three clients in two rooms, who join, are told, and leave.

use super::Rooms;
use std::test::Fail;

#[test]
fn each_is_told_in_order(rt: HostRuntime) -> Result<(), Fail> {
    let mut rooms = Rooms::new(rt.alloc());
    assert_eq!(rt; rooms.source(0), None);
    assert_eq!(rt; rooms.pop(0), None);

    for (client, doc, source) in [(0, 3, 1_000_004), (1, 3, 1_000_005), (2, 4, 1_000_006)] {
        rooms.join(client, doc, source)?;
    }
    assert_eq!(rt; rooms.source(1), Some(1_000_005));
    assert_eq!(rt; rooms.next(0), None);

    rooms.reserve(3, 2)?;
    rooms.reserve_one(2, 1)?;
    rooms.reserve_one(7, 1)?;
    for at in [10, 11] {
        rooms.reserve(3, 1)?;
        rooms.post(3, at);
    }
    rooms.reserve_one(2, 1)?;
    rooms.post_one(2, 12);
    for (client, first) in [(0, 10), (0, 11), (1, 10), (2, 12)] {
        assert_eq!(rt; rooms.next(client), Some(first));
        assert_eq!(rt; rooms.pop(client), Some(first));
    }
    assert_eq!(rt; rooms.next(1), Some(11));
    assert_eq!(rt; rooms.pop(2), None);
    Ok(())
}

#[test]
fn who_leaves_is_told_no_more(rt: HostRuntime) -> Result<(), Fail> {
    let mut rooms = Rooms::new(rt.alloc());
    for client in [0, 1] {
        rooms.join(client, 3, 1_000_000)?;
        rooms.reserve_one(client, 1)?;
        rooms.post_one(client, 10);
    }
    rooms.leave(0);
    assert_eq!(rt; rooms.source(0), None);
    assert_eq!(rt; rooms.next(0), None);
    assert_eq!(rt; rooms.next(1), Some(10));

    // Who joins anew begins with an empty outbox.
    rooms.join(1, 4, 1_000_007)?;
    assert_eq!(rt; rooms.source(1), Some(1_000_007));
    assert_eq!(rt; rooms.next(1), None);
    Ok(())
}

#[test]
fn who_comes_back_as_a_member_stays_in_the_room(rt: HostRuntime) -> Result<(), Fail> {
    let mut rooms = Rooms::new(rt.alloc());
    for client in [0, 1] {
        rooms.join(client, 3, 1_000_000)?;
    }
    rooms.reserve(3, 1)?;
    rooms.post(3, 10);

    // What it was still to be told of is gone.
    rooms.renew(0, 1_000_008);
    rooms.renew(7, 1_000_009);
    assert_eq!(rt; rooms.source(0), Some(1_000_008));
    assert_eq!(rt; rooms.next(0), None);
    assert_eq!(rt; rooms.source(1), Some(1_000_000));
    assert_eq!(rt; rooms.next(1), Some(10));
    assert_eq!(rt; rooms.source(7), None);

    rooms.reserve(3, 1)?;
    rooms.post(3, 11);
    for (client, first) in [(0, 11), (1, 10)] {
        assert_eq!(rt; rooms.pop(client), Some(first));
    }
    Ok(())
}
