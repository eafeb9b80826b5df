//! A queue that is filled and emptied in turns.

use super::Queue;
use std::test::Fail;

#[test]
fn the_first_in_is_the_first_out(rt: HostRuntime) -> Result<(), Fail> {
    let mut queue: Queue<u32> = Queue::new(rt.alloc());
    assert!(rt; queue.is_empty());
    assert_eq!(rt; queue.front(), None);
    assert_eq!(rt; queue.pop(), None);

    for item in [7, 8, 9] {
        queue.reserve()?;
        queue.push(item);
    }
    assert_eq!(rt; queue.len(), 3);
    assert_eq!(rt; queue.pop(), Some(7));

    // Where an item went out, one goes in without taking memory.
    queue.push(10);
    for (len, want) in [(3, 8), (2, 9), (1, 10)] {
        assert!(rt; !queue.is_empty());
        assert_eq!(rt; queue.len(), len);
        assert_eq!(rt; queue.front(), Some(&want));
        assert_eq!(rt; queue.pop(), Some(want));
    }
    assert_eq!(rt; queue.len(), 0);
    assert_eq!(rt; queue.pop(), None);

    queue.reserve_many(2)?;
    queue.push(11);
    queue.push(12);
    assert_eq!(rt; queue.pop(), Some(11));
    assert_eq!(rt; queue.pop(), Some(12));

    // What is taken out at once leaves its room too.
    queue.push(13);
    queue.push(14);
    queue.clear();
    assert_eq!(rt; queue.front(), None);
    queue.push(15);
    queue.push(16);
    assert_eq!(rt; queue.pop(), Some(15));
    Ok(())
}
