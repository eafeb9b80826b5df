//! Pushes and pops, by one thread and by two.

ghost use Rattle.std.specs.Prelude.{◌≡◌};
ghost use Rattle.wake_queue.specs.Wakes.{Pass, WasEmpty};

use crate::{QueuePast, WakePass, WakeQueue};
use std::marker::Brand;
use std::sync::Wait;
use std::test::Fail;
use std::thread;

#[test]
fn first_in_first_out(rt: HostRuntime) -> Result<(), Fail> {
    let (queue, mut pass) = WakeQueue::<Brand>::new(&rt, rt.alloc())?;
    assert_eq!(rt; queue.pop(&rt, &mut pass), None);
    assert_eq!(rt; queue.push(&rt, &mut pass, 7), Ok(()));
    assert_eq!(rt; queue.push(&rt, &mut pass, 3), Ok(()));
    let mut second = queue.pass(&rt, &mut pass)?;
    assert_eq!(rt; queue.pop(&rt, &mut second), Some(7));
    assert_eq!(rt; queue.pop(&rt, &mut second), Some(3));
    assert_eq!(rt; queue.pop(&rt, &mut second), None);
    Ok(())
}

// Pushes the numbers from 1 on. Whether there was memory for all of them.
fn push_all<N: QueuePast, R: Wait>(
    rt: &R,
    queue: &WakeQueue<N>,
    pass: &mut WakePass<N>,
    last: u32,
) -> bool
    requires { pass.old.queue ≡ queue.now }
    ensures { pass.new.queue ≡ queue.now }
{
    for doc in 1..=last {
        if queue.push(rt, pass, doc).is_err() {
            return false;
        }
    }
    true
}

// Pops until there is nothing, and sums up what it popped.
fn drain<N: QueuePast, R: Wait>(rt: &R, queue: &WakeQueue<N>, pass: &mut WakePass<N>) -> u64
    requires { pass.old.queue ≡ queue.now }
    ensures same { pass.new.queue ≡ queue.now }
    ensures empty { (last : Pass) × WasEmpty N.past last }
{
    let mut sum: u64 = 0;
    for _ in rt.forever() {
        match queue.pop(rt, pass) {
            Some(doc) => sum = sum.saturating_add(u64::from(doc)),
            None => return sum,
        }
    }
    unreachable!()
}

#[test]
fn two_threads_pop_each_wake_once(rt: HostRuntime) -> Result<(), Fail> {
    let (queue, mut pass) = WakeQueue::<Brand>::new(&rt, rt.alloc())?;
    let mut one = queue.pass(&rt, &mut pass)?;
    let mut two = queue.pass(&rt, &mut pass)?;
    assert!(rt; push_all(&rt, &queue, &mut pass, 100));
    let (first, second) = thread::join(
        &rt,
        || drain(&rt, &queue, &mut one),
        || drain(&rt, &queue, &mut two),
    );
    assert_eq!(rt; first.saturating_add(second), 5050);
    assert_eq!(rt; queue.pop(&rt, &mut pass), None);
    Ok(())
}
