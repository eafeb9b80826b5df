//! Which operations a window keeps.

use crate::{Past, Window};
use ot_op::Op;
use std::alloc::Global;
use std::test::Fail;

/// First versions, how many operations are pushed, a version, and the sources of the operations from
/// that version on, where they are kept: the first and the last.
const KEPT: [(u32, u32, u64, Option<(u64, u64)>); 11] = [
    (0, 100, 0, Some((0, 99))),
    (0, 100, 1, Some((1, 99))),
    (0, 100, 99, Some((99, 99))),
    (0, 100, 101, None),
    (0, 101, 0, None),
    (0, 101, 1, Some((1, 100))),
    (0, 101, 100, Some((100, 100))),
    (7, 100, 7, Some((0, 99))),
    (7, 100, 6, None),
    (7, 101, 7, None),
    (7, 101, 8, Some((1, 100))),
];

/// A window that was filled with operations from sources 0, 1, 2 and so on.
fn filled(alloc: Global, base: u32, count: u32) -> Result<Window, Fail> {
    let mut window = Window::new(alloc, base as u64)?;
    for source in 0..count as u64 {
        if window.version() < u64::MAX {
            let op = Op::empty(alloc);
            window.push(Past { source, op });
        }
    }
    Ok(window)
}

#[test]
fn a_window_keeps_the_last_hundred(rt: HostRuntime) -> Result<(), Fail> {
    let alloc = rt.alloc();
    for (base, count, v, want) in KEPT {
        let window = filled(alloc, base, count)?;
        assert_eq!(rt; window.base(), base as u64);
        assert_eq!(rt; window.version(), base as u64 + count as u64);
        let found = match window.since(alloc, v)? {
            None => None,
            Some(past) => {
                assert_eq!(rt; Some(past.len() as u64), window.version().checked_sub(v));
                match (past.first(), past.last()) {
                    (Some(first), Some(last)) => Some((first.source, last.source)),
                    _ => None,
                }
            }
        };
        assert_eq!(rt; found, want, "of {count} from {base} on, those from {v} on");
    }
    let none = filled(alloc, 5, 0)?.since(alloc, 5)?;
    assert!(rt; none.is_some_and(|past| past.is_empty()));
    Ok(())
}
