//! Each call once, at values that were worked out by hand.

use super::{Pieces, line_parts, part};
use std::test::Fail;

#[test]
fn parts_pieces_and_lines(rt: HostRuntime) -> Result<(), Fail> {
    // The units of "ab", line feed, "c", line feed, line feed.
    let text: [u16; 6] = [97, 98, 10, 99, 10, 10];
    assert_eq!(rt; part(&text, 1, 2), Some([98, 10].as_slice()));
    assert_eq!(rt; part(&text, 6, 0), Some([].as_slice()));
    assert_eq!(rt; part(&text, 5, 2), None);
    assert_eq!(rt; part(&text, usize::MAX, 2), None);

    let lines: Vec<&[u16]> = line_parts(&text).collect(rt.alloc())?;
    let want: [&[u16]; 4] = [&[97, 98], &[99], &[], &[]];
    assert_eq!(rt; lines.as_slice(), want.as_slice());
    let lines: Vec<&[u16]> = line_parts(&[]).collect(rt.alloc())?;
    assert_eq!(rt; lines.len(), 1);

    // Each cut out of "ab" and "cd", and what its two slices are then.
    let units: [u16; 5] = [97, 98, 120, 99, 100];
    let cuts: [(usize, usize, Option<(&[u16], &[u16])>); 8] = [
        (0, 0, Some((&[97, 98], &[99, 100]))),
        (1, 1, Some((&[97, 98], &[99, 100]))),
        (0, 1, Some((&[98], &[99, 100]))),
        (1, 3, Some((&[97], &[100]))),
        (2, 3, Some((&[97, 98], &[100]))),
        (3, 4, Some((&[97, 98], &[99]))),
        (2, 4, Some((&[97, 98], &[]))),
        (0, 4, Some((&[], &[]))),
    ];
    for (from, to, want) in cuts {
        let list = Pieces::whole(&units)
            .without(2, 3)
            .ok_or("two slices suffice")?;
        assert_eq!(rt; list.len(), 4);
        assert!(rt; !list.is_empty());
        assert!(rt; list.same(&[97, 98, 99, 100]));
        assert!(rt; !list.same(&units));
        assert!(rt; from <= to && to <= list.len());
        let rest = list.without(from, to).ok_or("two slices suffice")?;
        assert_eq!(rt; Some(rest.slices()), want);
    }

    let whole = Pieces::whole(&[97, 98, 99, 100]);
    let two = whole.without(1, 2).ok_or("two slices suffice")?;
    let (before, after) = two.split(1);
    assert!(rt; before.same(&[97]) && after.same(&[99, 100]));
    let two = Pieces::whole(&units)
        .without(2, 3)
        .ok_or("two slices suffice")?;
    let (before, after) = two.split(3);
    assert!(rt; before.same(&[97, 98, 99]) && after.same(&[100]));
    let two = Pieces::whole(&units)
        .without(3, 4)
        .ok_or("two slices suffice")?;
    assert!(rt; two.without(1, 2).is_none());
    Ok(())
}
