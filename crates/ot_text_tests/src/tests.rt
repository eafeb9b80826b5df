//! What the calls answer with ample memory, also at the borders of chunks and of blocks.

use ot_text::{OpenText, Text, TextParts, doc_part, doc_text, doc_units};
use ot_units::Units;
use std::alloc::{AllocError, Global};
use std::test::Fail;

/// Places and lengths in the text `hello`, and the parts there.
const PARTS: [(usize, usize, Option<&str>); 7] = [
    (0, 5, Some("hello")),
    (1, 3, Some("ell")),
    (2, 0, Some("")),
    (5, 0, Some("")),
    (5, 1, None),
    (2, 4, None),
    (6, 0, None),
];

#[test]
fn a_text_is_made_read_in_part_and_given_back(rt: HostRuntime) -> Result<(), Fail> {
    let alloc = rt.alloc();
    let units = Units::sanitized(alloc, "hello")?;
    let text = doc_text(alloc, &units)?;
    for (at, len, want) in PARTS {
        let found = match doc_part(alloc, &text, at, len)? {
            Some(part) => Some(part.to_text(alloc)?),
            None => None,
        };
        assert_eq!(rt; found.as_deref(), want, "{len} units from {at} on");
    }
    assert!(rt; doc_units(alloc, &text)?.same(&units));
    Ok(())
}

fn put(text: Text, at: usize, other: &Units) -> Result<Text, AllocError> {
    let mut open = text.open();
    if at <= open.len() {
        open.insert(at, other.as_slice())?;
    }
    Ok(open.close())
}

fn cut(text: Text, at: usize, len: usize) -> Result<Text, AllocError> {
    let mut open = text.open();
    if at <= open.len() && len <= open.len() - at {
        open.ready(at, len)?;
        open.remove(at, len);
    }
    Ok(open.close())
}

/// A text may go to another thread.
fn sent<T: Send + Sync>(value: T) -> T {
    value
}

/// The units of the slices.
fn spelled(alloc: Global, parts: TextParts<'_>) -> Result<Vec<u16>, AllocError> {
    let mut made = Vec::new(alloc);
    for part in parts {
        made.extend_from_slice(part)?;
    }
    Ok(made)
}

#[test]
fn a_text_is_edited_and_read_slice_by_slice(rt: HostRuntime) -> Result<(), Fail> {
    let alloc = rt.alloc();
    let text = Text::from_units(alloc, &Units::sanitized(alloc, "hello")?)?;
    let text = put(text, 5, &Units::sanitized(alloc, " you")?)?;
    let text = sent(cut(text, 0, 1)?);
    let want = Units::sanitized(alloc, "ello you")?;
    assert!(rt; text.to_units(alloc)?.same(&want));
    assert!(rt; text.copy(alloc)?.to_units(alloc)?.same(&want));
    assert_eq!(rt; text.len(), 8);
    let part = text.parts(1, 3).ok_or("a part within the text")?;
    let llo = Units::sanitized(alloc, "llo")?;
    assert_eq!(rt; spelled(alloc, part)?.as_slice(), llo.as_slice());
    let mut none = text.parts(8, 0).ok_or("the empty part at the end")?;
    assert!(rt; none.next().is_none());
    assert!(rt; text.parts(8, 1).is_none());
    let open = text.open();
    assert!(rt; open.same_at(1, llo.as_slice()));
    assert!(rt; !open.same_at(2, llo.as_slice()));
    Ok(())
}

/// Texts and how long their lines are.
const LINES: [(&str, &[usize]); 4] = [
    ("", &[0]),
    ("one\ntwo", &[3, 3]),
    ("\n\nthree\n", &[0, 0, 5, 0]),
    ("four", &[4]),
];

#[test]
fn a_text_is_read_line_by_line(rt: HostRuntime) -> Result<(), Fail> {
    let alloc = rt.alloc();
    for (content, want) in LINES {
        let text = Text::from_units(alloc, &Units::sanitized(alloc, content)?)?;
        let mut lengths = Vec::new(alloc);
        for line in text.lines() {
            lengths.push(spelled(alloc, line)?.len())?;
        }
        assert_eq!(rt; lengths.as_slice(), want, "{content}");
    }
    Ok(())
}

/// So many units, each another than the one before.
fn some_units(alloc: Global, len: usize) -> Result<Units, AllocError> {
    let mut text = String::new(alloc);
    for k in 0..len {
        let digit = ['0', '1', '2', '3', '4', '5', '6', '7', '8', '9', 'a'][k % 11];
        text.push(digit)?;
    }
    Units::sanitized(alloc, text.as_str())
}

/// The lengths of the slices of the whole text.
fn slice_lengths(alloc: Global, text: &Text) -> Result<Vec<usize>, Fail> {
    let parts = text.parts(0, text.len()).ok_or("the whole text")?;
    let mut lengths = Vec::new(alloc);
    for part in parts {
        lengths.push(part.len())?;
    }
    Ok(lengths)
}

/// Of a text of 3,000 units: a place, how many are taken out there, how many are put in then, and the
/// lengths of the chunks afterwards.
const EDITS: [(usize, usize, usize, &[usize]); 17] = [
    (0, 0, 0, &[1024, 1024, 952]),
    (0, 0, 1, &[1, 1024, 1024, 952]),
    (1024, 0, 1, &[512, 513, 1024, 952]),
    (1025, 0, 1, &[1024, 512, 513, 952]),
    (3000, 0, 1, &[1024, 1024, 953]),
    (3000, 0, 72, &[1024, 1024, 1024]),
    (3000, 0, 73, &[1024, 1024, 512, 513]),
    (1024, 0, 2000, &[1024, 1024, 976, 1024, 952]),
    (0, 1, 0, &[1023, 1024, 952]),
    (0, 1024, 0, &[1024, 952]),
    (0, 3000, 0, &[]),
    (1024, 1024, 0, &[1024, 952]),
    (1023, 1026, 0, &[1024, 950]),
    (500, 2000, 0, &[1000]),
    (100, 1848, 0, &[200, 952]),
    (2048, 951, 0, &[1024, 1024, 1]),
    (1024, 1024, 1, &[512, 513, 952]),
];

#[test]
fn edits_at_the_borders_of_chunks(rt: HostRuntime) -> Result<(), Fail> {
    let alloc = rt.alloc();
    let units = some_units(alloc, 3000)?;
    for (at, gone, more, want) in EDITS {
        let text = Text::from_units(alloc, &units)?;
        let before = text.copy(alloc)?;
        let other = some_units(alloc, more)?;
        let text = put(cut(text, at, gone)?, at, &other)?;
        assert!(rt; before.to_units(alloc)?.same(&units), "the copy stays");
        let lengths = slice_lengths(alloc, &text)?;
        assert_eq!(rt; lengths.as_slice(), want, "{gone} and {more} units at {at}");
        let same = edited(&units, alloc, at, gone, &other)?;
        assert!(rt;
            text.to_units(alloc)?.same(&same),
            "{gone} and {more} units at {at}"
        );
    }
    Ok(())
}

/// The same edit of plain units.
fn edited(
    units: &Units,
    alloc: Global,
    at: usize,
    gone: usize,
    other: &Units,
) -> Result<Units, AllocError> {
    let mut made = units.copy(alloc)?;
    if at <= made.len() && gone <= made.len() - at {
        made.cut(at, gone);
    }
    if at <= made.len() {
        made.put_in(at, other.as_slice())?;
    }
    Ok(made)
}

/// Of a text of 70 chunks, in blocks of 32, 32 and 6: a place, how many are taken out, and how many are put in.
const LONG_EDITS: [(usize, usize, usize); 8] = [
    (32_768, 0, 1),
    (32_767, 2, 0),
    (32_768, 1_024, 3),
    (65_536, 0, 40_000),
    (1_000, 65_000, 0),
    (0, 71_680, 0),
    (0, 71_680, 2_000),
    (71_680, 0, 2_000),
];

#[test]
fn edits_at_the_borders_of_blocks(rt: HostRuntime) -> Result<(), Fail> {
    let alloc = rt.alloc();
    let units = some_units(alloc, 71_680)?;
    let text = Text::from_units(alloc, &units)?;
    for (at, gone, more) in LONG_EDITS {
        let other = some_units(alloc, more)?;
        let made = put(cut(text.copy(alloc)?, at, gone)?, at, &other)?;
        let same = edited(&units, alloc, at, gone, &other)?;
        assert!(rt;
            made.to_units(alloc)?.same(&same),
            "{gone} and {more} units at {at}"
        );
        assert!(rt; OpenText::len(&made.open()) == same.len());
    }
    assert!(rt; text.to_units(alloc)?.same(&units), "the text stays");
    Ok(())
}
