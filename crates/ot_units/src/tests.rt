//! What the calls answer with ample memory, in numbers from the Unicode tables.

use crate::{Name, Units};
use std::string::ToString;
use std::test::Fail;

/// Texts, their units with surrogates replaced, and whether they have an exact form.
const TEXTS: [(&str, &[u16], bool); 5] = [
    ("", &[], true),
    ("aé€", &[0x61, 0xE9, 0x20AC], true),
    ("a\u{1F600}b", &[0x61, 0xFFFD, 0xFFFD, 0x62], false),
    ("\u{D7FF}\u{E000}\u{FFFF}", &[0xD7FF, 0xE000, 0xFFFF], true),
    ("\u{10000}", &[0xFFFD, 0xFFFD], false),
];

#[test]
fn reads_and_writes_texts(rt: HostRuntime) -> Result<(), Fail> {
    let alloc = rt.alloc();
    for (text, units, is_exact) in TEXTS {
        let sanitized = Units::sanitized(alloc, text)?;
        assert_eq!(rt; sanitized.as_slice(), units, "sanitized {text}");
        assert_eq!(rt; sanitized.len(), units.len(), "length of {text}");
        let exact = Units::exact(alloc, text)?;
        assert_eq!(rt; exact.is_some(), is_exact, "exact {text}");
        if let Some(exact) = exact {
            assert_eq!(rt; exact.as_slice(), units, "units of {text}");
            assert_eq!(rt; exact.to_text(alloc)?.as_str(), text);
        }
    }
    Ok(())
}

#[test]
fn edits_a_text(rt: HostRuntime) -> Result<(), Fail> {
    let alloc = rt.alloc();
    let mut units = Units::from_slice(alloc, &[1, 2, 3])?;
    units.put_in(1, &[8, 9])?;
    assert_eq!(rt; units.as_slice(), [1, 8, 9, 2, 3].as_slice());
    let copy = units.copy(alloc)?;
    units.cut(0, 2);
    assert_eq!(rt; units.as_slice(), [9, 2, 3].as_slice());
    assert_eq!(rt; copy.as_slice(), [1, 8, 9, 2, 3].as_slice());
    assert!(rt; !copy.same(&units) && copy != units);
    assert!(rt; units.same(&Units::from_slice(alloc, &[9, 2, 3])?));
    assert!(rt; !units.is_empty());
    Ok(())
}

#[test]
fn reads_names(rt: HostRuntime) -> Result<(), Fail> {
    let alloc = rt.alloc();
    let longest = "0123456789_abcdefghijklmnopqrstuvwxyz-ABCDEFGHIJKLMNOPQRSTUVWXYZ";
    for text in ["a", "main-2_B", longest] {
        let name = Name::read(alloc, text)?.ok_or("a name")?;
        assert_eq!(rt; name.as_str(), text);
        let copy = name.copy(alloc)?;
        assert!(rt; copy.same(&name) && copy == name);
        assert_eq!(rt; copy.to_string(alloc)?.as_str(), text);
    }
    let too_long = "0123456789_abcdefghijklmnopqrstuvwxyz-ABCDEFGHIJKLMNOPQRSTUVWXYZ0";
    for text in ["", "a b", "é", "a.b", too_long] {
        assert!(rt; Name::read(alloc, text)?.is_none(), "read {text}");
    }
    Ok(())
}
