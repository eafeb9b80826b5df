//! Lines written and read, on values from the JSON grammar (RFC 8259) and from `serde_json`.
use super::*;
use serde_json::Value;
use std::alloc::Global;
use std::test::Fail;

// A line with each kind of member.
fn sample(alloc: Global) -> Result<Vec<u8>, Fail> {
    let mut inner = Object::new(alloc);
    inner.set_null("z")?;
    inner.set_bool("a", false)?;
    let mut object = Object::new(inner.alloc());
    object.set_text("text", "a\n\"\\\u{1}\u{e9}/\u{7f}")?;
    object.set_number("n", 1)?;
    object.set_bool("flag", true)?;
    object.set_optional("some", Some(7))?;
    object.set_optional("other", None)?;
    object.set("inner", inner.value())?;
    object.set_number("n", 18_446_744_073_709_551_615)?;
    Ok(object.line()?)
}

#[test]
fn writes_lines(rt: HostRuntime) -> Result<(), Fail> {
    let alloc = rt.alloc();
    let line = sample(alloc)?;
    let text =
        "{\"flag\":true,\"inner\":{\"a\":false,\"z\":null},\"n\":18446744073709551615,\"other\":null,\"some\":7,\"text\":\"a\\n\\\"\\\\\\u0001\u{e9}/\u{7f}\"}\n";
    assert_eq!(rt; line.as_slice(), text.as_bytes());
    assert!(rt; !line.is_empty());
    let (first, rest) = first_line(&line);
    assert!(rt; rest.is_empty());
    let value = read_value(alloc, first)?.ok_or("a value")?;
    assert_eq!(rt; count_keys(&value), 6);
    assert_eq!(rt; text_of(&value, "text"), Some("a\n\"\\\u{1}\u{e9}/\u{7f}"));
    assert_eq!(rt; number_of(&value, "n"), Some(18_446_744_073_709_551_615));
    assert_eq!(rt; flag_of(&value, "flag"), Some(true));
    assert!(rt; has_key(&value, "other") && !has_key(&value, "others"));
    assert_eq!(rt; number_of(&value, "other"), None);
    Ok(())
}

#[test]
fn cuts_lines(rt: HostRuntime) {
    let cases: [(&str, &str, &str); 6] = [
        ("a\nb", "a", "b"),
        ("\n", "", ""),
        ("a\r\n", "a\r", ""),
        ("\n\na", "", "\na"),
        ("a", "a", ""),
        ("a\u{2028}b\n\n", "a\u{2028}b", "\n"),
    ];
    for (text, line, rest) in cases {
        let bytes = text.as_bytes();
        assert!(rt; !bytes.is_empty());
        let cut = first_line(bytes);
        assert_eq!(rt; cut.0, line.as_bytes(), "the line of {text}");
        assert_eq!(rt; cut.1, rest.as_bytes(), "the rest of {text}");
    }
}

#[test]
fn reads_members(rt: HostRuntime) -> Result<(), Fail> {
    let alloc = rt.alloc();
    // a text, its keys where it is a value, and the whole number at `n`, also where that is at most 9
    let cases: [(&[u8], Option<usize>, Option<u64>, Option<u64>); 14] = [
        (b"{\"n\":9}", Some(1), Some(9), Some(9)),
        (b" { \"n\" : 10 , \"m\" : [] } ", Some(2), Some(10), None),
        (b"{\"n\":1,\"n\":2}", Some(1), Some(2), Some(2)),
        (b"{\"n\":1.0}", Some(1), None, None),
        (b"{\"n\":1e3}", Some(1), None, None),
        (b"{\"n\":-0}", Some(1), None, None),
        (b"{\"n\":18446744073709551616}", Some(1), None, None),
        (b"{\"n\":\"1\"}", Some(1), None, None),
        (b"{}", Some(0), None, None),
        (b"[{\"n\":1}]", Some(0), None, None),
        (b"", None, None, None),
        (b"{\"n\":1", None, None, None),
        (b"{\"n\":01}", None, None, None),
        (b"\"\xff\"", None, None, None),
    ];
    for (text, keys, number, small) in cases {
        let found = read_value(alloc, text)?;
        assert_eq!(rt;
            found.as_ref().map(count_keys),
            keys,
            "the keys of {text:?}"
        );
        let value = found.unwrap_or(Value::Null);
        assert_eq!(rt; number_of(&value, "n"), number, "the number of {text:?}");
        assert_eq!(rt;
            number_within(&value, "n", 9),
            small,
            "the small number of {text:?}"
        );
    }
    let value = read_value(alloc, b"{\"a\":[1,2],\"b\":{}}")?.ok_or("a value")?;
    assert_eq!(rt; array_of(&value, "a").map(|items| items.len()), Some(2));
    assert!(rt; array_of(&value, "b").is_none());
    Ok(())
}
