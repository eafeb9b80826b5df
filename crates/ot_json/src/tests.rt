//! Operations read from texts, and written again: the answers are worked out by hand from the rules.
use super::*;
use json_lines::read_value;
use ot_op::{FormFault, Op};
use std::alloc::Global;
use std::process::Abort;
use std::test::Fail;

// What is written of the operation that a text is read as, or its fault.
fn read_again(alloc: Global, long: bool, text: &str) -> Result<Result<Vec<u8>, OpFault>, Fail> {
    let value = read_value(alloc, text.as_bytes())?.ok_or("no JSON value")?;
    let read: Result<Op, OpFault> = if long {
        read_long(alloc, &value)
    } else {
        read_op(alloc, &value)
    };
    match read {
        Ok(op) => Ok(Ok(write_op(alloc, &op)?.to_vec(alloc)?)),
        Err(fault) => Ok(Err(fault)),
    }
}

fn expect_read(
    rt: &impl Abort,
    alloc: Global,
    long: bool,
    text: &str,
    wanted: Result<&str, FormFault>,
) -> Result<(), Fail> {
    let written = read_again(alloc, long, text)?;
    match (written, wanted) {
        (Ok(written), Ok(wanted)) => {
            assert_eq!(rt; written.as_slice(), wanted.as_bytes(), "of {text}")
        }
        (Err(fault), Err(wanted)) => { assert_eq!(rt; fault, OpFault::Bad(wanted), "of {text}") }
        (_, _) => assert!(rt; false, "of {text}"),
    }
    Ok(())
}

#[test]
fn reads_what_clients_send(rt: HostRuntime) -> Result<(), Fail> {
    let alloc = rt.alloc();
    let cases: [(&str, Result<&str, FormFault>); 26] = [
        ("[]", Ok("[]")),
        ("{}", Err(FormFault::Form(0))),
        ("null", Err(FormFault::Form(0))),
        (
            "[{\"i\":\"\u{1f600}\",\"p\":1}]",
            Ok("[{\"i\":\"\u{fffd}\u{fffd}\",\"p\":1}]"),
        ),
        (
            "[{\"d\":\"\u{1f600}\",\"p\":0}]",
            Err(FormFault::Supplementary(0)),
        ),
        (
            "[{\"c\":\"a\u{1f600}\",\"p\":0,\"t\":1}]",
            Err(FormFault::Supplementary(0)),
        ),
        (
            "[{\"p\":1000000000,\"d\":\"\u{ffff}\\n\"}]",
            Ok("[{\"d\":\"\u{ffff}\\n\",\"p\":1000000000}]"),
        ),
        ("[{\"i\":\"a\",\"p\":1000000001}]", Err(FormFault::Form(0))),
        ("[{\"i\":\"a\",\"p\":1.0}]", Err(FormFault::Form(0))),
        ("[{\"i\":\"a\",\"p\":-1}]", Err(FormFault::Form(0))),
        ("[{\"i\":1,\"p\":0}]", Err(FormFault::Form(0))),
        (
            "[{\"c\":\"a\",\"p\":0,\"t\":4294967295}]",
            Ok("[{\"c\":\"a\",\"p\":0,\"t\":4294967295}]"),
        ),
        (
            "[{\"c\":\"a\",\"p\":0,\"t\":4294967296}]",
            Err(FormFault::Form(0)),
        ),
        ("[{\"c\":\"a\",\"p\":0}]", Err(FormFault::Form(0))),
        ("[{\"i\":\"a\",\"p\":0,\"t\":0}]", Err(FormFault::Form(0))),
        (
            "[{\"i\":\"a\",\"d\":\"a\",\"p\":0}]",
            Err(FormFault::Form(0)),
        ),
        ("[{\"i\":\"a\",\"d\":\"a\"}]", Err(FormFault::Form(0))),
        (
            "[{\"c\":\"a\",\"p\":0,\"t\":0,\"x\":0}]",
            Err(FormFault::Form(0)),
        ),
        ("[{\"i\":\"b\",\"p\":0},7]", Err(FormFault::Form(1))),
        (
            "[{\"i\":\"\",\"p\":0},{\"d\":\"\",\"p\":3},{\"d\":\"\u{1f600}\",\"p\":0}]",
            Err(FormFault::Supplementary(2)),
        ),
        (
            "[{\"d\":\"\u{1f600}\",\"p\":0},{\"i\":\"\",\"p\":5},{\"x\":1}]",
            Err(FormFault::Form(2)),
        ),
        (
            "[{\"d\":\"\u{1f600}\",\"p\":0},{\"c\":\"\u{1f600}\",\"p\":0,\"t\":0}]",
            Err(FormFault::Supplementary(0)),
        ),
        ("[{\"i\":\"\",\"p\":1000000001}]", Err(FormFault::Form(0))),
        (
            "[{\"i\":\"\",\"p\":0},{\"c\":\"\",\"p\":2,\"t\":3},{\"d\":\"\",\"p\":1}]",
            Ok("[{\"c\":\"\",\"p\":2,\"t\":3}]"),
        ),
        (
            "[{\"i\":\"a\",\"p\":0},{\"i\":\"b\",\"p\":1}]",
            Ok("[{\"i\":\"a\",\"p\":0},{\"i\":\"b\",\"p\":1}]"),
        ),
        ("[[]]", Err(FormFault::Form(0))),
    ];
    for (text, wanted) in cases {
        expect_read(&rt, alloc, false, text, wanted)?;
    }
    Ok(())
}

#[test]
fn reads_what_was_written(rt: HostRuntime) -> Result<(), Fail> {
    let alloc = rt.alloc();
    let cases: [(&str, Result<&str, FormFault>); 10] = [
        ("[]", Ok("[]")),
        ("{}", Err(FormFault::Form(0))),
        (
            "[{\"i\":\"a\",\"p\":0},{\"d\":\"a\",\"p\":0}]",
            Ok("[{\"i\":\"a\",\"p\":0},{\"d\":\"a\",\"p\":0}]"),
        ),
        (
            "[{\"c\":\"\",\"p\":2,\"t\":3}]",
            Ok("[{\"c\":\"\",\"p\":2,\"t\":3}]"),
        ),
        (
            "[{\"i\":\"a\",\"p\":0},{\"i\":\"\",\"p\":0}]",
            Err(FormFault::Form(1)),
        ),
        ("[{\"d\":\"\",\"p\":0}]", Err(FormFault::Form(0))),
        ("[{\"i\":\"\u{1f600}\",\"p\":0}]", Err(FormFault::Form(0))),
        (
            "[{\"d\":\"\u{1f600}\",\"p\":0}]",
            Err(FormFault::Supplementary(0)),
        ),
        (
            "[{\"c\":\"\u{1f600}\",\"p\":0,\"t\":0},{\"d\":\"\",\"p\":0}]",
            Err(FormFault::Form(1)),
        ),
        ("[{\"i\":\"a\",\"p\":1000000001}]", Err(FormFault::Form(0))),
    ];
    for (text, wanted) in cases {
        expect_read(&rt, alloc, true, text, wanted)?;
    }
    Ok(())
}

#[test]
fn refuses_large_operations(rt: HostRuntime) -> Result<(), Fail> {
    let alloc = rt.alloc();
    let insert = "{\"i\":\"a\",\"p\":0},";
    let end = "\",\"p\":0}]";
    let end_comment = "\",\"p\":0},{\"c\":\"b\",\"p\":0,\"t\":0}]";
    // a text that begins so, goes on with so many of these, and ends so
    let cases: [(&str, &str, usize, &str, Option<FormFault>); 10] = [
        ("[", insert, 999, "{\"i\":\"a\",\"p\":0}]", None),
        ("[", insert, 1_000, "{\"d\":\"\",\"p\":0}]", None),
        (
            "[",
            insert,
            1_000,
            "{\"i\":\"a\",\"p\":0}]",
            Some(FormFault::TooLarge {
                comps: 1_001,
                units: 1_001,
            }),
        ),
        (
            "[",
            insert,
            1_001,
            "{\"d\":\"\u{1f600}\",\"p\":0}]",
            Some(FormFault::Supplementary(1_001)),
        ),
        ("[", insert, 1_001, "1]", Some(FormFault::Form(1_001))),
        ("[{\"i\":\"", "a", 65_536, end, None),
        (
            "[{\"d\":\"",
            "a",
            65_537,
            end,
            Some(FormFault::TooLarge {
                comps: 1,
                units: 65_537,
            }),
        ),
        ("[{\"i\":\"", "\u{1f600}", 32_768, end, None),
        (
            "[{\"i\":\"",
            "\u{1f600}",
            32_769,
            end,
            Some(FormFault::TooLarge {
                comps: 1,
                units: 65_538,
            }),
        ),
        (
            "[{\"i\":\"",
            "a",
            65_536,
            end_comment,
            Some(FormFault::TooLarge {
                comps: 2,
                units: 65_537,
            }),
        ),
    ];
    for (start, piece, count, end, wanted) in cases {
        let pieces = piece.repeat(alloc, count)?;
        let text = format!(in alloc; "{start}{pieces}{end}")?;
        let fault = match read_again(alloc, false, text.as_str())? {
            Ok(_) => None,
            Err(fault) => Some(fault),
        };
        assert_eq!(rt; fault, wanted.map(OpFault::Bad), "of {count} {piece}");
    }
    let pieces = insert.repeat(alloc, 1_000)?;
    let last = "{\"i\":\"a\",\"p\":0}";
    let text = format!(in alloc; "[{pieces}{last}]")?;
    let written = read_again(alloc, true, text.as_str())?;
    assert!(rt; written.is_ok_and(|bytes| bytes.as_slice() == text.as_bytes()));
    Ok(())
}
