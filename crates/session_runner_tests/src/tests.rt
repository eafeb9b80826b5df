//! Rows of scripts and reports, and runs whose input and output fail.

use crate::client_rows::client_rows;
use crate::failing_keeper_rows::failing_keeper_rows;
use crate::history_rows::history_rows;
use crate::keeper_rows::keeper_rows;
use crate::lock_rows::lock_rows;
use crate::operation_rows::operation_rows;
use crate::range_rows::range_rows;
use crate::refused_rows::refused_rows;
use crate::running::{run_failing, run_over, run_surely, word};
use keeper::{Keeper, MemoryKeeper, SureKeeper};
use ot_units::Name;
use script_cases::{Ran, check_cases};
use source_sink::INPUT_LIMIT;
use std::alloc::Global;
use std::test::Fail;

// Each case of a table, over a keeper that doesn't fail.
fn check_table(alloc: Global, table: &str) -> Result<(), Fail> {
    check_cases(alloc, table, |words, input| run_surely(alloc, words, input))
}

#[test]
fn transforms_operations(rt: HostRuntime) -> Result<(), Fail> {
    check_table(rt.alloc(), operation_rows())
}

#[test]
fn tracks_changes(rt: HostRuntime) -> Result<(), Fail> {
    check_table(rt.alloc(), range_rows())
}

#[test]
fn tells_clients_what_others_do(rt: HostRuntime) -> Result<(), Fail> {
    check_table(rt.alloc(), client_rows())
}

#[test]
fn keeps_locks(rt: HostRuntime) -> Result<(), Fail> {
    check_table(rt.alloc(), lock_rows())
}

#[test]
fn refuses_lines_and_words(rt: HostRuntime) -> Result<(), Fail> {
    check_table(rt.alloc(), refused_rows())
}

#[test]
fn puts_documents_into_the_keeper(rt: HostRuntime) -> Result<(), Fail> {
    check_table(rt.alloc(), keeper_rows())
}

#[test]
fn hands_history_out(rt: HostRuntime) -> Result<(), Fail> {
    check_table(rt.alloc(), history_rows())
}

// Each case of a table, over a keeper whose first put fails.
fn run_forgetting(alloc: Global, words: &[String], input: &[u8]) -> Result<Ran, Fail> {
    let keeper = MemoryKeeper::new(alloc, &[], &[1])?;
    let (ran, _keeper) = run_over(alloc, keeper, words, input, &[], &[])?;
    Ok(ran)
}

#[test]
fn tells_of_flushes_that_fail(rt: HostRuntime) -> Result<(), Fail> {
    let alloc = rt.alloc();
    check_cases(alloc, failing_keeper_rows(), |words, input| {
        run_forgetting(alloc, words, input)
    })
}

// The version and the text that a keeper has under a name.
fn kept(alloc: Global, keeper: &mut SureKeeper, name: &str) -> Result<Option<(u64, String)>, Fail> {
    let name = Name::read(alloc, name)?.ok_or("a name")?;
    match keeper.get(alloc, name.as_str())? {
        Some(kept) => {
            let text = kept.text(alloc)?.to_text(alloc)?;
            Ok(Some((kept.version(), text)))
        }
        None => Ok(None),
    }
}

#[test]
fn gives_the_keeper_back(rt: HostRuntime) -> Result<(), Fail> {
    let alloc = rt.alloc();
    let input = r#"{"do":"doc","doc":"a","project":"p","text":"abc","v":4}
{"do":"raw","as":"w","doc":"a","user":"u","source":1,"v":4,"op":[{"i":"X","p":1}]}
"#;
    let words = word(alloc, "run")?;
    let keeper = SureKeeper::new(alloc);
    let (ran, mut keeper) = run_over(alloc, keeper, &words, input.as_bytes(), &[], &[])?;
    assert_eq!(rt; ran.status, 0);
    let (version, text) = kept(alloc, &mut keeper, "a")?.ok_or("a document")?;
    assert_eq!(rt; version, 5);
    assert_eq!(rt; text.as_str(), "aXbc");
    assert!(rt; kept(alloc, &mut keeper, "b")?.is_none());
    Ok(())
}

#[test]
fn tells_of_failures(rt: HostRuntime) -> Result<(), Fail> {
    let alloc = rt.alloc();
    let run = word(alloc, "run")?;
    let doc = br#"{"do":"doc","doc":"a","project":"p","text":"abc"}"#;

    // The first call of the source fails, and the first of the sink.
    let ran = run_failing(alloc, &run, doc, &[1], &[])?;
    assert_eq!(rt; ran.status, 5);
    assert_eq!(rt; ran.output.as_slice(), b"fault: read\n".as_slice());
    let ran = run_failing(alloc, &run, doc, &[], &[1])?;
    assert_eq!(rt; ran.status, 6);
    assert_eq!(rt; ran.output.as_slice(), b"".as_slice());

    // Words out of form read nothing, and what is no UTF-8 is no JSON.
    let walk = word(alloc, "walk")?;
    let ran = run_failing(alloc, &walk, doc, &[1], &[])?;
    assert_eq!(rt; ran.status, 2);
    assert_eq!(rt; ran.output.as_slice(), b"fault: words\n".as_slice());
    let ran = run_surely(alloc, &run, b"\xff")?;
    assert_eq!(rt; ran.status, 3);
    assert_eq!(rt; ran.output.as_slice(), b"fault: line 1 json\n".as_slice());

    // One byte more than the limit.
    let long = vec![in alloc; b'x'; INPUT_LIMIT + 1]?;
    let ran = run_surely(alloc, &run, &long)?;
    assert_eq!(rt; ran.status, 8);
    assert_eq!(rt;
        ran.output.as_slice(),
        b"fault: input longer than 16777216\n".as_slice()
    );
    Ok(())
}
