//! Runs over sources, sinks and keepers in memory, and what they come to.

use keeper::{Keeper, SureKeeper};
use script_cases::Ran;
use session_runner::{Ended, run_alone};
use source_sink::{ByteSink, ByteSource};
use std::alloc::Global;
use std::test::Fail;

/// A run over a keeper, in which the reads and writes of these numbers fail, and the keeper that it gives back.
pub(crate) fn run_over<K: Keeper>(
    alloc: Global,
    keeper: K,
    words: &[String],
    input: &[u8],
    read_fails: &[u64],
    write_fails: &[u64],
) -> Result<(Ran, K), Fail> {
    let mut source = ByteSource::new(alloc, input, read_fails)?;
    let mut sink = ByteSink::new(alloc, write_fails)?;
    let Ended { status, keeper } = run_alone(alloc, words, &mut source, &mut sink, keeper);
    let output = Vec::from_slice(alloc, sink.as_slice())?;
    Ok((Ran { status, output }, keeper))
}

/// A run over a keeper that doesn't fail, in which the reads and writes of these numbers fail.
pub(crate) fn run_failing(
    alloc: Global,
    words: &[String],
    input: &[u8],
    read_fails: &[u64],
    write_fails: &[u64],
) -> Result<Ran, Fail> {
    let keeper = SureKeeper::new(alloc);
    let (ran, _keeper) = run_over(alloc, keeper, words, input, read_fails, write_fails)?;
    Ok(ran)
}

/// A run in which nothing fails.
pub(crate) fn run_surely(alloc: Global, words: &[String], input: &[u8]) -> Result<Ran, Fail> {
    run_failing(alloc, words, input, &[], &[])
}

/// One word.
pub(crate) fn word(alloc: Global, text: &str) -> Result<Vec<String>, Fail> {
    let mut words = Vec::new(alloc);
    words.push(String::from_str(alloc, text)?)?;
    Ok(words)
}
