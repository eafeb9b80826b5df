//! `overleaf_live`: reads a script from standard input and writes the report of its journal to standard output.
#![tactic(auto)]

use keeper::SureKeeper;
use session_runner::run_alone;
use source_sink::{StdSink, StdSource};
use std::alloc::{AllocError, Global};
use std::env;
use std::io::ErrorKind;
use std::process::ExitCode;

/// Where the words themselves find no memory.
const NO_MEMORY: u8 = 4;

fn main(rt: HostRuntime) -> ExitCode {
    let alloc = rt.alloc();
    let words = match env::args(&rt) {
        Ok(args) => words_behind(alloc, args),
        Err(fault) if fault.kind() == ErrorKind::OutOfMemory => Err(AllocError),
        // A word that is no text: no form of the program has one.
        Err(_) => Ok(Vec::new(alloc)),
    };
    let Ok(words) = words else {
        return ExitCode::from(NO_MEMORY);
    };
    let mut input = StdSource::new(rt.stdin());
    let mut out = StdSink::new(rt.stdout());
    let keeper = SureKeeper::new(alloc);
    let ended = run_alone(alloc, &words, &mut input, &mut out, keeper);
    ExitCode::from(ended.status)
}

// The words behind the program's name.
fn words_behind(alloc: Global, args: env::Args) -> Result<Vec<String>, AllocError> {
    let mut words = Vec::new(alloc);
    for word in args.skip(1) {
        words.push(word)?;
    }
    Ok(words)
}
