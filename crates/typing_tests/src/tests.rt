//! Clients that type at random.

use crate::report::ends_of;
use crate::script::{CLIENTS, returning_script, typing_script};
use keeper::SureKeeper;
use session_runner::run_alone;
use source_sink::{ByteSink, SureSource};
use std::alloc::Global;
use std::process::Abort;
use std::test::Fail;

// How many scripts are made.
const SEEDS: u64 = 40;

// What a run of a script writes, which ends well.
fn report_of(rt: &impl Abort, alloc: Global, script: &str) -> Result<Vec<u8>, Fail> {
    let mut words = Vec::new(alloc);
    words.push(String::from_str(alloc, "run")?)?;
    let mut source = SureSource::new(alloc, script.as_bytes())?;
    let mut sink = ByteSink::new(alloc, &[])?;
    let keeper = SureKeeper::new(alloc);
    let ended = run_alone(alloc, &words, &mut source, &mut sink, keeper);
    assert_eq!(rt; ended.status, 0);
    Ok(Vec::from_slice(alloc, sink.as_slice())?)
}

#[test]
fn clients_that_type_end_with_one_text(rt: HostRuntime) -> Result<(), Fail> {
    let alloc = rt.alloc();
    for seed in 0..SEEDS {
        let script = typing_script(alloc, seed)?;
        let report = report_of(&rt, alloc, script.as_str())?;
        let ends = ends_of(alloc, &report)?;
        assert_eq!(rt; ends.clients.len() as u64, CLIENTS);
        assert_eq!(rt; ends.document.as_str(), ends.replayed.as_str());
        for client in &ends.clients {
            assert_eq!(rt; client.text.as_str(), ends.document.as_str());
        }
    }
    Ok(())
}

#[test]
fn keystrokes_of_clients_that_come_and_go_stand_once(rt: HostRuntime) -> Result<(), Fail> {
    let alloc = rt.alloc();
    for seed in 0..SEEDS {
        let script = returning_script(alloc, seed)?;
        let report = report_of(&rt, alloc, script.as_str())?;
        let ends = ends_of(alloc, &report)?;
        assert_eq!(rt; ends.document.as_str(), ends.replayed.as_str());
        for typed in &ends.typed {
            let count = ends.document.matches(typed.text.as_str()).count();
            let rests = ends
                .clients
                .iter()
                .any(|client| client.client == typed.client);
            assert!(rt; count == 1 || (count == 0 && !rests));
        }
    }
    Ok(())
}
