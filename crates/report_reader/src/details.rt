//! Parts of an entry's line, each by its name.

ghost use Rattle.report_reader.specs.Details.{applied_of, brief_of, cause_of, fault_of, measured_why, outcome_of, plain_why, short_why, why_named, why_of};
ghost use Rattle.report_reader.specs.Refused.{Reads};
ghost use Rattle.serde_json.specs.View.{view};
ghost use Rattle.std.specs.Prelude.{◌≡◌};

use crate::fields::{number, number_or_null, operation, text};
use crate::refusal::Refusal;
use expiring_lock::{Busy, Stale};
use journal_entries::{Brief, Cause, Outcome, Why};
use ot_op::FormFault;
use serde_json::Value;
use std::alloc::Global;

/// What is wrong with a malformed operation.
pub(crate) fn read_fault(value: &Value) -> Result<FormFault, Refusal>
    ensures { Reads result (fault_of (view value.now)) }
{
    let name = text(value, "fault")?;
    if name == "form" {
        return Ok(FormFault::Form(number(value, "at")?));
    }
    if name == "supplementary" {
        return Ok(FormFault::Supplementary(number(value, "at")?));
    }
    if name == "too-large" {
        let comps = number(value, "comps")?;
        let units = number(value, "units")?;
        return Ok(FormFault::TooLarge { comps, units });
    }
    Err(Refusal::Outside)
}

/// The outcome of an update.
pub(crate) fn read_outcome(alloc: Global, value: &Value) -> Result<Outcome, Refusal>
    ensures { Reads result (outcome_of (view value.now)) }
{
    let name = text(value, "out")?;
    if name == "applied" {
        return read_applied(alloc, value);
    }
    if name == "dup" {
        let v = number(value, "v")?;
        return Ok(Outcome::Dup { v });
    }
    if name == "refused" {
        return Ok(Outcome::Refused(read_cause(value)?));
    }
    Err(Refusal::Outside)
}

fn read_applied(alloc: Global, value: &Value) -> Result<Outcome, Refusal>
    ensures { Reads result (applied_of (view value.now)) }
{
    let v = number(value, "v")?;
    let op = operation(alloc, value, "op")?;
    Ok(Outcome::Applied { v, op })
}

fn read_cause(value: &Value) -> Result<Cause, Refusal>
    ensures { Reads result (cause_of (view value.now)) }
{
    let name = text(value, "cause")?;
    if name == "future" {
        let have = number(value, "have")?;
        return Ok(Cause::Future { have });
    }
    if name == "too-old" {
        let have = number(value, "have")?;
        return Ok(Cause::TooOld { have });
    }
    if name == "mismatch" {
        return Ok(Cause::Mismatch);
    }
    if name == "too-long" {
        let len = number(value, "len")?;
        return Ok(Cause::TooLong { len });
    }
    if name == "store-fault" {
        return Ok(Cause::StoreFault);
    }
    if name == "memory" {
        return Ok(Cause::Memory);
    }
    Err(Refusal::Outside)
}

/// A message that a client got, in short.
pub(crate) fn read_brief(value: &Value) -> Result<Brief, Refusal>
    ensures { Reads result (brief_of (view value.now)) }
{
    let name = text(value, "msg")?;
    if name == "op" {
        return Ok(Brief::Op(number(value, "v")?));
    }
    if name == "ack" {
        return Ok(Brief::Ack(number(value, "v")?));
    }
    if name == "error" {
        return Ok(Brief::Error(number(value, "number")?));
    }
    Err(Refusal::Outside)
}

/// Why a line did nothing.
pub(crate) fn read_why(value: &Value) -> Result<Why, Refusal>
    ensures { Reads result (why_of (view value.now)) }
{
    let name = text(value, "why")?;
    read_named_why(value, name)
}

fn read_named_why(value: &Value, name: &str) -> Result<Why, Refusal>
    ensures { Reads result (why_named (view value.now) name.now) }
{
    if let Some(why) = find_plain_why(name) {
        return Ok(why);
    }
    if let Some(why) = find_short_why(name) {
        return Ok(why);
    }
    read_measured_why(value, name)
}

fn find_plain_why(name: &str) -> Option<Why>
    ensures { result ≡ plain_why name.now }
{
    if name == "no-doc" {
        return Some(Why::NoDoc);
    }
    if name == "no-project" {
        return Some(Why::NoProject);
    }
    if name == "not-joined" {
        return Some(Why::NotJoined);
    }
    if name == "not-left" {
        return Some(Why::NotLeft);
    }
    if name == "in-flight" {
        return Some(Why::InFlight);
    }
    None
}

fn find_short_why(name: &str) -> Option<Why>
    ensures { result ≡ short_why name.now }
{
    if name == "nothing" {
        return Some(Why::Nothing);
    }
    if name == "empty" {
        return Some(Why::Empty);
    }
    if name == "uncached" {
        return Some(Why::Uncached);
    }
    if name == "holding" {
        return Some(Why::Holding);
    }
    if name == "store-fault" {
        return Some(Why::StoreFault);
    }
    None
}

fn read_measured_why(value: &Value, name: &str) -> Result<Why, Refusal>
    ensures { Reads result (measured_why (view value.now) name.now) }
{
    if name == "too-old" {
        let have = number(value, "have")?;
        return Ok(Why::TooOld { have });
    }
    if name == "past-end" {
        let len = number(value, "len")?;
        return Ok(Why::PastEnd { len });
    }
    if name == "full" {
        let comps = number(value, "comps")?;
        let units = number(value, "units")?;
        return Ok(Why::Full { comps, units });
    }
    if name == "busy" {
        let token = number(value, "token")?;
        let until = number(value, "until")?;
        return Ok(Why::Busy(Busy { token, until }));
    }
    if name == "stale" {
        return Ok(Why::Stale(match number_or_null(value, "token")? {
            Some(token) => Stale::Other(token),
            None => Stale::Ended,
        }));
    }
    if name == "unflushed" {
        let kept = number_or_null(value, "kept")?;
        let have = number(value, "have")?;
        return Ok(Why::Unflushed { kept, have });
    }
    if name == "waiting" {
        let count = number(value, "count")?;
        return Ok(Why::Waiting { count });
    }
    Err(Refusal::Outside)
}
