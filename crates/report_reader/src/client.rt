//! Reading a client at the end.

ghost use Rattle.report_reader.specs.Clients.{client_of, state_of};
ghost use Rattle.report_reader.specs.Refused.{Reads};
ghost use Rattle.serde_json.specs.View.{view};

use crate::fields::{
    name, number, operation, operation_or_null, small_number, text, units_or_null,
};
use crate::refusal::Refusal;
use report_text::{ClientEnd, EndState};
use serde_json::Value;
use std::alloc::Global;

/// The client that a line shows.
pub(crate) fn read_client(alloc: Global, value: &Value) -> Result<ClientEnd, Refusal>
    ensures { Reads result (client_of (view value.now)) }
{
    let b = small_number(value, "b")?;
    let client = small_number(value, "client")?;
    let doc = small_number(value, "doc")?;
    let flight = operation_or_null(alloc, value, "flight")?;
    let name = name(alloc, value, "name")?;
    let pending = operation(alloc, value, "pending")?;
    let state = read_state(value)?;
    let text = units_or_null(alloc, value, "text")?;
    let v = number(value, "v")?;
    Ok(ClientEnd {
        b,
        client,
        doc,
        flight,
        name,
        pending,
        state,
        text,
        v,
    })
}

fn read_state(value: &Value) -> Result<EndState, Refusal>
    ensures { Reads result (state_of (view value.now)) }
{
    let name = text(value, "state")?;
    if name == "joined" {
        return Ok(EndState::Joined);
    }
    if name == "left" {
        return Ok(EndState::Left);
    }
    if name == "stale" {
        return Ok(EndState::Stale);
    }
    Err(Refusal::Outside)
}
