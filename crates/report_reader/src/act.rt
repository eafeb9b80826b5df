//! What happened in an entry.

ghost use Rattle.report_reader.specs.Acts.{acquired_of, act_of, committed_of, declined_of, edited_of, flush_failed_of, flushed_of, got_of, joined_of, load_differs_of, load_failed_of, loaded_of, made_of, malformed_of, released_of, unloaded_of, update_of};
ghost use Rattle.report_reader.specs.Refused.{Reads};
ghost use Rattle.serde_json.specs.View.{view};
ghost use Rattle.std.specs.Prelude.{◌≡◌, IfOk};

use crate::details::{read_brief, read_fault, read_outcome, read_why};
use crate::element::elements;
use crate::fields::{
    flag, name, number, number_or_null, operation, small_number, small_or_null, units,
};
use crate::kind::ActKind;
use crate::refusal::Refusal;
use journal_entries::{Act, Sources, Update};
use serde_json::Value;
use std::alloc::{AllocError, Global};

/// The act of an entry of a kind. A `handed` hands out `count` items.
pub(crate) fn read_act(
    alloc: Global,
    kind: ActKind,
    count: u64,
    value: &Value,
) -> Result<Act, Refusal>
    ensures { Reads result (act_of kind count (view value.now)) }
{
    match kind {
        ActKind::Made => read_made(alloc, value),
        ActKind::Ticked => Ok(Act::Ticked {
            ms: number(value, "ms")?,
        }),
        ActKind::Joined => read_joined(alloc, value),
        ActKind::Edited => read_edited(alloc, value),
        ActKind::Sent => Ok(Act::Sent {
            update: read_update(alloc, value)?,
        }),
        ActKind::Malformed => read_malformed(value),
        ActKind::Got => read_got(value),
        ActKind::Left => Ok(Act::Left {
            client: small_number(value, "client")?,
        }),
        ActKind::Acquired => read_acquired(value),
        ActKind::Loaded => read_loaded(value),
        ActKind::LoadFailed => read_load_failed(value),
        ActKind::LoadDiffers => read_load_differs(value),
        ActKind::Committed => read_committed(alloc, value),
        ActKind::Released => read_released(value),
        ActKind::Flushed => read_flushed(value),
        ActKind::FlushFailed => read_flush_failed(value),
        ActKind::Unloaded => read_unloaded(value),
        ActKind::Handed => Ok(Act::Handed {
            project: name(alloc, value, "project")?,
            count,
        }),
        ActKind::Declined => read_declined(value),
        ActKind::Closed => Ok(Act::Closed {
            driver: small_number(value, "driver")?,
        }),
    }
}

fn read_made(alloc: Global, value: &Value) -> Result<Act, Refusal>
    ensures { Reads result (made_of (view value.now)) }
{
    let doc = small_number(value, "doc")?;
    let made = name(alloc, value, "name")?;
    let project = name(alloc, value, "project")?;
    let first = units(alloc, value, "text")?;
    let base = number(value, "base")?;
    Ok(Act::Made {
        doc,
        name: made,
        project,
        first,
        base,
    })
}

fn read_joined(alloc: Global, value: &Value) -> Result<Act, Refusal>
    ensures { Reads result (joined_of (view value.now)) }
{
    let client = small_number(value, "client")?;
    let doc = small_number(value, "doc")?;
    let user = name(alloc, value, "user")?;
    let track = flag(value, "track")?;
    let since = number_or_null(value, "from")?;
    let source = number(value, "source")?;
    let v = number(value, "v")?;
    Ok(Act::Joined {
        client,
        doc,
        user,
        track,
        since,
        source,
        v,
    })
}

fn read_edited(alloc: Global, value: &Value) -> Result<Act, Refusal>
    ensures { Reads result (edited_of (view value.now)) }
{
    let client = small_number(value, "client")?;
    let op = operation(alloc, value, "op")?;
    match op.comps() {
        [comp] => Ok(Act::Edited {
            client,
            comp: comp.copy(alloc)?,
        }),
        _ => Err(Refusal::Outside),
    }
}

fn read_update(alloc: Global, value: &Value) -> Result<Update, Refusal>
    ensures { Reads result (update_of (view value.now)) }
{
    let doc = small_number(value, "doc")?;
    let client = small_or_null(value, "client")?;
    let serial = number(value, "number")?;
    let source = number(value, "source")?;
    let dup: Vec<u64> = elements(alloc, value, "dup")?;
    let user = name(alloc, value, "user")?;
    let track = flag(value, "track")?;
    let ms = number(value, "ms")?;
    let v = number(value, "v")?;
    let op = operation(alloc, value, "op")?;
    Ok(Update {
        doc,
        client,
        number: serial,
        source,
        dup: sources_of(alloc, &dup)?,
        user,
        track,
        ms,
        v,
        op,
    })
}

fn sources_of(alloc: Global, numbers: &[u64]) -> Result<Sources, AllocError>
    ensures { IfOk result (λ sources. sources ≡ numbers.now) }
{
    let mut sources = Sources::new(alloc);
    for source in numbers {
        sources.push(*source)?;
    }
    Ok(sources)
}

fn read_malformed(value: &Value) -> Result<Act, Refusal>
    ensures { Reads result (malformed_of (view value.now)) }
{
    let doc = small_number(value, "doc")?;
    let fault = read_fault(value)?;
    Ok(Act::Malformed { doc, fault })
}

fn read_got(value: &Value) -> Result<Act, Refusal>
    ensures { Reads result (got_of (view value.now)) }
{
    let client = small_number(value, "client")?;
    let brief = read_brief(value)?;
    Ok(Act::Got { client, brief })
}

fn read_acquired(value: &Value) -> Result<Act, Refusal>
    ensures { Reads result (acquired_of (view value.now)) }
{
    let doc = small_number(value, "doc")?;
    let token = number(value, "token")?;
    let until = number(value, "until")?;
    Ok(Act::Acquired { doc, token, until })
}

fn read_loaded(value: &Value) -> Result<Act, Refusal>
    ensures { Reads result (loaded_of (view value.now)) }
{
    let doc = small_number(value, "doc")?;
    let token = number_or_null(value, "token")?;
    let v = number(value, "v")?;
    Ok(Act::Loaded { doc, token, v })
}

fn read_load_failed(value: &Value) -> Result<Act, Refusal>
    ensures { Reads result (load_failed_of (view value.now)) }
{
    let doc = small_number(value, "doc")?;
    let token = number_or_null(value, "token")?;
    let before = number(value, "before")?;
    let after = number(value, "after")?;
    Ok(Act::LoadFailed {
        doc,
        token,
        before,
        after,
    })
}

fn read_load_differs(value: &Value) -> Result<Act, Refusal>
    ensures { Reads result (load_differs_of (view value.now)) }
{
    let doc = small_number(value, "doc")?;
    let token = number_or_null(value, "token")?;
    let had = number(value, "had")?;
    let got = number_or_null(value, "got")?;
    Ok(Act::LoadDiffers {
        doc,
        token,
        had,
        got,
    })
}

fn read_committed(alloc: Global, value: &Value) -> Result<Act, Refusal>
    ensures { Reads result (committed_of (view value.now)) }
{
    let doc = small_number(value, "doc")?;
    let token = number(value, "token")?;
    let ticket = number(value, "ticket")?;
    let outcome = read_outcome(alloc, value)?;
    Ok(Act::Committed {
        doc,
        token,
        ticket,
        outcome,
    })
}

fn read_released(value: &Value) -> Result<Act, Refusal>
    ensures { Reads result (released_of (view value.now)) }
{
    let doc = small_number(value, "doc")?;
    let token = number(value, "token")?;
    Ok(Act::Released { doc, token })
}

fn read_flushed(value: &Value) -> Result<Act, Refusal>
    ensures { Reads result (flushed_of (view value.now)) }
{
    let doc = small_number(value, "doc")?;
    let token = number(value, "token")?;
    let v = number(value, "v")?;
    Ok(Act::Flushed { doc, token, v })
}

fn read_flush_failed(value: &Value) -> Result<Act, Refusal>
    ensures { Reads result (flush_failed_of (view value.now)) }
{
    let doc = small_number(value, "doc")?;
    let token = number(value, "token")?;
    let before = number(value, "before")?;
    let after = number(value, "after")?;
    Ok(Act::FlushFailed {
        doc,
        token,
        before,
        after,
    })
}

fn read_unloaded(value: &Value) -> Result<Act, Refusal>
    ensures { Reads result (unloaded_of (view value.now)) }
{
    let doc = small_number(value, "doc")?;
    let token = number(value, "token")?;
    Ok(Act::Unloaded { doc, token })
}

fn read_declined(value: &Value) -> Result<Act, Refusal>
    ensures { Reads result (declined_of (view value.now)) }
{
    let session = small_number(value, "session")?;
    let why = read_why(value)?;
    Ok(Act::Declined { session, why })
}
