//! What happened, in an entry's line.

ghost use Rattle.std.specs.Prelude.{◌≡◌, [], IfOk, OnOk};
ghost use Rattle.json_lines.specs.Object.{members_of};
ghost use Rattle.ot_op.specs.Compose.{appended};
ghost use Rattle.report_text.specs.Entries.{act_name as act_name_lem, with_brief, with_counts, with_fields, with_lock, with_lock_if_any, with_update};

use crate::item::put_items;
use crate::outcome::{put_fault, put_outcome};
use crate::values::{put_numbers, put_optional};
use crate::why::put_why;
use history_queue::Item;
use journal_entries::{Act, Brief, Update};
use json_lines::Object;
use ot_json::write_op;
use ot_op::{Comp, Op};
use std::alloc::{AllocError, Global};

pub(crate) fn act_name(act: &Act) -> &'static str
    ensures { result.now ≡ act_name_lem act.now }
{
    match act {
        Act::Made { .. } => "made",
        Act::Ticked { .. } => "ticked",
        Act::Joined { .. } => "joined",
        Act::Edited { .. } => "edited",
        Act::Sent { .. } => "sent",
        Act::Malformed { .. } => "malformed",
        Act::Got { .. } => "got",
        Act::Left { .. } => "left",
        Act::Acquired { .. } => "acquired",
        Act::Loaded { .. } => "loaded",
        Act::LoadFailed { .. } => "load-failed",
        Act::LoadDiffers { .. } => "load-differs",
        Act::Committed { .. } => "committed",
        Act::Released { .. } => "released",
        Act::Flushed { .. } => "flushed",
        Act::FlushFailed { .. } => "flush-failed",
        Act::Unloaded { .. } => "unloaded",
        Act::Handed { .. } => "handed",
        Act::Declined { .. } => "declined",
        Act::Closed { .. } => "closed",
    }
}

/// Puts in what an act has.
pub(crate) fn put_fields(object: &mut Object, act: &Act, items: &[Item]) -> Result<(), AllocError>
    ensures { OnOk result (members_of object.new ≡ with_fields items.now act.now (members_of object.old)) }
{
    match act {
        Act::Made {
            doc,
            name,
            project,
            first,
            base,
        } => {
            let first = first.to_text(object.alloc())?;
            object.set_number("base", *base)?;
            object.set_number("doc", *doc as u64)?;
            object.set_text("name", name.as_str())?;
            object.set_text("project", project.as_str())?;
            object.set_text("text", first.as_str())
        }
        Act::Ticked { ms } => object.set_number("ms", *ms),
        Act::Joined {
            client,
            doc,
            user,
            track,
            since,
            source,
            v,
        } => {
            object.set_number("client", *client as u64)?;
            object.set_number("doc", *doc as u64)?;
            object.set_optional("from", *since)?;
            object.set_number("source", *source)?;
            object.set_bool("track", *track)?;
            object.set_text("user", user.as_str())?;
            object.set_number("v", *v)
        }
        Act::Edited { client, comp } => {
            let op = op_of(object.alloc(), comp)?;
            let op = write_op(object.alloc(), &op)?;
            object.set_number("client", *client as u64)?;
            object.set("op", op)
        }
        Act::Sent { update } => put_update(object, update),
        Act::Malformed { doc, fault } => {
            object.set_number("doc", *doc as u64)?;
            put_fault(object, fault)
        }
        Act::Got { client, brief } => {
            object.set_number("client", *client as u64)?;
            put_brief(object, brief)
        }
        Act::Left { client } => object.set_number("client", *client as u64),
        Act::Acquired { doc, token, until } => {
            put_lock(object, *doc, *token)?;
            object.set_number("until", *until)
        }
        Act::Loaded { doc, token, v } => {
            put_lock_if_any(object, *doc, *token)?;
            object.set_number("v", *v)
        }
        Act::LoadFailed {
            doc,
            token,
            before,
            after,
        } => {
            put_lock_if_any(object, *doc, *token)?;
            put_counts(object, *before, *after)
        }
        Act::LoadDiffers {
            doc,
            token,
            had,
            got,
        } => {
            put_lock_if_any(object, *doc, *token)?;
            object.set_optional("got", *got)?;
            object.set_number("had", *had)
        }
        Act::Committed {
            doc,
            token,
            ticket,
            outcome,
        } => {
            put_lock(object, *doc, *token)?;
            object.set_number("ticket", *ticket)?;
            put_outcome(object, outcome)
        }
        Act::Released { doc, token } => put_lock(object, *doc, *token),
        Act::Flushed { doc, token, v } => {
            put_lock(object, *doc, *token)?;
            object.set_number("v", *v)
        }
        Act::FlushFailed {
            doc,
            token,
            before,
            after,
        } => {
            put_lock(object, *doc, *token)?;
            put_counts(object, *before, *after)
        }
        Act::Unloaded { doc, token } => put_lock(object, *doc, *token),
        Act::Handed { project, .. } => {
            put_items(object, items)?;
            object.set_text("project", project.as_str())
        }
        Act::Declined { session, why } => {
            object.set_number("session", *session as u64)?;
            put_why(object, why)
        }
        Act::Closed { driver } => object.set_number("driver", *driver as u64),
    }
}

fn put_update(object: &mut Object, update: &Update) -> Result<(), AllocError>
    ensures { OnOk result (members_of object.new ≡ with_update update.now (members_of object.old)) }
{
    let op = write_op(object.alloc(), &update.op)?;
    put_optional(object, "client", update.client)?;
    object.set_number("doc", update.doc as u64)?;
    put_numbers(object, "dup", update.dup.as_slice())?;
    object.set_number("ms", update.ms)?;
    object.set_number("number", update.number)?;
    object.set("op", op)?;
    object.set_number("source", update.source)?;
    object.set_bool("track", update.track)?;
    object.set_text("user", update.user.as_str())?;
    object.set_number("v", update.v)
}

fn put_brief(object: &mut Object, brief: &Brief) -> Result<(), AllocError>
    ensures { OnOk result (members_of object.new ≡ with_brief brief.now (members_of object.old)) }
{
    match brief {
        Brief::Op(v) => {
            object.set_text("msg", "op")?;
            object.set_number("v", *v)
        }
        Brief::Ack(v) => {
            object.set_text("msg", "ack")?;
            object.set_number("v", *v)
        }
        Brief::Error(number) => {
            object.set_text("msg", "error")?;
            object.set_number("number", *number)
        }
    }
}

fn put_lock(object: &mut Object, doc: u32, token: u64) -> Result<(), AllocError>
    ensures { OnOk result (members_of object.new ≡ with_lock doc token (members_of object.old)) }
{
    object.set_number("doc", doc as u64)?;
    object.set_number("token", token)
}

fn put_lock_if_any(object: &mut Object, doc: u32, token: Option<u64>) -> Result<(), AllocError>
    ensures { OnOk result (members_of object.new ≡ with_lock_if_any doc token (members_of object.old)) }
{
    object.set_number("doc", doc as u64)?;
    object.set_optional("token", token)
}

fn put_counts(object: &mut Object, before: u64, after: u64) -> Result<(), AllocError>
    ensures { OnOk result (members_of object.new ≡ with_counts before after (members_of object.old)) }
{
    object.set_number("after", after)?;
    object.set_number("before", before)
}

// The operation of one component; an insert or delete of the empty text is dropped.
fn op_of(alloc: Global, comp: &Comp) -> Result<Op, AllocError>
    ensures { IfOk result (λ op. op ≡ appended [] comp.now) }
{
    let mut op = Op::empty(alloc);
    if !comp.is_void() {
        op.push(comp.copy(alloc)?).map_err(|failed| failed.0)?;
    }
    Ok(op)
}
