//! Which journals are legal.

ghost use Rattle.std.specs.Prelude.{◌↔◌, IsTrue, IfOk};
ghost use Rattle.journal_rules.specs.Legal as rules;

use crate::allowed_clients::{is_edit, is_getting, is_join, is_sending, may_leave};
use crate::allowed_documents::{
    is_differing_load, is_failing_flush, is_failing_load, is_flushing, is_loading, is_making,
    is_unloading,
};
use crate::allowed_history::is_handing;
use crate::allowed_locks::{is_acquiring, is_closed, may_tick};
use crate::allowed_updates::is_committing;
use crate::declined::is_why;
use crate::documents::is_made;
use crate::locks::holds;
use journal_entries::{Act, Entry};
use std::alloc::{AllocError, Global};

/// Whether a seat's act is allowed by the entries before it, which are legal. The only error is want
/// of memory.
pub fn is_allowed(alloc: Global, before: &[Entry], seat: u32, act: &Act) -> Result<bool, AllocError>
    requires { rules.IsLegal before.now }
    ensures { IfOk result (λ b. IsTrue b ↔ rules.IsAllowed before.now seat act.now) }
{
    match act {
        Act::Made {
            doc,
            name,
            first,
            base,
            ..
        } => Ok(is_making(before, *doc, name, first, *base)),
        Act::Ticked { ms } => Ok(may_tick(before, *ms)),
        Act::Joined {
            client,
            doc,
            user,
            track,
            since,
            source,
            v,
        } => is_join(
            alloc, before, *client, *doc, user, *track, *since, *source, *v,
        ),
        Act::Edited { client, comp } => is_edit(alloc, before, *client, comp),
        Act::Sent { update } => is_sending(alloc, before, update),
        Act::Malformed { doc, .. } => Ok(is_made(before, *doc)),
        Act::Got { client, brief } => is_getting(alloc, before, *client, *brief),
        Act::Left { client } => may_leave(alloc, before, *client),
        Act::Acquired { doc, token, until } => Ok(is_acquiring(before, *doc, *token, *until)),
        Act::Loaded { doc, token, v } => is_loading(alloc, before, seat, *doc, *token, *v),
        Act::LoadFailed {
            doc,
            token,
            before: from,
            after,
        } => Ok(is_failing_load(before, seat, *doc, *token, *from, *after)),
        Act::LoadDiffers {
            doc,
            token,
            had,
            got,
        } => is_differing_load(alloc, before, seat, *doc, *token, *had, *got),
        Act::Committed {
            doc,
            token,
            ticket,
            outcome,
        } => is_committing(alloc, before, seat, *doc, *token, *ticket, outcome),
        Act::Released { doc, token } => Ok(holds(before, seat, *doc, *token)),
        Act::Flushed { doc, token, v } => is_flushing(alloc, before, seat, *doc, *token, *v),
        Act::FlushFailed {
            doc,
            token,
            before: from,
            after,
        } => Ok(is_failing_flush(before, seat, *doc, *token, *from, *after)),
        Act::Unloaded { doc, token } => is_unloading(alloc, before, seat, *doc, *token),
        Act::Handed { project, count } => is_handing(alloc, before, project, *count),
        Act::Declined { session, why } => is_why(alloc, before, seat, *session, *why),
        Act::Closed { driver } => Ok(!is_closed(before, *driver)),
    }
}

/// Whether a journal is legal: each entry is allowed by those before it. The only error is want of
/// memory.
pub fn is_legal(alloc: Global, journal: &[Entry]) -> Result<bool, AllocError>
    ensures { IfOk result (λ b. IsTrue b ↔ rules.IsLegal journal.now) }
{
    for (n, entry) in journal.iter().enumerate() {
        if !is_allowed(alloc, &journal[..n], entry.seat, &entry.act)? {
            return Ok(false);
        }
    }
    Ok(true)
}
