//! Copies of updates and entries, with memory of their own.

ghost use Rattle.std.specs.Prelude.{◌≡◌, IfOk};

use crate::act::{Act, Entry};
use crate::update::{Outcome, Update};
use std::alloc::{AllocError, Global};

impl Update {
    /// A copy with memory of its own. The only error is want of memory.
    pub fn copy(&self, alloc: Global) -> Result<Update, AllocError>
        ensures { IfOk result (λ made. made ≡ self.now) }
    {
        Ok(Update {
            doc: self.doc,
            client: self.client,
            number: self.number,
            source: self.source,
            dup: self.dup.copy()?,
            user: self.user.copy(alloc)?,
            track: self.track,
            ms: self.ms,
            v: self.v,
            op: self.op.copy(alloc)?,
        })
    }
}

impl Outcome {
    /// A copy with memory of its own. The only error is want of memory.
    pub fn copy(&self, alloc: Global) -> Result<Outcome, AllocError>
        ensures { IfOk result (λ made. made ≡ self.now) }
    {
        match self {
            Outcome::Applied { v, op } => Ok(Outcome::Applied {
                v: *v,
                op: op.copy(alloc)?,
            }),
            Outcome::Dup { v } => Ok(Outcome::Dup { v: *v }),
            Outcome::Refused(cause) => Ok(Outcome::Refused(*cause)),
        }
    }
}

impl Entry {
    /// A copy with memory of its own. The only error is want of memory.
    pub fn copy(&self, alloc: Global) -> Result<Entry, AllocError>
        ensures { IfOk result (λ made. made ≡ self.now) }
    {
        Ok(Entry {
            seat: self.seat,
            line: self.line,
            act: self.act.copy(alloc)?,
        })
    }
}

impl Act {
    /// A copy with memory of its own. The only error is want of memory.
    pub fn copy(&self, alloc: Global) -> Result<Act, AllocError>
        ensures { IfOk result (λ made. made ≡ self.now) }
    {
        match self {
            Act::Made {
                doc,
                name,
                project,
                first,
                base,
            } => Ok(Act::Made {
                doc: *doc,
                name: name.copy(alloc)?,
                project: project.copy(alloc)?,
                first: first.copy(alloc)?,
                base: *base,
            }),
            Act::Ticked { ms } => Ok(Act::Ticked { ms: *ms }),
            Act::Joined {
                client,
                doc,
                user,
                track,
                since,
                source,
                v,
            } => Ok(Act::Joined {
                client: *client,
                doc: *doc,
                user: user.copy(alloc)?,
                track: *track,
                since: *since,
                source: *source,
                v: *v,
            }),
            Act::Edited { client, comp } => Ok(Act::Edited {
                client: *client,
                comp: comp.copy(alloc)?,
            }),
            Act::Sent { update } => Ok(Act::Sent {
                update: update.copy(alloc)?,
            }),
            Act::Malformed { doc, fault } => Ok(Act::Malformed {
                doc: *doc,
                fault: *fault,
            }),
            Act::Got { client, brief } => Ok(Act::Got {
                client: *client,
                brief: *brief,
            }),
            Act::Left { client } => Ok(Act::Left { client: *client }),
            Act::Acquired { doc, token, until } => Ok(Act::Acquired {
                doc: *doc,
                token: *token,
                until: *until,
            }),
            Act::Loaded { doc, token, v } => Ok(Act::Loaded {
                doc: *doc,
                token: *token,
                v: *v,
            }),
            Act::LoadFailed {
                doc,
                token,
                before,
                after,
            } => Ok(Act::LoadFailed {
                doc: *doc,
                token: *token,
                before: *before,
                after: *after,
            }),
            Act::LoadDiffers {
                doc,
                token,
                had,
                got,
            } => Ok(Act::LoadDiffers {
                doc: *doc,
                token: *token,
                had: *had,
                got: *got,
            }),
            Act::Committed {
                doc,
                token,
                ticket,
                outcome,
            } => Ok(Act::Committed {
                doc: *doc,
                token: *token,
                ticket: *ticket,
                outcome: outcome.copy(alloc)?,
            }),
            Act::Released { doc, token } => Ok(Act::Released {
                doc: *doc,
                token: *token,
            }),
            Act::Flushed { doc, token, v } => Ok(Act::Flushed {
                doc: *doc,
                token: *token,
                v: *v,
            }),
            Act::FlushFailed {
                doc,
                token,
                before,
                after,
            } => Ok(Act::FlushFailed {
                doc: *doc,
                token: *token,
                before: *before,
                after: *after,
            }),
            Act::Unloaded { doc, token } => Ok(Act::Unloaded {
                doc: *doc,
                token: *token,
            }),
            Act::Handed { project, count } => Ok(Act::Handed {
                project: project.copy(alloc)?,
                count: *count,
            }),
            Act::Declined { session, why } => Ok(Act::Declined {
                session: *session,
                why: *why,
            }),
            Act::Closed { driver } => Ok(Act::Closed { driver: *driver }),
        }
    }
}
