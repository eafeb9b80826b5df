//! A document as it stands: its text, its ranges, what was applied last, its lock, and the updates that wait.

ghost use Rattle.std.specs.Prelude.{◌≡◌, ◌<◌, ◌≤◌, ◌^◌, ◌-◌, ◌+◌, ◌++◌, ◌∷◌, length, IfOk, IfErr, OnOk, OnErr, Some, true};
ghost use Rattle.expiring_lock.specs.declared.lock.TheConstants.{LOCK_LIFE};
ghost use Rattle.dup_check.specs.declared.snapshot.Snapshot.{Snapshot};
ghost use Rattle.journal_rules.specs.Legal.{clock_end};
ghost use Rattle.book.specs.Standing.{IsNew};
ghost use Rattle.dup_check.specs.Snapshot.{outcome_of};
ghost use Rattle.book.specs.Looking.{IsLook, IsSettled, op_of};

use crate::faults::{KeptLook, Prepared};
use dup_check::{Decision, Past, Snapshot, Window};
use expiring_lock::Lock;
use journal_entries::{Outcome, Update};
use ot_op::Op;
use ot_text::DocText;
use pending_queue::Queue;
use ranges_tracker::Ranges;
use std::alloc::{AllocError, Global};

/// A document as it stands.
#[derive(Drop)]
pub(crate) struct Document {
    pub text: DocText,
    pub ranges: Ranges,
    pub window: Window,
    /// The tickets of the updates that wait, the first sent first.
    pub waiting: Queue<u64>,
    pub lock: Lock,
    /// The version that was put into the keeper last.
    pub kept: Option<u64>,
}

/// Under which token a look is made, and at which length of the journal.
#[derive(Clone, Copy)]
pub(crate) struct Taking {
    pub seat: u32,
    pub token: u64,
    pub doc: u32,
    pub ticket: u64,
    pub at: u64,
}

impl Document {
    /// A document that was just made.
    pub(crate) fn new(alloc: Global, text: DocText, version: u64) -> Result<Document, AllocError>
        ensures { IfOk result (λ made. IsNew made text version) }
    {
        Ok(Document {
            text,
            ranges: Ranges::none(alloc),
            window: Window::new(alloc, version)?,
            waiting: Queue::new(alloc),
            lock: Lock::new(),
            kept: None,
        })
    }

    /// What a decision on an update looks at.
    pub(crate) fn look(
        &self,
        alloc: Global,
        taking: Taking,
        update: &Update,
    ) -> Result<Snapshot, AllocError>
        ensures look { IfOk result (λ look. IsLook self.now update.now look) }
        ensures taking { IfOk result (λ (look : Snapshot). (look.seat ≡ taking.seat) × (look.token ≡ taking.token) × (look.doc ≡ taking.doc) × (look.ticket ≡ taking.ticket) × (look.at ≡ taking.at)) }
    {
        let past = self.window.since(alloc, update.v)?;
        Ok(Snapshot {
            seat: taking.seat,
            token: taking.token,
            doc: taking.doc,
            ticket: taking.ticket,
            version: self.window.version(),
            base: self.window.base(),
            text: self.text.copy(alloc)?,
            ranges: self.ranges.copy(alloc)?,
            past: past.unwrap_or(Vec::new(alloc)),
            update: update.copy(alloc)?,
            at: taking.at,
        })
    }

    /// The document as it is to be put into the keeper.
    pub(crate) fn kept_look(
        &self,
        alloc: Global,
        doc: u32,
        token: u64,
    ) -> Result<KeptLook, AllocError>
        ensures { IfOk result (λ look. look ≡ record { token = token; doc = doc; version = self.now.window.version; text = self.now.text; ranges = self.now.ranges }) }
    {
        Ok(KeptLook {
            token,
            doc,
            version: self.window.version(),
            text: self.text.copy(alloc)?,
            ranges: self.ranges.copy(alloc)?,
        })
    }

    /// The first update that waits is settled by what was decided on it. `op` is the operation that
    /// is applied, for the window.
    pub(crate) fn settle(&mut self, prepared: Prepared, op: Op) -> Outcome
        requires waits { 0 < length self.old.waiting.items }
        requires low { self.old.window.version < 2 ^ 64 - 1 }
        requires copied { op ≡ op_of prepared.decision }
        ensures outcome { result ≡ outcome_of prepared.look.version prepared.decision }
        ensures settled { IsSettled prepared.look prepared.decision self.old self.new }
    {
        let _ticket = self.waiting.pop();
        let Prepared { look, decision } = prepared;
        match decision {
            Decision::Apply {
                op: applied,
                text,
                ranges,
            } => {
                self.text = text;
                self.ranges = ranges;
                self.window.push(Past {
                    source: look.update.source,
                    op,
                });
                Outcome::Applied {
                    v: look.version,
                    op: applied,
                }
            }
            Decision::Dup(v) => Outcome::Dup { v },
            Decision::Refuse(cause) => Outcome::Refused(cause),
        }
    }
}
