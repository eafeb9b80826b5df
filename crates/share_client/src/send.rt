//! What a client sends.

ghost use Rattle.std.specs.Prelude.{◌≡◌, ◌+◌, ◌-◌, ◌<◌, ◌^◌, [], ◌∷◌, None, Some, IfErr, IfOk, OnOk, OnErr};
ghost use Rattle.journal_rules.specs.Client.{added as added_lem, sent_by};
ghost use Rattle.journal_sizes.specs.Sizes.{IsSized};
ghost use Rattle.share_client.specs.Clients.{again_fault, send_fault, told_send};

use crate::ShareClient;
use journal_entries::Sources;
use journal_rules::ClientState;
use ot_op::Op;
use std::alloc::{AllocError, Global};
use std::mem::replace;

/// An operation that a client sends.
#[derive(Debug, Drop)]
pub struct Outgoing {
    /// Its number, counting from 1.
    pub number: u64,
    /// The version that it is for.
    pub v: u64,
    /// The operation.
    pub op: Op,
    /// The sources that it was sent under before.
    pub dup: Sources,
}

/// Why nothing was sent.
#[derive(Clone, Copy, Debug, PartialEq, Eq)]
pub enum SendFault {
    /// The client isn't joined.
    NotJoined,
    /// An operation is in flight.
    InFlight,
    /// There is nothing to send.
    Nothing,
    /// There wasn't enough memory.
    Memory,
}

impl ShareClient {
    /// Sends what is pending: it's in flight then, under the next number. It's refused, the first that
    /// holds, with [`SendFault::NotJoined`] where the client isn't joined, with [`SendFault::InFlight`]
    /// where something is in flight, and with [`SendFault::Nothing`] where nothing is pending. A
    /// refusal changes nothing.
    pub fn take_send(&mut self) -> Result<Outgoing, SendFault>
        ensures ok { IfOk result (λ out. (send_fault self.old.now ≡ None) × (out ≡ record { number = self.old.now.number + 1; v = self.old.now.version; op = self.old.now.pending; dup = [] }) × (self.new ≡ record self.old { now = sent_by self.old.now None })) }
        ensures sized { IfOk result (λ out. IsSized out.op) }
        ensures refused { IfErr result (λ fault. told_send fault ≡ send_fault self.old.now) }
        ensures kept { OnErr result (self.new ≡ self.old) }
    {
        if self.state != ClientState::Joined {
            return Err(SendFault::NotJoined);
        }
        if self.flight.is_some() {
            return Err(SendFault::InFlight);
        }
        if self.pending.comps().is_empty() {
            return Err(SendFault::Nothing);
        }
        let Ok(op) = self.pending.copy(self.alloc) else {
            return Err(SendFault::Memory);
        };
        let Ok(sources) = only(self.alloc, self.source) else {
            return Err(SendFault::Memory);
        };
        // More numbers than there are were never sent.
        let Some(number) = self.number.checked_add(1) else {
            return Err(SendFault::Memory);
        };
        let pending = replace(&mut self.pending, Op::empty(self.alloc));
        self.flight = Some(pending);
        self.number = number;
        self.sources = sources;
        Ok(Outgoing {
            number: self.number,
            v: self.version,
            op,
            dup: Sources::new(self.alloc),
        })
    }

    /// Sends what is in flight again, as it is now, with the sources that it was sent under. It's
    /// refused, the first that holds, with [`SendFault::NotJoined`] where the client isn't joined, and
    /// with [`SendFault::Nothing`] where nothing is in flight or it has no component left. A refusal
    /// changes nothing.
    pub fn send_again(&mut self) -> Result<Outgoing, SendFault>
        ensures ok { IfOk result (λ out. (again_fault self.old.now ≡ None) × (Some out.op ≡ self.old.now.flight) × (out.number ≡ self.old.now.number) × (out.v ≡ self.old.now.version) × (out.dup ≡ self.old.now.sources) × (self.new ≡ record self.old { now = sent_by self.old.now self.old.now.flight })) }
        ensures sized { IfOk result (λ out. IsSized out.op) }
        ensures refused { IfErr result (λ fault. told_send fault ≡ again_fault self.old.now) }
        ensures kept { OnErr result (self.new ≡ self.old) }
    {
        if self.state != ClientState::Joined {
            return Err(SendFault::NotJoined);
        }
        let Some(flight) = &self.flight else {
            return Err(SendFault::Nothing);
        };
        if flight.comps().is_empty() {
            return Err(SendFault::Nothing);
        }
        let Ok(op) = flight.copy(self.alloc) else {
            return Err(SendFault::Memory);
        };
        let Ok(dup) = self.sources.copy() else {
            return Err(SendFault::Memory);
        };
        let Ok(sources) = added(&self.sources, self.source) else {
            return Err(SendFault::Memory);
        };
        self.sources = sources;
        Ok(Outgoing {
            number: self.number,
            v: self.version,
            op,
            dup,
        })
    }
}

fn only(alloc: Global, source: u64) -> Result<Sources, AllocError>
    ensures { IfOk result (λ made. made ≡ source ∷ []) }
{
    let mut made = Sources::new(alloc);
    made.push(source)?;
    Ok(made)
}

fn added(sources: &Sources, source: u64) -> Result<Sources, AllocError>
    ensures { IfOk result (λ made. made ≡ added_lem sources.now source) }
{
    let mut made = sources.copy()?;
    if !made.as_slice().contains(&source) {
        made.push(source)?;
    }
    Ok(made)
}
