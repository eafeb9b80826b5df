//! How a client that left comes back.

ghost use Rattle.std.specs.Prelude.{◌≡◌, ◌+◌, ◌-◌, ◌<◌, ◌^◌, true, length, All, IfOk, OnOk, OnErr};
ghost use Rattle.journal_rules.specs.declared.state.ClientState.TheVariants as state;
ghost use Rattle.journal_rules.specs.Client as rules;
ghost use Rattle.journal_sizes.specs.Sizes.{IsAtEase, IsSized};
ghost use Rattle.share_client.specs.Returning.{with_all, with_missed};

use crate::ShareClient;
use journal_rules::ClientState;
use ot_op::Op;
use ot_units::Name;
use std::alloc::{AllocError, Global};

/// An operation that was applied to a client's document while the client was away from it.
#[derive(Debug, Drop)]
pub struct Missed {
    /// The source under which its update was sent.
    pub source: u64,
    /// The operation.
    pub op: Op,
}

impl ShareClient {
    /// Comes back to its document under a new source. `past` are the operations that were applied
    /// from its version on, the oldest first: each is delivered as [`ShareClient::on_message`]
    /// delivers an operation at its version, and so one that was sent under a source of its flight
    /// ends the flight. It's joined then, unless a delivery made it stale. The only error is want of
    /// memory, and nothing has changed then.
    pub fn caught_up(&mut self, past: &[Missed], source: u64) -> Result<(), AllocError>
        requires left { self.old.now.state ≡ state.Left }
        requires sized { All (λ m. IsSized m.op) past.now }
        requires low { self.old.now.version + length past.now < 2 ^ 64 }
        ensures ok { OnOk result (self.new ≡ record self.old { now = rules.back_under source (with_all self.old.now past.now) }) }
        ensures kept { OnErr result (self.new ≡ self.old) }
    {
        let mut next = self.copy()?;
        for missed in past {
            next.on_missed(missed)?;
        }
        next.back_under(source);
        *self = next;
        Ok(())
    }

    fn copy(&self) -> Result<ShareClient, AllocError>
        ensures same { IfOk result (λ made. made ≡ self.now) }
        ensures own { IfOk result (λ made. IsAtEase made.now) }
    {
        Ok(ShareClient {
            client: self.client,
            state: self.state,
            doc: self.doc,
            user: copied_user(self.alloc, &self.user)?,
            track: self.track,
            source: self.source,
            version: self.version,
            text: self.text.copy(self.alloc)?,
            flight: copied_flight(self.alloc, &self.flight)?,
            pending: self.pending.copy(self.alloc)?,
            number: self.number,
            sources: self.sources.copy()?,
            alloc: self.alloc,
        })
    }

    // An operation of its document at its version.
    fn on_missed(&mut self, missed: &Missed) -> Result<(), AllocError>
        requires op { IsSized missed.now.op }
        requires low { rules.is_alive self.old.now.state ≡ true → self.old.now.version < 2 ^ 64 - 1 }
        ensures { OnOk result (self.new ≡ record self.old { now = with_missed self.old.now missed.now }) }
    {
        if !self.is_alive() {
            return Ok(());
        }
        self.on_op(self.version, &missed.op, missed.source)
    }

    fn back_under(&mut self, source: u64)
        ensures { self.new ≡ record self.old { now = rules.back_under source self.old.now } }
    {
        if self.is_alive() {
            self.state = ClientState::Joined;
            self.source = source;
        }
    }
}

fn copied_user(alloc: Global, user: &Option<Name>) -> Result<Option<Name>, AllocError>
    ensures { IfOk result (λ made. made ≡ user.now) }
{
    match user {
        Some(user) => Ok(Some(user.copy(alloc)?)),
        None => Ok(None),
    }
}

fn copied_flight(alloc: Global, flight: &Option<Op>) -> Result<Option<Op>, AllocError>
    ensures { IfOk result (λ made. made ≡ flight.now) }
{
    match flight {
        Some(op) => Ok(Some(op.copy(alloc)?)),
        None => Ok(None),
    }
}
