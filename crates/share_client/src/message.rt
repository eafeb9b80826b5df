//! What a message makes of a client.

ghost use Rattle.std.specs.Prelude.{◌≡◌, ◌<◌, ◌+◌, ◌-◌, ◌^◌, ◌&&◌, true, length, nat_lt, IfSome, OnOk, OnErr, option_map};
ghost use Rattle.ot_op.specs.Operation.{place};
ghost use Rattle.journal_entries.specs.declared.update.Cause.{Cause};
ghost use Rattle.journal_entries.specs.declared.message.Msg.TheVariants as msg;
ghost use Rattle.journal_rules.specs.Documents.{is_in};
ghost use Rattle.journal_rules.specs.Client as rules;
ghost use Rattle.journal_sizes.specs.Sizes.{IsSized, IsSizedMsg};
ghost use Rattle.share_client.specs.Bounds.{IsBoundedIfAlive};
ghost use Rattle.share_client.specs.Shifts.{shift_of};

use crate::ShareClient;
use crate::shift::{Shift, shifted};
use journal_entries::{MAX_CLIENT_UNITS, Msg, Sources};
use journal_rules::ClientState;
use ot_op::{Comp, MAX_PLACE, Op};
use ot_text::DocText;
use std::alloc::AllocError;

fn place_of(comp: &Comp) -> u32
    ensures { result ≡ place comp.now }
{
    match comp {
        Comp::Ins(at, _) | Comp::Del(at, _) | Comp::Com(at, _, _) => *at,
    }
}

pub(crate) fn do_places_fit(op: &Op) -> bool
    ensures { result ≡ rules.places_fit op.now }
{
    op.comps().iter().all(|comp| place_of(comp) <= MAX_PLACE)
}

fn does_flight_fit(flight: &Option<Op>) -> bool
    ensures { result ≡ rules.flight_fits flight.now }
{
    match flight {
        Some(op) => do_places_fit(op),
        None => true,
    }
}

fn is_too_long(text: &DocText) -> bool
    ensures { result ≡ nat_lt rules.longest_text (length text.now) }
{
    text.len() > MAX_CLIENT_UNITS
}

impl ShareClient {
    /// Delivers a message of the client's mail, after ShareJS 0.5's client:
    ///
    /// - an operation at its version that was sent under a source of its flight, or an `Ack` at its
    ///   version, ends the flight;
    /// - an operation of another at its version is moved past flight and pending, and applied;
    /// - a refusal of what is in flight makes it stale, for good until it joins anew. So does an
    ///   operation that can't be moved past its own or doesn't apply, which no journal of a book
    ///   brings, and a text of more than 4,194,304 units.
    ///
    /// Any other message changes nothing, nor does any where the client is away or stale. The only
    /// error is want of memory, and nothing has changed then.
    pub fn on_message(&mut self, msg: &Msg) -> Result<(), AllocError>
        requires sized { rules.is_alive self.old.now.state ≡ true → IsSizedMsg msg.now }
        ensures ok { OnOk result (self.new ≡ record self.old { now = rules.delivered self.old.now msg.now }) }
        ensures kept { OnErr result (self.new ≡ self.old) }
    {
        if !self.is_alive() {
            return Ok(());
        }
        match msg {
            Msg::Op { v, op, source } => self.on_op(*v, op, *source),
            Msg::Ack { v, .. } => {
                self.on_ack(*v);
                Ok(())
            }
            Msg::Error { number, .. } => {
                self.on_error(*number);
                Ok(())
            }
        }
    }

    pub(crate) fn is_alive(&self) -> bool
        ensures { result ≡ rules.is_alive self.now.now.state }
    {
        matches!(self.state, ClientState::Joined | ClientState::Left)
    }

    // The flight ends.
    fn land(&mut self)
        requires alive { rules.is_alive self.old.now.state ≡ true }
        requires low { self.old.now.version < 2 ^ 64 - 1 }
        ensures { self.new ≡ record self.old { now = rules.landed self.old.now } }
    {
        self.flight = None;
        self.sources = Sources::new(self.alloc);
        self.version += 1;
        if is_too_long(&self.text) {
            self.state = ClientState::Stale;
        }
    }

    fn shift_to(&mut self, shift: Option<Shift>)
        requires alive { rules.is_alive self.old.now.state ≡ true }
        requires low { self.old.now.version < 2 ^ 64 - 1 }
        requires bounded { IsBoundedIfAlive (rules.shifted_to self.old.now (option_map shift_of shift)) }
        ensures { self.new ≡ record self.old { now = rules.shifted_to self.old.now (option_map shift_of shift) } }
    {
        match shift {
            Some(shift) if does_flight_fit(&shift.flight) && do_places_fit(&shift.pending) => {
                if is_too_long(&shift.text) {
                    self.state = ClientState::Stale;
                }
                self.flight = shift.flight;
                self.pending = shift.pending;
                self.text = shift.text;
                self.version += 1;
            }
            _ => self.state = ClientState::Stale,
        }
    }

    fn is_own(&self, source: u64) -> bool
        ensures { result ≡ (rules.has_flight self.now.now.flight && is_in source self.now.now.sources) }
    {
        self.flight.is_some() && self.sources.as_slice().contains(&source)
    }

    pub(crate) fn on_op(&mut self, v: u64, op: &Op, source: u64) -> Result<(), AllocError>
        requires alive { rules.is_alive self.old.now.state ≡ true }
        requires op { IsSized op.now }
        requires low { v < 2 ^ 64 - 1 }
        ensures ok { OnOk result (self.new ≡ record self.old { now = rules.given_op self.old.now v op.now source }) }
        ensures kept { OnErr result (self.new ≡ self.old) }
    {
        if v != self.version {
            return Ok(());
        }
        if self.is_own(source) {
            self.land();
            return Ok(());
        }
        let shift = shifted(self.alloc, &self.flight, &self.pending, &self.text, op)?;
        self.shift_to(shift);
        Ok(())
    }

    fn on_ack(&mut self, v: u64)
        requires alive { rules.is_alive self.old.now.state ≡ true }
        requires low { v < 2 ^ 64 - 1 }
        ensures { self.new ≡ record self.old { now = rules.given self.old.now (msg.Ack v 0) } }
    {
        if v == self.version && self.flight.is_some() {
            self.land();
        }
    }

    fn on_error(&mut self, number: u64)
        requires alive { rules.is_alive self.old.now.state ≡ true }
        ensures { (cause : Cause) → self.new ≡ record self.old { now = rules.given self.old.now (msg.Error number cause) } }
    {
        if self.flight.is_some() && number == self.number {
            self.state = ClientState::Stale;
        }
    }
}
