//! What a message makes of a client.

ghost use Rattle.std.specs.Prelude.{◌≡◌, ◌&&◌, ◌+◌, ◌-◌, ◌^◌, ◌<◌, ◌≤◌, true, IfOk, All, length, map, option_map, IfSome};
ghost use Rattle.journal_entries.specs.declared.message.Msg.TheVariants as told;
ghost use Rattle.journal_rules.specs.Documents.{is_in};
ghost use Rattle.journal_rules.specs.Client as rules;
ghost use Rattle.plain_journal.specs.Answers.{client_as, item_as, shift_as};
ghost use Rattle.journal_sizes.specs.Sizes.{AreSized, IsAtEase, IsSized, IsSizedMsg};
ghost use Rattle.plain_journal.specs.Crossing.{AreLight, IsLow};

use crate::allowed_updates::place_of;
use crate::clients::Client;
use crate::crossing::{Shift, shifted};
use crate::documents::Item;
use journal_entries::{MAX_CLIENT_UNITS, Msg, Sources};
use journal_rules::ClientState;
use ot_op::{MAX_PLACE, Op};
use std::alloc::{AllocError, Global};

fn stale(client: Client) -> Client
    ensures { client_as result ≡ rules.stale (client_as client) }
{
    Client {
        state: ClientState::Stale,
        ..client
    }
}

// A client is stale where its text is too long.
fn bounded(client: Client) -> Client
    ensures { client_as result ≡ rules.bounded (client_as client) }
{
    if client.text.len() > MAX_CLIENT_UNITS {
        stale(client)
    } else {
        client
    }
}

// The flight ends.
fn landed(alloc: Global, client: Client) -> Client
    requires { client.version < 2 ^ 64 - 1 }
    ensures { client_as result ≡ rules.landed (client_as client) }
{
    bounded(Client {
        flight: None,
        sources: Sources::new(alloc),
        version: client.version + 1,
        ..client
    })
}

fn do_places_fit(op: &Op) -> bool
    ensures { result ≡ rules.places_fit op.now }
{
    op.comps().iter().all(|comp| place_of(comp) <= MAX_PLACE)
}

fn does_flight_fit(flight: &Option<Op>) -> bool
    ensures { result ≡ rules.flight_fits flight.now }
{
    match flight {
        Some(op) => do_places_fit(op),
        None => true,
    }
}

fn shifted_to(client: Client, shift: Option<Shift>) -> Client
    requires { client.version < 2 ^ 64 - 1 }
    ensures { client_as result ≡ rules.shifted_to (client_as client) (option_map shift_as shift) }
{
    match shift {
        Some(shift) if does_flight_fit(&shift.flight) && do_places_fit(&shift.pending) => {
            bounded(Client {
                flight: shift.flight,
                pending: shift.pending,
                text: shift.text,
                version: client.version + 1,
                ..client
            })
        }
        _ => stale(client),
    }
}

fn is_own(client: &Client, source: u64) -> bool
    ensures { result ≡ (rules.has_flight client.now.flight && is_in source client.now.sources) }
{
    client.flight.is_some() && client.sources.as_slice().contains(&source)
}

// An operation at the client's version: its own, which was in flight, or another's.
fn given_op(
    alloc: Global,
    client: Client,
    v: u64,
    op: &Op,
    source: u64,
) -> Result<Client, AllocError>
    requires low { client.version < 2 ^ 64 - 1 }
    requires own { AreSized client.flight client.pending }
    requires op { IsSized op.now }
    ensures value { IfOk result (λ next. client_as next ≡ rules.given_op (client_as client) v op.now source) }
    ensures ease { IfOk result (λ next. IsAtEase (client_as next)) }
    ensures step { IfOk result (λ next. next.version ≤ client.version + 1) }
{
    if v != client.version {
        return Ok(client);
    }
    if is_own(&client, source) {
        return Ok(landed(alloc, client));
    }
    let shift = shifted(alloc, &client.flight, &client.pending, &client.text, op)?;
    Ok(shifted_to(client, shift))
}

/// An operation is delivered to a client.
pub(crate) fn delivered_op(
    alloc: Global,
    client: Client,
    v: u64,
    op: &Op,
    source: u64,
) -> Result<Client, AllocError>
    requires low { IsLow client.state client.version }
    requires own { IsAtEase (client_as client) }
    requires op { IsSized op.now }
    ensures value { IfOk result (λ next. client_as next ≡ rules.delivered (client_as client) (told.Op v op.now source)) }
    ensures ease { IfOk result (λ next. IsAtEase (client_as next)) }
    ensures step { IfOk result (λ next. next.version ≤ client.version + 1) }
{
    if is_alive(client.state) {
        given_op(alloc, client, v, op, source)
    } else {
        Ok(client)
    }
}

pub(crate) fn is_alive(state: ClientState) -> bool
    ensures { result ≡ rules.is_alive state }
{
    matches!(state, ClientState::Joined | ClientState::Left)
}

/// A message is delivered to a client.
pub(crate) fn delivered(alloc: Global, client: Client, msg: &Msg) -> Result<Client, AllocError>
    requires low { IsLow client.state client.version }
    requires own { IsAtEase (client_as client) }
    requires msg { rules.is_alive client.state ≡ true → IsSizedMsg msg.now }
    ensures { IfOk result (λ next. client_as next ≡ rules.delivered (client_as client) msg.now) }
{
    if !is_alive(client.state) {
        return Ok(client);
    }
    match msg {
        Msg::Op { v, op, source } => given_op(alloc, client, *v, op, *source),
        Msg::Ack { v, .. } => {
            if *v == client.version && client.flight.is_some() {
                Ok(landed(alloc, client))
            } else {
                Ok(client)
            }
        }
        Msg::Error { number, .. } => {
            if client.flight.is_some() && *number == client.number {
                Ok(stale(client))
            } else {
                Ok(client)
            }
        }
    }
}

/// Operations are delivered in turn.
pub(crate) fn caught_up(
    alloc: Global,
    client: Client,
    items: &[Item<'_>],
) -> Result<Client, AllocError>
    requires low { client.version + length items.now < 2 ^ 64 }
    requires own { IsAtEase (client_as client) }
    requires items { All (λ x. IsSized x.op.now) items.now }
    ensures { IfOk result (λ next. client_as next ≡ rules.caught_up (client_as client) (map item_as items.now)) }
{
    let mut now = client;
    for item in items {
        now = delivered_op(alloc, now, item.v, item.op, item.update.source)?;
    }
    Ok(now)
}
