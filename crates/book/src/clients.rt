//! The calls of a book for clients.

ghost use Rattle.std.specs.Prelude.{◌≡◌, ◌<◌, ◌^◌, ◌+◌, ◌∷◌, [], length, slice_get, true, unwrap_or, IfOk, IfErr, IfSome, OnOk, OnErr, None, Some};
ghost use Rattle.journal_entries.specs.declared.act.Act.TheVariants.{Joined, Edited, Sent, Got, Left};
ghost use Rattle.journal_rules.specs.Documents.{IsMade, version};
ghost use Rattle.journal_rules.specs.Legal.{brief_of, source_at};
ghost use Rattle.journal_rules.specs.Locks.{clock};
ghost use Rattle.journal_rules.specs.Mail.{mail};
ghost use Rattle.journal_rules.specs.Client.{update_from};
ghost use Rattle.turn_rules.specs.Clients.{is_present};
ghost use Rattle.turn_rules.specs.Owning.{MayWriteFor};
ghost use Rattle.share_client.specs.Clients.{again_fault, send_fault, told_send};
ghost use Rattle.share_client.specs.Edits.{IsEdit, IsRefusal, edit_comp, edit_fault, edit_length};
ghost use Rattle.book.specs.Shown.{adds};
ghost use Rattle.book.specs.Roomed.{IsClientAfter, IsClientOf};
ghost use Rattle.book.specs.Calls.{MayNotJoin, MayNotLeave};

use crate::book::{Book, entry_of};
use crate::faults::{By, JoinFault, LeaveFault};
use crate::mail::reserve_waiting;
use crate::room::make_room;
use crate::sender::Sender;
use journal_entries::{Act, Brief, FIRST_SOURCE, Msg};
use journal_rules::ClientState;
use keeper::Keeper;
use mail_places::message_at;
use ot_units::Name;
use share_client::{Edit, EditFault, SendFault, ShareClient};
use std::alloc::AllocError;

impl<K: Keeper> Book<K> {
    /// A client joins a document, from any state: it has the document's text at its version, and
    /// nothing of its own. Its source is its own, by the number of this entry.
    pub fn join(
        &mut self,
        by: By,
        client: &mut ShareClient,
        doc: u32,
        user: &Name,
        track: bool,
    ) -> Result<(), JoinFault>
        requires client { IsClientOf self.old.journal client.old }
        requires owner { MayWriteFor self.old.drivers self.old.journal by.seat client.old.client }
        ensures ok { OnOk result (IsMade doc self.old.journal × (self.new ≡ adds self.old by.seat by.line (Joined client.old.client doc user.now track None (source_at self.old.journal) (version doc self.old.journal) ∷ []))) }
        ensures client { IsClientAfter self.new.journal client.old client.new }
        ensures refused { IfErr result (λ f. MayNotJoin doc self.old.journal f) }
        ensures kept { OnErr result ((self.new ≡ self.old) × (client.new ≡ client.old)) }
    {
        let Some(document) = self.documents.get(doc as usize) else {
            return Err(JoinFault::NoDoc);
        };
        let version = document.window.version();
        let waits = document.waiting.len() as u64;
        let Ok(text) = document.text.copy(self.alloc) else {
            return Err(JoinFault::Memory);
        };
        let (Ok(own), Ok(named)) = (user.copy(self.alloc), user.copy(self.alloc)) else {
            return Err(JoinFault::Memory);
        };
        let Ok(_sum) = make_room(&mut self.journal, self.owed, 1) else {
            return Err(JoinFault::Memory);
        };
        let number = client.client();
        let source = FIRST_SOURCE + self.journal.len();
        let Ok(()) = self.rooms.join_with_room(number, doc, source, waits) else {
            return Err(JoinFault::Memory);
        };
        client.joined(doc, own, track, version, text, source);
        self.journal.push(entry_of(
            by,
            Act::Joined {
                client: number,
                doc,
                user: named,
                track,
                since: None,
                source,
                v: version,
            },
        ));
        Ok(())
    }

    /// A client edits its text. It's refused as [`ShareClient::edit`] refuses it.
    pub fn edit(&mut self, by: By, client: &mut ShareClient, edit: &Edit) -> Result<(), EditFault>
        requires client { IsClientOf self.old.journal client.old }
        requires owner { MayWriteFor self.old.drivers self.old.journal by.seat client.old.client }
        requires edit { IsEdit edit.now }
        ensures ok { OnOk result ((edit_fault client.old.now edit.now ≡ None) × (self.new ≡ adds self.old by.seat by.line (Edited client.old.client (edit_comp client.old.now.text edit.now) ∷ []))) }
        ensures client { IsClientAfter self.new.journal client.old client.new }
        ensures refused { IfErr result (λ f. IsRefusal client.old.now edit.now f) }
        ensures kept { OnErr result ((self.new ≡ self.old) × (client.new ≡ client.old)) }
    {
        if client.state() != ClientState::Joined {
            return Err(EditFault::NotJoined);
        }
        let Ok(_sum) = make_room(&mut self.journal, self.owed, 1) else {
            return Err(EditFault::Memory);
        };
        // No text is so long that the units of what is pending can't be counted.
        let _units = units_of_edit(edit);
        let comp = client.edit(edit)?;
        let client = client.client();
        self.journal
            .push(entry_of(by, Act::Edited { client, comp }));
        Ok(())
    }

    /// A client sends what is pending, and the ticket is answered. It's refused as
    /// [`ShareClient::take_send`] refuses it.
    pub fn send(&mut self, by: By, client: &mut ShareClient) -> Result<u64, SendFault>
        requires client { IsClientOf self.old.journal client.old }
        requires owner { MayWriteFor self.old.drivers self.old.journal by.seat client.old.client }
        ensures ticket { IfOk result (λ t. t ≡ length self.old.journal) }
        ensures ok { OnOk result ((send_fault client.old.now ≡ None)
            × (self.new ≡ adds self.old by.seat by.line (Sent (update_from client.old.client client.old.now (clock self.old.journal) (client.old.now.number + 1) client.old.now.pending []) ∷ []))) }
        ensures client { IsClientAfter self.new.journal client.old client.new }
        ensures refused { IfErr result (λ f. told_send f ≡ send_fault client.old.now) }
        ensures kept { OnErr result ((self.new ≡ self.old) × (client.new ≡ client.old)) }
    {
        if let Some(fault) = refused_send(client) {
            return Err(fault);
        }
        let Ok(sender) = Sender::new(self.alloc, client) else {
            return Err(SendFault::Memory);
        };
        let Ok(sum) = make_room(&mut self.journal, self.owed, 2) else {
            return Err(SendFault::Memory);
        };
        let Ok(()) = reserve_waiting(&mut self.documents, &mut self.rooms, sender.doc) else {
            return Err(SendFault::Memory);
        };
        let ticket = self.journal.len();
        let sent = client.take_send()?;
        self.documents.queue(sender.doc as usize, ticket);
        let update = sender.update(sent, self.moment);
        self.journal.push(entry_of(by, Act::Sent { update }));
        self.owed = sum - 1;
        Ok(ticket)
    }

    /// A client sends what is in flight again, under the same number, and the ticket is answered.
    /// It's refused as [`ShareClient::send_again`] refuses it.
    pub fn resend(&mut self, by: By, client: &mut ShareClient) -> Result<u64, SendFault>
        requires client { IsClientOf self.old.journal client.old }
        requires owner { MayWriteFor self.old.drivers self.old.journal by.seat client.old.client }
        ensures ticket { IfOk result (λ t. t ≡ length self.old.journal) }
        ensures ok { OnOk result ((again_fault client.old.now ≡ None)
            × (self.new ≡ adds self.old by.seat by.line (Sent (update_from client.old.client client.old.now (clock self.old.journal) client.old.now.number (unwrap_or client.old.now.flight []) client.old.now.sources) ∷ []))) }
        ensures client { IsClientAfter self.new.journal client.old client.new }
        ensures refused { IfErr result (λ f. told_send f ≡ again_fault client.old.now) }
        ensures kept { OnErr result ((self.new ≡ self.old) × (client.new ≡ client.old)) }
    {
        if let Some(fault) = refused_resend(client) {
            return Err(fault);
        }
        let Ok(sender) = Sender::new(self.alloc, client) else {
            return Err(SendFault::Memory);
        };
        let Ok(sum) = make_room(&mut self.journal, self.owed, 2) else {
            return Err(SendFault::Memory);
        };
        let Ok(()) = reserve_waiting(&mut self.documents, &mut self.rooms, sender.doc) else {
            return Err(SendFault::Memory);
        };
        let ticket = self.journal.len();
        let sent = client.send_again()?;
        self.documents.queue(sender.doc as usize, ticket);
        let update = sender.update(sent, self.moment);
        self.journal.push(entry_of(by, Act::Sent { update }));
        self.owed = sum - 1;
        Ok(ticket)
    }

    /// A client gets the first message of its mail, which is answered, or `None` where its mail is
    /// empty.
    pub fn receive(&mut self, by: By, client: &mut ShareClient) -> Result<Option<Msg>, AllocError>
        requires client { IsClientOf self.old.journal client.old }
        requires owner { MayWriteFor self.old.drivers self.old.journal by.seat client.old.client }
        ensures first { IfOk result (λ m. m ≡ slice_get (mail client.old.client self.old.journal) 0) }
        ensures got { IfOk result (λ m. IfSome m (λ msg. self.new ≡ adds self.old by.seat by.line (Got client.old.client (brief_of msg) ∷ []))) }
        ensures none { IfOk result (λ m. m ≡ None → (self.new ≡ self.old) × (client.new ≡ client.old)) }
        ensures client { IsClientAfter self.new.journal client.old client.new }
        ensures kept { OnErr result ((self.new ≡ self.old) × (client.new ≡ client.old)) }
    {
        let number = client.client();
        let Some(place) = self.rooms.next(number) else {
            return Ok(None);
        };
        let Some(source) = self.rooms.source(number) else {
            unreachable!()
        };
        let entries = self.journal.as_slice();
        let Some(message) = message_at(self.alloc, entries, source, place)? else {
            unreachable!()
        };
        // No journal is so long that a version could pass 2^64.
        let _length = self.journal.len();
        let _sum = make_room(&mut self.journal, self.owed, 1)?;
        client.on_message(&message)?;
        let _place = self.rooms.pop(number);
        let brief = brief(&message);
        self.journal.push(entry_of(
            by,
            Act::Got {
                client: number,
                brief,
            },
        ));
        Ok(Some(message))
    }

    /// A client leaves its document and the document's room, where it's told of nothing more. A
    /// stale client stays stale.
    pub fn leave(&mut self, by: By, client: &mut ShareClient) -> Result<(), LeaveFault>
        requires client { IsClientOf self.old.journal client.old }
        requires owner { MayWriteFor self.old.drivers self.old.journal by.seat client.old.client }
        ensures ok { OnOk result ((is_present client.old.now.state ≡ true) × (self.new ≡ adds self.old by.seat by.line (Left client.old.client ∷ []))) }
        ensures client { IsClientAfter self.new.journal client.old client.new }
        ensures refused { IfErr result (λ f. MayNotLeave client.old.now.state f) }
        ensures kept { OnErr result ((self.new ≡ self.old) × (client.new ≡ client.old)) }
    {
        if !present(client.state()) {
            return Err(LeaveFault::NotJoined);
        }
        let Ok(_sum) = make_room(&mut self.journal, self.owed, 1) else {
            return Err(LeaveFault::Memory);
        };
        let number = client.client();
        self.rooms.leave(number);
        client.left();
        self.journal
            .push(entry_of(by, Act::Left { client: number }));
        Ok(())
    }
}

// Whether a client is in a room: a stale one is still in its document's.
fn present(state: ClientState) -> bool
    ensures { result ≡ is_present state }
{
    match state {
        ClientState::Joined | ClientState::Stale => true,
        ClientState::Away | ClientState::Left => false,
    }
}

// Why a client has nothing to send, or `None` where it has.
fn refused_send(client: &ShareClient) -> Option<SendFault>
    ensures { result ≡ send_fault client.now.now }
{
    if client.state() != ClientState::Joined {
        return Some(SendFault::NotJoined);
    }
    if client.flight().is_some() {
        return Some(SendFault::InFlight);
    }
    if client.pending().comps().is_empty() {
        return Some(SendFault::Nothing);
    }
    None
}

// Why a client has nothing to send again, or `None` where it has.
fn refused_resend(client: &ShareClient) -> Option<SendFault>
    ensures { result ≡ again_fault client.now.now }
{
    if client.state() != ClientState::Joined {
        return Some(SendFault::NotJoined);
    }
    let Some(flight) = client.flight() else {
        return Some(SendFault::Nothing);
    };
    if flight.comps().is_empty() {
        return Some(SendFault::Nothing);
    }
    None
}

fn units_of_edit(edit: &Edit) -> u64
    ensures value { result ≡ edit_length edit.now }
    ensures small { result < 2 ^ 63 }
{
    match edit {
        Edit::Insert { text, .. } => text.len() as u64,
        Edit::Delete { len, .. } | Edit::Comment { len, .. } => *len as u64,
    }
}

fn brief(message: &Msg) -> Brief
    ensures { result ≡ brief_of message.now }
{
    match message {
        Msg::Op { v, .. } => Brief::Op(*v),
        Msg::Ack { v, .. } => Brief::Ack(*v),
        Msg::Error { number, .. } => Brief::Error(*number),
    }
}
