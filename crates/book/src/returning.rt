//! A client that left comes back.

ghost use Rattle.std.specs.Prelude.{◌≡◌, ◌∷◌, [], IfOk, IfErr, OnOk, OnErr};
ghost use Rattle.turn_rules.specs.Clients.{back_act};
ghost use Rattle.turn_rules.specs.Owning.{MayWriteFor};
ghost use Rattle.book.specs.Calls.{MayNotRejoin, MayReturn};
ghost use Rattle.book.specs.Passing.{missed_by};
ghost use Rattle.book.specs.Roomed.{IsClientAfter, IsClientOf};
ghost use Rattle.book.specs.Shown.{adds};

use crate::book::{Book, entry_of};
use crate::faults::{By, JoinFault};
use crate::room::make_room;
use dup_check::Window;
use journal_entries::{Act, FIRST_SOURCE, MAX_AGE};
use journal_rules::ClientState;
use keeper::Keeper;
use share_client::{Missed, ShareClient};
use std::alloc::{AllocError, Global};

impl<K: Keeper> Book<K> {
    /// A client that left comes back to its document: what was applied since is delivered to it, and
    /// its flight and what is pending go on. Its source is a new one, by the number of this entry.
    /// It's refused, the first that holds, with [`JoinFault::NotLeft`] where it hasn't left, and with
    /// [`JoinFault::TooOld`] where its version is more than 100 below the document's.
    pub fn rejoin(&mut self, by: By, client: &mut ShareClient) -> Result<(), JoinFault>
        requires client { IsClientOf self.old.journal client.old }
        requires owner { MayWriteFor self.old.drivers self.old.journal by.seat client.old.client }
        ensures ok { OnOk result (MayReturn client.old.now self.old.journal × (self.new ≡ adds self.old by.seat by.line (back_act client.old.client client.old.now self.old.journal ∷ []))) }
        ensures client { IsClientAfter self.new.journal client.old client.new }
        ensures refused { IfErr result (λ f. MayNotRejoin client.old.now self.old.journal f) }
        ensures kept { OnErr result ((self.new ≡ self.old) × (client.new ≡ client.old)) }
    {
        if client.state() != ClientState::Left {
            return Err(JoinFault::NotLeft);
        }
        let (Some(doc), Some(user), Some(track)) = (client.doc(), client.user(), client.track())
        else {
            unreachable!()
        };
        let Some(document) = self.documents.get(doc as usize) else {
            unreachable!()
        };
        let (since, version) = (client.version(), document.window.version());
        if version - since > MAX_AGE {
            return Err(JoinFault::TooOld { have: version });
        }
        let waits = document.waiting.len() as u64;
        let missed = missed_since(self.alloc, &document.window, since);
        let (Ok(missed), Ok(user)) = (missed, user.copy(self.alloc)) else {
            return Err(JoinFault::Memory);
        };
        let Ok(_sum) = make_room(&mut self.journal, self.owed, 1) else {
            return Err(JoinFault::Memory);
        };
        let number = client.client();
        let source = FIRST_SOURCE + self.journal.len();
        let Ok(()) = self.rooms.join_with_room(number, doc, source, waits) else {
            return Err(JoinFault::Memory);
        };
        let Ok(()) = client.caught_up(&missed, source) else {
            self.rooms.leave(number);
            return Err(JoinFault::Memory);
        };
        self.journal.push(entry_of(
            by,
            Act::Joined {
                client: number,
                doc,
                user,
                track,
                since: Some(since),
                source,
                v: version,
            },
        ));
        Ok(())
    }
}

// The operations that a window has from a version on, none where it doesn't reach back to it.
fn missed_since(alloc: Global, window: &Window, v: u64) -> Result<Vec<Missed>, AllocError>
    ensures { IfOk result (λ missed. missed.items ≡ missed_by window.now v) }
{
    let past = window.since(alloc, v)?.unwrap_or(Vec::new(alloc));
    past.into_iter()
        .map(|past| Missed {
            source: past.source,
            op: past.op,
        })
        .collect(alloc)
}
