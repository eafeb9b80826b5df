//! One client in a room.

ghost use Rattle.std.specs.Prelude.{◌≡◌, ◌+◌, ◌<◌, ◌≤◌, OnOk};
ghost use Rattle.rooms.specs.Rooms.{IsRenewed, IsRoomier, posted_in, seen};

use pending_queue::Queue;
use std::alloc::AllocError;

/// A client that is in a document's room, under a source, and the places of the journal that it is
/// still to be told of.
#[derive(Drop)]
pub(crate) struct Member {
    pub(crate) client: u32,
    pub(crate) doc: u32,
    pub(crate) source: u64,
    pub(crate) outbox: Queue<u64>,
}

impl Member {
    /// Makes room for `n` more places where it is in this document's room.
    pub(crate) fn reserve_in(&mut self, doc: u32, n: u64) -> Result<(), AllocError>
        ensures client { self.new.client ≡ self.old.client }
        ensures roomier { IsRoomier (seen self.old) (seen self.new) }
        ensures room { OnOk result (self.old.doc ≡ doc → n ≤ self.new.outbox.spare) }
    {
        if self.doc != doc {
            return Ok(());
        }
        self.outbox.reserve_many(n as usize)
    }

    /// Puts a place into the outbox where it is in this document's room.
    pub(crate) fn post_in(&mut self, doc: u32, at: u64)
        requires { self.old.doc ≡ doc → 1 ≤ self.old.outbox.spare }
        ensures client { self.new.client ≡ self.old.client }
        ensures posted { seen self.new ≡ posted_in doc at (seen self.old) }
    {
        if self.doc == doc {
            self.outbox.push(at);
        }
    }
    /// Goes on under another source, with an empty outbox.
    pub(crate) fn renew(&mut self, source: u64)
        ensures client { self.new.client ≡ self.old.client }
        ensures renewed { IsRenewed source (seen self.old) (seen self.new) }
    {
        self.source = source;
        self.outbox.clear();
    }
}
