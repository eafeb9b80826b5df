//! Why a line of a script did nothing.

use expiring_lock::{Busy, Stale};

/// Why a line of a script did nothing. Versions count the operations that were applied, and lengths
/// UTF-16 code units.
#[derive(Clone, Copy, Debug, PartialEq, Eq, Drop)]
pub enum Why {
    /// It names a document that wasn't made.
    NoDoc,
    /// It names a project of which no document was made.
    NoProject,
    /// The session's client isn't joined.
    NotJoined,
    /// The session's client hasn't left.
    NotLeft,
    /// The session's client left too long ago: its document is at version `have`, and no longer
    /// tells what came behind the client's version.
    TooOld { have: u64 },
    /// The edit reaches past the end of the client's text, which is so long.
    PastEnd { len: u64 },
    /// The client's pending operation would become too large: so many components and units.
    Full { comps: u64, units: u64 },
    /// The client's last operation is still in flight.
    InFlight,
    /// There is nothing to send, or nothing to finish.
    Nothing,
    /// Nothing waits for the document, or the client's mail is empty.
    Empty,
    /// The document's lock is held.
    Busy(Busy),
    /// The document isn't in the cache.
    Uncached,
    /// The session already keeps an update that it prepared.
    Holding,
    /// The lock's token no longer stands.
    Stale(Stale),
    /// The document's last version, `have`, hasn't been flushed; the last that was is `kept`.
    Unflushed { kept: Option<u64>, have: u64 },
    /// So many updates wait for the document.
    Waiting { count: u64 },
    /// The keeper failed.
    StoreFault,
}
