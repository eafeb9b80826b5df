//! As who a client sends.

ghost use Rattle.std.specs.Prelude.{◌≡◌, IfOk, Some};
ghost use Rattle.journal_rules.specs.declared.state.ClientState.TheVariants.{Joined};

use journal_entries::Update;
use ot_units::Name;
use share_client::{Outgoing, ShareClient};
use std::alloc::{AllocError, Global};

/// As who a client sends: its number, its document, its user, whether its changes are tracked, and
/// the source that it joined under.
#[derive(Drop)]
pub(crate) struct Sender {
    pub(crate) client: u32,
    pub(crate) doc: u32,
    pub(crate) user: Name,
    pub(crate) track: bool,
    pub(crate) source: u64,
}

impl Sender {
    /// A client that is joined. The only error is want of memory.
    pub(crate) fn new(alloc: Global, client: &ShareClient) -> Result<Sender, AllocError>
        requires { client.now.now.state ≡ Joined }
        ensures { IfOk result (λ s. s ≡ record { client = client.now.client; doc = client.now.now.doc; user = client.now.now.user; track = client.now.now.track; source = client.now.now.source }) }
    {
        let (Some(doc), Some(user)) = (client.doc(), client.user()) else {
            unreachable!()
        };
        let (Some(track), Some(source)) = (client.track(), client.source()) else {
            unreachable!()
        };
        Ok(Sender {
            client: client.client(),
            doc,
            user: user.copy(alloc)?,
            track,
            source,
        })
    }

    /// The update of what it sends, at a moment in milliseconds of the script.
    pub(crate) fn update(self, sent: Outgoing, ms: u64) -> Update
        ensures { result ≡ record { doc = self.doc; client = Some self.client; number = sent.number; source = self.source; dup = sent.dup; user = self.user; track = self.track; ms = ms; v = sent.v; op = sent.op } }
    {
        Update {
            doc: self.doc,
            client: Some(self.client),
            number: sent.number,
            source: self.source,
            dup: sent.dup,
            user: self.user,
            track: self.track,
            ms,
            v: sent.v,
            op: sent.op,
        }
    }
}
