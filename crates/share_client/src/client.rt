//! `ShareClient`, a client with its state.

ghost use Rattle.std.specs.Prelude.{◌≡◌, ◌≤◌, length, option_map};
ghost use Rattle.std.specs.Option.{option_copied};
ghost use Rattle.journal_rules.specs.Client.{away, joined_anew, left_by};
ghost use Rattle.share_client.specs.Clients.{unless_away};
ghost use Rattle.journal_entries.specs.declared.limits.TheConstants.{MAX_CLIENT_UNITS};

use journal_entries::Sources;
use journal_rules::ClientState;
use ot_op::Op;
use ot_text::DocText;
use ot_units::Name;
use std::alloc::Global;
use std::marker::Model;

/// A client of a document: its document's text at a version, with its own operations on top of it.
/// One of them is in flight, under a number and the sources that it was sent under; what was edited
/// since is pending behind it, as one operation.
///
/// Contracts see its number and, beside it, the client of the journal's rules.
#[derive(Drop)]
pub struct ShareClient {
    pub(crate) client: u32,
    pub(crate) state: ClientState,
    pub(crate) doc: u32,
    /// None before it joins.
    pub(crate) user: Option<Name>,
    pub(crate) track: bool,
    pub(crate) source: u64,
    pub(crate) version: u64,
    pub(crate) text: DocText,
    pub(crate) flight: Option<Op>,
    pub(crate) pending: Op,
    pub(crate) number: u64,
    pub(crate) sources: Sources,
    pub(crate) alloc: Global,
}

impl Model for ShareClient {
    ghost use Rattle.journal_rules.specs.Client.{user_in};
    ghost use Rattle.share_client.specs.Bounds.{IsKept};
    ghost use Rattle.share_client.specs.Clients.{Numbered};

    ghost Value = { Numbered };

    ghost view = { λ s. record { client = s.client; now = record { state = s.state; doc = s.doc; user = user_in s.user; track = s.track; source = s.source; version = s.version; text = s.text; flight = s.flight; pending = s.pending; number = s.number; sources = s.sources } } };

    ghost invariant = { λ s. IsKept s.user (record { state = s.state; doc = s.doc; user = user_in s.user; track = s.track; source = s.source; version = s.version; text = s.text; flight = s.flight; pending = s.pending; number = s.number; sources = s.sources }) };
}

impl ShareClient {
    /// A client that never joined. Takes no memory.
    pub fn new(alloc: Global, client: u32) -> ShareClient
        ensures { result ≡ record { client = client; now = away } }
    {
        ShareClient {
            client,
            state: ClientState::Away,
            doc: 0,
            user: None,
            track: false,
            source: 0,
            version: 0,
            text: DocText::new(alloc),
            flight: None,
            pending: Op::empty(alloc),
            number: 0,
            sources: Sources::new(alloc),
            alloc,
        }
    }

    /// Its number.
    pub fn client(&self) -> u32
        ensures { result ≡ self.now.client }
    {
        self.client
    }

    /// Where it stands with its document.
    pub fn state(&self) -> ClientState
        ensures { result ≡ self.now.now.state }
    {
        self.state
    }

    /// The version that its text has under its own operations.
    pub fn version(&self) -> u64
        ensures { result ≡ self.now.now.version }
    {
        self.version
    }

    /// Its document's number, or `None` where it never joined one.
    pub fn doc(&self) -> Option<u32>
        ensures { result ≡ unless_away self.now.now.state self.now.now.doc }
    {
        match self.state {
            ClientState::Away => None,
            _ => Some(self.doc),
        }
    }

    /// Its user, or `None` where it never joined a document.
    pub fn user(&self) -> Option<&Name>
        ensures { option_copied result ≡ unless_away self.now.now.state self.now.now.user }
    {
        self.user.as_ref()
    }

    /// Whether its changes are tracked, or `None` where it never joined a document.
    pub fn track(&self) -> Option<bool>
        ensures { result ≡ unless_away self.now.now.state self.now.now.track }
    {
        match self.state {
            ClientState::Away => None,
            _ => Some(self.track),
        }
    }

    /// The source that it joined under last, or `None` where it never joined a document.
    pub fn source(&self) -> Option<u64>
        ensures { result ≡ unless_away self.now.now.state self.now.now.source }
    {
        match self.state {
            ClientState::Away => None,
            _ => Some(self.source),
        }
    }

    /// Its text: the document's at its version, with its own operations on top. Once it is stale the
    /// text means nothing.
    pub fn text(&self) -> &DocText
        ensures { result.now ≡ self.now.now.text }
    {
        &self.text
    }

    /// Its operation in flight, or `None` where nothing is.
    pub fn flight(&self) -> Option<&Op>
        ensures { option_copied result ≡ self.now.now.flight }
    {
        self.flight.as_ref()
    }

    /// The number that it sent under last, 0 before the first.
    pub fn last_number(&self) -> u64
        ensures { result ≡ self.now.now.number }
    {
        self.number
    }

    /// What was edited since the last sending.
    pub fn pending(&self) -> &Op
        ensures { result.now ≡ self.now.now.pending }
    {
        &self.pending
    }

    /// Joins a document, with its text at a version, under a source: nothing is in flight then and
    /// nothing pending. Its numbers go on.
    pub fn joined(
        &mut self,
        doc: u32,
        user: Name,
        track: bool,
        version: u64,
        text: DocText,
        source: u64,
    )
        requires { length text ≤ MAX_CLIENT_UNITS }
        ensures { self.new ≡ record self.old { now = joined_anew self.old.now doc user track source version text } }
    {
        self.state = ClientState::Joined;
        self.doc = doc;
        self.user = Some(user);
        self.track = track;
        self.source = source;
        self.version = version;
        self.text = text;
        self.flight = None;
        self.pending = Op::empty(self.alloc);
        self.sources = Sources::new(self.alloc);
    }

    /// Leaves its document, and keeps what it has. A stale client stays stale.
    pub fn left(&mut self)
        ensures { self.new ≡ record self.old { now = left_by self.old.now } }
    {
        if let ClientState::Joined | ClientState::Left = self.state {
            self.state = ClientState::Left;
        }
    }
}
