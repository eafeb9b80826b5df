//! What a book is read for at the end of a run: its documents as they stand, and who has mail.

ghost use Rattle.std.specs.Prelude.{◌≡◌, ◌↔◌, false, Some, is_some, slice_get};
ghost use Rattle.journal_rules.specs.Documents.{IsMade, name as name_lem, text as text_lem, version as version_lem};
ghost use Rattle.journal_rules.specs.Keeping.{kept as kept_lem};
ghost use Rattle.journal_rules.specs.Mail.{mail};
ghost use Rattle.journal_rules.specs.Tracking.{cells};
ghost use Rattle.ranges_tracker.specs.Shown.{shown};
ghost use Rattle.book.specs.Standing.{IsDocument};

use crate::book::Book;
use crate::document::Document;
use keeper::Keeper;
use ot_text::DocText;
use ot_units::Name;
use ranges_tracker::Ranges;

impl<K: Keeper> Book<K> {
    /// The name of a document.
    pub fn name(&self, doc: u32) -> &Name
        requires { IsMade doc self.now.journal }
        ensures { result.now ≡ name_lem doc self.now.journal }
    {
        let Some(name) = self.documents.name(doc as usize) else {
            unreachable!()
        };
        name
    }

    fn document(&self, doc: u32) -> &Document
        requires { IsMade doc self.now.journal }
        ensures { IsDocument doc result.now self.now.journal }
    {
        let Some(document) = self.documents.get(doc as usize) else {
            unreachable!()
        };
        document
    }

    /// The text of a document at its version.
    pub fn text(&self, doc: u32) -> &DocText
        requires { IsMade doc self.now.journal }
        ensures { text_lem doc self.now.journal ≡ Some result.now }
    {
        &self.document(doc).text
    }

    /// The tracked changes and the comments of a document at its version.
    pub fn ranges(&self, doc: u32) -> &Ranges
        requires { IsMade doc self.now.journal }
        ensures { result.now ≡ shown (cells doc self.now.journal) }
    {
        &self.document(doc).ranges
    }

    /// The version of a document: that at which it was made, and one for each update that was applied.
    pub fn version(&self, doc: u32) -> u64
        requires { IsMade doc self.now.journal }
        ensures { result ≡ version_lem doc self.now.journal }
    {
        self.document(doc).window.version()
    }

    /// The version that was put into the keeper last, or `None` where none ever was.
    pub fn kept(&self, doc: u32) -> Option<u64>
        requires { IsMade doc self.now.journal }
        ensures { result ≡ kept_lem doc self.now.journal }
    {
        self.document(doc).kept
    }

    /// Whether a document's version isn't in the keeper: it was never put there, or at a lower version.
    pub fn needs_flush(&self, doc: u32) -> bool
        requires { IsMade doc self.now.journal }
        ensures { (result ≡ false) ↔ (kept_lem doc self.now.journal ≡ Some (version_lem doc self.now.journal)) }
    {
        self.kept(doc) != Some(self.version(doc))
    }

    /// Whether a client has mail: a message that it was told, and that it didn't get yet.
    pub fn has_mail(&self, client: u32) -> bool
        ensures { result ≡ is_some (slice_get (mail client self.now.journal) 0) }
    {
        self.rooms.next(client).is_some()
    }
}
