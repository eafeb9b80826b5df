//! `Change`, a tracked change as it is shown.

ghost use Rattle.std.specs.Prelude.{◌≡◌, ◌+◌, length, IfOk, nat_le, nat_lt, ◌&&◌};
ghost use Rattle.ranges_tracker.specs.Cells.{same_mark};
ghost use Rattle.ranges_tracker.specs.Shown.{mark_of, meets, same_kind};
ghost use Rattle.ranges_tracker.specs.Tracked.{piece};

use crate::kinds::push_rest;
use crate::mark::Mark;
use ot_units::{Name, Units};
use std::alloc::{AllocError, Global};

/// What a tracked change did.
#[derive(Debug, Clone, Copy, PartialEq, Eq, Drop)]
pub enum ChangeKind {
    /// The text stands in the document.
    Inserted,
    /// The text was taken out.
    Deleted,
}

/// A tracked change as it is shown: a run of units that one mark put in, or the units that one mark
/// took out at one place.
///
/// Its id is its version and the number of its mark. That each change has an id, a user and a moment
/// is Overleaf's document-updater's; how ids are counted is this project's own.
#[derive(Debug, PartialEq, Eq, Drop)]
pub struct Change {
    /// The version at which the update was applied.
    pub version: u64,
    /// The number of its mark among those of the update, from 0.
    pub k: u32,
    /// The number of the text's UTF-16 code units before it.
    pub at: u32,
    /// What was done.
    pub kind: ChangeKind,
    /// The units that were put in or taken out.
    pub text: Units,
    /// Who did it.
    pub user: Name,
    /// When, in milliseconds of the script's clock.
    pub ms: u64,
}

pub(crate) fn same_kind(one: ChangeKind, other: ChangeKind) -> bool
    ensures { result ≡ same_kind one other }
{
    match (one, other) {
        (ChangeKind::Inserted, ChangeKind::Inserted) => true,
        (ChangeKind::Deleted, ChangeKind::Deleted) => true,
        _ => false,
    }
}

impl Change {
    /// A copy of this change.
    pub fn copy(&self, alloc: Global) -> Result<Change, AllocError>
        ensures { IfOk result (λ made. made ≡ self.now) }
    {
        Ok(Change {
            version: self.version,
            k: self.k,
            at: self.at,
            kind: self.kind,
            text: self.text.copy(alloc)?,
            user: self.user.copy(alloc)?,
            ms: self.ms,
        })
    }

    // Whether its mark has this id, user and moment.
    fn is_marked(&self, version: u64, k: u32, user: &Name, ms: u64) -> bool
        ensures { result ≡ same_mark (mark_of self.now) (record { version = version; k = k; user = user.now; ms = ms }) }
    {
        self.version == version
            && (self.k == k && (self.ms == ms && self.user.as_str() == user.as_str()))
    }

    pub(crate) fn has_mark_of(&self, other: &Change) -> bool
        ensures { result ≡ same_mark (mark_of self.now) (mark_of other.now) }
    {
        self.is_marked(other.version, other.k, &other.user, other.ms)
    }

    pub(crate) fn bears(&self, mark: &Mark) -> bool
        ensures { result ≡ same_mark (mark_of self.now) mark.now }
    {
        self.is_marked(mark.version, mark.k, &mark.user, mark.ms)
    }

    pub(crate) fn mark(&self, alloc: Global) -> Result<Mark, AllocError>
        ensures { IfOk result (λ made. made ≡ mark_of self.now) }
    {
        Ok(Mark {
            version: self.version,
            k: self.k,
            user: self.user.copy(alloc)?,
            ms: self.ms,
        })
    }

    // The place behind its text, where that stands.
    pub(crate) fn end(&self) -> usize
        ensures { result ≡ self.now.at + length self.now.text }
    {
        self.at as usize + self.text.len()
    }

    pub(crate) fn reach(&self) -> usize
        ensures { result ≡ Rattle.ranges_tracker.specs.Shown.reach self.now }
    {
        match self.kind {
            ChangeKind::Inserted => self.end(),
            ChangeKind::Deleted => self.at as usize,
        }
    }

    pub(crate) fn covers(&self, i: u32) -> bool
        ensures { result ≡ (nat_le self.now.at i && nat_lt i (self.now.at + length self.now.text)) }
    {
        self.at <= i && (i as usize) < self.end()
    }

    // Whether the other one goes on where this one ends, under the same mark.
    pub(crate) fn meets(&self, other: &Change) -> bool
        ensures { result ≡ meets self.now other.now }
    {
        same_kind(self.kind, other.kind)
            && (self.reach() == other.at as usize && self.has_mark_of(other))
    }
}

// A copy at another place.
pub(crate) fn copy_at(alloc: Global, change: &Change, at: u32) -> Result<Change, AllocError>
    ensures { IfOk result (λ made. made ≡ piece change.now at change.now.text) }
{
    let mut made = change.copy(alloc)?;
    made.at = at;
    Ok(made)
}

pub(crate) fn copy_changes(alloc: Global, changes: &[Change]) -> Result<Vec<Change>, AllocError>
    ensures { IfOk result (λ made. made.items ≡ changes.now) }
{
    let mut made = Vec::new(alloc);
    push_rest(alloc, &mut made, changes)?;
    Ok(made)
}
