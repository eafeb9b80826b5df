//! `Ranges`, the tracked changes and the comments of a document.

ghost use Rattle.std.specs.Prelude.{◌≡◌, [], IfOk};

use crate::change::copy_changes;
use crate::comment::copy_comments;
use crate::{Change, Comment};
use std::alloc::{AllocError, Global};
use std::marker::Model;

/// The tracked changes and the comments of a document, as they are shown: the changes by their
/// places, at one place deletes before inserts, and the comments in the order in which their threads
/// were first set. The order is this project's own.
#[derive(Debug, Drop)]
pub struct Ranges {
    changes: Vec<Change>,
    comments: Vec<Comment>,
}

impl Model for Ranges {
    ghost use Rattle.std.specs.Prelude.{List};
    ghost use Rattle.ranges_tracker.specs.declared.change.Change.{Change};
    ghost use Rattle.ranges_tracker.specs.declared.comment.Comment.{Comment};

    ghost Value = { List Change × List Comment };

    ghost view = { λ s. (s.changes.items, s.comments.items) };
}

impl Ranges {
    /// No change and no comment.
    pub fn none(alloc: Global) -> Ranges
        ensures { result ≡ ([], []) }
    {
        Ranges {
            changes: Vec::new(alloc),
            comments: Vec::new(alloc),
        }
    }

    /// These changes and these comments, as they are.
    pub fn of(changes: Vec<Change>, comments: Vec<Comment>) -> Ranges
        ensures { result ≡ (changes.items, comments.items) }
    {
        Ranges { changes, comments }
    }

    /// The changes, in order.
    pub fn changes(&self) -> &[Change]
        ensures { result.now ≡ self.now.0 }
    {
        self.changes.as_slice()
    }

    /// The comments, in order.
    pub fn comments(&self) -> &[Comment]
        ensures { result.now ≡ self.now.1 }
    {
        self.comments.as_slice()
    }

    /// A copy of these ranges.
    pub fn copy(&self, alloc: Global) -> Result<Ranges, AllocError>
        ensures { IfOk result (λ made. made ≡ self.now) }
    {
        let changes = copy_changes(alloc, self.changes())?;
        let comments = copy_comments(alloc, self.comments())?;
        Ok(Ranges::of(changes, comments))
    }
}
