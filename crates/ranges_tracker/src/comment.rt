//! `Comment`, a comment as it is shown.

ghost use Rattle.std.specs.Prelude.{◌≡◌, IfOk};

use ot_units::Units;
use std::alloc::{AllocError, Global};

/// A comment as it is shown: its thread, and the text that it stands on. The text may be empty.
#[derive(Debug, PartialEq, Eq, Drop)]
pub struct Comment {
    /// The number of the thread.
    pub thread: u32,
    /// The number of the text's UTF-16 code units before it.
    pub at: u32,
    /// The text that it stands on.
    pub text: Units,
}

impl Comment {
    /// A copy of this comment.
    pub fn copy(&self, alloc: Global) -> Result<Comment, AllocError>
        ensures { IfOk result (λ made. made ≡ self.now) }
    {
        Ok(Comment {
            thread: self.thread,
            at: self.at,
            text: self.text.copy(alloc)?,
        })
    }
}

pub(crate) fn copy_comments(alloc: Global, comments: &[Comment]) -> Result<Vec<Comment>, AllocError>
    ensures { IfOk result (λ made. made.items ≡ comments.now) }
{
    let mut made = Vec::new(alloc);
    for c in comments {
        made.push(c.copy(alloc)?)?;
    }
    Ok(made)
}
