//! `OpenText`, a text that operations edit.

ghost use Rattle.std.specs.Prelude.{◌≡◌, ◌≤◌, ◌+◌, ◌^◌, ◌<◌, length, Some, OnOk, OnErr};
ghost use Rattle.ot_units.specs.Text.{IsText, put_at, cut_at};
ghost use Rattle.ot_op.specs.Apply.{stands};
ghost use Rattle.ot_text.specs.Lists.{joined};
ghost use Rattle.ot_text.specs.Texts.{Seen, IsKept};

use crate::Text;
use crate::block::Block;
use crate::edit::{cut_patch, put_units};
use crate::list::replace;
use crate::parts::stands_in;
use crate::patch::BlockPatch;
use ot_op::TextLike;
use std::alloc::AllocError;
use std::marker::Model;

/// A part that was made ready to be removed: what the blocks from number `from` up to `to` become.
#[derive(Debug, Drop)]
pub(crate) struct Cut {
    at: usize,
    len: usize,
    from: usize,
    to: usize,
    new: Vec<Block>,
}

/// A text that is edited. The chunks that its copies share stay as they are: an edit there makes new ones.
#[derive(Debug, Drop)]
pub struct OpenText {
    blocks: Vec<Block>,
    len: usize,
    cut: Option<Cut>,
}

impl Model for OpenText {
    ghost use Rattle.ot_text.specs.Texts.{Seen, seen, IsOpen};

    ghost Value = { Seen };

    ghost view = { seen };

    ghost invariant = { IsOpen };
}

impl OpenText {
    /// The text of these blocks.
    pub(crate) fn of(blocks: Vec<Block>, len: usize) -> OpenText
        requires { IsKept blocks.items len }
        ensures { result.units ≡ joined (joined blocks.items) }
    {
        OpenText {
            blocks,
            len,
            cut: None,
        }
    }

    /// The text as it is now.
    pub fn close(self) -> Text
        ensures { result ≡ self.units }
    {
        let OpenText { blocks, len, .. } = self;
        Text::of(blocks, len)
    }

    /// The number of UTF-16 code units.
    pub fn len(&self) -> usize
        ensures { result ≡ length self.now.units }
    {
        self.len
    }

    /// Whether `other` stands whole in the text, from unit number `at` on.
    pub fn same_at(&self, at: usize, other: &[u16]) -> bool
        ensures { result ≡ stands self.now.units at other.now }
    {
        stands_in(self.blocks.as_slice(), self.len, at, other)
    }

    /// Puts `other` in before unit number `at`. Where memory is wanting, nothing changes. What was made
    /// ready to be removed is so no longer.
    pub fn insert(&mut self, at: usize, other: &[u16]) -> Result<(), AllocError>
        requires in_text { at ≤ length self.old.units }
        requires units { IsText other.now }
        ensures ok { OnOk result (self.new.units ≡ put_at self.old.units at other.now) }
        ensures err { OnErr result (self.new.units ≡ self.old.units) }
    {
        self.cut = None;
        if other.len() > usize::MAX - self.len {
            return Err(AllocError);
        }
        put_units(&mut self.blocks, at, other)?;
        self.len += other.len();
        Ok(())
    }

    /// Makes `len` units from number `at` on ready to be removed. The memory that this needs is taken here.
    pub fn ready(&mut self, at: usize, len: usize) -> Result<(), AllocError>
        requires { at + len ≤ length self.old.units }
        ensures ready { OnOk result (self.new.ready ≡ Some (at, len)) }
        ensures same { self.new.units ≡ self.old.units }
    {
        self.cut = None;
        let BlockPatch { from, to, new } = cut_patch(&mut self.blocks, at, len)?;
        self.cut = Some(Cut {
            at,
            len,
            from,
            to,
            new,
        });
        Ok(())
    }

    /// Takes out the part that was made ready. It takes no memory.
    pub fn remove(&mut self, at: usize, len: usize)
        requires { self.old.ready ≡ Some (at, len) }
        ensures { self.new.units ≡ cut_at self.old.units at len }
    {
        if let Some(cut) = self.cut.take() {
            let Cut {
                from,
                to,
                mut new,
                ..
            } = cut;
            replace(&mut self.blocks, from, to, &mut new);
            self.len -= len;
        }
    }
}

impl TextLike for OpenText {
    ghost text = { λ t. t.units };

    ghost can_remove = { λ t at len. t.ready ≡ Some (at, len) };

    fn len(&self) -> usize {
        self.len()
    }

    fn same_at(&self, at: usize, other: &[u16]) -> bool {
        self.same_at(at, other)
    }

    fn insert(&mut self, at: usize, other: &[u16]) -> Result<(), AllocError> {
        self.insert(at, other)
    }

    fn ready(&mut self, at: usize, len: usize) -> Result<(), AllocError> {
        self.ready(at, len)
    }

    fn remove(&mut self, at: usize, len: usize) {
        self.remove(at, len);
    }
}
