//! `Project`, with its history.

ghost use Rattle.std.specs.Prelude.{◌≡◌, ◌<◌, ◌+◌, ◌^◌, length, take, IfOk, OnOk, OnErr};
ghost use Rattle.project_histories.specs.Histories.{HandsOut, HasItem, IsNew, IsRoomier};

use history_queue::{HistoryQueue, Item};
use ot_units::Name;
use std::alloc::{AllocError, Global};

/// A project, with the items of its history that were not handed out.
#[derive(Drop)]
pub(crate) struct Project {
    pub(crate) name: Name,
    pub(crate) queue: HistoryQueue,
    /// How many items were handed out.
    pub(crate) handed: u64,
}

impl Project {
    /// A project without a history. Takes no memory.
    pub(crate) fn new(alloc: Global, name: Name) -> Project
        ensures { IsNew name result }
    {
        Project {
            name,
            queue: HistoryQueue::new(alloc),
            handed: 0,
        }
    }

    /// Makes room for one item more. The only error is want of memory.
    pub(crate) fn reserve(&mut self) -> Result<(), AllocError>
        ensures same { IsRoomier self.old self.new }
        ensures room { OnOk result (0 < self.new.queue.spare) }
    {
        self.queue.reserve()
    }

    /// Puts an item behind the others, in room that was made.
    pub(crate) fn push(&mut self, item: Item)
        requires { 0 < self.old.queue.spare }
        ensures { HasItem item self.old self.new }
    {
        self.queue.push(item);
    }

    /// Hands the first items out, `n` of them, or all where there are fewer. Where memory is wanting,
    /// all stay.
    pub(crate) fn take(&mut self, n: u64) -> Result<Vec<Item>, AllocError>
        requires { self.old.handed + length self.old.queue.items < 2 ^ 64 }
        ensures taken { IfOk result (λ taken. taken.items ≡ take n self.old.queue.items) }
        ensures rest { OnOk result (HandsOut n self.old self.new) }
        ensures kept { OnErr result (self.new ≡ self.old) }
    {
        let taken = self.queue.take(n)?;
        self.handed += taken.len() as u64;
        Ok(taken)
    }
}
