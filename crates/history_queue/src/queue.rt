//! The items of a project that were not handed out yet.

ghost use Rattle.std.specs.Prelude.{◌≡◌, ◌+◌, ◌<◌, ◌≤◌, ◌++◌, ◌∷◌, [], length, take, drop, IfOk, OnOk, OnErr};
ghost use Rattle.std.specs.VecDeque.{deque_capacity};

use crate::Item;
use std::alloc::{AllocError, Global};
use std::collections::VecDeque;
use std::marker::Model;

/// Items in the order in which they were applied. Contracts see them as a list, and beside it the spare
/// room: how many more go in without taking memory.
#[derive(Debug, Drop)]
pub struct HistoryQueue {
    items: VecDeque<Item>,
}

impl Model for HistoryQueue {
    ghost use Rattle.std.specs.Prelude.{◌-◌};
    ghost use Rattle.std.specs.VecDeque.{deque_len, deque_capacity};
    ghost use Rattle.history_queue.specs.History.{History};

    ghost Value = { History };

    ghost view = { λ queue. record { items = queue.items.items; spare = deque_capacity queue.items - deque_len queue.items } };
}

impl HistoryQueue {
    /// No items. Takes no memory.
    pub fn new(alloc: Global) -> HistoryQueue
        ensures { result.items ≡ [] }
    {
        HistoryQueue {
            items: VecDeque::new(alloc),
        }
    }

    /// How many items there are.
    pub fn len(&self) -> u64
        ensures { result ≡ length self.now.items }
    {
        self.items.len() as u64
    }

    /// Makes room for one more item, where there is none. The only error is want of memory.
    pub fn reserve(&mut self) -> Result<(), AllocError>
        ensures items { self.new.items ≡ self.old.items }
        ensures room { OnOk result (0 < self.new.spare) }
        ensures kept { self.old.spare ≤ self.new.spare }
        ensures full { OnErr result (self.old.spare ≡ 0) }
    {
        self.items.reserve(1)
    }

    /// Puts an item behind the others. Takes no memory: the room was made by
    /// [`HistoryQueue::reserve`].
    pub fn push(&mut self, item: Item)
        requires { 0 < self.old.spare }
        ensures items { self.new.items ≡ self.old.items ++ item ∷ [] }
        ensures spare { self.new.spare + 1 ≡ self.old.spare }
    {
        self.items.push_back_reserved(item);
    }

    /// Takes the first items out, `n` of them, or all where there are fewer. The room that they took is
    /// spare then. Where memory is wanting, all stay.
    #[tactic(auto, using(std::proofs::lemmas::List::take_min, std::proofs::lemmas::List::drop_min))]
    pub fn take(&mut self, n: u64) -> Result<Vec<Item>, AllocError>
        ensures taken { IfOk result (λ taken. taken.items ≡ take n self.old.items) }
        ensures rest { OnOk result (self.new.items ≡ drop n self.old.items) }
        ensures spare { self.new.spare + length self.new.items ≡ self.old.spare + length self.old.items }
        ensures err { OnErr result (self.new ≡ self.old) }
    {
        let alloc = *self.items.allocator();
        let count = n.min(self.len()) as usize;
        take_front(alloc, &mut self.items, count)
    }
}

/// Takes the first `count` items out.
fn take_front(
    alloc: Global,
    items: &mut VecDeque<Item>,
    count: usize,
) -> Result<Vec<Item>, AllocError>
    requires { count ≤ length items.old.items }
    ensures taken { IfOk result (λ taken. taken.items ≡ take count items.old.items) }
    ensures rest { OnOk result (items.new.items ≡ drop count items.old.items) }
    ensures capacity { deque_capacity items.new ≡ deque_capacity items.old }
    ensures err { OnErr result (items.new ≡ items.old) }
{
    let mut taken = Vec::with_capacity(alloc, count)?;
    'taking: while taken.len() < count {
        let Some(item) = items.pop_front() else {
            unreachable!()
        };
        taken.push_reserved(item);
    }
    Ok(taken)
}
