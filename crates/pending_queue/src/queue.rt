//! The queue.

ghost use Rattle.std.specs.Prelude.{◌≡◌, ◌+◌, ◌<◌, ◌≤◌, ◌↔◌, ◌++◌, ◌∷◌, [], length, slice_get, IsTrue, IsNone, OnOk, OnErr};
ghost use Rattle.std.specs.Option.{option_copied, option_to_list};

use std::alloc::{AllocError, Global};
use std::collections::VecDeque;
use std::marker::Model;

/// Items in the order in which they came. Contracts see them as a list, and beside it the spare
/// room: how many more items go in without taking memory.
#[derive(Debug, Drop)]
pub struct Queue<T> {
    waiting: VecDeque<T>,
}

impl<T> Model for Queue<T> {
    ghost use Rattle.std.specs.Prelude.{◌-◌};
    ghost use Rattle.std.specs.VecDeque.{deque_len, deque_capacity};
    ghost use Rattle.pending_queue.specs.Pending.{Pending, pending_code};

    ghost Value = { Pending T };

    ghost coded = { pending_code T.code };

    ghost view = { λ queue. record { items = queue.waiting.items; spare = deque_capacity queue.waiting - deque_len queue.waiting } };
}

impl<T: Drop> Queue<T> {
    /// An empty queue. Takes no memory.
    pub fn new(alloc: Global) -> Queue<T>
        ensures { result.items ≡ [] }
    {
        Queue {
            waiting: VecDeque::new(alloc),
        }
    }

    /// How many items wait.
    pub fn len(&self) -> usize
        ensures { result ≡ length self.now.items }
    {
        self.waiting.len()
    }

    /// Whether no item waits.
    pub fn is_empty(&self) -> bool
        ensures { IsTrue result ↔ (self.now.items ≡ []) }
    {
        self.waiting.is_empty()
    }

    /// Makes room for one more item, where there is none. The only error is want of memory.
    pub fn reserve(&mut self) -> Result<(), AllocError>
        ensures items { self.new.items ≡ self.old.items }
        ensures room { OnOk result (0 < self.new.spare) }
        ensures kept { self.old.spare ≤ self.new.spare }
        ensures full { OnErr result (self.old.spare ≡ 0) }
    {
        self.waiting.reserve(1)
    }

    /// Makes room for `n` more items, where there is less. The only error is want of memory.
    pub fn reserve_many(&mut self, n: usize) -> Result<(), AllocError>
        ensures items { self.new.items ≡ self.old.items }
        ensures room { OnOk result (n ≤ self.new.spare) }
        ensures kept { self.old.spare ≤ self.new.spare }
        ensures full { OnErr result (self.old.spare < n) }
    {
        self.waiting.reserve(n)
    }

    /// Puts an item behind the others. Takes no memory: the room was made by [`Queue::reserve`].
    pub fn push(&mut self, item: T)
        requires { 0 < self.old.spare }
        ensures items { self.new.items ≡ self.old.items ++ item ∷ [] }
        ensures spare { self.new.spare + 1 ≡ self.old.spare }
    {
        self.waiting.push_back_reserved(item);
    }

    /// The item that came first of those that wait, or `None` where none does.
    pub fn front(&self) -> Option<&T>
        ensures { option_copied result ≡ slice_get self.now.items 0 }
    {
        self.waiting.front()
    }

    /// Takes the item out that came first, or answers `None` where none waits. The room that it
    /// took is spare then.
    pub fn pop(&mut self) -> Option<T>
        ensures empty { IsNone result ↔ (self.old.items ≡ []) }
        ensures items { self.old.items ≡ option_to_list result ++ self.new.items }
        ensures spare { self.new.spare ≡ self.old.spare + length (option_to_list result) }
    {
        self.waiting.pop_front()
    }

    /// Takes all items out. The room that they took is spare then.
    pub fn clear(&mut self)
        ensures items { self.new.items ≡ [] }
        ensures spare { self.new.spare ≡ self.old.spare + length self.old.items }
    {
        self.waiting.clear();
    }
}
