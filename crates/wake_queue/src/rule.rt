//! The rule of the queue, which each step keeps.

use crate::past::QueuePast;
use crossbeam_queue::protocol::{Lesson, Outcome, Protocol, Split};
use std::collections::LinkedList;
use std::marker::{Brand, PhantomData};

/// What a pass has pushed and popped, and how often it found the queue empty. It stands in proofs alone:
/// no value of it is made.
pub struct Done {
    pub pushed: LinkedList<u32>,
    pub popped: LinkedList<u32>,
    pub empties: u64,
}

/// Which pass takes a step.
pub trait PassNumber {
    ghost use Rattle.std.specs.Prelude.{ℕ};

    ghost number: { ℕ };
}

impl PassNumber for Brand {
    ghost number = { 0 };
}

/// First in, first out, each number once, in a state that the queue has been in.
pub struct Ordered<N> {
    marker: PhantomData<N>,
}

impl<N: QueuePast> Protocol<u32, Done> for Ordered<N> {
    ghost use Rattle.std.specs.Prelude.{[]};
    ghost use Rattle.wake_queue.specs.Wakes.{done, Kept};

    ghost holds = { Kept N.past };

    ghost first = { done [] [] 0 };
}

/// A new pass, which has done nothing, beside one that goes on.
pub struct NewPass;

impl Split<Done> for NewPass {
    ghost use Rattle.std.specs.Prelude.{[]};
    ghost use Rattle.wake_queue.specs.Wakes.{done};

    ghost left = { λ v. v };

    ghost right = { λ _. done [] [] 0 };
}

/// The pass has found the queue empty once more.
pub struct Finds;

impl Split<Done> for Finds {
    ghost use Rattle.std.specs.Prelude.{[]};
    ghost use Rattle.wake_queue.specs.Wakes.{done, found};

    ghost left = { found };

    ghost right = { λ _. done [] [] 0 };
}

/// The pass has pushed one number more.
pub struct Puts;

impl Outcome<u32, Done> for Puts {
    ghost use Rattle.std.specs.Prelude.{◌≡◌};
    ghost use Rattle.wake_queue.specs.Wakes.{puts};

    ghost then = { λ v x w. w ≡ puts v x };
}

/// The pass has popped one number more, which was in front; or it has learnt in which state the queue
/// was at a moment.
pub struct Takes<N, W> {
    marker: PhantomData<(N, W)>,
}

impl<N: QueuePast, W: PassNumber> Outcome<u32, Done> for Takes<N, W> {
    ghost use Rattle.std.specs.Prelude.{◌≡◌};
    ghost use Rattle.wake_queue.specs.Wakes.{takes, WasFirst};

    ghost then = { λ v x w. (w ≡ takes v x) × WasFirst N.past W.number v x };
}

impl<N: QueuePast, W: PassNumber> Lesson<u32, Done> for Takes<N, W> {
    ghost use Rattle.wake_queue.specs.Wakes.{Was};

    ghost fact = { Was N.past W.number };
}
