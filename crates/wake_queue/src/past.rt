//! What can be known of the states that a queue has been in.

use std::marker::Brand;

/// The states that a queue has been in. Code that is generic in it learns of a state by a step on the
/// queue alone, so what it proves of one was so at a moment of the call. A type serves one queue.
pub trait QueuePast {
    ghost use Rattle.std.specs.Prelude.{ℕ, List};
    ghost use Rattle.wake_queue.specs.declared.rule.Done.{Done};

    /// Whether the queue has held these numbers, from its front, while its passes had done this.
    ghost past: { List ℕ → List Done → Type 0 };
}

/// A past with which a queue can begin, and which its passes can go on with.
pub trait Beginning: QueuePast {
    ghost use Rattle.std.specs.Prelude.{ℕ, [], ◌∷◌};
    ghost use Rattle.wake_queue.specs.Wakes.{done, Steps};

    /// It was empty, and its first pass had done nothing.
    ghost first: { Self.past [] (done [] [] 0 ∷ []) };

    /// Each pass can take its steps.
    ghost steps: { (number : ℕ) → Steps Self.past number };
}

/// The past that says nothing, under which programs run.
impl QueuePast for Brand {
    ghost past = { λ items views. Unit {0} };
}

impl Beginning for Brand {
    ghost use Rattle.wake_queue.specs.Wakes.{any};

    ghost first = { tt };

    ghost steps = { any };
}
