//! What the steps of a pass do not give.

ghost use Rattle.std.specs.Prelude.{ℕ};
ghost use Rattle.wake_queue.specs.declared.rule.Done.{Done};
ghost use Rattle.wake_queue.specs.Unseen.{NeverEmpty};

/// Whatever a pass has done, its queue may have held anything and not have been empty since, for all
/// that the pass can know by its steps. So no body of [`WakeQueue::pop`](crate::WakeQueue::pop) can
/// answer `None` in a call that hasn't seen the queue empty.
pub fn empty_must_be_seen()
    ensures { (number : ℕ) (v : Done) → NeverEmpty number v }
{}
