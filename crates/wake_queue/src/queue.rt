//! The queue and its passes.

ghost use Rattle.std.specs.Prelude.{◌≡◌, ◌+◌, [], ◌∷◌, ◌++◌, IfOk, IfSome, IfNone, MatchOption, MatchResult};
ghost use Rattle.crossbeam_queue.specs.SegTies.{IsSegPassOf};
ghost use Rattle.wake_queue.specs.Wakes.{fresh, takes, Was, WasEmpty, Steps, WasFirst, HadFirst};

use crate::past::{Beginning, QueuePast};
use crate::rule::{Done, Finds, NewPass, Ordered, PassNumber, Puts, Takes};
use crossbeam_queue::{RuledSegQueue, SegPass};
use std::alloc::{AllocError, Global};
use std::marker::{Brand, Model, PhantomData};
use std::sync::Wait;

type Inner<N> = RuledSegQueue<u32, Done, Ordered<N>, Global>;

type InnerPass = SegPass<u32, Done, Global>;

/// Numbers of documents that want a worker, first in, first out. Contracts see which queue it is.
pub struct WakeQueue<N: QueuePast> {
    queue: Inner<N>,
}

impl<N: QueuePast> Model for WakeQueue<N> {
    ghost use Rattle.crossbeam_queue.specs.SegTies.{SegId, seg_id_coded};
    ghost use Rattle.std.specs.declared.alloc.Global.{Global};

    ghost Value = { SegId Global };

    ghost view = { λ q. q.queue };
}

/// What one thread uses a queue by. Contracts see its queue and its number, what it pushed and popped,
/// and how many of its steps found the queue empty.
#[derive(Drop)]
pub struct WakePass<N: QueuePast> {
    pass: InnerPass,
    marker: PhantomData<N>,
}

impl<N: QueuePast> Model for WakePass<N> {
    ghost use Rattle.std.specs.Prelude.{◌≡◌, None};
    ghost use Rattle.wake_queue.specs.Wakes.{Pass, Steps};
    ghost use Rattle.wake_queue.specs.Passing.{IsFree};

    ghost Value = { Pass };

    ghost view = { λ p. record { queue = record { web = p.pass.web; heap = p.pass.heap }; number = p.pass.id; pushed = p.pass.me.view.client.pushed; popped = p.pass.me.view.client.popped; empties = p.pass.me.view.client.empties } };

    ghost invariant = { λ p. IsFree p.pass × Steps N.past p.pass.id };
}

impl<N: QueuePast> WakeQueue<N> {
    /// An empty queue, and its first pass.
    pub fn new<R: Wait>(rt: &R, alloc: Global) -> Result<(WakeQueue<N>, WakePass<N>), AllocError>
    where
        N: Beginning,
        ensures { IfOk result (λ q. q.1 ≡ fresh q.0 q.1.number) }
    {
        let _ = rt;
        let (queue, pass) = RuledSegQueue::with_rule(alloc)?;
        Ok((
            WakeQueue { queue },
            WakePass {
                pass,
                marker: PhantomData,
            },
        ))
    }

    /// A pass more, which has done nothing.
    #[tactic(auto, using(crate::proofs::Turns::twins))]
    pub fn pass<R: Wait>(&self, rt: &R, pass: &mut WakePass<N>) -> Result<WakePass<N>, AllocError>
    where
        N: Beginning,
        requires { pass.old.queue ≡ self.now }
        ensures same { pass.new ≡ pass.old }
        ensures new { IfOk result (λ p. p ≡ fresh self.now p.number) }
    {
        let _ = rt;
        let other = self.queue.another::<NewPass>(&mut pass.pass);
        Ok(WakePass {
            pass: other,
            marker: PhantomData,
        })
    }

    /// Puts a document's number behind the others. For want of memory it is handed back, and nothing has
    /// changed.
    pub fn push<R: Wait>(&self, rt: &R, pass: &mut WakePass<N>, doc: u32) -> Result<(), u32>
        requires { pass.old.queue ≡ self.now }
        ensures same { (pass.new.queue ≡ pass.old.queue) × (pass.new.number ≡ pass.old.number) × (pass.new.popped ≡ pass.old.popped) × (pass.new.empties ≡ pass.old.empties) }
        ensures pushed { MatchResult result (λ _. pass.new.pushed ≡ pass.old.pushed ++ doc ∷ []) (λ d. (d ≡ doc) × (pass.new.pushed ≡ pass.old.pushed)) }
    {
        self.queue.push_as::<Puts, R>(rt, &mut pass.pass, doc)
    }

    /// Takes the number in front. `None` only where the queue was empty at a moment of this call: then
    /// the pass's count has gone up.
    #[tactic(auto, using(crate::proofs::Turns::finds))]
    pub fn pop<R: Wait>(&self, rt: &R, pass: &mut WakePass<N>) -> Option<u32>
        requires { pass.old.queue ≡ self.now }
        ensures same { (pass.new.queue ≡ pass.old.queue) × (pass.new.number ≡ pass.old.number) × (pass.new.pushed ≡ pass.old.pushed) }
        ensures popped { MatchOption result (pass.new.popped ≡ pass.old.popped) (λ doc. pass.new.popped ≡ pass.old.popped ++ doc ∷ []) }
        ensures none { IfNone result ((pass.new.empties ≡ pass.old.empties + 1) × WasEmpty N.past pass.old) }
        ensures some { IfSome result (λ doc. (pass.new.empties ≡ pass.old.empties) × HadFirst N.past pass.old doc) }
    {
        match pop_as_number::<N, Brand, R>(rt, &self.queue, &mut pass.pass) {
            Some(doc) => Some(doc),
            None => {
                let _ = self.queue.another::<Finds>(&mut pass.pass);
                None
            }
        }
    }
}

/// A pop by the pass of this number, which at `None` has seen the queue empty.
#[tactic(auto, using(crate::proofs::Turns::popping, crate::proofs::Turns::learns))]
fn pop_as_number<N: QueuePast, W: PassNumber, R: Wait>(
    rt: &R,
    queue: &Inner<N>,
    pass: &mut InnerPass,
) -> Option<u32>
    requires seat { IsSegPassOf queue.now pass.old × (pass.old.id ≡ W.number) }
    requires steps { Steps N.past pass.old.id }
    ensures seat { IsSegPassOf queue.now pass.new × (pass.new.id ≡ pass.old.id) }
    ensures popped { MatchOption result ((pass.new.me.view.client ≡ pass.old.me.view.client) × Was N.past pass.old.id pass.old.me.view.client []) (λ doc. (pass.new.me.view.client ≡ takes pass.old.me.view.client doc) × WasFirst N.past pass.old.id pass.old.me.view.client doc) }
{
    queue.pop_as::<Takes<N, W>, R>(rt, pass)
}

impl<N: QueuePast> Drop for WakeQueue<N> {
    fn drop(self) {
        let Self { queue } = self;
        queue.destroy();
    }
}
