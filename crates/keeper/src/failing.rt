//! Calls of which chosen ones fail.

ghost use Rattle.std.specs.Prelude.{◌≡◌, ◌↔◌, IsTrue, IfOk, Contains};
ghost use Rattle.keeper.specs.Memory.{called};

use std::alloc::{AllocError, Global};
use std::marker::Model;

/// The calls of one kind, of which chosen ones fail.
#[derive(Drop)]
pub(crate) struct Failing {
    fails: Vec<u64>,
    calls: u64,
}

impl Model for Failing {
    ghost use Rattle.keeper.specs.Memory.{Calls};

    ghost Value = { Calls };

    ghost view = { λ s. record { fails = s.fails.items; calls = s.calls } };
}

impl Failing {
    /// No call yet. The k-th, counted from 1, is to fail where k is in `fails`.
    pub(crate) fn new(alloc: Global, fails: &[u64]) -> Result<Failing, AllocError>
        ensures { IfOk result (λ made. made ≡ record { fails = fails.now; calls = 0 }) }
    {
        Ok(Failing {
            fails: fails.to_vec(alloc)?,
            calls: 0,
        })
    }

    /// One more call, and whether it is to fail.
    pub(crate) fn call(&mut self) -> bool
        ensures called { self.new ≡ called self.old }
        ensures fails { IsTrue result ↔ Contains self.new.fails self.new.calls }
    {
        self.calls = self.calls.saturating_add(1);
        self.fails.contains(&self.calls)
    }
}
