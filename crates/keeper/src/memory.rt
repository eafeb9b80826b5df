//! A keeper in memory, of which chosen calls fail.

ghost use Rattle.std.specs.Prelude.{◌≡◌, ◌↔◌, ◌+◌, ◌-◌, ◌^◌, ◌≤◌, [], IsTrue, true, min, IfOk, OnOk, OnErr, IsErrOf, Contains};
ghost use Rattle.ot_units.specs.Text.{is_name};
ghost use Rattle.source_sink.specs.Causes.{HasCauseOf};
ghost use Rattle.keeper.specs.Documents.{document_of, Sets};
ghost use Rattle.keeper.specs.Memory.{called, faults_after};
ghost use Rattle.keeper.specs.declared.keeper.KeepFault.TheVariants.{Failed};

use crate::documents::Documents;
use crate::failing::Failing;
use crate::keeper::{KeepFault, Keeper};
use ranges_tracker::KeptDoc;
use std::alloc::{AllocError, Global};
use std::marker::Model;

/// A keeper in memory, of which chosen calls fail. It tells its documents.
#[derive(Drop)]
pub struct MemoryKeeper {
    documents: Documents,
    gets: Failing,
    puts: Failing,
    faults: u64,
}

impl Model for MemoryKeeper {
    ghost use Rattle.keeper.specs.Memory.{Memory};

    ghost Value = { Memory };

    ghost view = { λ s. record { documents = s.documents; gets = s.gets; puts = s.puts; faults = s.faults } };
}

impl MemoryKeeper {
    /// A keeper without documents, whose k-th call of `get`, counted from 1, fails where k is in
    /// `get_fails`, and whose k-th call of `put` where it is in `put_fails`.
    pub fn new(
        alloc: Global,
        get_fails: &[u64],
        put_fails: &[u64],
    ) -> Result<MemoryKeeper, AllocError>
        ensures { IfOk result (λ keeper. keeper ≡ record { documents = []; gets = record { fails = get_fails.now; calls = 0 }; puts = record { fails = put_fails.now; calls = 0 }; faults = 0 }) }
    {
        Ok(MemoryKeeper {
            documents: Documents::new(alloc),
            gets: Failing::new(alloc, get_fails)?,
            puts: Failing::new(alloc, put_fails)?,
            faults: 0,
        })
    }

    // One more fault.
    fn fail(&mut self) -> KeepFault
        ensures counted { self.new.faults ≡ min (self.old.faults + 1) (2 ^ 64 - 1) }
        ensures later { self.old.faults ≤ self.new.faults }
        ensures same { (self.new.documents ≡ self.old.documents) × (self.new.gets ≡ self.old.gets) × (self.new.puts ≡ self.old.puts) }
        ensures failed { result ≡ Failed }
    {
        self.faults = self.faults.saturating_add(1);
        KeepFault::Failed
    }
}

impl Keeper for MemoryKeeper {
    ghost tells = { true };

    ghost documents = { λ keeper. keeper.documents };

    ghost count = { λ keeper. keeper.faults };

    fn get(&mut self, alloc: Global, name: &str) -> Result<Option<KeptDoc>, KeepFault>
        requires { IsTrue (is_name name.now) }
        ensures found { IfOk result (λ found. found ≡ document_of name.now self.old.documents) }
        ensures same { self.new.documents ≡ self.old.documents }
        ensures cause { HasCauseOf self.old.faults self.new.faults result Failed }
        ensures counted { self.new.faults ≡ faults_after self.old.faults result }
        ensures calls { (self.new.gets ≡ called self.old.gets) × (self.new.puts ≡ self.old.puts) }
        ensures fails { IsErrOf result Failed ↔ Contains self.new.gets.fails self.new.gets.calls }
    {
        if self.gets.call() {
            return Err(self.fail());
        }
        Ok(self.documents.get(alloc, name)?)
    }

    fn put(&mut self, alloc: Global, name: &str, doc: KeptDoc) -> Result<(), KeepFault>
        requires { IsTrue (is_name name.now) }
        ensures ok { OnOk result (Sets name.now doc self.old.documents self.new.documents) }
        ensures err { OnErr result (self.new.documents ≡ self.old.documents) }
        ensures cause { HasCauseOf self.old.faults self.new.faults result Failed }
        ensures counted { self.new.faults ≡ faults_after self.old.faults result }
        ensures calls { (self.new.gets ≡ self.old.gets) × (self.new.puts ≡ called self.old.puts) }
        ensures fails { IsErrOf result Failed ↔ Contains self.new.puts.fails self.new.puts.calls }
    {
        if self.puts.call() {
            return Err(self.fail());
        }
        Ok(self.documents.put(alloc, name, doc)?)
    }

    fn faults(&self) -> u64 {
        self.faults
    }
}
