//! `Names`, the names of the sessions.

ghost use Rattle.std.specs.Prelude.{◌≡◌, ◌<◌, [], length, IfOk, OnOk, OnErr};
ghost use Rattle.session_lines.specs.Names.{number_of_name, with_name};

use indexmap::IndexSet;
use ot_units::Name;
use std::alloc::{AllocError, Global};
use std::marker::Model;

/// Different names in the order in which they first appear.
#[derive(Drop)]
pub struct Names {
    names: IndexSet<Name>,
}

impl Model for Names {
    ghost use Rattle.std.specs.Prelude.{ℕ, List};

    ghost Value = { List (List ℕ) };

    ghost view = { λ s. s.names.keys };
}

impl Names {
    /// No names. Takes no memory.
    pub(crate) fn new(alloc: Global) -> Names
        ensures { result ≡ [] }
    {
        Names {
            names: IndexSet::new(alloc),
        }
    }

    /// The number of a name, which goes last where it's new.
    pub(crate) fn insert(&mut self, name: Name) -> Result<usize, AllocError>
        ensures number { IfOk result (λ n. n ≡ number_of_name self.old name) }
        ensures within { IfOk result (λ n. n < length self.new) }
        ensures ok { OnOk result (self.new ≡ with_name self.old name) }
        ensures err { OnErr result (self.new ≡ self.old) }
    {
        let (number, _) = self.names.insert_full(name)?;
        Ok(number)
    }

    /// How many names there are.
    pub fn len(&self) -> usize
        ensures { result ≡ length self.now }
    {
        self.names.len()
    }

    /// The names in order.
    pub fn as_slice(&self) -> &[Name]
        ensures { result.now ≡ self.now }
    {
        self.names.as_slice()
    }
}
