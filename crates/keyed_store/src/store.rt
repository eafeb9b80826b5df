//! The store, with its calls. No call's cost grows with the number of values.

ghost use Rattle.std.specs.Prelude.{◌≡◌, [], ◌∷◌, ◌++◌, length, slice_get, None, IfOk, IfErr, OnErr};
ghost use Rattle.keyed_store.specs.Stores.{existing, names_of, place_of, value_at};

use indexmap::IndexMap;
use ot_units::Name;
use std::alloc::Global;
use std::marker::Model;

/// Values by name. Contracts see the list of the names, each with its value, in the order of adding.
#[derive(Drop)]
pub struct Store<S> {
    map: IndexMap<Name, S>,
}

impl<S> Model for Store<S> {
    ghost use Rattle.std.specs.Prelude.{List, ℕ};

    ghost Value = { List (List ℕ × S) };

    ghost view = { λ s. s.map.entries };
}

/// Why a value isn't added.
#[derive(Clone, Copy, Debug, PartialEq, Eq)]
pub enum AddFault {
    /// The name is there, with this number.
    Exists(usize),
    Memory,
}

impl<S: Drop> Store<S> {
    ghost use Rattle.std.specs.Borrow.{sem};
    ghost use Rattle.std.specs.Option.{option_copied, option_copied_mut};
    ghost use Rattle.keyed_store.specs.Lent.{LendsValue};

    /// A store without values. Takes no memory.
    pub fn new(alloc: Global) -> Store<S>
        ensures { result ≡ [] }
    {
        Store {
            map: IndexMap::new(alloc),
        }
    }

    /// How many values there are.
    pub fn len(&self) -> usize
        ensures { result ≡ length self.now }
    {
        self.map.len()
    }

    /// Adds a value under a new name, and answers its number. [`AddFault`] leaves all as it was, and
    /// lets the value go.
    pub fn add(&mut self, name: Name, value: S) -> Result<usize, AddFault>
        ensures added { IfOk result (λ at. (at ≡ length self.old) × (place_of name self.old ≡ None) × (self.new ≡ self.old ++ (name, value) ∷ [])) }
        ensures refused { IfErr result (λ fault. existing fault ≡ place_of name self.old) }
        ensures kept { OnErr result (self.new ≡ self.old) }
    {
        if let Some(at) = self.map.get_index_of(&name) {
            return Err(AddFault::Exists(at));
        }
        let at = self.map.len();
        match self.map.insert(name, value) {
            Ok(_) => Ok(at),
            Err(_) => Err(AddFault::Memory),
        }
    }

    /// The number of a name.
    pub fn find(&self, name: &Name) -> Option<usize>
        ensures { result ≡ place_of name.now self.now }
    {
        self.map.get_index_of(name)
    }

    /// The name with a number.
    pub fn name(&self, at: usize) -> Option<&Name>
        ensures { option_copied result ≡ slice_get (names_of self.now) at }
    {
        Some(self.map.get_index(at)?.0)
    }

    /// The value with a number.
    pub fn get(&self, at: usize) -> Option<&S>
        ensures { option_copied result ≡ value_at self.now at }
    {
        Some(self.map.get_index(at)?.1)
    }

    /// The value with a number, to write.
    pub fn get_mut(&mut self, at: usize) -> Option<&mut S>
        ensures* writes_back { sem 𝓛 (LendsValue S.row self.entry at result) }
        ensures value { option_copied_mut result ≡ value_at self.old at }
    {
        self.map.get_index_mut(at)
    }
}
