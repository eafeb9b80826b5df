//! `Listed`, what stands in a report one behind the other.

ghost use Rattle.std.specs.Prelude.{◌≡◌};

use std::marker::Model;

/// Items in order. Contracts see the list.
#[derive(Debug, Drop)]
pub struct Listed<T> {
    items: Vec<T>,
}

impl<T> Model for Listed<T> {
    ghost use Rattle.std.specs.Prelude.{List};

    ghost Value = { List T };

    ghost view = { λ s. s.items.items };
}

impl<T: Drop> Listed<T> {
    /// These items. Takes no memory.
    pub fn new(items: Vec<T>) -> Listed<T>
        ensures { result ≡ items.items }
    {
        Listed { items }
    }

    /// The items as a slice.
    pub fn as_slice(&self) -> &[T]
        ensures { result.now ≡ self.now }
    {
        self.items.as_slice()
    }

    /// The items, to be taken apart. Takes no memory.
    pub fn into_vec(self) -> Vec<T>
        ensures { result.items ≡ self }
    {
        let Listed { items } = self;
        items
    }
}
