//! Who may take the turn.

ghost use Rattle.std.specs.Prelude.{◌≡◌};

use crate::journaled::Journaled;
use crate::view::View;
use std::marker::Model;

/// A place at a board: a token with which its holder takes turns, from any thread. Contracts see which
/// board it is of, and its [`View`].
#[derive(Drop)]
pub struct Seat<B: Journaled> {
    pub(crate) inner: atomic_table::Seat<Option<B>, View>,
    pub(crate) number: u32,
    // Of seat 0: how many seats were made.
    pub(crate) count: u32,
}

impl<B: Journaled> Model for Seat<B> {
    ghost use Rattle.board.specs.Turns.{Sitting, IsTied};

    ghost Value = { Sitting };

    ghost view = { λ s. record { board = s.inner.table_id; view = s.inner.me.0 } };

    ghost invariant = { λ s. IsTied s.number s.count s.inner.me };
}

impl<B: Journaled> Seat<B> {
    /// The number that entries made in this seat's turns bear. Seats are numbered from 0.
    pub fn number(&self) -> u32
        ensures { result ≡ self.now.view.number }
    {
        self.number
    }
}
