//! A record of bytes that exists only in proofs.

ghost use Rattle.std.specs.Prelude.{◌≡◌, ◌++◌, ℕ, List, []};
ghost use Rattle.std.specs.Coded.{coded_list, coded_ℕ};
ghost use base.Fml.{ftrue};

use std::marker::Model;

/// The bytes that were written. It takes no memory.
#[derive(Drop)]
pub(crate) struct Recorded {
    ghost bytes: { List ℕ } by { coded_list coded_ℕ },
}

impl Model for Recorded {
    ghost also_owns = { λ _. ftrue };
}

/// What is added to a record.
#[derive(Clone, Copy, Drop)]
pub(crate) enum Piece<'a> {
    Bytes(&'a [u8]),
}

impl Recorded {
    ghost use Rattle.source_sink.specs.Recorded.{bytes_of};

    /// A record of no bytes.
    pub(crate) fn new() -> Recorded
        ensures { result.bytes ≡ [] }
    {
        Recorded {}
    }

    /// The record with a piece behind it.
    pub(crate) fn with(&self, _piece: &Piece<'_>) -> Recorded
        ensures { result.bytes ≡ self.now.bytes ++ bytes_of _piece.now }
    {
        Recorded {}
    }
}
