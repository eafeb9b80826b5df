//! What stands on a board.

/// A value with a journal, which grows at its end.
pub trait Journaled: Drop {
    ghost use Rattle.std.specs.Prelude.{◌≡◌, ℕ, List, length, ◌<◌, ◌^◌};
    ghost use Rattle.journal_entries.specs.declared.act.Entry.{Entry};
    ghost use Rattle.board.specs.declared.view.Start.{Start};

    /// The entries so far.
    ghost journal: { Self → List Entry };

    /// How many drivers of sessions there are.
    ghost drivers: { Self → ℕ };

    /// The keeper as the run began. No turn changes it.
    ghost start: { Self → Start };

    /// How many entries the journal has.
    fn length(&self) -> u64
        ensures is { result ≡ length (journal self.now) }
        ensures short { result < 2 ^ 62 };

    /// How many drivers of sessions there are. No turn changes it.
    fn drivers(&self) -> u32
        ensures { result ≡ drivers self.now };
}
