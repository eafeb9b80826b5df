//! The rule of a board's word and slot, and what each step on the word tells its seat.

use crate::journaled::Journaled;
use crate::view::View;
use atomic_table::{Join, Play, Split, TableRule};
use std::snapshot::Snapshot;

/// What holds of a board at each moment.
pub struct BoardRule;

impl<B: Journaled> TableRule<Option<B>, View, Snapshot<B>> for BoardRule {
    ghost use Rattle.board.specs.Rule.{IsRuled};
    ghost use Rattle.board.specs.Views.{opened};

    ghost holds = { λ _. IsRuled B.journal B.drivers B.start };

    ghost first = { λ key. opened (B.journal key.value) (B.drivers key.value) (B.start key.value) };
}

/// A load.
pub struct Look;

impl<B: Journaled> Play<Option<B>, View> for Look {
    ghost use Rattle.board.specs.Rule.{Looks};

    ghost then = { λ _ m found n. Looks m found n };
}

/// An exchange, which takes the turn where it is won.
pub struct Take;

impl<B: Journaled> Play<Option<B>, View> for Take {
    ghost use Rattle.board.specs.Rule.{Tries};

    ghost then = { λ st m found n. Tries B.journal B.drivers B.start st.first m found n };
}

/// A swap that gives the turn back.
pub struct Give;

impl<B: Journaled> Play<Option<B>, View> for Give {
    ghost use Rattle.board.specs.Rule.{Gives};

    ghost then = { λ _ m _ n. Gives B.journal m n };
}

/// Seat 0 makes another seat.
pub struct SplitSeat;

impl Split<View> for SplitSeat {
    ghost use Rattle.board.specs.Views.{counted, newcomer};

    ghost left = { counted };

    ghost right = { newcomer };
}

/// Seat 0 takes in another seat.
pub struct JoinSeat;

impl Join<View> for JoinSeat {
    ghost use Rattle.board.specs.Views.{taken_in, spent};

    ghost both = { taken_in };

    ghost spent = { spent };
}
