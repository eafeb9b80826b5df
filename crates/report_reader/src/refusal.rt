//! Why a value isn't read.

ghost use Rattle.std.specs.Prelude.{◌≡◌};
ghost use Rattle.report_reader.specs.Refused.{refusal_of};
ghost use Rattle.report_reader.specs.declared.refusal.Refusal.TheVariants.{Memory};

use ot_json::OpFault;
use std::alloc::{AllocError, AllocFailed};

/// Why a value isn't read.
#[derive(Clone, Copy, Drop)]
pub(crate) enum Refusal {
    /// It is outside the grammar.
    Outside,
    /// Memory is wanting.
    Memory,
}

impl From<AllocError> for Refusal {
    ghost from_gives = { λ _ made. made ≡ Memory };

    fn from(_: AllocError) -> Refusal {
        Refusal::Memory
    }
}

impl<T: Drop> From<AllocFailed<T>> for Refusal {
    ghost from_gives = { λ _ made. made ≡ Memory };

    fn from(_: AllocFailed<T>) -> Refusal {
        Refusal::Memory
    }
}

impl From<OpFault> for Refusal {
    ghost from_gives = { λ fault made. made ≡ refusal_of fault };

    fn from(fault: OpFault) -> Refusal {
        match fault {
            OpFault::Bad(_) => Refusal::Outside,
            OpFault::Memory => Refusal::Memory,
        }
    }
}
