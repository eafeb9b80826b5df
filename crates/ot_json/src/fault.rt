//! Why a JSON value isn't read as an operation.
ghost use Rattle.ot_json.specs.declared.fault.OpFault.TheVariants.{Bad, Memory};
ghost use Rattle.std.specs.Prelude.{◌≡◌};

use ot_op::FormFault;
use std::alloc::AllocError;
use std::error::Error;
use std::fmt;

/// Why a JSON value isn't read as an operation.
#[derive(Clone, Copy, Debug, PartialEq, Eq, Drop)]
pub enum OpFault {
    /// The value is no operation.
    Bad(FormFault),
    /// Memory is wanting.
    Memory,
}

impl fmt::Display for OpFault {
    fn fmt<W: fmt::Write>(&self, f: &mut fmt::Formatter<W>) -> fmt::Result {
        match self {
            OpFault::Bad(fault) => write!(f, "{fault}"),
            OpFault::Memory => write!(f, "out of memory"),
        }
    }
}

impl Error for OpFault {}

impl From<FormFault> for OpFault {
    ghost from_gives = { λ fault made. made ≡ Bad fault };

    fn from(fault: FormFault) -> OpFault {
        OpFault::Bad(fault)
    }
}

impl From<AllocError> for OpFault {
    ghost from_gives = { λ _ made. made ≡ Memory };

    fn from(_: AllocError) -> OpFault {
        OpFault::Memory
    }
}
