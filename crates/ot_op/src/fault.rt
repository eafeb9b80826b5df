//! Why an operation isn't read, and why it isn't applied.

ghost use Rattle.std.specs.Prelude.{◌≡◌};
ghost use Rattle.ot_op.specs.declared.fault.ApplyFault.TheVariants.{Memory};

use std::alloc::AllocError;
use std::error::Error;
use std::fmt;

/// Why a value isn't read as an operation. Components count from 0, as they were written.
#[derive(Clone, Copy, Debug, PartialEq, Eq, Drop)]
pub enum FormFault {
    /// The component of this number is the first that is out of form. It is 0 where the value is no
    /// list of components.
    Form(u64),
    /// The component of this number is the first that deletes or comments on a supplementary
    /// character.
    Supplementary(u64),
    /// There are more components, or more units in them, than an operation may have.
    TooLarge {
        /// How many components there are.
        comps: u64,
        /// How many UTF-16 code units their texts have.
        units: u64,
    },
}

impl fmt::Display for FormFault {
    fn fmt<W: fmt::Write>(&self, f: &mut fmt::Formatter<W>) -> fmt::Result {
        match self {
            FormFault::Form(k) => write!(f, "component {k} is out of form"),
            FormFault::Supplementary(k) => {
                write!(f, "component {k} has a supplementary character")
            }
            FormFault::TooLarge { comps, units } => {
                write!(f, "{comps} components of {units} units are too large")
            }
        }
    }
}

impl Error for FormFault {}

/// Why an operation isn't applied whole.
#[derive(Clone, Copy, Debug, PartialEq, Eq, Drop)]
pub enum ApplyFault {
    /// The component of this number, from 0, is the first that doesn't apply.
    Mismatch(u64),
    /// Memory is wanting.
    Memory,
}

impl fmt::Display for ApplyFault {
    fn fmt<W: fmt::Write>(&self, f: &mut fmt::Formatter<W>) -> fmt::Result {
        match self {
            ApplyFault::Mismatch(k) => write!(f, "component {k} does not apply"),
            ApplyFault::Memory => write!(f, "out of memory"),
        }
    }
}

impl Error for ApplyFault {}

impl From<AllocError> for ApplyFault {
    ghost from_gives = { λ _ fault. fault ≡ Memory };

    fn from(_: AllocError) -> ApplyFault {
        ApplyFault::Memory
    }
}
