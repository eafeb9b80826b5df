//! `Comp`, one component of an operation.

ghost use Rattle.std.specs.Prelude.{◌≡◌, [], IfOk};
ghost use Rattle.ot_op.specs.Operation.{is_void};

use ot_units::Units;
use std::alloc::{AllocError, Global};
use std::default::MadeWith;

/// One component of an operation. Its place counts UTF-16 code units in the text that the
/// components before it left.
///
/// Inserts and deletes are ShareJS 0.5's. Comments are this project's own, after Overleaf: they
/// move with the text and change none of it.
#[derive(Debug, PartialEq, Eq, Drop)]
pub enum Comp {
    /// The text is put in at the place.
    Ins(u32, Units),
    /// The text, which stands at the place, is taken out.
    Del(u32, Units),
    /// The text, which stands at the place, is commented on in the thread of this number.
    Com(u32, Units, u32),
}

impl Comp {
    /// Whether this is an insert or delete of the empty text, which operations don't have.
    pub fn is_void(&self) -> bool
        ensures { result ≡ is_void self.now }
    {
        match self {
            Comp::Ins(_, part) | Comp::Del(_, part) => part.len() == 0,
            Comp::Com(_, _, _) => false,
        }
    }

    /// A copy of this component.
    pub fn copy(&self, alloc: Global) -> Result<Comp, AllocError>
        ensures { IfOk result (λ made. made ≡ self.now) }
    {
        match self {
            Comp::Ins(at, part) => Ok(Comp::Ins(*at, part.copy(alloc)?)),
            Comp::Del(at, part) => Ok(Comp::Del(*at, part.copy(alloc)?)),
            Comp::Com(at, part, thread) => Ok(Comp::Com(*at, part.copy(alloc)?, *thread)),
        }
    }
}

/// The insert of the empty text at the start, which fills a place that has no component.
impl MadeWith<Global> for Comp {
    ghost use Rattle.ot_op.specs.declared.comp.Comp.TheVariants.{Ins};

    ghost is_made_with = { λ comp. comp ≡ Ins 0 [] };

    fn made_with(alloc: Global) -> Comp {
        Comp::Ins(0, Units::empty(alloc))
    }
}
