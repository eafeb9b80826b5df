//! `Op`, a list of components.

ghost use Rattle.std.specs.Prelude.{◌≡◌, [], ◌∷◌, ◌++◌, false, IfOk, IfErr, OnOk, OnErr};
ghost use Rattle.ot_op.specs.Operation.{IsOp, is_void};

use crate::Comp;
use smallvec::SmallVec;
use std::alloc::{AllocError, Global};
use std::marker::Model;

/// Components in order. One of them takes no memory of its own.
pub type Comps = SmallVec<Comp, 1>;

/// An operation: components that apply in order, no insert or delete among them empty.
#[derive(Debug, Drop)]
pub struct Op {
    pub(crate) comps: Comps,
}

impl Model for Op {
    ghost use Rattle.std.specs.Prelude.{List};
    ghost use Rattle.ot_op.specs.declared.comp.Comp.{Comp};
    ghost use Rattle.ot_op.specs.Operation.{IsOp};

    ghost Value = { List Comp };

    ghost view = { λ s. s.comps.items };

    ghost invariant = { λ s. IsOp s.comps.items };
}

impl Op {
    /// The operation without a component.
    pub fn empty(alloc: Global) -> Op
        ensures { result ≡ [] }
    {
        Op {
            comps: SmallVec::new(alloc),
        }
    }

    /// The operation of copies of these components.
    pub fn from_slice(alloc: Global, comps: &[Comp]) -> Result<Op, AllocError>
        requires { IsOp comps.now }
        ensures { IfOk result (λ made. made ≡ comps.now) }
    {
        let comps = copy_comps(alloc, comps)?;
        Ok(Op { comps })
    }

    /// A copy of this operation.
    pub fn copy(&self, alloc: Global) -> Result<Op, AllocError>
        ensures { IfOk result (λ made. made ≡ self.now) }
    {
        Op::from_slice(alloc, self.comps())
    }

    /// The components, in order.
    pub fn comps(&self) -> &[Comp]
        ensures value { result.now ≡ self.now }
        ensures solid { IsOp result.now }
    {
        self.comps.as_slice()
    }

    /// The components, given up by the operation.
    pub fn into_comps(self) -> Comps
        ensures value { result.items ≡ self }
        ensures solid { IsOp result.items }
    {
        self.comps
    }

    /// Puts a component last, merged with nothing. Where memory is wanting, the component comes
    /// back and nothing changes.
    pub fn push(&mut self, comp: Comp) -> Result<(), (AllocError, Comp)>
        requires { is_void comp ≡ false }
        ensures ok { OnOk result (self.new ≡ self.old ++ comp ∷ []) }
        ensures err { OnErr result (self.new ≡ self.old) }
        ensures back { IfErr result (λ e. e.1 ≡ comp) }
    {
        match self.comps.push(comp) {
            Ok(()) => Ok(()),
            Err(failed) => Err((AllocError, failed.value)),
        }
    }
}

fn copy_comps(alloc: Global, comps: &[Comp]) -> Result<Comps, AllocError>
    ensures { IfOk result (λ made. made.items ≡ comps.now) }
{
    let mut made = SmallVec::with_capacity(alloc, comps.len())?;
    for comp in comps {
        made.push(comp.copy(alloc)?)?;
    }
    Ok(made)
}
