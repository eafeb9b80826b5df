//! `apply`, what an operation does to a text.

ghost use Rattle.std.specs.Prelude.{◌≡◌, Some, None, IfOk, IfErr, OnOk, OnErr, MatchBool};
ghost use Rattle.ot_op.specs.Apply.{applied, applied_all, IsFault};

use crate::{ApplyFault, Comp, Op, TextLike};
use std::alloc::AllocError;

/// Applies the components in order, each to what those before it left.
///
/// `Mismatch` comes at the first component that doesn't apply: an insert past the end of the text,
/// a delete or a comment whose text doesn't stand at its place. ShareJS leaves such an insert to the
/// text; here it is refused. After a refusal the text is what the components before the refused
/// one made of it.
pub fn apply<T: TextLike>(text: &mut T, op: &Op) -> Result<(), ApplyFault>
    ensures ok { OnOk result (applied_all (T.text text.old) op.now ≡ Some (T.text text.new)) }
    ensures fault { IfErr result (IsFault (T.text text.old) op.now (T.text text.new)) }
{
    for (k, comp) in op.comps().iter().enumerate() {
        if !apply_comp(text, comp)? {
            return Err(ApplyFault::Mismatch(k as u64));
        }
    }
    Ok(())
}

// Applies one component, or says that it doesn't apply.
fn apply_comp<T: TextLike>(text: &mut T, comp: &Comp) -> Result<bool, AllocError>
    ensures applies { IfOk result (λ b. MatchBool b (applied (T.text text.old) comp.now ≡ Some (T.text text.new)) ((applied (T.text text.old) comp.now ≡ None) × (T.text text.new ≡ T.text text.old))) }
    ensures err { OnErr result (T.text text.new ≡ T.text text.old) }
{
    match comp {
        Comp::Ins(at, part) => {
            if *at as usize > text.len() {
                return Ok(false);
            }
            text.insert(*at as usize, part.as_slice())?;
            Ok(true)
        }
        Comp::Del(at, part) => {
            if !text.same_at(*at as usize, part.as_slice()) {
                return Ok(false);
            }
            text.ready(*at as usize, part.len())?;
            text.remove(*at as usize, part.len());
            Ok(true)
        }
        Comp::Com(at, part, _) => Ok(text.same_at(*at as usize, part.as_slice())),
    }
}
