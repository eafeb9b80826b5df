//! Reading operations from JSON values.
ghost use Rattle.std.specs.Prelude.{◌≡◌, Ok, IfErr, IfOk, IfSome, map};
ghost use Rattle.ot_json.specs.Grammar.{IsFaultOf, array_or_fault, components_or_fault, long_operation_of, operation_of, readings, unless_large};
ghost use Rattle.ot_op.specs.Operation.{units_of, total_units, IsWithinLimits};
ghost use Rattle.line_reader.specs.Fields.{edit_data};
ghost use Rattle.serde_json.specs.Data.{array};
ghost use Rattle.serde_json.specs.Find.{as_array};
ghost use Rattle.serde_json.specs.View.{items_of, view};

use crate::OpFault;
use crate::reading::{Element, Grammar, Reading};
use line_reader::Edit;
use ot_op::{Comp, FormFault, MAX_COMPONENTS, MAX_OPERATION_UNITS, Op};
use serde_json::Value;
use std::alloc::Global;

/// The operation that a client sent.
///
/// Each surrogate of an inserted text becomes U+FFFD, as in Overleaf's document-updater. An insert
/// or delete of the empty text is dropped, and components aren't merged.
///
/// It is refused in this order, components counting from 0 as they are written, those that are
/// dropped too: with `Form(k)` at the first component that is out of form, where a place may be at
/// most 1,000,000,000 and a thread at most 4,294,967,295 and there are no other keys (0 where the
/// value is no array); with `Supplementary(k)` at the first delete or comment of a text with a
/// supplementary character; with `TooLarge` where more than 1,000 components stay, or more than
/// 65,536 UTF-16 code units in their texts, those of comments too.
pub fn read_op(alloc: Global, value: &Value) -> Result<Op, OpFault>
    ensures ok { IfOk result (λ op. operation_of (view value.now) ≡ Ok op) }
    ensures within { IfOk result (λ op. IsWithinLimits op) }
    ensures fault { IfErr result (λ fault. IsFaultOf (operation_of (view value.now)) fault) }
{
    let op = read_array(alloc, Grammar::Sent, value)?;
    check_size(op.comps())?;
    Ok(op)
}

/// The operation that a client sent, by the edits of its array; as [`read_op`] reads it.
pub fn read_edits(alloc: Global, edits: &[Edit<'_>]) -> Result<Op, OpFault>
    ensures ok { IfOk result (λ op. operation_of (array (items_of (map edit_data edits.now))) ≡ Ok op) }
    ensures fault { IfErr result (λ fault. IsFaultOf (operation_of (array (items_of (map edit_data edits.now)))) fault) }
{
    let op = read_elements(alloc, Grammar::Sent, edits)?;
    check_size(op.comps())?;
    Ok(op)
}

/// The operation that was written, of whatever size.
///
/// It is refused as by [`read_op`], but never as too large. What [`read_op`] would drop or change,
/// as an insert of the empty text or of a supplementary character, is out of form here.
pub fn read_long(alloc: Global, value: &Value) -> Result<Op, OpFault>
    ensures ok { IfOk result (λ op. long_operation_of (view value.now) ≡ Ok op) }
    ensures fault { IfErr result (λ fault. IsFaultOf (long_operation_of (view value.now)) fault) }
{
    read_array(alloc, Grammar::Stored, value)
}

fn read_array(alloc: Global, grammar: Grammar, value: &Value) -> Result<Op, OpFault>
    ensures ok { IfOk result (λ op. array_or_fault grammar (as_array (view value.now)) ≡ Ok op) }
    ensures fault { IfErr result (λ fault. IsFaultOf (array_or_fault grammar (as_array (view value.now))) fault) }
{
    match value.as_array() {
        Some(elements) => read_elements(alloc, grammar, elements),
        None => Err(OpFault::Bad(FormFault::Form(0))),
    }
}

fn read_elements<E: Element>(alloc: Global, grammar: Grammar, elements: &[E]) -> Result<Op, OpFault>
    ensures ok { IfOk result (λ op. components_or_fault (readings grammar (items_of (map E.value elements.now))) ≡ Ok op) }
    ensures fault { IfErr result (λ fault. IsFaultOf (components_or_fault (readings grammar (items_of (map E.value elements.now)))) fault) }
{
    let mut op = Op::empty(alloc);
    let mut supplementary = None;
    for (k, element) in elements.iter().enumerate() {
        match element.read(alloc, grammar)? {
            Reading::Kept(comp) => {
                if op.push(comp).is_err() {
                    return Err(OpFault::Memory);
                }
            }
            Reading::Dropped => {}
            Reading::Supplementary => supplementary = supplementary.or(Some(k as u64)),
            Reading::OutOfForm => return Err(OpFault::Bad(FormFault::Form(k as u64))),
        }
    }
    match supplementary {
        Some(k) => Err(OpFault::Bad(FormFault::Supplementary(k))),
        None => Ok(op),
    }
}

// Refuses more components, or more units, than a client may send.
fn check_size(comps: &[Comp]) -> Result<(), OpFault>
    ensures ok { IfOk result (λ _. unless_large (Ok comps.now) ≡ Ok comps.now) }
    ensures fault { IfErr result (λ fault. IsFaultOf (unless_large (Ok comps.now)) fault) }
{
    let count = comps.len() as u64;
    let Some(units) = count_units(comps) else {
        return Err(OpFault::Memory);
    };
    if count > MAX_COMPONENTS || units > MAX_OPERATION_UNITS {
        return Err(OpFault::Bad(FormFault::TooLarge {
            comps: count,
            units,
        }));
    }
    Ok(())
}

// The units of all texts. `None` is more than memory holds.
fn count_units(comps: &[Comp]) -> Option<u64>
    ensures { IfSome result (λ units. units ≡ total_units comps.now) }
{
    let mut units = 0u64;
    for comp in comps {
        units = units.checked_add(text_len(comp) as u64)?;
    }
    Some(units)
}

fn text_len(comp: &Comp) -> usize
    ensures { result ≡ units_of comp.now }
{
    match comp {
        Comp::Ins(_, text) | Comp::Del(_, text) | Comp::Com(_, text, _) => text.len(),
    }
}
