//! Writing operations as JSON values.
ghost use Rattle.std.specs.Prelude.{◌≡◌, All, Ok, IfOk, false, string_bytes};
ghost use Rattle.std.specs.Str.{encode_utf8_all};
ghost use Rattle.ot_units.specs.Text.{IsText};
ghost use Rattle.ot_json.specs.Grammar.{IsComponent, component_data, long_operation_of, operation_data, operation_of};
ghost use Rattle.ot_op.specs.Operation.{AreInReach, IsWithinLimits};
ghost use Rattle.serde_json.specs.View.{view};
ghost use Rattle.serde_json.specs.Written.{has_float};

use ot_op::{Comp, Op};
use ot_units::Units;
use serde_json::{Value, json};
use std::alloc::{AllocError, Global};

/// The JSON form of an operation.
///
/// [`crate::read_long`] reads it back where each place is at most 1,000,000,000, and
/// [`crate::read_op`] where besides the operation isn't too large for a client to send.
pub fn write_op(alloc: Global, op: &Op) -> Result<Value, AllocError>
    ensures value { IfOk result (λ v. view v ≡ operation_data op.now) }
    ensures plain { IfOk result (λ v. has_float (view v) ≡ false) }
    ensures reads { IfOk result (λ v. IsWithinLimits op.now → operation_of (view v) ≡ Ok op.now) }
    ensures reads_long { IfOk result (λ v. AreInReach op.now → long_operation_of (view v) ≡ Ok op.now) }
{
    write_comps(alloc, op.comps())
}

fn write_comps(alloc: Global, comps: &[Comp]) -> Result<Value, AllocError>
    ensures value { IfOk result (λ v. view v ≡ operation_data comps.now) }
    ensures typed { IfOk result (λ _. All IsComponent comps.now) }
{
    let mut elements = Vec::new(alloc);
    for comp in comps {
        elements.push(write_comp(alloc, comp)?)?;
    }
    Ok(Value::Array(elements))
}

fn write_comp(alloc: Global, comp: &Comp) -> Result<Value, AllocError>
    ensures value { IfOk result (λ v. view v ≡ component_data comp.now) }
    ensures typed { IsComponent comp.now }
{
    match comp {
        Comp::Ins(place, text) => {
            let text = write_text(alloc, text)?;
            json!(in alloc; {"i": text.as_str(), "p": *place})
        }
        Comp::Del(place, text) => {
            let text = write_text(alloc, text)?;
            json!(in alloc; {"d": text.as_str(), "p": *place})
        }
        Comp::Com(place, text, thread) => write_comment(alloc, *place, text, *thread),
    }
}

fn write_comment(alloc: Global, place: u32, text: &Units, thread: u32) -> Result<Value, AllocError>
    ensures value { IfOk result (λ v. view v ≡ component_data (Comp.Com place text.now thread)) }
    ensures typed { IsComponent (Comp.Com place text.now thread) }
{
    let text = write_text(alloc, text)?;
    json!(in alloc; {"c": text.as_str(), "p": place, "t": thread})
}

// As `Units::to_text`, and says besides that the units are a text.
fn write_text(alloc: Global, units: &Units) -> Result<String, AllocError>
    ensures text { IfOk result (λ text. string_bytes text ≡ encode_utf8_all units.now) }
    ensures units { IsText units.now }
{
    String::from_utf16_lossy(alloc, units.as_slice())
}
