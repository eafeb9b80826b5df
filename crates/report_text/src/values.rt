//! Values that several lines have.

ghost use Rattle.std.specs.Prelude.{◌≡◌, IfOk, OnOk};
ghost use Rattle.serde_json.specs.View.{view};
ghost use Rattle.json_lines.specs.Object.{members_of};
ghost use Rattle.report_text.specs.Values.{numbers_data, with_numbers, with_optional};

use json_lines::Object;
use serde_json::Value;
use std::alloc::{AllocError, Global};

/// Puts a whole number of 32 bits in, or `null` where there is none.
pub(crate) fn put_optional(object: &mut Object, key: &str, n: Option<u32>) -> Result<(), AllocError>
    ensures { OnOk result (members_of object.new ≡ with_optional key.now n (members_of object.old)) }
{
    match n {
        Some(n) => object.set_number(key, n as u64),
        None => object.set_null(key),
    }
}

/// Puts a list of whole numbers in.
#[tactic(auto, using(crate::proofs::Plain::numbers_plain))]
pub(crate) fn put_numbers(object: &mut Object, key: &str, numbers: &[u64]) -> Result<(), AllocError>
    ensures { OnOk result (members_of object.new ≡ with_numbers key.now numbers.now (members_of object.old)) }
{
    let array = numbers_value(object.alloc(), numbers)?;
    object.set(key, array)
}

fn numbers_value(alloc: Global, numbers: &[u64]) -> Result<Value, AllocError>
    ensures { IfOk result (λ value. view value ≡ numbers_data numbers.now) }
{
    let mut items = Vec::new(alloc);
    for n in numbers {
        items.push(Value::from(*n))?;
    }
    Ok(Value::Array(items))
}
