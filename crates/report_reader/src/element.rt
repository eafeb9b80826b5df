//! The elements of an array, each read alike.

ghost use Rattle.report_reader.specs.Fields.{each_at, each_of, number_of};
ghost use Rattle.report_reader.specs.Refused.{Reads};
ghost use Rattle.serde_json.specs.View.{items_view, view};
ghost use Rattle.std.specs.Prelude.{◌≡◌, Some, None, Option, IfOk, IfErr};

use crate::refusal::Refusal;
use json_lines::array_of;
use serde_json::Value;
use std::alloc::Global;

/// What stands in arrays of a report.
pub(crate) trait Element: Drop + Sized {
    ghost use Rattle.serde_json.specs.Data.{Data};

    ghost meaning: { Data → Option Self };

    /// The element that a value is.
    fn read(alloc: Global, value: &Value) -> Result<Self, Refusal>
        ensures { Reads result (meaning (view value.now)) };
}

impl Element for u64 {
    ghost meaning = { number_of };

    fn read(_: Global, value: &Value) -> Result<u64, Refusal> {
        value.as_u64().ok_or(Refusal::Outside)
    }
}

/// The elements of the array at a key.
pub(crate) fn elements<T: Element>(
    alloc: Global,
    value: &Value,
    key: &str,
) -> Result<Vec<T>, Refusal>
    ensures ok { IfOk result (λ made. each_at T.Element.meaning key.now (view value.now) ≡ Some made.items) }
    ensures outside { IfErr result (λ e. e ≡ Refusal.Outside → each_at T.Element.meaning key.now (view value.now) ≡ None) }
{
    let values = array_of(value, key).ok_or(Refusal::Outside)?;
    read_each(alloc, values)
}

fn read_each<T: Element>(alloc: Global, values: &[Value]) -> Result<Vec<T>, Refusal>
    ensures ok { IfOk result (λ made. each_of T.Element.meaning (items_view values.now) ≡ Some made.items) }
    ensures outside { IfErr result (λ e. e ≡ Refusal.Outside → each_of T.Element.meaning (items_view values.now) ≡ None) }
{
    let mut made = Vec::new(alloc);
    for value in values {
        made.push(T::read(alloc, value)?)?;
    }
    Ok(made)
}
