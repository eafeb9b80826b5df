//! The fields of a line by their kinds.

ghost use Rattle.json_lines.specs.Reading.{flag_at, number_at, text_at};
ghost use Rattle.report_reader.specs.Fields.{name_at, number_or_null_at, operation_at, operation_or_null_at, u32_at, u32_or_null_at, units_at, units_or_null_at};
ghost use Rattle.report_reader.specs.Refused.{Reads};
ghost use Rattle.serde_json.specs.View.{view};
ghost use Rattle.std.specs.Prelude.{◌≡◌, Some, None, IfOk, IfErr};

use crate::refusal::Refusal;
use json_lines::{flag_of, number_of, number_within, text_of};
use ot_json::read_long;
use ot_op::Op;
use ot_units::{Name, Units};
use serde_json::Value;
use std::alloc::Global;

/// The whole number at a key.
pub(crate) fn number(value: &Value, key: &str) -> Result<u64, Refusal>
    ensures { Reads result (number_at key.now (view value.now)) }
{
    number_of(value, key).ok_or(Refusal::Outside)
}

/// The whole number below 2^32 at a key.
pub(crate) fn small_number(value: &Value, key: &str) -> Result<u32, Refusal>
    ensures { Reads result (u32_at key.now (view value.now)) }
{
    match number_within(value, key, u32::MAX as u64) {
        Some(n) => Ok(n as u32),
        None => Err(Refusal::Outside),
    }
}

/// The flag at a key.
pub(crate) fn flag(value: &Value, key: &str) -> Result<bool, Refusal>
    ensures { Reads result (flag_at key.now (view value.now)) }
{
    flag_of(value, key).ok_or(Refusal::Outside)
}

/// The text at a key, as it stands.
pub(crate) fn text<'v>(value: &'v Value, key: &str) -> Result<&'v str, Refusal>
    ensures ok { IfOk result (λ text. text_at key.now (view value.now) ≡ Some text.now) }
    ensures outside { IfErr result (λ e. e ≡ Refusal.Outside → text_at key.now (view value.now) ≡ None) }
{
    text_of(value, key).ok_or(Refusal::Outside)
}

/// The name at a key.
pub(crate) fn name(alloc: Global, value: &Value, key: &str) -> Result<Name, Refusal>
    ensures { Reads result (name_at key.now (view value.now)) }
{
    let text = text(value, key)?;
    Name::read(alloc, text)?.ok_or(Refusal::Outside)
}

/// The units of the text at a key, which has no supplementary character.
pub(crate) fn units(alloc: Global, value: &Value, key: &str) -> Result<Units, Refusal>
    ensures { Reads result (units_at key.now (view value.now)) }
{
    let text = text(value, key)?;
    Units::exact(alloc, text)?.ok_or(Refusal::Outside)
}

/// The operation at a key.
pub(crate) fn operation(alloc: Global, value: &Value, key: &str) -> Result<Op, Refusal>
    ensures { Reads result (operation_at key.now (view value.now)) }
{
    let op = value.get(key).ok_or(Refusal::Outside)?;
    Ok(read_long(alloc, op)?)
}

/// The whole number at a key, or `null` for none.
pub(crate) fn number_or_null(value: &Value, key: &str) -> Result<Option<u64>, Refusal>
    ensures { Reads result (number_or_null_at key.now (view value.now)) }
{
    let field = value.get(key).ok_or(Refusal::Outside)?;
    if field.is_null() {
        return Ok(None);
    }
    let n = field.as_u64().ok_or(Refusal::Outside)?;
    Ok(Some(n))
}

/// The whole number below 2^32 at a key, or `null` for none.
pub(crate) fn small_or_null(value: &Value, key: &str) -> Result<Option<u32>, Refusal>
    ensures { Reads result (u32_or_null_at key.now (view value.now)) }
{
    match number_or_null(value, key)? {
        None => Ok(None),
        Some(n) if n <= u32::MAX as u64 => Ok(Some(n as u32)),
        Some(_) => Err(Refusal::Outside),
    }
}

/// The operation at a key, or `null` for none.
pub(crate) fn operation_or_null(
    alloc: Global,
    value: &Value,
    key: &str,
) -> Result<Option<Op>, Refusal>
    ensures { Reads result (operation_or_null_at key.now (view value.now)) }
{
    let field = value.get(key).ok_or(Refusal::Outside)?;
    if field.is_null() {
        return Ok(None);
    }
    let op = read_long(alloc, field)?;
    Ok(Some(op))
}

/// The units of the text at a key, which has no supplementary character, or `null` for none.
pub(crate) fn units_or_null(
    alloc: Global,
    value: &Value,
    key: &str,
) -> Result<Option<Units>, Refusal>
    ensures { Reads result (units_or_null_at key.now (view value.now)) }
{
    let field = value.get(key).ok_or(Refusal::Outside)?;
    if field.is_null() {
        return Ok(None);
    }
    let text = field.as_str().ok_or(Refusal::Outside)?;
    let units = Units::exact(alloc, text)?.ok_or(Refusal::Outside)?;
    Ok(Some(units))
}
