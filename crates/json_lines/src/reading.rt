//! Looking at the members of a JSON value that was read.
//!
//! A value that is no object has no keys. "Exactly these keys" is told by [`count_keys`] and a look
//! at each key, since each key of a value stands once.
ghost use Rattle.std.specs.Prelude.{◌≡◌, ◌≤◌, IfSome, option_map};
ghost use Rattle.json_lines.specs.Reading.{array_at, flag_at, has_key as has_key_lem, key_count, number_at, text_at, whole_at};
ghost use Rattle.serde_json.specs.View.{items_view, view};

use serde_json::Value;

/// How many keys an object has, and 0 for any other value.
pub fn count_keys(value: &Value) -> usize
    ensures { result ≡ key_count (view value.now) }
{
    match value.as_object() {
        Some(map) => map.len(),
        None => 0,
    }
}

/// Whether the value is an object with this key.
pub fn has_key(value: &Value, key: &str) -> bool
    ensures { result ≡ has_key_lem key.now (view value.now) }
{
    value.get(key).is_some()
}

/// The text at a key.
pub fn text_of<'v>(value: &'v Value, key: &str) -> Option<&'v str>
    ensures { option_map (λ text. text.now) result ≡ text_at key.now (view value.now) }
{
    value.get(key).and_then(Value::as_str)
}

/// The whole number from 0 to 2^64 - 1 at a key. A number that is written with a fraction, an
/// exponent or a minus sign is none, as `1.0`, `1e3` and `-0` are.
pub fn number_of(value: &Value, key: &str) -> Option<u64>
    ensures { result ≡ number_at key.now (view value.now) }
{
    value.get(key)?.as_u64()
}

/// The whole number at a key, where it is at most `max`.
pub fn number_within(value: &Value, key: &str, max: u64) -> Option<u64>
    ensures number { result ≡ whole_at max key.now (view value.now) }
    ensures small { IfSome result (λ n. n ≤ max) }
{
    let n = number_of(value, key)?;
    if n > max {
        return None;
    }
    Some(n)
}

/// The `true` or `false` at a key.
pub fn flag_of(value: &Value, key: &str) -> Option<bool>
    ensures { result ≡ flag_at key.now (view value.now) }
{
    value.get(key)?.as_bool()
}

/// The elements of the array at a key.
pub fn array_of<'v>(value: &'v Value, key: &str) -> Option<&'v [Value]>
    ensures { option_map (λ items. items_view items.now) result ≡ array_at key.now (view value.now) }
{
    let items = value.get(key)?.as_array()?;
    Some(items.as_slice())
}
