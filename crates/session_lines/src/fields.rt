//! The fields of a line by their kinds.

ghost use Rattle.std.specs.Prelude.{◌≡◌, ◌≤◌, ◌^◌, ◌<◌, length, IfOk, IfSome};
ghost use Rattle.session_lines.specs.Object.{object_data};
ghost use Rattle.session_lines.specs.Fields.{name_at, units_at, u32_at, number_or_zero, flag_or_false, sources_at, sources_or_none};

use crate::object::{LineObject, flag_of, has_key, number_within, numbers_at, text_of};
use journal_entries::Sources;
use ot_units::{Name, Units};
use std::alloc::{AllocError, Global};

/// The greatest number of sources in a `dup`.
const MAX_SOURCES: usize = 100;

/// The name at a key.
pub(crate) fn name_of(
    alloc: Global,
    object: &LineObject<'_>,
    key: &str,
) -> Result<Option<Name>, AllocError>
    ensures { IfOk result (λ found. found ≡ name_at key.now (object_data object.now)) }
{
    match text_of(object, key) {
        Some(text) => Name::read(alloc, text),
        None => Ok(None),
    }
}

/// The text at a key, each surrogate replaced.
pub(crate) fn units_of(
    alloc: Global,
    object: &LineObject<'_>,
    key: &str,
) -> Result<Option<Units>, AllocError>
    ensures { IfOk result (λ found. found ≡ units_at key.now (object_data object.now)) }
{
    match text_of(object, key) {
        Some(text) => Ok(Some(Units::sanitized(alloc, text)?)),
        None => Ok(None),
    }
}

/// The whole number below 2^32 at a key.
pub(crate) fn u32_of(object: &LineObject<'_>, key: &str) -> Option<u32>
    ensures { result ≡ u32_at key.now (object_data object.now) }
{
    let n = number_within(object, key, u32::MAX as u64)?;
    Some(n as u32)
}

/// The whole number up to `max` at a key, 0 where the key isn't there.
pub(crate) fn number_or_0(object: &LineObject<'_>, key: &str, max: u64) -> Option<u64>
    ensures { result ≡ number_or_zero max key.now (object_data object.now) }
{
    if has_key(object, key) {
        number_within(object, key, max)
    } else {
        Some(0)
    }
}

/// The flag at a key, `false` where the key isn't there.
pub(crate) fn flag_or_no(object: &LineObject<'_>, key: &str) -> Option<bool>
    ensures { result ≡ flag_or_false key.now (object_data object.now) }
{
    if has_key(object, key) {
        flag_of(object, key)
    } else {
        Some(false)
    }
}

/// The sources at a key, none where the key isn't there.
pub(crate) fn sources_of(
    alloc: Global,
    object: &LineObject<'_>,
    key: &str,
) -> Result<Option<Sources>, AllocError>
    ensures { IfOk result (λ found. found ≡ sources_or_none key.now (object_data object.now)) }
{
    if !has_key(object, key) {
        return Ok(Some(Sources::new(alloc)));
    }
    let Some(sources) = numbers_at(alloc, object, key)? else {
        return Ok(None);
    };
    if sources.as_slice().len() > MAX_SOURCES {
        return Ok(None);
    }
    Ok(Some(sources))
}
