//! A part of a slice by its place and length.

ghost use Rattle.std.specs.Prelude.{◌≡◌, ◌↔◌, ◌+◌, ◌<◌, ◌≤◌, length, IsNone, IfSome};
ghost use Rattle.ot_units.specs.Text.{part_at};

/// The `len` units of `text` from place `at` on, or `None` where `at + len` is past the end of the
/// text. Places and lengths count UTF-16 code units.
pub fn part(text: &[u16], at: usize, len: usize) -> Option<&[u16]>
    ensures value { IfSome result (λ units. units.now ≡ part_at text.now at len) }
    ensures inside { IfSome result (λ units. at + len ≤ length text.now) }
    ensures past_the_end { IsNone result ↔ (length text.now < at + len) }
{
    let (_, from_place) = text.split_at_checked(at)?;
    let (units, _) = from_place.split_at_checked(len)?;
    Some(units)
}
