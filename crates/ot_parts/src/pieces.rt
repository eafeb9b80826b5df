//! One or two borrowed slices, seen as one list.

ghost use Rattle.std.specs.Prelude.{◌≡◌, ◌<◌, ◌≤◌, ◌++◌, ◌↔◌, [], length, take, drop, IsTrue, IsNone, IfSome};
ghost use Rattle.ot_parts.specs.Parts.{joined, without_cut, NeedsThree};

use std::marker::Model;

/// A list of units in one or two borrowed slices. Places count UTF-16 code units from the start of
/// the list.
#[derive(Drop)]
pub struct Pieces<'a> {
    first: &'a [u16],
    second: &'a [u16],
}

impl<'a> Model for Pieces<'a> {
    ghost use Rattle.ot_parts.specs.Parts.{Slices};

    ghost Value = { Slices };

    ghost view = { λ pieces. record { first = pieces.first.now; second = pieces.second.now } };
}

impl<'a> Pieces<'a> {
    /// The whole of a text, in one slice.
    pub fn whole(text: &'a [u16]) -> Pieces<'a>
        ensures first { result.first ≡ text.now }
        ensures second { result.second ≡ [] }
    {
        Pieces {
            first: text,
            second: &[],
        }
    }

    /// How many units the list has.
    pub fn len(&self) -> usize
        ensures { result ≡ length (joined self.now) }
    {
        self.first.len() + self.second.len()
    }

    /// Whether the list has no unit.
    pub fn is_empty(&self) -> bool
        ensures { IsTrue result ↔ (joined self.now ≡ []) }
    {
        self.len() == 0
    }

    /// The slices, in order: joined they are the list. Either may be empty.
    pub fn slices(&self) -> (&'a [u16], &'a [u16])
        ensures first { result.0.now ≡ self.now.first }
        ensures second { result.1.now ≡ self.now.second }
    {
        (self.first, self.second)
    }

    /// The list up to place `at`, and the list from there on.
    pub fn split(self, at: usize) -> (Pieces<'a>, Pieces<'a>)
        requires { at ≤ length (joined self) }
        ensures before { joined result.0 ≡ take at (joined self.entry) }
        ensures after { joined result.1 ≡ drop at (joined self.entry) }
    {
        let Pieces { first, second } = self;
        if at <= first.len() {
            let (before, after) = first.split_at(at);
            (
                Pieces::whole(before),
                Pieces {
                    first: after,
                    second,
                },
            )
        } else {
            let (before, after) = second.split_at(at - first.len());
            (
                Pieces {
                    first,
                    second: before,
                },
                Pieces::whole(after),
            )
        }
    }

    /// The list with the units from place `from` up to place `to` cut out, or `None` where three
    /// slices that aren't empty would be needed: the cut lies inside one slice, touches neither of
    /// its ends, and the other slice isn't empty.
    pub fn without(self, from: usize, to: usize) -> Option<Pieces<'a>>
        requires ordered { from ≤ to }
        requires in_list { to ≤ length (joined self) }
        ensures value { IfSome result (λ rest. joined rest ≡ without_cut (joined self.entry) from to) }
        ensures three_slices { IsNone result ↔ NeedsThree self.entry from to }
    {
        if from == to {
            return Some(self);
        }
        let Pieces { first, second } = self;
        let middle = first.len();
        if to <= middle {
            in_two_slices(&first[..from], &first[to..], second)
        } else if middle <= from {
            in_two_slices(first, &second[..from - middle], &second[to - middle..])
        } else {
            Some(Pieces {
                first: &first[..from],
                second: &second[to - middle..],
            })
        }
    }

    /// Whether the list is `other`.
    pub fn same(&self, other: &[u16]) -> bool
        ensures { IsTrue result ↔ (joined self.now ≡ other.now) }
    {
        match other.split_at_checked(self.first.len()) {
            Some((first, second)) => self.first == first && self.second == second,
            None => false,
        }
    }
}

/// The list of three slices, in two of them, or `None` where no slice is empty.
fn in_two_slices<'a>(first: &'a [u16], middle: &'a [u16], last: &'a [u16]) -> Option<Pieces<'a>>
    ensures value { IfSome result (λ list. joined list ≡ first.now ++ middle.now ++ last.now) }
    ensures none_empty { IsNone result
        ↔ ((0 < length first.now) × ((0 < length middle.now) × (0 < length last.now))) }
{
    let (first, second) = if middle.is_empty() {
        (first, last)
    } else if first.is_empty() {
        (middle, last)
    } else if last.is_empty() {
        (first, middle)
    } else {
        return None;
    };
    Some(Pieces { first, second })
}
