//! Whether operations may be crossed: each place that comes of it is a `u32`.

ghost use Rattle.std.specs.Prelude.{◌≡◌, ◌↔◌, ◌+◌, ◌-◌, ◌^◌, [], ◌∷◌, IsTrue, nat_lt, min};
ghost use Rattle.std.specs.List.{list_all};
ghost use Rattle.ot_op.specs.Operation.{place};
ghost use Rattle.ot_transform.specs.Room.{new_units, Room, Fits};

use ot_op::{Comp, Op};

/// Whether the two may be crossed: with the units that the other one inserts, no place of either
/// comes to 2^32.
pub fn fits(left: &Op, right: &Op) -> bool
    ensures { IsTrue result ↔ Fits left.now right.now }
{
    has_room(left.comps(), right.comps()) && has_room(right.comps(), left.comps())
}

// Whether each place may grow by what the others insert.
fn has_room(comps: &[Comp], others: &[Comp]) -> bool
    ensures { IsTrue result ↔ Room (new_units others.now) comps.now }
{
    stay_below(comps, inserted(others))
}

// How many units are inserted, or the greatest number if there are more.
fn inserted(comps: &[Comp]) -> u64
    ensures { result ≡ min (new_units comps.now) (2 ^ 64 - 1) }
{
    let mut units = 0;
    for comp in comps {
        units = inserted_by(comp).saturating_add(units);
    }
    units
}

fn inserted_by(comp: &Comp) -> u64
    ensures { result ≡ new_units (comp.now ∷ []) }
{
    match comp {
        Comp::Ins(_, part) => part.len() as u64,
        Comp::Del(_, _) | Comp::Com(_, _, _) => 0,
    }
}

// Whether each place may grow by `len`.
fn stay_below(comps: &[Comp], len: u64) -> bool
    ensures { result ≡ list_all (λ c. nat_lt (place c + len) (2 ^ 32)) comps.now }
{
    comps
        .iter()
        .all(|comp| place_of(comp) as u128 + (len as u128) < 1 << 32)
}

fn place_of(comp: &Comp) -> u32
    ensures { result ≡ place comp.now }
{
    match comp {
        Comp::Ins(at, _) | Comp::Del(at, _) | Comp::Com(at, _, _) => *at,
    }
}
