//! `Units`, a text as a list of UTF-16 code units.

ghost use Rattle.std.specs.Prelude.{◌≡◌, ◌≤◌, ◌<◌, ◌+◌, ◌^◌, ◌↔◌, [], length, nat_eq, string_bytes, IsTrue, IfOk, OnOk, OnErr};
ghost use Rattle.std.specs.Str.{encode_utf8_all};
ghost use Rattle.std.specs.Cmp.{partial_equiv_from_equiv};
ghost use Rattle.std.specs.Cmp.Lexicographic.{pointwise, nat_list_eq_equiv};
ghost use Rattle.smallvec.specs.SmallVec.{small_vec_len};
ghost use Rattle.ot_units.specs.Text.{IsText, sanitized_units, exact_units, put_at, cut_at};

use smallvec::SmallVec;
use std::alloc::{AllocError, Global};
use std::marker::Model;

/// What stands for each unit of a supplementary character.
const REPLACEMENT: u16 = 0xFFFD;

/// How many units a text may have that takes no memory.
const SHORT: usize = 8;

/// The first character that needs two units of UTF-16.
const FIRST_SUPPLEMENTARY: u32 = 0x1_0000;

/// A text as UTF-16 code units, none of them a surrogate.
///
/// Every place and every length in a text counts such units, as JavaScript's strings do in
/// Overleaf's editor.
#[derive(Debug, Drop)]
pub struct Units {
    units: SmallVec<u16, SHORT>,
}

impl Model for Units {
    ghost use Rattle.std.specs.Prelude.{ℕ, List};
    ghost use Rattle.ot_units.specs.Text.{IsText};

    ghost Value = { List ℕ };

    ghost view = { λ s. s.units.items };

    ghost invariant = { λ s. IsText s.units.items };
}

impl Units {
    /// The text without a unit.
    pub fn empty(alloc: Global) -> Units
        ensures { result ≡ [] }
    {
        Units {
            units: SmallVec::new(alloc),
        }
    }

    /// The units of a text, each surrogate replaced by U+FFFD: a supplementary character becomes
    /// two of these, as in Overleaf's document-updater.
    pub fn sanitized(alloc: Global, text: &str) -> Result<Units, AllocError>
        ensures { IfOk result (λ made. made ≡ sanitized_units text.now) }
    {
        let mut units = SmallVec::new(alloc);
        for c in text.chars() {
            let code = c as u32;
            if code < FIRST_SUPPLEMENTARY {
                units.push(code as u16)?;
            } else {
                units.push(REPLACEMENT)?;
                units.push(REPLACEMENT)?;
            }
        }
        Ok(Units { units })
    }

    /// The units of a text, or `None` where a supplementary character stands in it.
    pub fn exact(alloc: Global, text: &str) -> Result<Option<Units>, AllocError>
        ensures { IfOk result (λ made. made ≡ exact_units text.now) }
    {
        let mut units = SmallVec::new(alloc);
        for c in text.chars() {
            let code = c as u32;
            if code >= FIRST_SUPPLEMENTARY {
                return Ok(None);
            }
            units.push(code as u16)?;
        }
        Ok(Some(Units { units }))
    }

    /// A copy of these units.
    pub fn from_slice(alloc: Global, units: &[u16]) -> Result<Units, AllocError>
        requires { IsText units.now }
        ensures { IfOk result (λ made. made ≡ units.now) }
    {
        let units = SmallVec::from_slice(alloc, units)?;
        Ok(Units { units })
    }

    /// The same text in UTF-8. `exact` reads it back.
    pub fn to_text(&self, alloc: Global) -> Result<String, AllocError>
        ensures { IfOk result (λ made. string_bytes made ≡ encode_utf8_all self.now) }
    {
        String::from_utf16_lossy(alloc, self.units.as_slice())
    }

    /// A copy of this text.
    pub fn copy(&self, alloc: Global) -> Result<Units, AllocError>
        ensures { IfOk result (λ made. made ≡ self.now) }
    {
        Units::from_slice(alloc, self.as_slice())
    }

    /// The units, in order.
    pub fn as_slice(&self) -> &[u16]
        ensures value { result.now ≡ self.now }
        ensures text { IsText result.now }
    {
        self.units.as_slice()
    }

    /// The number of units.
    pub fn len(&self) -> usize
        ensures value { result ≡ length self.now }
        ensures small { result < 2 ^ 63 }
    {
        self.units.as_slice().len()
    }

    /// Whether the text has no unit.
    pub fn is_empty(&self) -> bool
        ensures { IsTrue result ↔ (length self.now ≡ 0) }
    {
        self.units.is_empty()
    }

    /// Whether the two are the same text.
    pub fn same(&self, other: &Units) -> bool
        ensures { IsTrue result ↔ (self.now ≡ other.now) }
    {
        self == other
    }

    /// Puts `other` in before the unit number `at`. Where memory is wanting, nothing changes.
    #[tactic(auto, using(crate::proofs::Texts::put_keeps))]
    pub fn put_in(&mut self, at: usize, other: &[u16]) -> Result<(), AllocError>
        requires in_text { at ≤ length self.old }
        requires text { IsText other.now }
        ensures ok { OnOk result (self.new ≡ put_at self.old at other.now) }
        ensures err { OnErr result (self.new ≡ self.old) }
    {
        put_units(&mut self.units, at, other)
    }

    /// Takes `len` units out, from number `at` on.
    #[tactic(auto, using(crate::proofs::Texts::cut_keeps))]
    pub fn cut(&mut self, at: usize, len: usize)
        requires { at + len ≤ length self.old }
        ensures { self.new ≡ cut_at self.old at len }
    {
        cut_units(&mut self.units, at, len);
    }
}

// Both edit the units themselves: while they do, these are in no order that is a text's.

fn put_units(units: &mut SmallVec<u16, SHORT>, at: usize, other: &[u16]) -> Result<(), AllocError>
    requires { at ≤ small_vec_len units.old }
    ensures ok { OnOk result (units.new.items ≡ put_at units.old.items at other.now) }
    ensures err { OnErr result (units.new.items ≡ units.old.items) }
{
    units.extend_from_slice(other)?;
    units.as_mut_slice()[at..].rotate_right(other.len());
    Ok(())
}

fn cut_units(units: &mut SmallVec<u16, SHORT>, at: usize, len: usize)
    requires { at + len ≤ small_vec_len units.old }
    ensures { units.new.items ≡ cut_at units.old.items at len }
{
    let kept = units.len() - len;
    units.as_mut_slice()[at..].rotate_left(len);
    units.truncate(kept);
}

impl PartialEq for Units {
    ghost eq = { pointwise nat_eq };

    ghost laws = { partial_equiv_from_equiv nat_list_eq_equiv };

    fn eq(&self, other: &Units) -> bool {
        self.as_slice() == other.as_slice()
    }
}

impl Eq for Units {
    ghost laws = { nat_list_eq_equiv };
}
