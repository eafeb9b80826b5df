//! `Name`, what documents, projects, sessions and users are called.

ghost use Rattle.std.specs.Prelude.{◌≡◌, ◌↔◌, IsTrue, IfOk, Some, nat_eq};
ghost use Rattle.std.specs.List.{list_all};
ghost use Rattle.std.specs.Cmp.{partial_equiv_from_equiv};
ghost use Rattle.std.specs.Cmp.Lexicographic.{pointwise, nat_list_eq_equiv};
ghost use Rattle.std.specs.Cmp.Rules.{hashing};
ghost use Rattle.std.specs.Hash as fed;
ghost use Rattle.std.proofs.Common.{rules};
ghost use Rattle.ot_units.specs.Text.{is_name, is_name_byte_lem, name_of};

use arrayvec::ArrayString;
use std::alloc::{AllocError, Global};
use std::fmt;
use std::hash::{Hash, Hasher};
use std::marker::Model;

/// The greatest number of bytes in a name.
const LONGEST: usize = 64;

/// How many bytes a name may have that takes no memory.
const SHORT: usize = 16;

/// A name's bytes.
#[derive(Drop)]
enum Kept {
    Short(ArrayString<SHORT>),
    Long(String),
}

impl Kept {
    ghost use Rattle.ot_units.specs.Kept.{kept_bytes};

    fn new(alloc: Global, text: &str) -> Result<Kept, AllocError>
        ensures { IfOk result (λ made. kept_bytes made ≡ text.now) }
    {
        match ArrayString::from(text) {
            Ok(short) => Ok(Kept::Short(short)),
            Err(_) => Ok(Kept::Long(String::from_str(alloc, text)?)),
        }
    }

    fn as_str(&self) -> &str
        ensures { result.now ≡ kept_bytes self.now }
    {
        match self {
            Kept::Short(short) => short.as_str(),
            Kept::Long(long) => long.as_str(),
        }
    }
}

impl fmt::Debug for Kept {
    fn fmt<W: fmt::Write>(&self, f: &mut fmt::Formatter<W>) -> fmt::Result {
        fmt::Debug::fmt(self.as_str(), f)
    }
}

/// 1 to 64 bytes, each an ASCII letter, a digit, `-` or `_`: the name of a document, project,
/// session or user.
#[derive(Debug, Drop)]
pub struct Name {
    text: Kept,
}

impl Model for Name {
    ghost use Rattle.std.specs.Prelude.{ℕ, List, IsTrue};
    ghost use Rattle.ot_units.specs.Text.{is_name};
    ghost use Rattle.ot_units.specs.Kept.{kept_bytes};

    ghost Value = { List ℕ };

    ghost view = { λ s. kept_bytes s.text };

    ghost invariant = { λ s. IsTrue (is_name (kept_bytes s.text)) };
}

impl Name {
    /// The name that a text is, or `None` where it isn't of the form.
    pub fn read(alloc: Global, text: &str) -> Result<Option<Name>, AllocError>
        ensures { IfOk result (λ made. made ≡ name_of text.now) }
    {
        if !is_name_text(text.as_bytes()) {
            return Ok(None);
        }
        let text = Kept::new(alloc, text)?;
        Ok(Some(Name { text }))
    }

    /// The name's bytes as text.
    pub fn as_str(&self) -> &str
        ensures value { result.now ≡ self.now }
        ensures name { IsTrue (is_name result.now) }
    {
        self.text.as_str()
    }

    /// A copy of this name.
    pub fn copy(&self, alloc: Global) -> Result<Name, AllocError>
        ensures { IfOk result (λ made. made ≡ self.now) }
    {
        let text = Kept::new(alloc, self.as_str())?;
        Ok(Name { text })
    }

    /// Whether the two are the same name.
    pub fn same(&self, other: &Name) -> bool
        ensures { IsTrue result ↔ (self.now ≡ other.now) }
    {
        self == other
    }
}

impl PartialEq for Name {
    ghost eq = { pointwise nat_eq };

    ghost laws = { partial_equiv_from_equiv nat_list_eq_equiv };

    fn eq(&self, other: &Name) -> bool {
        self.as_str() == other.as_str()
    }
}

impl Eq for Name {
    ghost laws = { nat_list_eq_equiv };
}

impl Hash for Name {
    ghost hash_input = { fed.str };

    ghost respects_eq = { Prim.search (hashing, rules) };

    fn hash<H: Hasher>(&self, state: &mut H) {
        self.as_str().hash(state);
    }
}

impl fmt::Display for Name {
    ghost output = { λ name. Some name };

    fn fmt<W: fmt::Write>(&self, f: &mut fmt::Formatter<W>) -> fmt::Result {
        f.write_str(self.as_str())
    }
}

#[tactic(auto, unfolding(crate::specs::Text::is_name_byte_lem))]
fn is_name_byte(byte: u8) -> bool
    ensures { result ≡ is_name_byte_lem byte }
{
    byte.is_ascii_alphanumeric() || byte == b'-' || byte == b'_'
}

fn is_name_text(text: &[u8]) -> bool
    ensures { result ≡ is_name text.now }
{
    1 <= text.len() && text.len() <= LONGEST && has_name_bytes(text)
}

fn has_name_bytes(text: &[u8]) -> bool
    ensures { result ≡ list_all is_name_byte_lem text.now }
{
    text.iter().all(|byte| is_name_byte(*byte))
}
