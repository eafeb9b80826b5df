//! Marks: whose change a cell belongs to, which one new cells get, and which one they tear.

ghost use Rattle.std.specs.Prelude.{◌≡◌, ◌≤◌, IfOk};
ghost use Rattle.ranges_tracker.specs.Cells.{same_mark, fresh_mark, own, chosen, bears, torn};
ghost use Rattle.ranges_tracker.specs.Torn.{renumber_by, torn_by, torn_count};

use crate::{Change, Stamp};
use ot_units::Name;
use std::alloc::{AllocError, Global};

/// Whose change a cell belongs to, and when it was made. Definitions speak of marks; the ranges have
/// them in their changes.
#[derive(Drop)]
pub struct Mark {
    /// The version at which the update was applied.
    pub version: u64,
    /// Which of the update's fresh marks it is, from 0.
    pub k: u32,
    /// Who made the change.
    pub user: Name,
    /// When, in the script's milliseconds.
    pub ms: u64,
}

/// The mark of new cells, if they get one, as definitions speak of it.
#[derive(Drop)]
pub struct Chosen {
    /// The mark.
    pub mark: Option<Mark>,
    /// How many fresh marks that takes, 0 or 1.
    pub fresh: u32,
}

// The torn mark and the fresh id that takes its place in what follows.
#[derive(Drop)]
pub(crate) struct Torn {
    pub(crate) old: Mark,
    pub(crate) version: u64,
    pub(crate) k: u32,
}

impl Mark {
    pub(crate) fn copy(&self, alloc: Global) -> Result<Mark, AllocError>
        ensures { IfOk result (λ made. made ≡ self.now) }
    {
        Ok(Mark {
            version: self.version,
            k: self.k,
            user: self.user.copy(alloc)?,
            ms: self.ms,
        })
    }

    pub(crate) fn is(&self, other: &Mark) -> bool
        ensures { result ≡ same_mark self.now other.now }
    {
        self.version == other.version
            && (self.k == other.k
                && (self.ms == other.ms && self.user.as_str() == other.user.as_str()))
    }

    pub(crate) fn fresh(alloc: Global, stamp: &Stamp, k: u32) -> Result<Mark, AllocError>
        ensures { IfOk result (λ made. made ≡ fresh_mark stamp.now k) }
    {
        Ok(Mark {
            version: stamp.version,
            k,
            user: stamp.user.copy(alloc)?,
            ms: stamp.ms,
        })
    }
}

// A copy of a mark, where it is this user's.
fn own(alloc: Global, user: &Name, mark: &Option<Mark>) -> Result<Option<Mark>, AllocError>
    ensures { IfOk result (λ o. o ≡ own user.now mark.now) }
{
    match mark {
        None => Ok(None),
        Some(mark) => {
            if user.as_str() != mark.user.as_str() {
                return Ok(None);
            }
            Ok(Some(mark.copy(alloc)?))
        }
    }
}

// The mark of new cells between two marks.
pub(crate) fn choose(
    alloc: Global,
    before: &Option<Mark>,
    after: &Option<Mark>,
    stamp: &Stamp,
    k: u32,
) -> Result<Chosen, AllocError>
    ensures value { IfOk result (λ c. c ≡ chosen before.now after.now stamp.now k) }
    ensures few { IfOk result (λ c. c.fresh ≤ 1) }
{
    if !stamp.track {
        return Ok(Chosen {
            mark: None,
            fresh: 0,
        });
    }
    if let Some(mark) = own(alloc, &stamp.user, before)? {
        return Ok(Chosen {
            mark: Some(mark),
            fresh: 0,
        });
    }
    if let Some(mark) = own(alloc, &stamp.user, after)? {
        return Ok(Chosen {
            mark: Some(mark),
            fresh: 0,
        });
    }
    Ok(Chosen {
        mark: Some(Mark::fresh(alloc, stamp, k)?),
        fresh: 1,
    })
}

fn bears(found: &Option<Mark>, mark: &Mark) -> bool
    ensures { result ≡ bears found.now mark.now }
{
    match found {
        None => false,
        Some(found) => found.is(mark),
    }
}

// A mark on both sides of a place where cells come in that don't bear it.
pub(crate) fn find_torn(
    alloc: Global,
    before: &Option<Mark>,
    after: &Option<Mark>,
    new: &Option<Mark>,
    version: u64,
    k: u32,
) -> Result<Option<Torn>, AllocError>
    ensures { IfOk result (λ o. o ≡ torn_by (torn before.now after.now new.now) version k) }
{
    match before {
        None => Ok(None),
        Some(mark) => {
            if !bears(after, mark) || bears(new, mark) {
                return Ok(None);
            }
            Ok(Some(Torn {
                old: mark.copy(alloc)?,
                version,
                k,
            }))
        }
    }
}

pub(crate) fn torn_count(torn: &Option<Torn>) -> u32
    ensures value { result ≡ torn_count torn.now }
    ensures few { result ≤ 1 }
{
    match torn {
        None => 0,
        Some(_) => 1,
    }
}

pub(crate) fn renumber(change: &mut Change, torn: &Option<Torn>)
    ensures { change.new ≡ renumber_by torn.now change.old }
{
    if let Some(torn) = torn {
        if change.bears(&torn.old) {
            change.version = torn.version;
            change.k = torn.k;
        }
    }
}
