//! Edits of a client.

ghost use Rattle.std.specs.Prelude.{◌≡◌, ◌≤◌, ◌+◌, ◌-◌, ◌^◌, length, min, sum_by, take, drop, unwrap_or, None, Some, IfErr, IfOk, OnOk, OnErr};
ghost use Rattle.ot_op.specs.Apply.{applied};
ghost use Rattle.ot_op.specs.Compose.{appended};
ghost use Rattle.ot_op.specs.Operation.{units_of};
ghost use Rattle.journal_rules.specs.Client.{edited_by};
ghost use Rattle.share_client.specs.Edits.{IsEdit, edit_comp, edit_end, edit_fault, full_fault, IsRefusal, IsSizeRefusal};

use crate::ShareClient;
use journal_rules::ClientState;
use ot_op::{Comp, MAX_COMPONENTS, MAX_OPERATION_UNITS, Op, append};
use ot_text::{DocText, OpenText, doc_part};
use ot_units::Units;
use std::alloc::{AllocError, Global};
use std::mem::replace;

/// An edit of a client's text. Places and lengths count UTF-16 code units of the text as the client
/// shows it.
#[derive(Debug, Drop)]
pub enum Edit {
    /// Puts a text in at a place.
    Insert {
        /// The place.
        at: u32,
        /// What is put in.
        text: Units,
    },
    /// Takes units out.
    Delete {
        /// The place of the first.
        at: u32,
        /// How many.
        len: u32,
    },
    /// Sets a thread of comments to a part of the text.
    Comment {
        /// The part's place.
        at: u32,
        /// Its length.
        len: u32,
        /// The thread's number.
        thread: u32,
    },
}

/// Why an edit was refused.
#[derive(Clone, Copy, Debug, PartialEq, Eq)]
pub enum EditFault {
    /// The client isn't joined.
    NotJoined,
    /// The edit reaches past the end of the client's text.
    PastEnd {
        /// How many units the text has.
        len: u64,
    },
    /// What is pending would be too large to be sent.
    Full {
        /// How many components it would have.
        comps: u64,
        /// How many units their texts would have.
        units: u64,
    },
    /// There wasn't enough memory.
    Memory,
}

impl Edit {
    fn end(&self) -> u64
        ensures { result ≡ edit_end self.now }
    {
        match self {
            Edit::Insert { at, .. } => *at as u64,
            Edit::Delete { at, len } | Edit::Comment { at, len, .. } => *at as u64 + *len as u64,
        }
    }

    // Its component, with the text taken from the client's text, which reaches as far.
    fn comp(&self, alloc: Global, text: &DocText) -> Result<Comp, AllocError>
        requires { edit_end self.now ≤ length text.now }
        ensures { IfOk result (λ comp. comp ≡ edit_comp text.now self.now) }
    {
        match self {
            Edit::Insert { at, text: part } => Ok(Comp::Ins(*at, part.copy(alloc)?)),
            Edit::Delete { at, len } => Ok(Comp::Del(*at, part_of(alloc, text, *at, *len)?)),
            Edit::Comment { at, len, thread } => {
                Ok(Comp::Com(*at, part_of(alloc, text, *at, *len)?, *thread))
            }
        }
    }
}

fn part_of(alloc: Global, text: &DocText, at: u32, len: u32) -> Result<Units, AllocError>
    requires { at + len ≤ length text.now }
    ensures { IfOk result (λ part. part ≡ take len (drop at text.now)) }
{
    match doc_part(alloc, text, at as usize, len as usize)? {
        Some(part) => Ok(part),
        None => unreachable!(),
    }
}

// A component behind an operation.
fn with_comp(alloc: Global, op: &Op, comp: &Comp) -> Result<Op, AllocError>
    ensures { IfOk result (λ made. made ≡ appended op.now comp.now) }
{
    let mut made = op.copy(alloc)?;
    match append(&mut made, comp.copy(alloc)?) {
        Ok(()) => Ok(made),
        Err((fault, _)) => Err(fault),
    }
}

pub(crate) fn units(comps: &[Comp]) -> u64
    ensures { result ≡ min (sum_by units_of comps.now) (2 ^ 64 - 1) }
{
    let mut count = 0;
    for comp in comps {
        count = units_in(comp).saturating_add(count);
    }
    count
}

fn units_in(comp: &Comp) -> u64
    ensures { result ≡ units_of comp.now }
{
    match comp {
        Comp::Ins(_, part) | Comp::Del(_, part) | Comp::Com(_, part, _) => part.len() as u64,
    }
}

// Whether an operation is too large to be sent, and how large it is. Where it has more units than
// can be counted, which no memory holds, memory is wanting.
fn check_size(pending: &Op) -> Result<(), EditFault>
    ensures fits { OnOk result (full_fault pending.now ≡ None) }
    ensures full { IfErr result (IsSizeRefusal pending.now) }
{
    let comps = pending.comps().len() as u64;
    let units = units(pending.comps());
    if units == u64::MAX {
        return Err(EditFault::Memory);
    }
    if comps > MAX_COMPONENTS || units > MAX_OPERATION_UNITS {
        return Err(EditFault::Full { comps, units });
    }
    Ok(())
}

// Applies a component to a text, where it applies. Where memory is wanting, nothing changes.
fn apply(alloc: Global, text: &mut DocText, comp: &Comp) -> Result<(), AllocError>
    ensures ok { OnOk result (text.new ≡ unwrap_or (applied text.old comp.now) text.old) }
    ensures err { OnErr result (text.new ≡ text.old) }
{
    let mut open = replace(text, DocText::new(alloc)).open();
    let done = apply_comp(&mut open, comp);
    *text = open.close();
    done
}

// Applies a component in place, where it applies. Where memory is wanting, nothing changes.
fn apply_comp(text: &mut OpenText, comp: &Comp) -> Result<(), AllocError>
    ensures ok { OnOk result (text.new.units ≡ unwrap_or (applied text.old.units comp.now) text.old.units) }
    ensures err { OnErr result (text.new.units ≡ text.old.units) }
{
    match comp {
        Comp::Ins(at, part) if *at as usize <= text.len() => {
            text.insert(*at as usize, part.as_slice())
        }
        Comp::Del(at, part) if text.same_at(*at as usize, part.as_slice()) => {
            text.ready(*at as usize, part.len())?;
            text.remove(*at as usize, part.len());
            Ok(())
        }
        _ => Ok(()),
    }
}

impl ShareClient {
    /// Edits the client's text, and answers the edit's component, which is pending then. It's refused,
    /// the first that holds, with [`EditFault::NotJoined`] where the client isn't joined, with
    /// [`EditFault::PastEnd`] where the edit reaches past the end of its text, and with
    /// [`EditFault::Full`] where what is pending would have more than 1,000 components or 65,536 units.
    /// A refusal changes nothing.
    pub fn edit(&mut self, edit: &Edit) -> Result<Comp, EditFault>
        requires edit { IsEdit edit.now }
        ensures ok { IfOk result (λ comp. (comp ≡ edit_comp self.old.now.text edit.now) × (edit_fault self.old.now edit.now ≡ None) × (self.new ≡ record self.old { now = edited_by self.old.now comp })) }
        ensures refused { IfErr result (λ fault. IsRefusal self.old.now edit.now fault) }
        ensures kept { OnErr result (self.new ≡ self.old) }
    {
        if self.state != ClientState::Joined {
            return Err(EditFault::NotJoined);
        }
        let len = self.text.len() as u64;
        if len < edit.end() {
            return Err(EditFault::PastEnd { len });
        }
        let Ok(comp) = edit.comp(self.alloc, &self.text) else {
            return Err(EditFault::Memory);
        };
        let Ok(pending) = with_comp(self.alloc, &self.pending, &comp) else {
            return Err(EditFault::Memory);
        };
        check_size(&pending)?;
        let Ok(()) = apply(self.alloc, &mut self.text, &comp) else {
            return Err(EditFault::Memory);
        };
        self.pending = pending;
        Ok(comp)
    }
}
