//! `Boards`, the journals of the boards while they are read.

ghost use Rattle.report_reader.specs.Reports.{with_entry};
ghost use Rattle.journal_entries.specs.Journals.{entries};
ghost use Rattle.std.specs.Prelude.{◌≡◌, [], Some, None, IfOk, IfErr, map};

use crate::list::Listed;
use crate::refusal::Refusal;
use journal_entries::{Entry, Journal};
use std::alloc::{AllocError, Global};
use std::marker::Model;

/// The journals of the boards. Contracts see the entries of each; none is empty.
#[derive(Drop)]
pub(crate) struct Boards {
    done: Vec<Journal>,
    /// The journal that may go on; it is empty only before the first entry.
    last: Journal,
}

impl Model for Boards {
    ghost use Rattle.std.specs.Prelude.{◌≡◌, [], List, map};
    ghost use Rattle.journal_entries.specs.Journals.{entries};
    ghost use Rattle.journal_entries.specs.declared.act.Entry.{Entry};
    ghost use Rattle.report_reader.specs.Boards.{boards_of};

    ghost Value = { List (List Entry) };

    ghost view = { λ s. boards_of (map entries s.done.items) (entries s.last) };

    ghost invariant = { λ s. entries s.last ≡ [] → s.done.items ≡ [] };
}

impl Boards {
    /// No journals. Takes no memory.
    pub(crate) fn new(alloc: Global) -> Boards
        ensures { result ≡ [] }
    {
        Boards {
            done: Vec::new(alloc),
            last: Journal::new(alloc),
        }
    }

    /// These journals with an entry more, of number `n` on board `b`.
    pub(crate) fn with(self, alloc: Global, b: u32, n: u64, entry: Entry) -> Result<Boards, Refusal>
        ensures ok { IfOk result (λ more. with_entry b n entry self ≡ Some more) }
        ensures outside { IfErr result (λ e. e ≡ Refusal.Outside → with_entry b n entry self ≡ None) }
    {
        let Boards { mut done, mut last } = self;
        let board = done.len() as u64;
        if b as u64 == board && n == last.len() {
            last.reserve(1)?;
            last.push(entry);
            return Ok(Boards { done, last });
        }
        if b as u64 == board + 1 && n == 0 && last.len() > 0 {
            let mut next = Journal::new(alloc);
            next.reserve(1)?;
            next.push(entry);
            done.push(last)?;
            return Ok(Boards { done, last: next });
        }
        Err(Refusal::Outside)
    }

    /// The journals alone.
    pub(crate) fn into_journals(self) -> Result<Listed<Journal>, AllocError>
        ensures { IfOk result (λ journals. map entries journals ≡ self) }
    {
        let Boards { mut done, last } = self;
        if last.len() > 0 {
            done.push(last)?;
        }
        Ok(Listed::new(done))
    }
}
