//! The documents of a run are made before anybody else writes.

ghost use Rattle.std.specs.Prelude.{◌≡◌, ◌≤◌, ◌<◌, ◌^◌, ◌-◌, ℕ, [], length, IfOk, IfErr, OnOk, OnErr, Some, All};
ghost use Rattle.book.specs.Shown.{adds};
ghost use Rattle.journal_rules.specs.Documents.{makings};
ghost use Rattle.journal_rules.specs.Legal.{closed};
ghost use Rattle.run_rules.specs.Keeping.{nothing_kept};
ghost use Rattle.run_rules.specs.Lines.{Leads};
ghost use Rattle.run_rules.specs.Threads.{document_lines};
ghost use Rattle.turn_rules.specs.Turns.{Alone};
ghost use Rattle.script_driver.specs.Fitting.{AreFit, IsFit};
ghost use Rattle.script_driver.specs.Handing.{items_handed};
ghost use Rattle.script_driver.specs.Making.{making_acts};

use crate::driver::make;
use book::{Book, By};
use keeper::Keeper;
use session_lines::Line;
use std::alloc::{AllocError, Global};

/// A book of so many drivers over a keeper, in which seat 0 did the lines that make documents, under their
/// numbers from 1 on, and nothing else. Where memory is wanting the keeper is given back as it was.
pub fn make_documents<K: Keeper>(
    alloc: Global,
    keeper: K,
    drivers: u32,
    lines: &[Line],
) -> Result<Book<K>, K>
    requires drivers { drivers ≤ 16 }
    requires fit { AreFit [] lines.now }
    requires few { length lines.now < 2 ^ 32 - 1 }
    ensures leads { IfOk result (λ book. Leads 0 Alone (document_lines lines.now) nothing_kept [] book.journal) }
    ensures seat { IfOk result (λ book. All (λ e. e.seat ≡ 0) book.journal) }
    ensures drivers { IfOk result (λ book. book.drivers ≡ drivers) }
    ensures start { IfOk result (λ book. book.start ≡ record { faults = K.count keeper; documents = K.documents keeper }) }
    ensures handed { IfOk result (λ book. items_handed book.journal ≡ []) }
    ensures closed { IfOk result (λ book. closed book.journal ≡ []) }
    ensures kept { IfErr result (λ kept. (K.documents kept ≡ K.documents keeper) × (K.count kept ≡ K.count keeper)) }
{
    let mut book = match Book::new(alloc, keeper, drivers) {
        Ok(book) => book,
        Err((_, keeper)) => return Err(keeper),
    };
    let mut number = 1;
    for line in lines {
        let Ok(()) = make_where_told(&mut book, number, line) else {
            return Err(book.ended().0);
        };
        number += 1;
    }
    Ok(book)
}

// Makes a document where the line tells it.
fn make_where_told<K: Keeper>(
    book: &mut Book<K>,
    number: u32,
    line: &Line,
) -> Result<(), AllocError>
    requires { IsFit (makings book.old.journal) line.now }
    ensures ok { OnOk result (book.new ≡ adds book.old 0 (Some number) (making_acts (length (makings book.old.journal)) line.now)) }
    ensures kept { OnErr result (book.new ≡ book.old) }
{
    let by = By {
        seat: 0,
        line: Some(number),
    };
    match line {
        Line::Doc {
            doc,
            project,
            text,
            v,
        } => make(book, by, doc, project, text, *v),
        _ => Ok(()),
    }
}
