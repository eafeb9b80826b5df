//! Reading a whole report.

ghost use Rattle.report_reader.specs.Drafts.{drafted};
ghost use Rattle.report_reader.specs.Fields.{and_then};
ghost use Rattle.report_reader.specs.Pieces.{piece_of};
ghost use Rattle.report_reader.specs.Reports.{is_whole as is_whole_lem, report_of, told_by, with_line, with_piece};
ghost use Rattle.std.specs.Prelude.{◌≡◌, ◌≢◌, Some, None, Ok, Err, IfOk, IfErr};

use crate::draft::Draft;
use crate::fault::ReportFault;
use crate::piece::read_piece;
use crate::refusal::Refusal;
use crate::report::Report;
use json_lines::first_line;
use std::alloc::Global;

/// The report that a text is, or its first line that is outside the grammar.
///
/// Each line is exactly the one that is written of what it shows, with a line feed behind it, the
/// last line too. Entries come first, then documents, clients and projects. The first entry is number
/// 0 of board 0, and each further one is the next number of the same board, or number 0 of the next
/// board. Whether the numbers, texts and last lines are those of a run isn't looked at.
pub fn read_report(alloc: Global, bytes: &[u8]) -> Result<Report, ReportFault>
    ensures ok { IfOk result (λ report. report_of bytes.now ≡ Ok (told_by report)) }
    ensures fault { IfErr result (λ e. e ≢ ReportFault.Memory → report_of bytes.now ≡ Err e) }
{
    let draft = read_lines(alloc, bytes)?;
    match draft.into_report() {
        Ok(report) => Ok(report),
        Err(_) => Err(ReportFault::Memory),
    }
}

fn read_lines(alloc: Global, bytes: &[u8]) -> Result<Draft, ReportFault>
    ensures ok { IfOk result (λ draft. report_of bytes.now ≡ Ok (drafted draft)) }
    ensures fault { IfErr result (λ e. e ≢ ReportFault.Memory → report_of bytes.now ≡ Err e) }
{
    let mut draft = Draft::new(alloc);
    let mut rest = bytes;
    let mut done = 0u64;
    'lines: while !rest.is_empty() {
        let (line, behind) = first_line(rest);
        done += 1;
        draft = with_next(alloc, draft, done, line)?;
        rest = behind;
    }
    if !is_whole(bytes) {
        return Err(ReportFault::Line(done));
    }
    Ok(draft)
}

// With the line of number n.
fn with_next(alloc: Global, draft: Draft, n: u64, line: &[u8]) -> Result<Draft, ReportFault>
    ensures ok { IfOk result (λ more. with_line n (drafted draft) line.now ≡ Ok (drafted more)) }
    ensures fault { IfErr result (λ e. e ≢ ReportFault.Memory → with_line n (drafted draft) line.now ≡ Err e) }
{
    match read_next(alloc, draft, line) {
        Ok(more) => Ok(more),
        Err(Refusal::Outside) => Err(ReportFault::Line(n)),
        Err(Refusal::Memory) => Err(ReportFault::Memory),
    }
}

fn read_next(alloc: Global, draft: Draft, line: &[u8]) -> Result<Draft, Refusal>
    ensures ok { IfOk result (λ more. and_then (piece_of line.now) (with_piece (drafted draft)) ≡ Some (drafted more)) }
    ensures outside { IfErr result (λ e. e ≡ Refusal.Outside → and_then (piece_of line.now) (with_piece (drafted draft)) ≡ None) }
{
    let piece = read_piece(alloc, line)?;
    draft.with(alloc, piece)
}

// Whether the last line has its line feed.
fn is_whole(bytes: &[u8]) -> bool
    ensures { result ≡ is_whole_lem bytes.now }
{
    match bytes.last() {
        Some(byte) => *byte == b'\n',
        None => true,
    }
}
