//! The lines of the entries that come most, written straight, without an object, behind what a
//! buffer holds.

ghost use Rattle.std.specs.Prelude.{◌≡◌, ◌++◌, [], IfOk, OnOk};
ghost use Rattle.json_lines.specs.Object.{line_of};
ghost use Rattle.journal_entries.specs.declared.act.Act.{Act};
ghost use Rattle.journal_entries.specs.declared.update.Outcome.{Outcome};
ghost use Rattle.line_writer.specs.Puts.{Puts};
ghost use Rattle.report_text.specs.Entries.{entry_members};
ghost use Rattle.report_text.specs.Got.{error_back, got_back, versioned_back};
ghost use Rattle.report_text.specs.Sent.{sent_back, sent_front};

use crate::heading::Heading;
use crate::members::{put_name, put_op, put_op_of, put_optional, put_sources};
use journal_entries::{Brief, Update};
use line_writer::LineWriter;
use ot_op::{Comp, Op};
use std::alloc::{AllocError, Global};

/// The line of an update that was sent.
pub(crate) fn sent_line(
    alloc: Global,
    bytes: Vec<u8>,
    heading: &Heading,
    update: &Update,
) -> Result<Vec<u8>, AllocError>
    ensures { IfOk result (λ made. made.items ≡ bytes.items ++ line_of (entry_members heading.now.board heading.now.n []
        (record { seat = heading.now.seat; line = heading.now.line; act = Act.Sent update.now }))) }
{
    let mut line = LineWriter::begin(bytes)?;
    put_front(&mut line, heading, update)?;
    put_back(&mut line, alloc, heading, update)?;
    line.finish()
}

fn put_front(line: &mut LineWriter, heading: &Heading, update: &Update) -> Result<(), AllocError>
    ensures { OnOk result (Puts line.old line.new (sent_front heading.now update.now)) }
{
    line.number("b", heading.board as u64)?;
    put_optional(line, "client", update.client)?;
    line.number("doc", update.doc as u64)?;
    put_sources(line, "dup", &update.dup)?;
    line.text("e", "sent")?;
    put_optional(line, "line", heading.line)?;
    line.number("ms", update.ms)?;
    line.number("n", heading.n)
}

fn put_back(
    line: &mut LineWriter,
    alloc: Global,
    heading: &Heading,
    update: &Update,
) -> Result<(), AllocError>
    ensures { OnOk result (Puts line.old line.new (sent_back heading.now update.now)) }
{
    line.number("number", update.number)?;
    put_op(line, alloc, "op", &update.op)?;
    line.number("seat", heading.seat as u64)?;
    line.number("source", update.source)?;
    line.flag("track", update.track)?;
    put_name(line, "user", &update.user)?;
    line.number("v", update.v)
}

/// An update that was applied at a version, as what it had become.
#[derive(Clone, Copy, Drop)]
pub(crate) struct Applied<'e> {
    pub doc: u32,
    pub token: u64,
    pub ticket: u64,
    pub v: u64,
    pub op: &'e Op,
}

/// The line of an update that was applied.
pub(crate) fn applied_line(
    alloc: Global,
    bytes: Vec<u8>,
    heading: &Heading,
    applied: &Applied<'_>,
) -> Result<Vec<u8>, AllocError>
    ensures { IfOk result (λ made. made.items ≡ bytes.items ++ line_of (entry_members heading.now.board heading.now.n []
        (record { seat = heading.now.seat; line = heading.now.line; act = Act.Committed applied.now.doc applied.now.token applied.now.ticket (Outcome.Applied applied.now.v applied.now.op.now) }))) }
{
    let mut line = LineWriter::begin(bytes)?;
    line.number("b", heading.board as u64)?;
    line.number("doc", applied.doc as u64)?;
    line.text("e", "committed")?;
    put_optional(&mut line, "line", heading.line)?;
    line.number("n", heading.n)?;
    put_op(&mut line, alloc, "op", applied.op)?;
    line.text("out", "applied")?;
    line.number("seat", heading.seat as u64)?;
    line.number("ticket", applied.ticket)?;
    line.number("token", applied.token)?;
    line.number("v", applied.v)?;
    line.finish()
}

/// The line of a lock that was taken.
pub(crate) fn acquired_line(
    bytes: Vec<u8>,
    heading: &Heading,
    doc: u32,
    token: u64,
    until: u64,
) -> Result<Vec<u8>, AllocError>
    ensures { IfOk result (λ made. made.items ≡ bytes.items ++ line_of (entry_members heading.now.board heading.now.n []
        (record { seat = heading.now.seat; line = heading.now.line; act = Act.Acquired doc token until }))) }
{
    let mut line = LineWriter::begin(bytes)?;
    line.number("b", heading.board as u64)?;
    line.number("doc", doc as u64)?;
    line.text("e", "acquired")?;
    put_optional(&mut line, "line", heading.line)?;
    line.number("n", heading.n)?;
    line.number("seat", heading.seat as u64)?;
    line.number("token", token)?;
    line.number("until", until)?;
    line.finish()
}

/// The line of a lock that was let go.
pub(crate) fn released_line(
    bytes: Vec<u8>,
    heading: &Heading,
    doc: u32,
    token: u64,
) -> Result<Vec<u8>, AllocError>
    ensures { IfOk result (λ made. made.items ≡ bytes.items ++ line_of (entry_members heading.now.board heading.now.n []
        (record { seat = heading.now.seat; line = heading.now.line; act = Act.Released doc token }))) }
{
    let mut line = LineWriter::begin(bytes)?;
    line.number("b", heading.board as u64)?;
    line.number("doc", doc as u64)?;
    line.text("e", "released")?;
    put_optional(&mut line, "line", heading.line)?;
    line.number("n", heading.n)?;
    line.number("seat", heading.seat as u64)?;
    line.number("token", token)?;
    line.finish()
}

/// The line of an edit by a client.
pub(crate) fn edited_line(
    alloc: Global,
    bytes: Vec<u8>,
    heading: &Heading,
    client: u32,
    comp: &Comp,
) -> Result<Vec<u8>, AllocError>
    ensures { IfOk result (λ made. made.items ≡ bytes.items ++ line_of (entry_members heading.now.board heading.now.n []
        (record { seat = heading.now.seat; line = heading.now.line; act = Act.Edited client comp.now }))) }
{
    let mut line = LineWriter::begin(bytes)?;
    line.number("b", heading.board as u64)?;
    line.number("client", client as u64)?;
    line.text("e", "edited")?;
    put_optional(&mut line, "line", heading.line)?;
    line.number("n", heading.n)?;
    put_op_of(&mut line, alloc, "op", comp)?;
    line.number("seat", heading.seat as u64)?;
    line.finish()
}

/// The line of a message that a client got.
pub(crate) fn got_line(
    bytes: Vec<u8>,
    heading: &Heading,
    client: u32,
    brief: &Brief,
) -> Result<Vec<u8>, AllocError>
    ensures { IfOk result (λ made. made.items ≡ bytes.items ++ line_of (entry_members heading.now.board heading.now.n []
        (record { seat = heading.now.seat; line = heading.now.line; act = Act.Got client brief.now }))) }
{
    let mut line = LineWriter::begin(bytes)?;
    line.number("b", heading.board as u64)?;
    line.number("client", client as u64)?;
    line.text("e", "got")?;
    put_optional(&mut line, "line", heading.line)?;
    put_message(&mut line, heading, brief)?;
    line.finish()
}

fn put_message(line: &mut LineWriter, heading: &Heading, brief: &Brief) -> Result<(), AllocError>
    ensures { OnOk result (Puts line.old line.new (got_back heading.now brief.now)) }
{
    match brief {
        Brief::Op(v) => put_versioned(line, heading, "op", *v),
        Brief::Ack(v) => put_versioned(line, heading, "ack", *v),
        Brief::Error(number) => put_error(line, heading, *number),
    }
}

fn put_versioned(
    line: &mut LineWriter,
    heading: &Heading,
    msg: &str,
    v: u64,
) -> Result<(), AllocError>
    ensures { OnOk result (Puts line.old line.new (versioned_back heading.now msg.now v)) }
{
    line.text("msg", msg)?;
    line.number("n", heading.n)?;
    line.number("seat", heading.seat as u64)?;
    line.number("v", v)
}

fn put_error(line: &mut LineWriter, heading: &Heading, number: u64) -> Result<(), AllocError>
    ensures { OnOk result (Puts line.old line.new (error_back heading.now number)) }
{
    line.text("msg", "error")?;
    line.number("n", heading.n)?;
    line.number("number", number)?;
    line.number("seat", heading.seat as u64)
}
