//! The line of a client at the end.

ghost use Rattle.std.specs.Prelude.{◌≡◌, IfOk, OnOk};
ghost use Rattle.serde_json.specs.Data.{member};
ghost use Rattle.json_lines.specs.Object.{line_of};
ghost use Rattle.line_writer.specs.Puts.{Puts};
ghost use Rattle.report_text.specs.Clients.{client_members, operation_or_null, state_name as state_name_lem, text_or_null};

use crate::members::{begin_line, put_name, put_op};
use line_writer::LineWriter;
use ot_op::Op;
use ot_units::{Name, Units};
use std::alloc::{AllocError, Global};

/// Where a client stands at the end of a run.
#[derive(Clone, Copy, Debug, PartialEq, Eq, Drop)]
pub enum EndState {
    /// It is in its document's room.
    Joined,
    /// It left.
    Left,
    /// Its operation in flight was refused, and it never joined again.
    Stale,
}

/// A client at the end of a run, which joined a document at least once.
#[derive(Debug, Drop)]
pub struct ClientEnd {
    /// The number of its board.
    pub b: u32,
    /// Its own number, which is that of its session.
    pub client: u32,
    /// The number of its document.
    pub doc: u32,
    /// Its operation in flight, if one is.
    pub flight: Option<Op>,
    /// The name of its session.
    pub name: Name,
    /// What it edited since it sent last.
    pub pending: Op,
    pub state: EndState,
    /// Its text, and none of a client that is stale.
    pub text: Option<Units>,
    /// The version that its text has under its own operations.
    pub v: u64,
}

/// The line of a client at the end, written straight, without an object.
pub fn client_line(alloc: Global, end: &ClientEnd) -> Result<Vec<u8>, AllocError>
    ensures { IfOk result (λ bytes. bytes.items ≡ line_of (client_members end.now)) }
{
    let mut line = begin_line(alloc)?;
    line.number("b", end.b as u64)?;
    line.number("client", end.client as u64)?;
    line.number("doc", end.doc as u64)?;
    line.text("e", "client")?;
    put_op_or_null(&mut line, alloc, "flight", &end.flight)?;
    put_name(&mut line, "name", &end.name)?;
    put_op(&mut line, alloc, "pending", &end.pending)?;
    line.text("state", state_name(end.state))?;
    put_text_or_null(&mut line, alloc, "text", &end.text)?;
    line.number("v", end.v)?;
    line.finish()
}

fn state_name(state: EndState) -> &'static str
    ensures { result.now ≡ state_name_lem state }
{
    match state {
        EndState::Joined => "joined",
        EndState::Left => "left",
        EndState::Stale => "stale",
    }
}

fn put_op_or_null(
    line: &mut LineWriter,
    alloc: Global,
    key: &str,
    op: &Option<Op>,
) -> Result<(), AllocError>
    ensures { OnOk result (Puts line.old line.new (member key.now (operation_or_null op.now))) }
{
    match op {
        Some(op) => put_op(line, alloc, key, op),
        None => line.null(key),
    }
}

fn put_text_or_null(
    line: &mut LineWriter,
    alloc: Global,
    key: &str,
    text: &Option<Units>,
) -> Result<(), AllocError>
    ensures { OnOk result (Puts line.old line.new (member key.now (text_or_null text.now))) }
{
    let Some(text) = text else {
        return line.null(key);
    };
    let utf8 = text.to_text(alloc)?;
    line.text(key, utf8.as_str())
}
