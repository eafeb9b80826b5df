//! Members that several lines have, written straight into a line. The lines' members are put in byte
//! order of their keys.

ghost use Rattle.std.specs.Prelude.{◌≡◌, [], ◌∷◌, codes, map, IfOk, OnOk};
ghost use Rattle.json.specs.Token.{begin_object};
ghost use Rattle.serde_json.specs.Data.{item, member, no_members, number, object, string, unsigned};
ghost use Rattle.json_lines.specs.Object.{optional, units_data};
ghost use Rattle.ot_op.specs.Compose.{appended};
ghost use Rattle.ot_json.specs.Grammar.{component_data, operation_data};
ghost use Rattle.line_writer.specs.Puts.{Puts, PutsElements, elements_before};
ghost use Rattle.report_text.specs.Values.{numbers_data};

use journal_entries::Sources;
use line_writer::LineWriter;
use ot_op::{Comp, Op};
use ot_units::{Name, Units};
use std::alloc::{AllocError, Global};

/// A line has room for so many bytes before more memory is taken.
const USUAL_LENGTH: usize = 240;

/// A line with no members yet.
pub(crate) fn begin_line(alloc: Global) -> Result<LineWriter, AllocError>
    ensures { IfOk result (λ line. (line.before ≡ []) × (line.tokens ≡ begin_object ∷ [])) }
{
    LineWriter::begin(Vec::with_capacity(alloc, USUAL_LENGTH)?)
}

/// Puts a whole number of 32 bits in, or `null` where there is none.
pub(crate) fn put_optional(
    line: &mut LineWriter,
    key: &str,
    n: Option<u32>,
) -> Result<(), AllocError>
    ensures { OnOk result (Puts line.old line.new (member key.now (optional n))) }
{
    match n {
        Some(n) => line.number(key, n as u64),
        None => line.null(key),
    }
}

/// Puts a name in.
pub(crate) fn put_name(line: &mut LineWriter, key: &str, name: &Name) -> Result<(), AllocError>
    ensures { OnOk result (Puts line.old line.new (member key.now (string name.now))) }
{
    line.text(key, name.as_str())
}

/// Puts sources in.
pub(crate) fn put_sources(
    line: &mut LineWriter,
    key: &str,
    sources: &Sources,
) -> Result<(), AllocError>
    ensures { OnOk result (Puts line.old line.new (member key.now (numbers_data sources.now))) }
{
    line.numbers(key, sources.as_slice())
}

/// Puts an operation in.
pub(crate) fn put_op(
    line: &mut LineWriter,
    alloc: Global,
    key: &str,
    op: &Op,
) -> Result<(), AllocError>
    ensures { OnOk result (Puts line.old line.new (member key.now (operation_data op.now))) }
{
    line.key(key)?;
    line.open_array()?;
    put_comps(line, alloc, op.comps())?;
    line.close_array()
}

/// Puts the operation of one component in; an insert or delete of the empty text is dropped.
pub(crate) fn put_op_of(
    line: &mut LineWriter,
    alloc: Global,
    key: &str,
    comp: &Comp,
) -> Result<(), AllocError>
    ensures { OnOk result (Puts line.old line.new (member key.now (operation_data (appended [] comp.now)))) }
{
    line.key(key)?;
    line.open_array()?;
    put_unless_void(line, alloc, comp)?;
    line.close_array()
}

fn put_unless_void(line: &mut LineWriter, alloc: Global, comp: &Comp) -> Result<(), AllocError>
    ensures { OnOk result (PutsElements line.old line.new (elements_before (map component_data (appended [] comp.now)))) }
{
    if comp.is_void() {
        return Ok(());
    }
    put_comp(line, alloc, comp)
}

fn put_comps(line: &mut LineWriter, alloc: Global, comps: &[Comp]) -> Result<(), AllocError>
    ensures { OnOk result (PutsElements line.old line.new (elements_before (map component_data comps.now))) }
{
    for comp in comps {
        put_comp(line, alloc, comp)?;
    }
    Ok(())
}

fn put_comp(line: &mut LineWriter, alloc: Global, comp: &Comp) -> Result<(), AllocError>
    ensures { OnOk result (PutsElements line.old line.new (item (component_data comp.now))) }
{
    match comp {
        Comp::Ins(place, text) => put_edit(line, alloc, "i", text, *place),
        Comp::Del(place, text) => put_edit(line, alloc, "d", text, *place),
        Comp::Com(place, text, thread) => put_comment(line, alloc, *place, text, *thread),
    }
}

fn put_edit(
    line: &mut LineWriter,
    alloc: Global,
    key: &str,
    text: &Units,
    place: u32,
) -> Result<(), AllocError>
    ensures { OnOk result (PutsElements line.old line.new (item (object (member key.now (units_data text.now) (member (codes "p") (number (unsigned place)) no_members))))) }
{
    let utf8 = text.to_text(alloc)?;
    line.open_object()?;
    line.text(key, utf8.as_str())?;
    line.number("p", place as u64)?;
    line.close_object()
}

fn put_comment(
    line: &mut LineWriter,
    alloc: Global,
    place: u32,
    text: &Units,
    thread: u32,
) -> Result<(), AllocError>
    ensures { OnOk result (PutsElements line.old line.new (item (component_data (Comp.Com place text.now thread)))) }
{
    let utf8 = text.to_text(alloc)?;
    line.open_object()?;
    line.text("c", utf8.as_str())?;
    line.number("p", place as u64)?;
    line.number("t", thread as u64)?;
    line.close_object()
}
