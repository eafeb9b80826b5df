//! Reading an entry.

ghost use Rattle.report_reader.specs.Entries.{entry_of, item_of, items_of};
ghost use Rattle.report_reader.specs.Refused.{Reads};
ghost use Rattle.serde_json.specs.View.{view};

use crate::act::read_act;
use crate::element::{Element, elements};
use crate::fields::{name, number, operation, small_number, small_or_null};
use crate::kind::ActKind;
use crate::list::Listed;
use crate::refusal::Refusal;
use history_queue::Item;
use journal_entries::Entry;
use serde_json::Value;
use std::alloc::Global;

/// An entry as its line shows it: with its board, its number in the board's journal, and the items
/// that it hands out.
#[derive(Drop)]
pub(crate) struct EntryLine {
    pub board: u32,
    pub n: u64,
    pub entry: Entry,
    pub items: Listed<Item>,
}

/// The entry of a kind that a line shows.
pub(crate) fn read_entry(alloc: Global, kind: ActKind, value: &Value) -> Result<EntryLine, Refusal>
    ensures { Reads result (entry_of kind (view value.now)) }
{
    let board = small_number(value, "b")?;
    let n = number(value, "n")?;
    let seat = small_number(value, "seat")?;
    let line = small_or_null(value, "line")?;
    let items = read_items(alloc, kind, value)?;
    let count = items.as_slice().len() as u64;
    let act = read_act(alloc, kind, count, value)?;
    Ok(EntryLine {
        board,
        n,
        entry: Entry { seat, line, act },
        items,
    })
}

fn read_items(alloc: Global, kind: ActKind, value: &Value) -> Result<Listed<Item>, Refusal>
    ensures { Reads result (items_of kind (view value.now)) }
{
    match kind {
        ActKind::Handed => Ok(Listed::new(elements(alloc, value, "items")?)),
        _ => Ok(Listed::new(Vec::new(alloc))),
    }
}

impl Element for Item {
    ghost meaning = { item_of };

    fn read(alloc: Global, value: &Value) -> Result<Item, Refusal> {
        let doc = small_number(value, "doc")?;
        let v = number(value, "v")?;
        let op = operation(alloc, value, "op")?;
        let user = name(alloc, value, "user")?;
        let ms = number(value, "ms")?;
        let length_before = number(value, "len")?;
        Ok(Item {
            doc,
            v,
            op,
            user,
            ms,
            length_before,
        })
    }
}
