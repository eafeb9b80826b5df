//! The items of a history in an entry's line.

ghost use Rattle.std.specs.Prelude.{◌≡◌, IfOk, OnOk, codes, false};
ghost use Rattle.serde_json.specs.Data.{object as object_data};
ghost use Rattle.serde_json.specs.View.{view};
ghost use Rattle.serde_json.specs.Written.{has_float};
ghost use Rattle.json_lines.specs.Object.{members_of, with_member};
ghost use Rattle.report_text.specs.Entries.{item_members, items_data};

use history_queue::Item;
use json_lines::Object;
use ot_json::write_op;
use serde_json::Value;
use std::alloc::{AllocError, Global};

/// Puts the items of a history in.
pub(crate) fn put_items(object: &mut Object, items: &[Item]) -> Result<(), AllocError>
    ensures { OnOk result (members_of object.new ≡ with_member (codes "items") (items_data items.now) (members_of object.old)) }
{
    let array = items_value(object.alloc(), items)?;
    object.set("items", array)
}

fn items_value(alloc: Global, items: &[Item]) -> Result<Value, AllocError>
    ensures data { IfOk result (λ value. view value ≡ items_data items.now) }
    ensures plain { IfOk result (λ value. has_float (view value) ≡ false) }
{
    let mut values = Vec::new(alloc);
    for item in items {
        values.push(item_value(alloc, item)?)?;
    }
    Ok(Value::Array(values))
}

fn item_value(alloc: Global, item: &Item) -> Result<Value, AllocError>
    ensures data { IfOk result (λ value. view value ≡ object_data (item_members item.now)) }
    ensures plain { IfOk result (λ value. has_float (view value) ≡ false) }
{
    let op = write_op(alloc, &item.op)?;
    let mut object = Object::new(alloc);
    object.set_number("doc", item.doc as u64)?;
    object.set_number("len", item.length_before)?;
    object.set_number("ms", item.ms)?;
    object.set("op", op)?;
    object.set_text("user", item.user.as_str())?;
    object.set_number("v", item.v)?;
    Ok(object.value())
}
