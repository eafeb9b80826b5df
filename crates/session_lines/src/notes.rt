//! What the index of the lines notes of each line.

ghost use Rattle.std.specs.Prelude.{◌≡◌, ℕ, nat_eq, OnOk};
ghost use Rattle.indexmap.specs.IndexMap.{get};
ghost use Rattle.session_lines.specs.Command.{first_of};
ghost use Rattle.session_lines.specs.Earlier.{with_optional_name};
ghost use Rattle.session_lines.specs.Script.{join_of, joined_by, made_document};

use crate::line::Line;
use indexmap::{IndexMap, IndexSet};
use ot_units::Name;
use std::alloc::{AllocError, Global};

/// Notes the document that a line makes.
pub(crate) fn note_document(
    alloc: Global,
    documents: &mut IndexSet<Name>,
    line: &Line,
) -> Result<(), AllocError>
    ensures { OnOk result (documents.new.keys ≡ with_optional_name documents.old.keys (made_document line.now)) }
{
    if let Some(doc) = line.made_document() {
        let doc = doc.copy(alloc)?;
        documents.insert(doc)?;
    }
    Ok(())
}

/// Notes the document of a session's first join.
pub(crate) fn note_home(
    alloc: Global,
    homes: &mut IndexMap<u32, Name>,
    line: &Line,
) -> Result<(), AllocError>
    ensures { OnOk result ((s : ℕ) → get nat_eq homes.new s ≡ first_of (get nat_eq homes.old s) (joined_by s (join_of line.now))) }
{
    if let Some((session, doc)) = line.join()
        && !homes.contains_key(&session)
    {
        let doc = doc.copy(alloc)?;
        homes.insert(session, doc)?;
    }
    Ok(())
}
