//! What an element of an operation's array is read as.
ghost use Rattle.std.specs.Prelude.{◌≡◌, IfOk, option_map};
ghost use Rattle.ot_json.specs.Form.{written_data, written_of};
ghost use Rattle.ot_json.specs.Reading.{reading_of, sent_reading, stored_reading, unless_void};
ghost use Rattle.serde_json.specs.Data.{Data};
ghost use Rattle.serde_json.specs.View.{view};

use crate::component::{Component, component_of, read_component};
use line_reader::Edit;
use ot_op::Comp;
use ot_units::Units;
use serde_json::Value;
use std::alloc::{AllocError, Global};

/// Whose operations are read.
#[derive(Clone, Copy, Drop)]
pub(crate) enum Grammar {
    /// Those that clients send. Inserted text is made free of surrogates, and an insert or delete of
    /// the empty text is dropped.
    Sent,
    /// Those that this project wrote, which are exactly as they are read.
    Stored,
}

/// What an element is read as.
#[derive(Drop)]
pub(crate) enum Reading {
    /// This component.
    Kept(Comp),
    /// An insert or delete of the empty text, which isn't kept.
    Dropped,
    /// A delete or comment of a text with a supplementary character.
    Supplementary,
    /// No component.
    OutOfForm,
}

/// An element of an operation's array.
pub(crate) trait Element {
    /// The value that it is.
    ghost value: { Self → Data };

    /// What it is read as.
    fn read(&self, alloc: Global, grammar: Grammar) -> Result<Reading, AllocError>
        ensures { IfOk result (λ reading. reading ≡ reading_of grammar (written_of (value self.now))) };
}

impl Element for Value {
    ghost value = { view };

    fn read(&self, alloc: Global, grammar: Grammar) -> Result<Reading, AllocError> {
        read_element(alloc, grammar, read_component(self))
    }
}

impl Element for Edit<'_> {
    ghost use Rattle.line_reader.specs.Fields.{edit_data};

    ghost value = { edit_data };

    fn read(&self, alloc: Global, grammar: Grammar) -> Result<Reading, AllocError> {
        read_element(alloc, grammar, component_of(self))
    }
}

// What the component of an element is read as.
fn read_element(
    alloc: Global,
    grammar: Grammar,
    component: Option<Component<'_>>,
) -> Result<Reading, AllocError>
    ensures { IfOk result (λ reading. reading ≡ reading_of grammar (option_map written_data component.entry)) }
{
    let Some(component) = component else {
        return Ok(Reading::OutOfForm);
    };
    match grammar {
        Grammar::Sent => read_sent(alloc, &component),
        Grammar::Stored => read_stored(alloc, &component),
    }
}

fn read_sent(alloc: Global, component: &Component<'_>) -> Result<Reading, AllocError>
    ensures { IfOk result (λ reading. reading ≡ sent_reading (written_data component.now)) }
{
    match component {
        Component::Insert(text, place) => {
            let units = Units::sanitized(alloc, text)?;
            Ok(keep(Comp::Ins(*place, units), Reading::Dropped))
        }
        Component::Delete(text, place) => match Units::exact(alloc, text)? {
            Some(units) => Ok(keep(Comp::Del(*place, units), Reading::Dropped)),
            None => Ok(Reading::Supplementary),
        },
        Component::Comment(text, place, thread) => match Units::exact(alloc, text)? {
            Some(units) => Ok(Reading::Kept(Comp::Com(*place, units, *thread))),
            None => Ok(Reading::Supplementary),
        },
    }
}

fn read_stored(alloc: Global, component: &Component<'_>) -> Result<Reading, AllocError>
    ensures { IfOk result (λ reading. reading ≡ stored_reading (written_data component.now)) }
{
    match component {
        Component::Insert(text, place) => match Units::exact(alloc, text)? {
            Some(units) => Ok(keep(Comp::Ins(*place, units), Reading::OutOfForm)),
            None => Ok(Reading::OutOfForm),
        },
        Component::Delete(text, place) => match Units::exact(alloc, text)? {
            Some(units) => Ok(keep(Comp::Del(*place, units), Reading::OutOfForm)),
            None => Ok(Reading::Supplementary),
        },
        Component::Comment(text, place, thread) => match Units::exact(alloc, text)? {
            Some(units) => Ok(Reading::Kept(Comp::Com(*place, units, *thread))),
            None => Ok(Reading::Supplementary),
        },
    }
}

// A component, or what is read where it inserts or deletes the empty text.
fn keep(comp: Comp, void: Reading) -> Reading
    ensures { result ≡ unless_void void comp }
{
    if comp.is_void() {
        void
    } else {
        Reading::Kept(comp)
    }
}
