//! What the report of a run on one document says.

use crate::script::FIRST;
use json_lines::{array_of, number_of, read_value, text_of};
use ot_json::read_long;
use ot_op::apply;
use ot_units::Units;
use serde_json::Value;
use std::alloc::Global;
use std::test::Fail;

/// What the lines of a report come to.
#[derive(Drop)]
pub(crate) struct Ends {
    /// The first text with each operation that was applied, in order.
    pub(crate) replayed: String,
    /// The text of the document's line.
    pub(crate) document: String,
    /// The clients that are joined and have nothing in flight and nothing pending.
    pub(crate) clients: Vec<Resting>,
    /// What was typed.
    pub(crate) typed: Vec<Typed>,
}

/// A client with nothing of its own left, and its text.
#[derive(Drop)]
pub(crate) struct Resting {
    pub(crate) client: u64,
    pub(crate) text: String,
}

/// What a client put in by one edit.
#[derive(Drop)]
pub(crate) struct Typed {
    pub(crate) client: u64,
    pub(crate) text: String,
}

// Applies the operation of an entry to a text, where the entry says that one was applied.
fn replay(alloc: Global, text: &mut Units, entry: &Value) -> Result<(), Fail> {
    if text_of(entry, "out") != Some("applied") {
        return Ok(());
    }
    let Some(op) = entry.get("op") else {
        return Err(Fail::new("no operation"));
    };
    let op = read_long(alloc, op)?;
    apply(text, &op)?;
    Ok(())
}

fn is_at_rest(client: &Value) -> bool {
    let is_done = match array_of(client, "pending") {
        Some(pending) => pending.is_empty(),
        None => false,
    };
    text_of(client, "state") == Some("joined") && array_of(client, "flight").is_none() && is_done
}

fn shown_text(alloc: Global, line: &Value) -> Result<String, Fail> {
    match text_of(line, "text") {
        Some(text) => Ok(String::from_str(alloc, text)?),
        None => Err(Fail::new("no text")),
    }
}

fn client_of(line: &Value) -> Result<u64, Fail> {
    match number_of(line, "client") {
        Some(client) => Ok(client),
        None => Err(Fail::new("no client")),
    }
}

// The text that an edit puts in, where it puts one in.
fn typed_text(entry: &Value) -> Option<&str> {
    let comp = array_of(entry, "op")?.first()?;
    text_of(comp, "i")
}

/// Reads a report.
pub(crate) fn ends_of(alloc: Global, report: &[u8]) -> Result<Ends, Fail> {
    let Some(mut text) = Units::exact(alloc, FIRST)? else {
        return Err(Fail::new("the first text has a supplementary character"));
    };
    let mut document = String::new(alloc);
    let mut clients = Vec::new(alloc);
    let mut typed = Vec::new(alloc);
    for line in report.split(|byte| *byte == b'\n') {
        let Some(line) = read_value(alloc, line)? else {
            continue;
        };
        match text_of(&line, "e") {
            Some("committed") => replay(alloc, &mut text, &line)?,
            Some("doc") => document = shown_text(alloc, &line)?,
            Some("edited") => {
                if let Some(text) = typed_text(&line) {
                    typed.push(Typed {
                        client: client_of(&line)?,
                        text: String::from_str(alloc, text)?,
                    })?;
                }
            }
            Some("client") if is_at_rest(&line) => clients.push(Resting {
                client: client_of(&line)?,
                text: shown_text(alloc, &line)?,
            })?,
            _ => {}
        }
    }
    Ok(Ends {
        replayed: text.to_text(alloc)?,
        document,
        clients,
        typed,
    })
}
