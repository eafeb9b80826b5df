//! The kinds of lines by their names.

ghost use Rattle.report_reader.specs.Kinds.{act_kind, client_act, end_kind, kind_of_name, line_kind, load_act, lock_act, other_act};
ghost use Rattle.report_reader.specs.Refused.{Reads};
ghost use Rattle.serde_json.specs.View.{view};
ghost use Rattle.std.specs.Prelude.{◌≡◌};

use crate::fields::text;
use crate::refusal::Refusal;
use serde_json::Value;

/// What a line shows.
#[derive(Clone, Copy, Drop)]
pub(crate) enum LineKind {
    Entry(ActKind),
    Document,
    Client,
    Project,
}

/// What happened in an entry.
#[derive(Clone, Copy, Drop)]
pub(crate) enum ActKind {
    Made,
    Ticked,
    Joined,
    Edited,
    Sent,
    Malformed,
    Got,
    Left,
    Acquired,
    Loaded,
    LoadFailed,
    LoadDiffers,
    Committed,
    Released,
    Flushed,
    FlushFailed,
    Unloaded,
    Handed,
    Declined,
    Closed,
}

/// The kind that a line's `e` names.
pub(crate) fn read_kind(value: &Value) -> Result<LineKind, Refusal>
    ensures { Reads result (line_kind (view value.now)) }
{
    let name = text(value, "e")?;
    kind_of_name(name).ok_or(Refusal::Outside)
}

fn kind_of_name(name: &str) -> Option<LineKind>
    ensures { result ≡ kind_of_name name.now }
{
    if let Some(kind) = end_kind(name) {
        return Some(kind);
    }
    let kind = act_kind(name)?;
    Some(LineKind::Entry(kind))
}

fn end_kind(name: &str) -> Option<LineKind>
    ensures { result ≡ end_kind name.now }
{
    if name == "doc" {
        return Some(LineKind::Document);
    }
    if name == "client" {
        return Some(LineKind::Client);
    }
    if name == "project" {
        return Some(LineKind::Project);
    }
    None
}

fn act_kind(name: &str) -> Option<ActKind>
    ensures { result ≡ act_kind name.now }
{
    if let Some(kind) = client_act(name) {
        return Some(kind);
    }
    if let Some(kind) = lock_act(name) {
        return Some(kind);
    }
    if let Some(kind) = load_act(name) {
        return Some(kind);
    }
    other_act(name)
}

fn client_act(name: &str) -> Option<ActKind>
    ensures { result ≡ client_act name.now }
{
    if name == "joined" {
        return Some(ActKind::Joined);
    }
    if name == "edited" {
        return Some(ActKind::Edited);
    }
    if name == "sent" {
        return Some(ActKind::Sent);
    }
    if name == "malformed" {
        return Some(ActKind::Malformed);
    }
    if name == "got" {
        return Some(ActKind::Got);
    }
    if name == "left" {
        return Some(ActKind::Left);
    }
    None
}

fn lock_act(name: &str) -> Option<ActKind>
    ensures { result ≡ lock_act name.now }
{
    if name == "acquired" {
        return Some(ActKind::Acquired);
    }
    if name == "committed" {
        return Some(ActKind::Committed);
    }
    if name == "released" {
        return Some(ActKind::Released);
    }
    if name == "flushed" {
        return Some(ActKind::Flushed);
    }
    if name == "flush-failed" {
        return Some(ActKind::FlushFailed);
    }
    if name == "unloaded" {
        return Some(ActKind::Unloaded);
    }
    None
}

fn load_act(name: &str) -> Option<ActKind>
    ensures { result ≡ load_act name.now }
{
    if name == "loaded" {
        return Some(ActKind::Loaded);
    }
    if name == "load-failed" {
        return Some(ActKind::LoadFailed);
    }
    if name == "load-differs" {
        return Some(ActKind::LoadDiffers);
    }
    None
}

fn other_act(name: &str) -> Option<ActKind>
    ensures { result ≡ other_act name.now }
{
    if name == "made" {
        return Some(ActKind::Made);
    }
    if name == "ticked" {
        return Some(ActKind::Ticked);
    }
    if name == "handed" {
        return Some(ActKind::Handed);
    }
    if name == "declined" {
        return Some(ActKind::Declined);
    }
    if name == "closed" {
        return Some(ActKind::Closed);
    }
    None
}
