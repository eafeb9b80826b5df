//! Reading a script line by line.

ghost use Rattle.std.specs.Prelude.{◌≡◌, ◌≢◌, ◌≤◌, ◌^◌, ◌<◌, [], length, Ok, Err, Some, None, IfOk, IfErr, OnOk, option_map};
ghost use Rattle.session_lines.specs.Object.{IsWhole, object_data};
ghost use Rattle.session_lines.specs.Standing.{AreBySessions, AreSlow, AreStanding};
ghost use Rattle.session_lines.specs.Script.{by_command, by_session, next_script, script, script_of, with_line, with_value};
ghost use Rattle.session_lines.specs.declared.limits.TheConstants.{MAX_SESSIONS};

use crate::action_line::read_action_line;
use crate::command::{Action, Command, read_command};
use crate::doc_line::read_doc;
use crate::earlier::Earlier;
use crate::fault::ScriptFault;
use crate::fields::name_of;
use crate::keys::count_line_keys;
use crate::limits::MAX_SESSIONS;
use crate::line::Line;
use crate::names::Names;
use crate::object::{LineObject, count_keys, read_object, text_of};
use crate::script::Script;
use json::Scratch;
use json_lines::first_line;
use std::alloc::{AllocError, Global};

/// The script that a text is, or its first bad line.
///
/// Lines are cut at U+000A, and one at the end opens no further line. The fault names the first line
/// that can't stand where it does, numbered from 1.
pub fn read_script(alloc: Global, bytes: &[u8]) -> Result<Script, ScriptFault>
    ensures ok { IfOk result (λ read. script_of bytes.now ≡ Ok read) }
    ensures standing { IfOk result (λ read. AreStanding [] read.lines) }
    ensures numbered { IfOk result (λ read. AreBySessions read.sessions read.lines) }
    ensures named { IfOk result (λ read. length read.names ≡ read.sessions) }
    ensures slow { IfOk result (λ read. AreSlow (length bytes.now) read.lines) }
    ensures short { IfOk result (λ read. length read.lines ≤ length bytes.now) }
    ensures fault { IfErr result (λ e. e ≢ ScriptFault.Memory → script_of bytes.now ≡ Err e) }
{
    read_lines(alloc, bytes)
}

fn read_lines(alloc: Global, bytes: &[u8]) -> Result<Script, ScriptFault>
    ensures ok { IfOk result (λ read. script_of bytes.now ≡ Ok read) }
    ensures fault { IfErr result (λ e. e ≢ ScriptFault.Memory → script_of bytes.now ≡ Err e) }
{
    let mut names = Names::new(alloc);
    let mut earlier = Earlier::new(alloc);
    let mut scratch = Scratch::new(alloc);
    let mut rest = bytes;
    let mut n = 1u64;
    'lines: while !rest.is_empty() {
        let (line, behind) = first_line(rest);
        earlier = read_line(alloc, &mut scratch, n, &mut names, earlier, line)?;
        rest = behind;
        n += 1;
    }
    Ok(Script {
        lines: earlier.into_lines(),
        sessions: names.len() as u32,
        names,
    })
}

// The lines with the one of number n. At most 256 names stay within bounds.
fn read_line(
    alloc: Global,
    scratch: &mut Scratch,
    n: u64,
    names: &mut Names,
    earlier: Earlier,
    line: &[u8],
) -> Result<Earlier, ScriptFault>
    requires { length names.old ≤ MAX_SESSIONS }
    ensures ok { IfOk result (λ more. next_script n (script earlier names.old) line.now ≡ Ok (script more names.new)) }
    ensures few { OnOk result (length names.new ≤ MAX_SESSIONS) }
    ensures fault { IfErr result (λ e. e ≢ ScriptFault.Memory → next_script n (script earlier names.old) line.now ≡ Err e) }
{
    match read_object(alloc, scratch, line) {
        Ok(Some(object)) => read_command_line(alloc, n, names, earlier, &object),
        Ok(None) => Err(ScriptFault::Json(n)),
        Err(_) => Err(ScriptFault::Memory),
    }
}

fn read_command_line(
    alloc: Global,
    n: u64,
    names: &mut Names,
    earlier: Earlier,
    object: &LineObject<'_>,
) -> Result<Earlier, ScriptFault>
    requires whole { IsWhole object.now }
    requires few { length names.old ≤ MAX_SESSIONS }
    ensures ok { IfOk result (λ more. with_value n (script earlier names.old) (Some (object_data object.now)) ≡ Ok (script more names.new)) }
    ensures few { OnOk result (length names.new ≤ MAX_SESSIONS) }
    ensures fault { IfErr result (λ e. e ≢ ScriptFault.Memory → with_value n (script earlier names.old) (Some (object_data object.now)) ≡ Err e) }
{
    let Some(name) = text_of(object, "do") else {
        return Err(ScriptFault::Form(n));
    };
    let Some(command) = read_command(name) else {
        return Err(ScriptFault::Unknown(n));
    };
    if count_keys(object) != count_line_keys(command, object) {
        return Err(ScriptFault::Form(n));
    }
    match read_fields(alloc, command, names, earlier, object) {
        Ok(Some(more)) => Ok(more),
        Ok(None) => Err(ScriptFault::Form(n)),
        Err(_) => Err(ScriptFault::Memory),
    }
}

fn read_fields(
    alloc: Global,
    command: Command,
    names: &mut Names,
    earlier: Earlier,
    object: &LineObject<'_>,
) -> Result<Option<Earlier>, AllocError>
    requires { length names.old ≤ MAX_SESSIONS }
    ensures value { IfOk result (λ read. option_map (λ more. script more names.new) read ≡ by_command earlier names.old command (object_data object.now)) }
    ensures few { IfOk result (λ read. read ≢ None → length names.new ≤ MAX_SESSIONS) }
{
    match command {
        Command::Doc => match read_doc(alloc, object)? {
            Some(line) => with(alloc, names, earlier, line),
            None => Ok(None),
        },
        Command::BySession(action) => read_action(alloc, action, names, earlier, object),
    }
}

fn read_action(
    alloc: Global,
    action: Action,
    names: &mut Names,
    earlier: Earlier,
    object: &LineObject<'_>,
) -> Result<Option<Earlier>, AllocError>
    ensures value { IfOk result (λ read. option_map (λ more. script more names.new) read ≡ by_command earlier names.old (Command.BySession action) (object_data object.now)) }
    ensures few { IfOk result (λ read. read ≢ None → length names.new ≤ MAX_SESSIONS) }
{
    let Some(name) = name_of(alloc, object, "as")? else {
        return Ok(None);
    };
    let session = names.insert(name)?;
    if names.len() > MAX_SESSIONS {
        return Ok(None);
    }
    let Some(line) = read_action_line(alloc, action, session as u32, object)? else {
        return Ok(None);
    };
    with(alloc, names, earlier, line)
}

// The lines with one more, where it may stand behind them.
fn with(
    alloc: Global,
    names: &Names,
    earlier: Earlier,
    line: Line,
) -> Result<Option<Earlier>, AllocError>
    ensures { IfOk result (λ read. option_map (λ more. script more names.now) read ≡ with_line earlier names.now line) }
{
    if !earlier.takes(&line) {
        return Ok(None);
    }
    let more = earlier.with(alloc, line)?;
    Ok(Some(more))
}
