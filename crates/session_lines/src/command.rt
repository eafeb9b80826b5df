//! The commands by their names.

ghost use Rattle.std.specs.Prelude.{◌≡◌};
ghost use Rattle.session_lines.specs.Command.{command_of, action_of, session_action_of, edit_action_of, document_action_of};

/// What a line's `do` names.
#[derive(Clone, Copy, Drop)]
pub(crate) enum Command {
    /// Makes a document; no session does it.
    Doc,
    /// Is done by the session that `as` names.
    BySession(Action),
}

/// What a session does.
#[derive(Clone, Copy, Drop)]
pub(crate) enum Action {
    Tick,
    Raw,
    Join,
    Rejoin,
    Leave,
    Send,
    Resend,
    Recv,
    Sync,
    Finish,
    Ins,
    Del,
    Com,
    Drain,
    Hold,
    Flush,
    Unload,
    Hand,
}

/// The command of this name.
pub(crate) fn read_command(name: &str) -> Option<Command>
    ensures { result ≡ command_of name.now }
{
    if name == "doc" {
        return Some(Command::Doc);
    }
    let action = read_action(name)?;
    Some(Command::BySession(action))
}

fn read_action(name: &str) -> Option<Action>
    ensures { result ≡ action_of name.now }
{
    if let Some(action) = read_session_action(name) {
        return Some(action);
    }
    if let Some(action) = read_edit_action(name) {
        return Some(action);
    }
    read_document_action(name)
}

fn read_session_action(name: &str) -> Option<Action>
    ensures { result ≡ session_action_of name.now }
{
    if name == "tick" {
        return Some(Action::Tick);
    }
    if name == "join" {
        return Some(Action::Join);
    }
    if name == "rejoin" {
        return Some(Action::Rejoin);
    }
    if name == "leave" {
        return Some(Action::Leave);
    }
    if name == "recv" {
        return Some(Action::Recv);
    }
    if name == "sync" {
        return Some(Action::Sync);
    }
    None
}

fn read_edit_action(name: &str) -> Option<Action>
    ensures { result ≡ edit_action_of name.now }
{
    if name == "ins" {
        return Some(Action::Ins);
    }
    if name == "del" {
        return Some(Action::Del);
    }
    if name == "com" {
        return Some(Action::Com);
    }
    if name == "send" {
        return Some(Action::Send);
    }
    if name == "resend" {
        return Some(Action::Resend);
    }
    if name == "raw" {
        return Some(Action::Raw);
    }
    None
}

fn read_document_action(name: &str) -> Option<Action>
    ensures { result ≡ document_action_of name.now }
{
    if name == "drain" {
        return Some(Action::Drain);
    }
    if name == "hold" {
        return Some(Action::Hold);
    }
    if name == "finish" {
        return Some(Action::Finish);
    }
    if name == "flush" {
        return Some(Action::Flush);
    }
    if name == "unload" {
        return Some(Action::Unload);
    }
    if name == "hand" {
        return Some(Action::Hand);
    }
    None
}
