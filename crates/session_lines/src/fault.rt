//! `ScriptFault`, why a text is no script.

use thiserror::Error;

/// The first bad line of a script, numbered from 1, and what is wrong with it.
#[derive(Debug, Drop, Error)]
pub enum ScriptFault {
    /// The line is no JSON value.
    #[error("line {0} is no JSON value")]
    Json(u64),
    /// The line is no object, has no text `do`, or its fields aren't those of its command.
    #[error("line {0} isn't of the form of its command")]
    Form(u64),
    /// The line's `do` names no command.
    #[error("line {0} names no command")]
    Unknown(u64),
    /// Memory was wanting.
    #[error("out of memory")]
    Memory,
}
