//! `Scalar`, a value that is one token.

ghost use Rattle.std.specs.Prelude.{ℕ, List, ◌∷◌, IfSome};
ghost use Rattle.json.specs.Reads.{token_of};
ghost use Rattle.json.specs.Token as spec;
ghost use Rattle.line_reader.specs.Fields.{scalar_data};
ghost use Rattle.line_reader.specs.Reads.{Reads};

use crate::number::decimal_of;
use json::Token;

/// A text, a whole number below 2^64, or a flag.
#[derive(Clone, Copy, Drop)]
pub enum Scalar<'r> {
    Text(&'r str),
    Number(u64),
    Flag(bool),
}

/// The scalar that a token is.
pub(crate) fn scalar_of<'r>(token: Token<'r>) -> Option<Scalar<'r>>
    ensures { IfSome result (λ scalar. (depth : ℕ) (rest : List spec.Token) → Reads depth (token_of token.entry ∷ rest) (scalar_data scalar) rest) }
{
    match token {
        Token::String(text) => Some(Scalar::Text(text)),
        Token::Number(text) => {
            let n = decimal_of(text)?;
            Some(Scalar::Number(n))
        }
        Token::Bool(flag) => Some(Scalar::Flag(flag)),
        _ => None,
    }
}
