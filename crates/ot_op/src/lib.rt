//! Operations on texts, after ShareJS 0.5's text type: their components, what they do to a text,
//! how two become one, and how one is undone.
#![tactic(auto)]

mod append_comp;
mod apply_op;
mod comp;
mod compose_ops;
mod fault;
mod invert_op;
mod limits;
mod op;
#[cfg(test)]
mod tests;
mod text_like;

pub use append_comp::{append, append_same};
pub use apply_op::apply;
pub use comp::Comp;
pub use compose_ops::{compose, compose_same};
pub use fault::{ApplyFault, FormFault};
pub use invert_op::{invert, invert_undoes};
pub use limits::{MAX_COMPONENTS, MAX_OPERATION_UNITS, MAX_PLACE, MAX_TEXT_UNITS};
pub use op::{Comps, Op};
pub use text_like::TextLike;
