//! The projects of a book, each with what was applied to its documents and not handed out.
#![tactic(auto)]

mod project;
mod projects;

pub use projects::Projects;
