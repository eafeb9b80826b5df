//! Where bytes come from and where they go. A [`Source`] and a [`Sink`] tell what was read and
//! written, and count their faults, so that a caller's contract can say which bytes an answer
//! stands on and that a fault of the outside has come. There are forms in memory, for tests and
//! proofs, and forms over `std::io`.
#![tactic(auto)]

mod buffer;
mod memory;
mod read;
mod recorded;
mod sink;
mod source;
mod std_io;
mod sure;

pub use buffer::{BUFFER_SIZE, WriteBuffer};
pub use memory::{ByteSink, ByteSource};
pub use read::{INPUT_LIMIT, ReadFault, read_all};
pub use sink::{Sink, write_all};
pub use source::{Failed, Source};
pub use std_io::{StdSink, StdSource};
pub use sure::{SureSink, SureSource};

#[cfg(test)]
mod tests;
