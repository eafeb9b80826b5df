//! Reading a source to its end.

ghost use Rattle.source_sink.specs.Causes.{HasCauseOf};
ghost use Rattle.source_sink.specs.Outside.{Took};
ghost use Rattle.source_sink.specs.declared.read.ReadFault.TheVariants.{Failed as FailedRead};

use crate::source::Source;
use std::alloc::Global;
use thiserror::Error;

/// How many bytes a whole input may have: 16 MiB.
pub const INPUT_LIMIT: usize = 16_777_216;

/// How many bytes are read at a time.
const PIECE: usize = 8192;

/// Why an input was not read to its end.
#[derive(Clone, Copy, Debug, PartialEq, Eq, Error)]
pub enum ReadFault {
    /// The source failed.
    #[error("the source failed")]
    Failed,
    /// More than [`INPUT_LIMIT`] bytes were taken from the source.
    #[error("the input is longer than {INPUT_LIMIT} bytes")]
    TooLong,
    /// Memory was wanting.
    #[error("out of memory")]
    Memory,
}

/// Reads the source to its end, and answers all of its bytes. It takes at most one piece past
/// [`INPUT_LIMIT`].
///
/// # Errors
///
/// [`ReadFault::Failed`] only where the source's count of faults rose; [`ReadFault::TooLong`]
/// exactly where more than [`INPUT_LIMIT`] bytes were taken; [`ReadFault::Memory`] for want of memory.
pub fn read_all<S: Source>(alloc: Global, input: &mut S) -> Result<Vec<u8>, ReadFault>
    ensures took { Took INPUT_LIMIT (S.left input.old) (S.left input.new) result }
    ensures cause { HasCauseOf (S.count input.old) (S.count input.new) result FailedRead }
{
    let mut bytes = Vec::new(alloc);
    let mut piece = [0; PIECE];
    'reading: loop {
        let Ok(count) = input.read(&mut piece) else {
            return Err(ReadFault::Failed);
        };
        if count == 0 {
            return Ok(bytes);
        }
        if INPUT_LIMIT - bytes.len() < count {
            return Err(ReadFault::TooLong);
        }
        if bytes.extend_from_slice(&piece[..count]).is_err() {
            return Err(ReadFault::Memory);
        }
    }
}
