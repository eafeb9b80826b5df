//! `run_alone`, all that the program does.

ghost use Rattle.std.specs.Prelude.{◌≡◌, ◌⊎◌, ◌≤◌};
ghost use Rattle.std.specs.Io.KnownBytes.{Keeps};
ghost use Rattle.session_runner.specs.Ending.{AreRun};
ghost use Rattle.session_runner.specs.Passing.{MayFail, passed, passed_keeper};
ghost use Rattle.session_runner.specs.Run.{Answers, Completes, IsCutShort, IsDone, IsNoScript, IsOtherWords, IsStatus, IsTooLong, IsUnflushed, IsUnread, IsWanting};

use crate::ending::{prepare, tell};
use keeper::Keeper;
use source_sink::{Sink, Source};
use std::alloc::Global;

/// How a run ended: its status, and its keeper.
#[derive(Drop)]
pub struct Ended<K> {
    pub status: u8,
    pub keeper: K,
}

/// Does what the words ask for: `run` reads a script from `input` and writes the report of its journal to `out`.
///
/// Documents that are flushed go to `keeper`, which is given back.
///
/// Each document is flushed at the end of the run, where its version isn't in the keeper yet.
///
/// The status is 0 where the run is done; 2 where the words aren't `run`; 3 where a line of the input can't be done;
/// 4 for want of memory; 5 where the input couldn't be read; 6 where the output couldn't be written; 7
/// where the run is done and reported, but the keeper failed in a flush at its end; and 8 where the input has more
/// than 16,777,216 bytes. A status but 0, 4, 6 and 7 has written one line `fault: ..`.
pub fn run_alone<S: Source, W: Sink, K: Keeper>(
    alloc: Global,
    words: &[String],
    input: &mut S,
    out: &mut W,
    keeper: K,
) -> Ended<K>
    ensures statuses { IsStatus result.status }

    // The whole input was read, and the report of a legal journal that follows it was written.
    ensures done { result.status ≡ 0 → IsDone words.now (passed S.left S.count input.old input.new) (passed W.written W.count out.old out.new) (passed_keeper K.tells K.documents K.count keeper result.keeper) }
    ensures words { result.status ≡ 2 → IsOtherWords words.now (passed S.left S.count input.old input.new) (passed W.written W.count out.old out.new) }
    ensures script { result.status ≡ 3 → IsNoScript words.now (passed S.left S.count input.old input.new) (passed W.written W.count out.old out.new) }
    ensures memory { result.status ≡ 4 → IsWanting words.now (passed S.left S.count input.old input.new) (passed W.written W.count out.old out.new) (passed_keeper K.tells K.documents K.count keeper result.keeper) }
    ensures read { result.status ≡ 5 → IsUnread words.now (passed S.left S.count input.old input.new) (passed W.written W.count out.old out.new) }
    ensures written { result.status ≡ 6 → IsCutShort words.now (passed S.left S.count input.old input.new) (passed W.written W.count out.old out.new) (passed_keeper K.tells K.documents K.count keeper result.keeper) }
    ensures unflushed { result.status ≡ 7 → IsUnflushed words.now (passed S.left S.count input.old input.new) (passed W.written W.count out.old out.new) (passed_keeper K.tells K.documents K.count keeper result.keeper) }
    ensures long { result.status ≡ 8 → IsTooLong words.now (passed S.left S.count input.old input.new) (passed W.written W.count out.old out.new) }

    // The keeper's count of faults didn't fall, wherever the status isn't 4; and where no line was done the keeper is
    // as it was.
    ensures later { (result.status ≡ 4) ⊎ (K.count keeper ≤ K.count result.keeper) }
    ensures unasked { (result.status ≡ 2) ⊎ (result.status ≡ 3) ⊎ (result.status ≡ 5) ⊎ (result.status ≡ 8) → result.keeper ≡ keeper }

    // Behind other words nothing is read.
    ensures other_words { ¬ AreRun words.now → ((result.status ≡ 2) ⊎ ((result.status ≡ 6) × MayFail (passed W.written W.count out.old out.new))) × Keeps (S.left input.old) (S.left input.new) }

    // Over a source that tells, the status is that of what was taken.
    ensures answers { Answers words.now (passed S.left S.count input.old input.new) (passed W.written W.count out.old out.new) (passed_keeper K.tells K.documents K.count keeper result.keeper) result.status }

    // Where neither source, sink nor keeper fails, only want of memory stands between an input and its end.
    ensures complete { Completes words.now (passed S.left S.count input.old input.new) (passed W.written W.count out.old out.new) (passed_keeper K.tells K.documents K.count keeper result.keeper) result.status }
{
    let ending = prepare(alloc, words, input, keeper);
    let status = tell(alloc, out, &ending);
    Ended {
        status,
        keeper: ending.into_keeper(),
    }
}
