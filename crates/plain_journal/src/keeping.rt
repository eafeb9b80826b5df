//! What of a document was put into the keeper, and whether it is cached.

ghost use Rattle.std.specs.Prelude.{◌≡◌, ◌↔◌, ◌≤◌, nat_le, IsTrue, All};
ghost use Rattle.std.specs.List.{list_all};
ghost use Rattle.journal_rules.specs.Keeping as rules;
ghost use Rattle.plain_journal.specs.Answers.{loading_as};

use journal_entries::{Act, Entry};

/// How the last loading of a document went.
#[derive(Clone, Copy, Debug, Drop)]
pub enum Loading {
    NeverTried,
    Succeeded,
    /// It failed, under a lock's token or for a client that joined.
    FailedUnder(Option<u64>),
}

/// The version at which a document was put into the keeper last.
pub fn kept(journal: &[Entry], doc: u32) -> Option<u64>
    ensures { result ≡ rules.kept doc journal.now }
{
    let mut version = None;
    for entry in journal {
        version = kept_by(doc, &entry.act, version);
    }
    version
}

fn kept_by(doc: u32, act: &Act, before: Option<u64>) -> Option<u64>
    ensures { result ≡ rules.kept_by doc act.now before }
{
    match act {
        Act::Flushed { doc: kept, v, .. } if *kept == doc => Some(*v),
        _ => before,
    }
}

/// Whether a document is cached.
pub fn is_cached(journal: &[Entry], doc: u32) -> bool
    ensures { result ≡ rules.cached doc journal.now }
{
    let mut cached = false;
    for entry in journal {
        cached = cached_by(doc, &entry.act, cached);
    }
    cached
}

fn cached_by(doc: u32, act: &Act, before: bool) -> bool
    ensures { result ≡ rules.cached_by doc act.now before }
{
    match act {
        Act::Made { doc: made, .. } => *made == doc || before,
        Act::Loaded { doc: loaded, .. } => *loaded == doc || before,
        Act::Unloaded { doc: unloaded, .. } => *unloaded != doc && before,
        _ => before,
    }
}

/// How the last loading of a document went.
pub fn last_loading(journal: &[Entry], doc: u32) -> Loading
    ensures { loading_as result ≡ rules.loading doc journal.now }
{
    let mut last = Loading::NeverTried;
    for entry in journal {
        last = loading_by(doc, &entry.act, last);
    }
    last
}

fn loading_by(doc: u32, act: &Act, before: Loading) -> Loading
    ensures { loading_as result ≡ rules.loading_by doc act.now (loading_as before) }
{
    match act {
        Act::Loaded { doc: loaded, .. } if *loaded == doc => Loading::Succeeded,
        Act::LoadFailed {
            doc: failed,
            token,
            ..
        } if *failed == doc => Loading::FailedUnder(*token),
        Act::LoadDiffers {
            doc: failed,
            token,
            ..
        } if *failed == doc => Loading::FailedUnder(*token),
        _ => before,
    }
}

/// Whether no failed call of the keeper ended with a higher count of faults.
pub fn are_faults_within(journal: &[Entry], end: u64) -> bool
    ensures { IsTrue result ↔ All (λ n. n ≤ end) (rules.faults journal.now) }
{
    journal.iter().all(|entry| is_fault_within(&entry.act, end))
}

fn is_fault_within(act: &Act, end: u64) -> bool
    ensures { result ≡ list_all (λ n. nat_le n end) (rules.fault_of act.now) }
{
    match act {
        Act::LoadFailed { after, .. } | Act::FlushFailed { after, .. } => *after <= end,
        _ => true,
    }
}
