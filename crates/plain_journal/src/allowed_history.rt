//! How much of a project's history is left, and whether so much may be handed out.

ghost use Rattle.std.specs.Prelude.{◌≡◌, ◌↔◌, ◌≤◌, ◌+◌, ◌-◌, length, IsTrue, IfOk, sum, option_map};
ghost use Rattle.std.specs.List.{list_any};
ghost use Rattle.std.specs.Option.{option_copied};
ghost use Rattle.std.specs.Str.{bytes_eq};
ghost use Rattle.journal_rules.specs.Documents.{making_of};
ghost use Rattle.journal_rules.specs.History as history;
ghost use Rattle.journal_rules.specs.Legal as rules;
ghost use Rattle.plain_journal.specs.Answers.{making_as};
ghost use Rattle.plain_journal.specs.Parts.{history_count};

use crate::documents::{Making, making_at, update_at};
use journal_entries::{Act, Entry, MAX_ENTRIES, Outcome, Update};
use ot_units::Name;
use std::alloc::{AllocError, Global};

/// Whether a document of this project was made.
pub fn is_project(journal: &[Entry], project: &Name) -> bool
    ensures { result ≡ rules.is_project project.now journal.now }
{
    journal.iter().any(|entry| makes_in(&entry.act, project))
}

fn makes_in(act: &Act, project: &Name) -> bool
    ensures { result ≡ list_any (λ m. bytes_eq m.project project.now) (making_of act.now) }
{
    match act {
        Act::Made { project: made, .. } => made.as_str() == project.as_str(),
        _ => false,
    }
}

/// How many items of a project's history were not handed out. The only error is want of memory.
pub fn history_len(alloc: Global, journal: &[Entry], project: &Name) -> Result<u64, AllocError>
    requires { rules.IsLegal journal.now }
    ensures { IfOk result (λ n. n ≡ length (history.history project.now journal.now)) }
{
    let mut left = 0;
    for (n, entry) in journal.iter().enumerate() {
        left = left_after(alloc, project, &journal[..n], &entry.act, left)?;
    }
    Ok(left)
}

fn left_after(
    alloc: Global,
    project: &Name,
    before: &[Entry],
    act: &Act,
    left: u64,
) -> Result<u64, AllocError>
    requires few { left ≤ length before.now }
    requires within { sum (history.handed_by project.now act.now) ≤ left }
    ensures left { IfOk result (λ n. n + sum (history.handed_by project.now act.now) ≡ left + length (history.history_by project.now before.now act.now)) }
    ensures few { IfOk result (λ n. n ≤ length before.now + 1) }
{
    prove!(before.len() as u64 <= MAX_ENTRIES);
    match act {
        Act::Committed {
            doc,
            ticket,
            outcome,
            ..
        } => {
            let making = making_at(alloc, before, *doc)?;
            Ok(left + history_of(project, making, update_at(before, *ticket), outcome))
        }
        Act::Handed { project: of, count } if of.as_str() == project.as_str() => Ok(left - *count),
        _ => Ok(left),
    }
}

// One, where an operation was applied to a document of the project.
fn history_of(
    project: &Name,
    making: Option<Making<'_>>,
    update: Option<&Update>,
    outcome: &Outcome,
) -> u64
    ensures value { result ≡ history_count project.now (option_map making_as making.entry) (option_copied update.entry) outcome.now }
    ensures few { result ≤ 1 }
{
    match (making, update, outcome) {
        (Some(making), Some(_), Outcome::Applied { .. })
            if making.project.as_str() == project.as_str() => { 1 }
        _ => 0,
    }
}

/// Whether so many items of a project's history may be handed out. The only error is want of memory.
pub(crate) fn is_handing(
    alloc: Global,
    before: &[Entry],
    project: &Name,
    count: u64,
) -> Result<bool, AllocError>
    requires { rules.IsLegal before.now }
    ensures { IfOk result (λ b. IsTrue b ↔ rules.IsHanding before.now project.now count) }
{
    let left = history_len(alloc, before, project)?;
    Ok(is_project(before, project) && count <= left)
}
