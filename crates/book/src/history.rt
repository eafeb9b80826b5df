//! The calls of a book for the history of its projects.

ghost use Rattle.std.specs.Prelude.{◌≡◌, ◌<◌, ◌∷◌, [], length, List, map, min, ℕ, slice_get, sum, take, true, IfOk, IfErr, OnErr, Some};
ghost use Rattle.journal_entries.specs.declared.act.Act.TheVariants.{Handed};
ghost use Rattle.journal_rules.specs.History.{handed, history};
ghost use Rattle.journal_rules.specs.Legal.{is_project};
ghost use Rattle.project_histories.specs.Handing.{projects_of, shown_item};
ghost use Rattle.book.specs.Calls.{MayNotHand};
ghost use Rattle.book.specs.Shown.{adds};

use crate::book::{Book, entry_of};
use crate::faults::{By, HandFault};
use crate::room::make_room;
use history_queue::Item;
use journal_entries::Act;
use keeper::Keeper;
use ot_units::Name;

impl<K: Keeper> Book<K> {
    /// Hands the first items of a project's history out that were not handed out yet, `n` of them, or
    /// all where there are fewer: each operation that was applied to one of its documents, in the order
    /// of the journal. [`HandFault`] leaves all as it was.
    pub fn hand_history(&mut self, by: By, project: &Name, n: u64) -> Result<Vec<Item>, HandFault>
        ensures items { IfOk result (λ items. items.items ≡ map shown_item (take n (history project.now self.old.journal))) }
        ensures ok { IfOk result (λ items. (is_project project.now self.old.journal ≡ true)
            × (self.new ≡ adds self.old by.seat by.line (Handed project.now (min n (length (history project.now self.old.journal))) ∷ []))) }
        ensures refused { IfErr result (λ f. MayNotHand self.old.journal project.now f) }
        ensures kept { OnErr result (self.new ≡ self.old) }
    {
        let Some(place) = self.projects.find(project) else {
            return Err(HandFault::NoProject);
        };
        let Ok(project) = project.copy(self.alloc) else {
            return Err(HandFault::Memory);
        };
        let Ok(_sum) = make_room(&mut self.journal, self.owed, 1) else {
            return Err(HandFault::Memory);
        };
        // No journal is so long that its items couldn't be counted.
        let _length = self.journal.len();
        let Ok(items) = self.projects.take(place, n) else {
            return Err(HandFault::Memory);
        };
        let count = items.len() as u64;
        self.journal
            .push(entry_of(by, Act::Handed { project, count }));
        Ok(items)
    }

    /// How many projects there are. Each has a place, from 0, in the order in which they first appear.
    pub fn projects(&self) -> usize
        ensures { result ≡ length (projects_of self.now.journal) }
    {
        self.projects.len()
    }

    /// The name of the project at a place.
    pub fn project(&self, place: usize) -> &Name
        requires { place < length (projects_of self.now.journal) }
        ensures { slice_get (projects_of self.now.journal) place ≡ Some result.now }
    {
        self.projects.name(place)
    }

    /// How many items of the history of the project at a place were handed out.
    pub fn history_handed(&self, place: usize) -> u64
        requires { place < length (projects_of self.now.journal) }
        ensures { (project : List ℕ) → slice_get (projects_of self.now.journal) place ≡ Some project → result ≡ sum (handed project self.now.journal) }
    {
        self.projects.handed(place)
    }

    /// How many items of the history of the project at a place are left.
    pub fn history_left(&self, place: usize) -> u64
        requires { place < length (projects_of self.now.journal) }
        ensures { (project : List ℕ) → slice_get (projects_of self.now.journal) place ≡ Some project → result ≡ length (history project self.now.journal) }
    {
        self.projects.left(place)
    }
}
