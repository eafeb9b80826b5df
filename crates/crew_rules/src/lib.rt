//! How a crew goes on together: one who does the lines, workers and a flusher, each of it its own course on
//! one journal. The functions here do nothing: their contracts are laws of these definitions.
#![tactic(auto)]

ghost use Rattle.std.specs.Prelude.{◌≡◌, ℕ, ◌<◌, List, [], All};
ghost use Rattle.board.specs.Views.{SawAll};
ghost use Rattle.journal_entries.specs.declared.act.Entry.{Entry};
ghost use Rattle.journal_rules.specs.Client.{client};
ghost use Rattle.run_rules.specs.Ending.{Ends};
ghost use Rattle.run_rules.specs.Keeping.{nothing_kept};
ghost use Rattle.run_rules.specs.Lines.{Leads};
ghost use Rattle.run_rules.specs.Threads.{Crew, DriverFollows, FollowsTogether, document_lines, driver_seat, with_workers};
ghost use Rattle.script_driver.specs.Handing.{items_handed, items_handed_by};
ghost use Rattle.session_lines.specs.declared.line.Line.{Line};
ghost use Rattle.turn_rules.specs.Owning.{IsOwned, MayEnd};
ghost use Rattle.turn_rules.specs.Turns.{Alone, is_by};
ghost use Rattle.crew_rules.specs.Courses.{HasCourses};
ghost use Rattle.crew_rules.specs.Together.{GoesTogether};

/// Where each of a crew has gone its course in what it saw, and has no entry behind that, the crew has gone
/// on together. That each document is swept is known by the worker that acquired it last.
pub fn courses_go_together()
    ensures { (crew : Crew) (lines : List Line) (start journal : List Entry) → HasCourses crew lines start journal → GoesTogether crew lines start journal }
{}

/// Between the making of the documents and the end, a crew that goes on together makes a run with workers.
pub fn together_follows()
    ensures { (crew : Crew) (lines : List Line) (sessions : ℕ) (start between journal : List Entry) → Leads 0 Alone (document_lines lines) nothing_kept [] start → GoesTogether crew lines start between → Ends sessions between journal → FollowsTogether crew lines sessions journal }
{}

/// Behind a crew each driver has closed, so seat 0 may write for each client.
pub fn together_may_end()
    ensures { (crew : Crew) (lines : List Line) (start journal : List Entry) → 0 < crew.drivers → GoesTogether crew lines start journal → MayEnd crew.drivers journal }
{}

/// Behind what the one driver saw last nobody has written for a client: the clients are what they were then.
pub fn driver_saw_clients()
    ensures { (workers : ℕ) (lines : List Line) (start seen journal : List Entry) → IsOwned 1 journal → GoesTogether (with_workers workers) lines start journal → DriverFollows (with_workers workers) lines start seen 0 → SawAll journal (driver_seat 0, seen) → (c : ℕ) → client c journal ≡ client c seen }
{}

/// And all that was handed out since the start, the one driver handed out before.
pub fn driver_handed_all()
    ensures { (workers : ℕ) (lines : List Line) (start seen journal : List Entry) → All (λ e. e.seat ≡ 0) start → items_handed start ≡ [] → GoesTogether (with_workers workers) lines start journal → SawAll journal (driver_seat 0, seen) → items_handed journal ≡ items_handed_by (is_by (driver_seat 0)) seen }
{}
