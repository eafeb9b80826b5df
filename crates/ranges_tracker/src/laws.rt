//! What holds of the cells of a document: each function's clause is a law.

ghost use Rattle.ranges_tracker.specs.Agree.{RangesAgree};
ghost use Rattle.ranges_tracker.specs.WellFormed.{WellFormedIsSteady, StepKeeps, StepAppliesToText};

/// A well-formed row is what steps need.
pub fn well_formed_is_steady()
    ensures { WellFormedIsSteady }
{}

/// A step keeps a row well formed where its fresh marks are new, and the next ones are then.
pub fn step_keeps()
    ensures { StepKeeps }
{}

/// The live cells after a step are the text after the component.
#[tactic(auto, using(crate::proofs::Folding::text_step))]
pub fn step_applies_to_text()
    ensures { StepAppliesToText }
{}

/// Ranges agree with a text exactly where no change is empty, no two have one id, places don't fall
/// from one change to the next, no delete stands behind an insert of its place, inserts don't
/// overlap, each insert and each comment stands in the text at its place, each delete's place is
/// within the text, and no two comments have one thread.
pub fn ranges_agree()
    ensures { RangesAgree }
{}
