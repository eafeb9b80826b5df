//! What became of an update, and what is wrong with an operation, in an entry's line.

ghost use Rattle.std.specs.Prelude.{◌≡◌, OnOk};
ghost use Rattle.json_lines.specs.Object.{members_of};
ghost use Rattle.report_text.specs.Entries.{cause_name as cause_name_lem, fault_name as fault_name_lem, outcome_name as outcome_name_lem, with_cause, with_fault, with_outcome};

use journal_entries::{Cause, Outcome};
use json_lines::Object;
use ot_json::write_op;
use ot_op::FormFault;
use std::alloc::AllocError;

fn outcome_name(outcome: &Outcome) -> &'static str
    ensures { result.now ≡ outcome_name_lem outcome.now }
{
    match outcome {
        Outcome::Applied { .. } => "applied",
        Outcome::Dup { .. } => "dup",
        Outcome::Refused(_) => "refused",
    }
}

/// Puts an outcome in.
pub(crate) fn put_outcome(object: &mut Object, outcome: &Outcome) -> Result<(), AllocError>
    ensures { OnOk result (members_of object.new ≡ with_outcome outcome.now (members_of object.old)) }
{
    object.set_text("out", outcome_name(outcome))?;
    match outcome {
        Outcome::Applied { v, op } => {
            let op = write_op(object.alloc(), op)?;
            object.set("op", op)?;
            object.set_number("v", *v)
        }
        Outcome::Dup { v } => object.set_number("v", *v),
        Outcome::Refused(cause) => put_cause(object, cause),
    }
}

fn cause_name(cause: &Cause) -> &'static str
    ensures { result.now ≡ cause_name_lem cause.now }
{
    match cause {
        Cause::Future { .. } => "future",
        Cause::TooOld { .. } => "too-old",
        Cause::Mismatch => "mismatch",
        Cause::TooLong { .. } => "too-long",
        Cause::StoreFault => "store-fault",
        Cause::Memory => "memory",
    }
}

fn put_cause(object: &mut Object, cause: &Cause) -> Result<(), AllocError>
    ensures { OnOk result (members_of object.new ≡ with_cause cause.now (members_of object.old)) }
{
    object.set_text("cause", cause_name(cause))?;
    match cause {
        Cause::Future { have } | Cause::TooOld { have } => object.set_number("have", *have),
        Cause::TooLong { len } => object.set_number("len", *len),
        Cause::Mismatch | Cause::StoreFault | Cause::Memory => Ok(()),
    }
}

fn fault_name(fault: &FormFault) -> &'static str
    ensures { result.now ≡ fault_name_lem fault.now }
{
    match fault {
        FormFault::Form(_) => "form",
        FormFault::Supplementary(_) => "supplementary",
        FormFault::TooLarge { .. } => "too-large",
    }
}

/// Puts in what is wrong with an operation.
pub(crate) fn put_fault(object: &mut Object, fault: &FormFault) -> Result<(), AllocError>
    ensures { OnOk result (members_of object.new ≡ with_fault fault.now (members_of object.old)) }
{
    object.set_text("fault", fault_name(fault))?;
    match fault {
        FormFault::Form(at) | FormFault::Supplementary(at) => object.set_number("at", *at),
        FormFault::TooLarge { comps, units } => {
            object.set_number("comps", *comps)?;
            object.set_number("units", *units)
        }
    }
}
