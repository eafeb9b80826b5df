//! Why a line of a script did nothing, in an entry's line.

ghost use Rattle.std.specs.Prelude.{◌≡◌, OnOk};
ghost use Rattle.json_lines.specs.Object.{members_of};
ghost use Rattle.report_text.specs.Entries.{token_of as token_of_lem, why_name as why_name_lem, with_details, with_why};

use expiring_lock::Stale;
use journal_entries::Why;
use json_lines::Object;
use std::alloc::AllocError;

fn why_name(why: &Why) -> &'static str
    ensures { result.now ≡ why_name_lem why.now }
{
    match why {
        Why::NoDoc => "no-doc",
        Why::NoProject => "no-project",
        Why::NotJoined => "not-joined",
        Why::NotLeft => "not-left",
        Why::TooOld { .. } => "too-old",
        Why::PastEnd { .. } => "past-end",
        Why::Full { .. } => "full",
        Why::InFlight => "in-flight",
        Why::Nothing => "nothing",
        Why::Empty => "empty",
        Why::Busy(_) => "busy",
        Why::Uncached => "uncached",
        Why::Holding => "holding",
        Why::Stale(_) => "stale",
        Why::Unflushed { .. } => "unflushed",
        Why::Waiting { .. } => "waiting",
        Why::StoreFault => "store-fault",
    }
}

/// Puts a why in.
pub(crate) fn put_why(object: &mut Object, why: &Why) -> Result<(), AllocError>
    ensures { OnOk result (members_of object.new ≡ with_why why.now (members_of object.old)) }
{
    object.set_text("why", why_name(why))?;
    put_details(object, why)
}

fn put_details(object: &mut Object, why: &Why) -> Result<(), AllocError>
    ensures { OnOk result (members_of object.new ≡ with_details why.now (members_of object.old)) }
{
    match why {
        Why::TooOld { have } => object.set_number("have", *have),
        Why::PastEnd { len } => object.set_number("len", *len),
        Why::Full { comps, units } => {
            object.set_number("comps", *comps)?;
            object.set_number("units", *units)
        }
        Why::Busy(busy) => {
            object.set_number("token", busy.token)?;
            object.set_number("until", busy.until)
        }
        Why::Stale(stale) => object.set_optional("token", token_of(stale)),
        Why::Unflushed { kept, have } => {
            object.set_number("have", *have)?;
            object.set_optional("kept", *kept)
        }
        Why::Waiting { count } => object.set_number("count", *count),
        _ => Ok(()),
    }
}

// The last token of the document; none where this one has ended.
fn token_of(stale: &Stale) -> Option<u64>
    ensures { result ≡ token_of_lem stale.now }
{
    match stale {
        Stale::Other(token) => Some(*token),
        Stale::Ended => None,
    }
}
