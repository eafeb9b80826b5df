//! Reading a project at the end.

ghost use Rattle.report_reader.specs.Projects.{project_of};
ghost use Rattle.report_reader.specs.Refused.{Reads};
ghost use Rattle.serde_json.specs.View.{view};

use crate::fields::{name, number, small_number};
use crate::refusal::Refusal;
use report_text::ProjectEnd;
use serde_json::Value;
use std::alloc::Global;

/// The project that a line shows.
pub(crate) fn read_project(alloc: Global, value: &Value) -> Result<ProjectEnd, Refusal>
    ensures { Reads result (project_of (view value.now)) }
{
    let b = small_number(value, "b")?;
    let handed = number(value, "handed")?;
    let left = number(value, "left")?;
    let project = name(alloc, value, "project")?;
    Ok(ProjectEnd {
        b,
        handed,
        left,
        project,
    })
}
