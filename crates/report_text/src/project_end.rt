//! The line of a project at the end.

ghost use Rattle.std.specs.Prelude.{◌≡◌, IfOk};
ghost use Rattle.json_lines.specs.Object.{line_of};
ghost use Rattle.report_text.specs.Projects.{project_members};

use json_lines::Object;
use ot_units::Name;
use std::alloc::{AllocError, Global};

/// A project at the end of a run, with the counts of its history's items.
#[derive(Debug, Drop)]
pub struct ProjectEnd {
    /// The number of its board.
    pub b: u32,
    /// How many items were handed out.
    pub handed: u64,
    /// How many are left.
    pub left: u64,
    pub project: Name,
}

/// The line of a project at the end.
pub fn project_line(alloc: Global, end: &ProjectEnd) -> Result<Vec<u8>, AllocError>
    ensures { IfOk result (λ bytes. bytes.items ≡ line_of (project_members end.now)) }
{
    let mut object = Object::new(alloc);
    object.set_number("b", end.b as u64)?;
    object.set_text("e", "project")?;
    object.set_number("handed", end.handed)?;
    object.set_number("left", end.left)?;
    object.set_text("project", end.project.as_str())?;
    object.line()
}
