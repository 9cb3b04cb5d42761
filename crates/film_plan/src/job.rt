ghost use Rattle.std.specs.Prelude.{◌≡◌};
ghost use Rattle.film_plan.specs.Plan.{ids_of, job_of, limits_of};
ghost use Rattle.film_project.specs.Rules.{IsProject};
ghost use Rattle.film_timeline.specs.Timeline.{cells_of};

use crate::ids::Ids;
use film_project::Project;
use film_timeline::Cell;
use mast_base::{Bytes, Limits, List};

/// A project with all that follows from it before a frame is read.
#[derive(Debug, Drop)]
pub struct Plan {
    pub project: Project,
    /// What is shown in each frame.
    pub cells: List<Cell>,
    /// The most bytes of a frame's codestream, and of each component's part of it.
    pub limits: Limits,
    pub ids: Ids,
    /// What tells this job from others: `DCPJOB 1`, a line feed and the canonical project.
    pub job_text: Bytes,
    pub ghost rules: { IsProject project },
    pub ghost cells_are: { cells ≡ cells_of project },
    pub ghost limits_are: { limits ≡ limits_of project },
    pub ghost ids_are: { ids ≡ ids_of project },
    pub ghost job_text_is: { job_text ≡ job_of project },
}
