use film_plan::PlanRefusal;
use film_project::ProjectRefusal;
use mast_base::{Bytes, NoMemory};
use std::alloc::{AllocError, AllocFailed};

/// Why an input isn't there, or wasn't read.
#[derive(Debug, Drop)]
pub enum InputEnd {
    /// There is no file of this name.
    Missing { name: Bytes },
    SourceFault,
    NoMemory,
}

/// Why a project has no plan.
#[derive(Debug, Drop)]
pub enum PlanEnd {
    /// A file: its own, or one that a clip names.
    Input(InputEnd),
    /// The text of its file.
    Project(ProjectRefusal),
    /// The length of an asset.
    Plan(PlanRefusal),
}

impl From<NoMemory> for InputEnd {
    ghost use Rattle.std.specs.Prelude.{◌≡◌};
    ghost use Rattle.film_inputs.specs.declared.ends.InputEnd.TheVariants as end;

    ghost from_gives = { λ _ made. made ≡ end.NoMemory };

    fn from(_error: NoMemory) -> Self {
        InputEnd::NoMemory
    }
}

impl From<AllocError> for InputEnd {
    ghost use Rattle.std.specs.Prelude.{◌≡◌};
    ghost use Rattle.film_inputs.specs.declared.ends.InputEnd.TheVariants as end;

    ghost from_gives = { λ _ made. made ≡ end.NoMemory };

    fn from(_error: AllocError) -> Self {
        InputEnd::NoMemory
    }
}

impl<T: Drop> From<AllocFailed<T>> for InputEnd {
    ghost use Rattle.std.specs.Prelude.{◌≡◌};
    ghost use Rattle.film_inputs.specs.declared.ends.InputEnd.TheVariants as end;

    ghost from_gives = { λ _ made. made ≡ end.NoMemory };

    fn from(_error: AllocFailed<T>) -> Self {
        InputEnd::NoMemory
    }
}

impl From<InputEnd> for PlanEnd {
    ghost use Rattle.std.specs.Prelude.{◌≡◌};
    ghost use Rattle.film_inputs.specs.declared.ends.PlanEnd.TheVariants.{Input};

    ghost from_gives = { λ end made. made ≡ Input end };

    fn from(end: InputEnd) -> Self {
        PlanEnd::Input(end)
    }
}

impl From<ProjectRefusal> for PlanEnd {
    ghost use Rattle.std.specs.Prelude.{◌≡◌};
    ghost use Rattle.film_inputs.specs.declared.ends.PlanEnd.TheVariants.{Project};

    ghost from_gives = { λ refusal made. made ≡ Project refusal };

    fn from(refusal: ProjectRefusal) -> Self {
        PlanEnd::Project(refusal)
    }
}

impl From<PlanRefusal> for PlanEnd {
    ghost use Rattle.std.specs.Prelude.{◌≡◌};
    ghost use Rattle.film_inputs.specs.declared.ends.PlanEnd.TheVariants.{Plan};

    ghost from_gives = { λ refusal made. made ≡ Plan refusal };

    fn from(refusal: PlanRefusal) -> Self {
        PlanEnd::Plan(refusal)
    }
}
