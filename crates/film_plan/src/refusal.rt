use mast_base::{Bytes, NoMemory};
use std::alloc::{AllocError, AllocFailed};

/// Why there is no plan.
#[derive(Debug, Drop)]
pub enum PlanRefusal {
    /// The asset of this id has fewer bytes than its clips need.
    InputShort { asset: Bytes, size: u64, need: u64 },
    /// Memory ran out.
    NoMemory,
}

impl From<NoMemory> for PlanRefusal {
    ghost use Rattle.std.specs.Prelude.{◌≡◌};
    ghost use Rattle.film_plan.specs.declared.refusal.PlanRefusal.TheVariants.{NoMemory};

    ghost from_gives = { λ _ e. e ≡ NoMemory };

    fn from(_error: NoMemory) -> Self {
        PlanRefusal::NoMemory
    }
}

impl From<AllocError> for PlanRefusal {
    ghost use Rattle.std.specs.Prelude.{◌≡◌};
    ghost use Rattle.film_plan.specs.declared.refusal.PlanRefusal.TheVariants.{NoMemory};

    ghost from_gives = { λ _ e. e ≡ NoMemory };

    fn from(_error: AllocError) -> Self {
        PlanRefusal::NoMemory
    }
}
