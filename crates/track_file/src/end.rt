use mast_base::NoMemory;
use mast_world::Failed;
use std::alloc::{AllocError, AllocFailed};

/// Why a track file wasn't written on.
#[derive(Clone, Copy, Debug, PartialEq, Eq)]
pub enum TrackEnd {
    /// The volume failed.
    StoreFault,
    /// Memory ran out.
    NoMemory,
}

impl From<Failed> for TrackEnd {
    ghost use Rattle.std.specs.Prelude.{◌≡◌};
    ghost use Rattle.track_file.specs.declared.end.TrackEnd.TheVariants.{StoreFault};

    ghost from_gives = { λ _ made. made ≡ StoreFault };

    fn from(_fault: Failed) -> Self {
        TrackEnd::StoreFault
    }
}

impl From<NoMemory> for TrackEnd {
    ghost use Rattle.std.specs.Prelude.{◌≡◌};
    ghost use Rattle.track_file.specs.declared.end.TrackEnd.TheVariants as end;

    ghost from_gives = { λ _ made. made ≡ end.NoMemory };

    fn from(_error: NoMemory) -> Self {
        TrackEnd::NoMemory
    }
}

impl From<AllocError> for TrackEnd {
    ghost use Rattle.std.specs.Prelude.{◌≡◌};
    ghost use Rattle.track_file.specs.declared.end.TrackEnd.TheVariants.{NoMemory};

    ghost from_gives = { λ _ made. made ≡ NoMemory };

    fn from(_error: AllocError) -> Self {
        TrackEnd::NoMemory
    }
}

impl<T: Drop> From<AllocFailed<T>> for TrackEnd {
    ghost use Rattle.std.specs.Prelude.{◌≡◌};
    ghost use Rattle.track_file.specs.declared.end.TrackEnd.TheVariants.{NoMemory};

    ghost from_gives = { λ _ made. made ≡ NoMemory };

    fn from(_error: AllocFailed<T>) -> Self {
        TrackEnd::NoMemory
    }
}
