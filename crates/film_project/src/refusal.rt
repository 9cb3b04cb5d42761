use mast_base::{Bytes, NoMemory};
use std::alloc::{AllocError, AllocFailed};

/// Why a text is no project: the first fault in the fixed order. A `name` is that of the member or
/// item at fault, such as `width`, `assets[3].file` or `sound[0].gains[2]`.
#[derive(Debug, Drop)]
pub enum ProjectRefusal {
    /// P1: the text is no JSON.
    NotJson,
    /// P2: the top value, whose name is empty, or an item of a list of objects is no object.
    NotObject { name: Bytes },
    /// P3: a member that may not be absent is absent.
    MissingMember { name: Bytes },
    /// P4: an object has a member that isn't in its table: the least such name by bytes.
    UnknownMember { name: Bytes },
    /// P5: a member or an item has another kind.
    WrongKind { name: Bytes },
    /// P6: a number, or a list's length, is out of its range.
    OutOfRange { name: Bytes, value: u64 },
    /// P7: a text breaks its rule at that byte.
    BadText { name: Bytes, at: u64 },
    /// P8: an asset's id is that of an earlier one.
    DoubleAsset { name: Bytes },
    /// P9: a clip's asset isn't there, or is of a kind for the other list.
    NoSuchAsset { name: Bytes },
    /// P10: there are too many frames.
    TooLong { frames: u64 },
    /// P11: the text has too many bytes.
    FileTooLong { bytes: u64 },
    /// Memory ran out.
    NoMemory,
}

impl From<NoMemory> for ProjectRefusal {
    ghost use Rattle.std.specs.Prelude.{◌≡◌};
    ghost use Rattle.film_project.specs.declared.refusal.ProjectRefusal.TheVariants.{NoMemory};

    ghost from_gives = { λ _ e. e ≡ NoMemory };

    fn from(_error: NoMemory) -> Self {
        ProjectRefusal::NoMemory
    }
}

impl From<AllocError> for ProjectRefusal {
    ghost use Rattle.std.specs.Prelude.{◌≡◌};
    ghost use Rattle.film_project.specs.declared.refusal.ProjectRefusal.TheVariants.{NoMemory};

    ghost from_gives = { λ _ e. e ≡ NoMemory };

    fn from(error: AllocError) -> Self {
        ProjectRefusal::from(NoMemory::from(error))
    }
}

impl<T: Drop> From<AllocFailed<T>> for ProjectRefusal {
    ghost use Rattle.std.specs.Prelude.{◌≡◌};
    ghost use Rattle.film_project.specs.declared.refusal.ProjectRefusal.TheVariants.{NoMemory};

    ghost from_gives = { λ _ e. e ≡ NoMemory };

    fn from(error: AllocFailed<T>) -> Self {
        ProjectRefusal::from(NoMemory::from(error))
    }
}
