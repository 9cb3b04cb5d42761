use codec_terms::ReadRefusal;
use mast_base::Bytes;
use std::alloc::{AllocError, AllocFailed};

/// Why nothing is told of a file.
#[derive(Debug, Drop)]
pub enum InspectEnd {
    /// There is no file of this name.
    Missing { name: Bytes },
    /// It has more bytes than are read.
    TooLong { size: u64 },
    /// Its bytes are no codestream. Want of memory has its own ending.
    Bad(ReadRefusal),
    Fault,
    NoMemory,
}

impl From<AllocError> for InspectEnd {
    ghost use Rattle.std.specs.Prelude.{◌≡◌};
    ghost use Rattle.stream_inspect.specs.declared.ends.InspectEnd.TheVariants as end;

    ghost from_gives = { λ _ made. made ≡ end.NoMemory };

    fn from(_error: AllocError) -> Self {
        InspectEnd::NoMemory
    }
}

impl<T: Drop> From<AllocFailed<T>> for InspectEnd {
    ghost use Rattle.std.specs.Prelude.{◌≡◌};
    ghost use Rattle.stream_inspect.specs.declared.ends.InspectEnd.TheVariants as end;

    ghost from_gives = { λ _ made. made ≡ end.NoMemory };

    fn from(_error: AllocFailed<T>) -> Self {
        InspectEnd::NoMemory
    }
}
