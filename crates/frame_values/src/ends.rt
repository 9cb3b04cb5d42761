use codec_terms::ReadRefusal;
use mast_base::{Bytes, NoMemory};
use mast_world::Failed;
use std::alloc::AllocError;

/// How a frame's input breaks its form.
#[derive(Clone, Copy, Debug, PartialEq, Eq)]
pub enum BadWhy {
    /// The header of its picture is wrong at this byte, or its first bytes, so many, have no whole header.
    Header { at: u64 },
    /// Its file has fewer bytes than the frame needs.
    Short { size: u64, need: u64 },
    /// Its bytes are no codestream.
    Stream { refusal: ReadRefusal },
    /// Its codestream is of a picture of another size than the project's.
    Size { width: u16, height: u16 },
    /// It has more bytes than the limit of this part allows; part 0 is the whole, and 1 to 3 are those of the components.
    Limit { part: u8, got: u64 },
}

/// Why a cell shows nothing.
#[derive(Debug, Drop)]
pub enum CellEnd {
    /// There is no file of this name.
    Missing { name: Bytes },
    Bad { why: BadWhy },
    SourceFault,
    NoMemory,
}

impl From<NoMemory> for CellEnd {
    ghost use Rattle.std.specs.Prelude.{◌≡◌};
    ghost use Rattle.frame_values.specs.declared.ends.CellEnd.TheVariants as end;

    ghost from_gives = { λ _ made. made ≡ end.NoMemory };

    fn from(_error: NoMemory) -> Self {
        CellEnd::NoMemory
    }
}

impl From<AllocError> for CellEnd {
    ghost use Rattle.std.specs.Prelude.{◌≡◌};
    ghost use Rattle.frame_values.specs.declared.ends.CellEnd.TheVariants as end;

    ghost from_gives = { λ _ made. made ≡ end.NoMemory };

    fn from(_error: AllocError) -> Self {
        CellEnd::NoMemory
    }
}

impl From<Failed> for CellEnd {
    ghost use Rattle.std.specs.Prelude.{◌≡◌};
    ghost use Rattle.frame_values.specs.declared.ends.CellEnd.TheVariants.{SourceFault};

    ghost from_gives = { λ _ made. made ≡ SourceFault };

    // What fails where a cell is shown is the source.
    fn from(_fault: Failed) -> Self {
        CellEnd::SourceFault
    }
}
