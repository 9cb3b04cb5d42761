use mast_world::Failed;
use std::alloc::AllocError;

/// Why a frame wasn't read.
#[derive(Clone, Copy, Debug, PartialEq, Eq)]
pub enum FrameRefusal {
    /// There is no file of its name.
    Missing,
    /// The picture's header is wrong at this byte, or its first bytes, so many, have no whole header.
    BadHeader { at: usize },
    /// The file has fewer bytes than the frame needs.
    Short { size: u64, need: u64 },
    SourceFault,
    NoMemory,
}

impl From<AllocError> for FrameRefusal {
    ghost use Rattle.std.specs.Prelude.{◌≡◌};
    ghost use Rattle.raw_frames.specs.declared.refusal.FrameRefusal.TheVariants.{NoMemory};

    ghost from_gives = { λ _ made. made ≡ NoMemory };

    fn from(_error: AllocError) -> Self {
        FrameRefusal::NoMemory
    }
}

impl From<Failed> for FrameRefusal {
    ghost use Rattle.std.specs.Prelude.{◌≡◌};
    ghost use Rattle.raw_frames.specs.declared.refusal.FrameRefusal.TheVariants.{SourceFault};

    ghost from_gives = { λ _ made. made ≡ SourceFault };

    fn from(_fault: Failed) -> Self {
        FrameRefusal::SourceFault
    }
}
