use frame_values::{BadWhy, CellEnd};
use mast_base::{Bytes, NoMemory};
use std::alloc::AllocError;
use track_file::TrackEnd;

/// Why a frame has no value.
#[derive(Debug, Drop)]
pub enum FrameEnd {
    /// There is no file of this name.
    Missing { name: Bytes },
    Bad { frame: u32, why: BadWhy },
    SourceFault,
    NoMemory,
}

/// Why there is no picture file.
#[derive(Debug, Drop)]
pub enum PictureEnd {
    Frame(FrameEnd),
    /// The file wasn't written on.
    Track(TrackEnd),
    /// There was no memory for what all frames share.
    NoMemory,
}

impl FrameEnd {
    ghost use Rattle.std.specs.Prelude.{◌≡◌};
    ghost use Rattle.picture_track.specs.Ends.{frame_end};

    /// The end of a frame whose cell shows nothing.
    pub(crate) fn of_cell(frame: u32, end: CellEnd) -> Self
        ensures { result ≡ frame_end frame end }
    {
        match end {
            CellEnd::Missing { name } => FrameEnd::Missing { name },
            CellEnd::Bad { why } => FrameEnd::Bad { frame, why },
            CellEnd::SourceFault => FrameEnd::SourceFault,
            CellEnd::NoMemory => FrameEnd::NoMemory,
        }
    }
}

impl From<NoMemory> for FrameEnd {
    ghost use Rattle.std.specs.Prelude.{◌≡◌};
    ghost use Rattle.picture_track.specs.declared.outcome.FrameEnd.TheVariants.{NoMemory};

    ghost from_gives = { λ _ end. end ≡ NoMemory };

    fn from(_error: NoMemory) -> Self {
        FrameEnd::NoMemory
    }
}

impl From<AllocError> for FrameEnd {
    ghost use Rattle.std.specs.Prelude.{◌≡◌};
    ghost use Rattle.picture_track.specs.declared.outcome.FrameEnd.TheVariants.{NoMemory};

    ghost from_gives = { λ _ end. end ≡ NoMemory };

    fn from(_error: AllocError) -> Self {
        FrameEnd::NoMemory
    }
}

impl From<FrameEnd> for PictureEnd {
    ghost use Rattle.std.specs.Prelude.{◌≡◌};
    ghost use Rattle.picture_track.specs.declared.outcome.PictureEnd.TheVariants.{Frame};

    ghost from_gives = { λ end made. made ≡ Frame end };

    fn from(end: FrameEnd) -> Self {
        PictureEnd::Frame(end)
    }
}

impl From<TrackEnd> for PictureEnd {
    ghost use Rattle.std.specs.Prelude.{◌≡◌};
    ghost use Rattle.picture_track.specs.declared.outcome.PictureEnd.TheVariants.{Track};

    ghost from_gives = { λ end made. made ≡ Track end };

    fn from(end: TrackEnd) -> Self {
        PictureEnd::Track(end)
    }
}

impl From<AllocError> for PictureEnd {
    ghost use Rattle.std.specs.Prelude.{◌≡◌};
    ghost use Rattle.picture_track.specs.declared.outcome.PictureEnd.TheVariants as end;

    ghost from_gives = { λ _ made. made ≡ end.NoMemory };

    fn from(_error: AllocError) -> Self {
        PictureEnd::NoMemory
    }
}
