use crate::stopped::Stopped;
use codec_terms::ReadRefusal;
use film_inputs::{InputEnd, PlanEnd};
use film_plan::PlanRefusal;
use film_project::ProjectRefusal;
use frame_values::BadWhy;
use make_engine::MakeEnd;
use mast_base::Bytes;
use pcm_mix::SoundRefusal;
use picture_track::{FrameEnd, PictureEnd};
use sound_track::SoundEnd;
use stream_inspect::InspectEnd;
use track_file::TrackEnd;

/// How a command ended.
#[derive(Debug, Drop)]
pub enum Status {
    Done,
    /// The words are no accepted command.
    Usage,
    ProjectRefused { refusal: ProjectRefusal },
    /// There is no file of this name.
    InputMissing { name: Bytes },
    /// The asset of this id has fewer bytes than its clips need.
    InputShort { asset: Bytes, size: u64, need: u64 },
    SourceFault,
    StoreFault,
    /// The status couldn't be printed.
    SinkFault,
    NoMemory,
    BadFrame { frame: u32, why: BadWhy },
    /// The project has only so many frames.
    NoSuchFrame { frame: u32, frames: u32 },
    /// The bytes of the file are no codestream.
    BadStream { refusal: ReadRefusal },
    /// The file has more bytes than are read.
    InputTooLong { size: u64 },
}

impl From<InputEnd> for Status {
    ghost use Rattle.std.specs.Prelude.{◌≡◌};
    ghost use Rattle.dcp_commands.specs.Status.{input_status};

    ghost from_gives = { λ end status. status ≡ input_status end };

    fn from(end: InputEnd) -> Self {
        match end {
            InputEnd::Missing { name } => Status::InputMissing { name },
            InputEnd::SourceFault => Status::SourceFault,
            InputEnd::NoMemory => Status::NoMemory,
        }
    }
}

impl From<ProjectRefusal> for Status {
    ghost use Rattle.std.specs.Prelude.{◌≡◌};
    ghost use Rattle.dcp_commands.specs.Status.{refused_status};

    ghost from_gives = { λ refusal status. status ≡ refused_status refusal };

    fn from(refusal: ProjectRefusal) -> Self {
        match refusal {
            ProjectRefusal::NoMemory => Status::NoMemory,
            refusal => Status::ProjectRefused { refusal },
        }
    }
}

impl From<PlanRefusal> for Status {
    ghost use Rattle.std.specs.Prelude.{◌≡◌};
    ghost use Rattle.dcp_commands.specs.Status.{short_status};

    ghost from_gives = { λ refusal status. status ≡ short_status refusal };

    fn from(refusal: PlanRefusal) -> Self {
        match refusal {
            PlanRefusal::InputShort { asset, size, need } => {
                Status::InputShort { asset, size, need }
            }
            PlanRefusal::NoMemory => Status::NoMemory,
        }
    }
}

impl From<PlanEnd> for Status {
    ghost use Rattle.std.specs.Prelude.{◌≡◌};
    ghost use Rattle.dcp_commands.specs.Status.{plan_status};

    ghost from_gives = { λ end status. status ≡ plan_status end };

    fn from(end: PlanEnd) -> Self {
        match end {
            PlanEnd::Input(end) => end.into(),
            PlanEnd::Project(refusal) => refusal.into(),
            PlanEnd::Plan(refusal) => refusal.into(),
        }
    }
}

impl From<FrameEnd> for Status {
    ghost use Rattle.std.specs.Prelude.{◌≡◌};
    ghost use Rattle.dcp_commands.specs.Status.{frame_status};

    ghost from_gives = { λ end status. status ≡ frame_status end };

    fn from(end: FrameEnd) -> Self {
        match end {
            FrameEnd::Missing { name } => Status::InputMissing { name },
            FrameEnd::Bad { frame, why } => Status::BadFrame { frame, why },
            FrameEnd::SourceFault => Status::SourceFault,
            FrameEnd::NoMemory => Status::NoMemory,
        }
    }
}

impl From<TrackEnd> for Status {
    ghost use Rattle.std.specs.Prelude.{◌≡◌};
    ghost use Rattle.dcp_commands.specs.Status.{track_status};

    ghost from_gives = { λ end status. status ≡ track_status end };

    fn from(end: TrackEnd) -> Self {
        match end {
            TrackEnd::StoreFault => Status::StoreFault,
            TrackEnd::NoMemory => Status::NoMemory,
        }
    }
}

impl From<PictureEnd> for Status {
    ghost use Rattle.std.specs.Prelude.{◌≡◌};
    ghost use Rattle.dcp_commands.specs.Status.{picture_status};

    ghost from_gives = { λ end status. status ≡ picture_status end };

    fn from(end: PictureEnd) -> Self {
        match end {
            PictureEnd::Frame(end) => end.into(),
            PictureEnd::Track(end) => end.into(),
            PictureEnd::NoMemory => Status::NoMemory,
        }
    }
}

impl From<SoundRefusal> for Status {
    ghost use Rattle.std.specs.Prelude.{◌≡◌};
    ghost use Rattle.dcp_commands.specs.Status.{mix_status};

    ghost from_gives = { λ refusal status. status ≡ mix_status refusal };

    fn from(refusal: SoundRefusal) -> Self {
        match refusal {
            SoundRefusal::SourceFault => Status::SourceFault,
            SoundRefusal::NoMemory => Status::NoMemory,
        }
    }
}

impl From<SoundEnd> for Status {
    ghost use Rattle.std.specs.Prelude.{◌≡◌};
    ghost use Rattle.dcp_commands.specs.Status.{sound_status};

    ghost from_gives = { λ end status. status ≡ sound_status end };

    fn from(end: SoundEnd) -> Self {
        match end {
            SoundEnd::Sound(refusal) => refusal.into(),
            SoundEnd::Track(end) => end.into(),
        }
    }
}

impl From<MakeEnd> for Status {
    ghost use Rattle.std.specs.Prelude.{◌≡◌};
    ghost use Rattle.dcp_commands.specs.Status.{make_status};

    ghost from_gives = { λ end status. status ≡ make_status end };

    fn from(end: MakeEnd) -> Self {
        match end {
            MakeEnd::Picture(end) => end.into(),
            MakeEnd::Sound(end) => end.into(),
            MakeEnd::NoMemory => Status::NoMemory,
        }
    }
}

impl From<InspectEnd> for Status {
    ghost use Rattle.std.specs.Prelude.{◌≡◌};
    ghost use Rattle.dcp_commands.specs.Status.{read_status};

    ghost from_gives = { λ end status. status ≡ read_status end };

    fn from(end: InspectEnd) -> Self {
        match end {
            InspectEnd::Missing { name } => Status::InputMissing { name },
            InspectEnd::TooLong { size } => Status::InputTooLong { size },
            InspectEnd::Bad(refusal) => Status::BadStream { refusal },
            InspectEnd::Fault => Status::SourceFault,
            InspectEnd::NoMemory => Status::NoMemory,
        }
    }
}

impl From<Stopped> for Status {
    ghost use Rattle.std.specs.Prelude.{◌≡◌};
    ghost use Rattle.dcp_commands.specs.Status.{stopped_status};

    ghost from_gives = { λ stopped status. status ≡ stopped_status stopped };

    fn from(stopped: Stopped) -> Self {
        match stopped {
            Stopped::Usage => Status::Usage,
            Stopped::Plan(end) => end.into(),
            Stopped::Make(end) => end.into(),
            Stopped::Read(end) => end.into(),
            Stopped::Frame(end) => end.into(),
            Stopped::NoSuchFrame { frame, frames } => Status::NoSuchFrame { frame, frames },
            Stopped::NoMemory => Status::NoMemory,
        }
    }
}

impl Status {
    ghost use Rattle.std.specs.Prelude.{◌≡◌};
    ghost use Rattle.dcp_commands.specs.Line.{exit_code};

    /// The exit status of a program that ends so.
    pub fn exit_code(&self) -> u8
        ensures { result ≡ exit_code self.now }
    {
        match self {
            Status::Done => 0,
            Status::Usage => 2,
            Status::ProjectRefused { .. } => 3,
            Status::InputMissing { .. } => 4,
            Status::InputShort { .. } => 5,
            Status::SourceFault => 7,
            Status::StoreFault => 8,
            Status::SinkFault => 9,
            Status::NoMemory => 11,
            Status::BadFrame { .. } => 12,
            Status::NoSuchFrame { .. } => 13,
            Status::BadStream { .. } => 14,
            Status::InputTooLong { .. } => 15,
        }
    }
}
