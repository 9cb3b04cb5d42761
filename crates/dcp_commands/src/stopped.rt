use film_inputs::PlanEnd;
use make_engine::MakeEnd;
use mast_base::NoMemory;
use picture_track::FrameEnd;
use stream_inspect::InspectEnd;

/// Why a command has nothing to print but its status.
#[derive(Debug, Drop)]
pub(crate) enum Stopped {
    /// The words are no accepted command.
    Usage,
    Plan(PlanEnd),
    Make(MakeEnd),
    Read(InspectEnd),
    Frame(FrameEnd),
    /// The project has fewer frames.
    NoSuchFrame { frame: u32, frames: u32 },
    NoMemory,
}

impl From<PlanEnd> for Stopped {
    ghost use Rattle.std.specs.Prelude.{◌≡◌};
    ghost use Rattle.dcp_commands.specs.declared.stopped.Stopped.TheVariants.{Plan};

    ghost from_gives = { λ end stopped. stopped ≡ Plan end };

    fn from(end: PlanEnd) -> Self {
        Stopped::Plan(end)
    }
}

impl From<MakeEnd> for Stopped {
    ghost use Rattle.std.specs.Prelude.{◌≡◌};
    ghost use Rattle.dcp_commands.specs.declared.stopped.Stopped.TheVariants.{Make};

    ghost from_gives = { λ end stopped. stopped ≡ Make end };

    fn from(end: MakeEnd) -> Self {
        Stopped::Make(end)
    }
}

impl From<InspectEnd> for Stopped {
    ghost use Rattle.std.specs.Prelude.{◌≡◌};
    ghost use Rattle.dcp_commands.specs.declared.stopped.Stopped.TheVariants.{Read};

    ghost from_gives = { λ end stopped. stopped ≡ Read end };

    fn from(end: InspectEnd) -> Self {
        Stopped::Read(end)
    }
}

impl From<FrameEnd> for Stopped {
    ghost use Rattle.std.specs.Prelude.{◌≡◌};
    ghost use Rattle.dcp_commands.specs.declared.stopped.Stopped.TheVariants.{Frame};

    ghost from_gives = { λ end stopped. stopped ≡ Frame end };

    fn from(end: FrameEnd) -> Self {
        Stopped::Frame(end)
    }
}

impl From<NoMemory> for Stopped {
    ghost use Rattle.std.specs.Prelude.{◌≡◌};
    ghost use Rattle.dcp_commands.specs.declared.stopped.Stopped.TheVariants as stopped;

    ghost from_gives = { λ _ made. made ≡ stopped.NoMemory };

    fn from(_error: NoMemory) -> Self {
        Stopped::NoMemory
    }
}
