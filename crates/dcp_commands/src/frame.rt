ghost use Rattle.std.specs.Prelude.{◌≡◌, ◌⊎◌, IfOk, IfErr, OnOk, IsOk};
ghost use Rattle.mast_world.specs.Changes.{IsSameSource};
ghost use Rattle.mast_world.specs.Count.{HasRisen};
ghost use Rattle.dcp_commands.specs.Frame.{IsCause, IsFrameText, IsStop, frame_answer};
ghost use Rattle.dcp_commands.specs.Line.{IsPrinted};
ghost use Rattle.dcp_commands.specs.Plan.{status_in};
ghost use Rattle.dcp_commands.specs.Status.{Answers};

use crate::line::print;
use crate::status::Status;
use crate::stopped::Stopped;
use film_inputs::read_plan;
use mast_base::Bytes;
use mast_world::{Sink, Source};
use picture_track::make_frame;
use std::alloc::Global;

/// The codestream of a frame of the project in the file of this name.
fn show_frame<S: Source>(
    alloc: Global,
    name: &[u8],
    frame: u32,
    source: &mut S,
) -> Result<Bytes, Stopped>
    ensures text { IfOk result (IsFrameText S.tells (S.file source.old) name.now frame) }
    ensures ended { IfErr result (IsStop S.tells (S.file source.old) name.now frame S.absent S.faults source.old source.new) }
    ensures untroubled { OnOk result (S.faults source.new ≡ S.faults source.old) }
    ensures kept { IsSameSource S.file S.absent S.taken S.faults source.old source.new }
{
    let plan = read_plan(alloc, source, name)?;
    let frames = plan.project.frames;
    if frame >= frames {
        return Err(Stopped::NoSuchFrame { frame, frames });
    }
    Ok(make_frame(alloc, &plan, frame, source)?)
}

/// Runs `frame`: makes one frame of a project, and prints its codestream.
pub(crate) fn run_frame<S: Source, O: Sink>(
    alloc: Global,
    name: &[u8],
    frame: u32,
    source: &mut S,
    out: &mut O,
) -> Status
    ensures cause { IsCause S.tells (S.file source.old) name.now frame
        S.absent S.faults source.old source.new O.faults out.old out.new result }
    ensures told { S.tells
        → (result ≡ Status.SourceFault) ⊎ Answers result (status_in (frame_answer (S.file source.old) name.now frame)) }
    ensures kept { IsSameSource S.file S.absent S.taken S.faults source.old source.new }
    ensures printed { O.tells
        → IsPrinted (IsFrameText S.tells (S.file source.old) name.now frame) result (O.written out.old) (O.written out.new) }
    ensures complete { S.tells → IsOk (frame_answer (S.file source.old) name.now frame)
        → ¬ HasRisen (S.faults source.old) (S.faults source.new) → ¬ HasRisen (O.faults out.old) (O.faults out.new)
        → (result ≡ Status.Done) ⊎ (result ≡ Status.NoMemory) }
{
    let outcome = show_frame(alloc, name, frame, source);
    print(alloc, outcome, out)
}
