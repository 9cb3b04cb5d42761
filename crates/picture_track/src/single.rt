ghost use Rattle.std.specs.Prelude.{◌≡◌, ◌<◌, IfOk, IfErr, OnOk, slice_index_or};
ghost use Rattle.film_timeline.specs.Timeline.{cells_of};
ghost use Rattle.film_timeline.specs.declared.cell.Cell.TheVariants.{Black};
ghost use Rattle.frame_values.specs.Causes.{IsFrameValue, Shows};
ghost use Rattle.mast_world.specs.Changes.{IsSameSource};
ghost use Rattle.picture_track.specs.Causes.{IsSingleCause};

use crate::outcome::FrameEnd;
use film_plan::Plan;
use film_timeline::Cell;
use frame_maker::FrameMaker;
use mast_base::Bytes;
use mast_world::Source;
use std::alloc::Global;

// What a frame shows.
fn cell_at(plan: &Plan, frame: u32) -> Cell
    requires { frame < plan.now.project.frames }
    ensures { result ≡ slice_index_or (cells_of plan.now.project) frame Black }
{
    plan.cells.as_slice()[frame as usize]
}

/// The codestream that a frame shows, made by itself.
pub fn make_frame<S: Source>(
    alloc: Global,
    plan: &Plan,
    frame: u32,
    source: &mut S,
) -> Result<Bytes, FrameEnd>
    requires frame { frame < plan.now.project.frames }

    ensures shown { S.tells → IfOk result (λ bytes. Shows (S.file source.old) plan.now.project
        (slice_index_or (cells_of plan.now.project) frame Black) bytes (S.taken source.old) (S.taken source.new)) }
    ensures value { IfOk result (IsFrameValue plan.now.project) }

    ensures ended { IfErr result (IsSingleCause S.tells (S.file source.old) plan.now.project frame
        (slice_index_or (cells_of plan.now.project) frame Black) S.absent S.faults source.old source.new) }
    ensures untroubled { OnOk result (S.faults source.new ≡ S.faults source.old) }
    ensures kept { IsSameSource S.file S.absent S.taken S.faults source.old source.new }
{
    let mut maker = FrameMaker::new(alloc, plan)?;
    let mut room = Vec::from_elem(alloc, 0u8, plan.limits.frame as usize)?;
    let cell = cell_at(plan, frame);
    match maker.show(alloc, plan, cell, source, room.as_mut_slice()) {
        Ok(size) => {
            room.truncate(size);
            Ok(Bytes::from(room))
        }
        Err(end) => Err(FrameEnd::of_cell(frame, end)),
    }
}
