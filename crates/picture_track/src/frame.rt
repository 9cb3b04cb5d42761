ghost use Rattle.std.specs.Prelude.{◌≡◌, ◌<◌, ◌+◌, ◌-◌, ◌≤◌, IfOk, IfErr, IsOk, OnOk, length, take};
ghost use Rattle.film_plan.specs.Plan.{limits_of};
ghost use Rattle.film_timeline.specs.Timeline.{cells_of};
ghost use Rattle.frame_values.specs.Causes.{IsFrameValue};
ghost use Rattle.frame_values.specs.Shown.{cells_shown};
ghost use Rattle.mast_world.specs.Changes.{IsSameSource};
ghost use Rattle.mast_world.specs.Content.{part};
ghost use Rattle.picture_track.specs.Causes.{IsFrameCause};
ghost use Rattle.picture_track.specs.Frames.{IsValueAt, TakesValue};

use crate::outcome::FrameEnd;
use film_plan::Plan;
use film_timeline::is_repeat;
use frame_maker::FrameMaker;
use mast_world::Source;
use std::alloc::Global;

/// How many bytes of a room stand in front of the value: those of an item's key and length.
pub(crate) const KEY_LENGTH: usize = 20;

/// Puts what a frame shows into `room`, behind the bytes for an item's key and length, and answers how many
/// bytes that is. The first `held` bytes there are what the frame before shows, which serves again where
/// this one repeats it.
pub(crate) fn take_value<S: Source>(
    alloc: Global,
    plan: &Plan,
    frame: u32,
    maker: &mut FrameMaker,
    source: &mut S,
    room: &mut [u8],
    held: usize,
) -> Result<usize, FrameEnd>
    requires room { 20 + (limits_of plan.now.project).frame ≤ length room.old }
    requires frame { frame < plan.now.project.frames }
    requires held_size { held ≤ (limits_of plan.now.project).frame }
    requires held_value { 0 < frame → IsFrameValue plan.now.project (part room.old 20 held) }
    requires held { S.tells → 0 < frame
        → IsValueAt (S.file source.old) plan.now.project (frame - 1) (part room.old 20 held) }
    requires earlier { S.tells
        → IsOk (cells_shown (S.file source.old) plan.now.project (take frame (cells_of plan.now.project))) }

    ensures taken { S.tells
        → IfOk result (λ n. TakesValue (S.file source.old) plan.now.project frame
        (part room.new 20 n) (S.taken source.old) (S.taken source.new)) }
    ensures value { IfOk result (λ n. IsFrameValue plan.now.project (part room.new 20 n)) }
    ensures size { IfOk result (λ n. n ≤ (limits_of plan.now.project).frame) }

    ensures ended { IfErr result (IsFrameCause S.tells (S.file source.old) plan.now.project S.absent S.faults source.old source.new) }
    ensures untroubled { OnOk result (S.faults source.new ≡ S.faults source.old) }
    ensures kept { IsSameSource S.file S.absent S.taken S.faults source.old source.new }
{
    let cells = plan.cells.as_slice();
    if is_repeat(cells, frame) {
        return Ok(held);
    }
    let cell = cells[frame as usize];
    match maker.show(alloc, plan, cell, source, &mut room[KEY_LENGTH..]) {
        Ok(size) => Ok(size),
        Err(end) => Err(FrameEnd::of_cell(frame, end)),
    }
}
