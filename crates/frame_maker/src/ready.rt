ghost use Rattle.std.specs.Prelude.{◌≡◌, ◌≤◌, None, Some, IfOk, IfErr, OnOk, length, option_map, take};
ghost use Rattle.film_plan.specs.Plan.{limits_of};
ghost use Rattle.frame_maker.specs.Making.{IsEnd, IsShown};
ghost use Rattle.frame_values.specs.Encoded.{picture_size};
ghost use Rattle.frame_values.specs.Ready.{ready_fault};
ghost use Rattle.frame_values.specs.Shown.{ready_shown};
ghost use Rattle.mast_world.specs.Changes.{IsSameSource};

use codec_terms::Shape;
use film_plan::Plan;
use film_project::Project;
use frame_values::{BadWhy, CellEnd, ready_fault};
use mast_base::Bytes;
use mast_world::Source;

fn picture_size(project: &Project) -> Shape
    ensures { result ≡ picture_size project.now }
{
    Shape {
        width: project.width,
        height: project.height,
    }
}

/// Reads a file whole, which fills `value`, and looks for what is wrong with it.
fn read_ready<S: Source>(
    plan: &Plan,
    name: &[u8],
    source: &mut S,
    value: &mut [u8],
) -> Result<(), CellEnd>
    requires there { S.tells → option_map length (S.file source.old name.now) ≡ Some (length value.old) }

    ensures shown { S.tells → OnOk result (IsShown (ready_shown plan.now.project name.now (S.file source.old name.now))
        value.new (S.taken source.old) (S.taken source.new)) }
    ensures value { OnOk result (ready_fault (limits_of plan.now.project) (picture_size plan.now.project) value.new ≡ None) }

    ensures ended { IfErr result (IsEnd S.tells (ready_shown plan.now.project name.now (S.file source.old name.now))
        plan.now.project name.now S.absent S.faults source.old source.new) }
    ensures untroubled { OnOk result (S.faults source.new ≡ S.faults source.old) }
    ensures kept { IsSameSource S.file S.absent S.taken S.faults source.old source.new }
{
    source.read(name, 0, value)?;
    match ready_fault(plan.limits, picture_size(&plan.project), value) {
        None => Ok(()),
        Some(why) => Err(CellEnd::Bad { why }),
    }
}

/// Shows the codestream that lies ready in this file.
pub(crate) fn show_ready<S: Source>(
    plan: &Plan,
    name: Bytes,
    source: &mut S,
    room: &mut [u8],
) -> Result<usize, CellEnd>
    requires room { (limits_of plan.now.project).frame ≤ length room.old }

    ensures shown { S.tells → IfOk result (λ n. IsShown (ready_shown plan.now.project name (S.file source.old name))
        (take n room.new) (S.taken source.old) (S.taken source.new)) }
    ensures value { IfOk result (λ n. ready_fault (limits_of plan.now.project) (picture_size plan.now.project) (take n room.new) ≡ None) }
    ensures size { IfOk result (λ n. n ≤ (limits_of plan.now.project).frame) }

    ensures ended { IfErr result (IsEnd S.tells (ready_shown plan.now.project name (S.file source.old name))
        plan.now.project name S.absent S.faults source.old source.new) }
    ensures untroubled { OnOk result (S.faults source.new ≡ S.faults source.old) }
    ensures kept { IsSameSource S.file S.absent S.taken S.faults source.old source.new }
{
    let Some(size) = source.find(name.as_slice())? else {
        return Err(CellEnd::Missing { name });
    };
    if size > u64::from(plan.limits.frame) {
        let why = BadWhy::Limit { part: 0, got: size };
        return Err(CellEnd::Bad { why });
    }
    let size = size as usize;
    read_ready(plan, name.as_slice(), source, &mut room[..size])?;
    Ok(size)
}
