ghost use Rattle.std.specs.Prelude.{◌≡◌, ◌<◌, ◌^◌, IfOk, length, string_bytes};
ghost use Rattle.dcp_commands.specs.Plan.{count_text, limit_text, plan_text, size_text};

use film_plan::Plan;
use film_project::Project;
use film_timeline::{Cell, black_count, fresh_count};
use mast_base::{Bytes, Limits, NoMemory};
use std::alloc::{AllocError, Global};

fn size_text(alloc: Global, project: &Project) -> Result<String, AllocError>
    ensures { IfOk result (λ text. string_bytes text ≡ size_text project.now) }
{
    let frames = project.frames;
    let width = project.width;
    let height = project.height;
    let fps = project.fps;
    format!(in alloc; "frames {frames}\nsize {width}x{height}\nfps {fps}\n")
}

fn limit_text(alloc: Global, limits: Limits) -> Result<String, AllocError>
    ensures { IfOk result (λ text. string_bytes text ≡ limit_text limits) }
{
    let frame = limits.frame;
    let component = limits.component;
    format!(in alloc; "limit {frame}\ncomponent {component}\n")
}

fn count_text(alloc: Global, cells: &[Cell]) -> Result<String, AllocError>
    requires { length cells.now < 2 ^ 32 }
    ensures { IfOk result (λ text. string_bytes text ≡ count_text cells.now) }
{
    let fresh = fresh_count(cells);
    let black = black_count(cells);
    format!(in alloc; "fresh {fresh}\nblack {black}\n")
}

/// What `plan` prints of a plan.
pub(crate) fn plan_text(alloc: Global, plan: &Plan) -> Result<Bytes, NoMemory>
    ensures { IfOk result (λ text. text ≡ plan_text plan.now.project) }
{
    let mut text = size_text(alloc, &plan.project)?.into_bytes();
    text.extend_from_slice(limit_text(alloc, plan.limits)?.as_bytes())?;
    text.extend_from_slice(count_text(alloc, plan.cells.as_slice())?.as_bytes())?;
    Ok(Bytes::from(text))
}
