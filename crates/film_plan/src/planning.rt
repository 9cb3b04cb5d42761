ghost use Rattle.std.specs.Prelude.{◌≡◌, ◌<◌, ◌∷◌, ◌++◌, ℕ, codes, List, Some, None, Err, IfOk, length};
ghost use Rattle.film_plan.specs.Needs.{first_short, Short};
ghost use Rattle.film_plan.specs.Plan as spec;

use crate::ids::ids_of;
use crate::job::Plan;
use crate::needs::need_of;
use crate::refusal::PlanRefusal;
use film_printer::project_text;
use film_project::Project;
use film_timeline::cells;
use mast_base::{Bytes, Limits, NoMemory};
use std::alloc::Global;

/// The plan of a project whose assets have these sizes, in their order, in bytes. Only those of
/// kinds that lie in a single file are looked at.
pub fn plan(alloc: Global, project: &Project, sizes: &[u64]) -> Result<Plan, PlanRefusal>
    requires { length sizes.now ≡ length project.now.assets }

    ensures planned { IfOk result (λ plan. plan.project ≡ project.now) }
    ensures enough { IfOk result (λ _. first_short project.now sizes.now ≡ None) }
    ensures short { (asset : List ℕ) (size need : ℕ) → result ≡ Err (PlanRefusal.InputShort asset size need)
        → first_short project.now sizes.now ≡ Some (record { asset = asset; size = size; need = need }) }
    ensures less { (asset : List ℕ) (size need : ℕ) → result ≡ Err (PlanRefusal.InputShort asset size need) → size < need }
{
    check_sizes(alloc, project, sizes)?;
    Ok(make_plan(alloc, project)?)
}

/// Refuses the first asset that is shorter than its need.
fn check_sizes(alloc: Global, project: &Project, sizes: &[u64]) -> Result<(), PlanRefusal>
    requires { length sizes.now ≡ length project.now.assets }
    ensures enough { IfOk result (λ _. first_short project.now sizes.now ≡ None) }
    ensures short { (asset : List ℕ) (size need : ℕ) → result ≡ Err (PlanRefusal.InputShort asset size need)
        → first_short project.now sizes.now ≡ Some (record { asset = asset; size = size; need = need }) }
    ensures less { (asset : List ℕ) (size need : ℕ) → result ≡ Err (PlanRefusal.InputShort asset size need) → size < need }
{
    for (place, asset) in project.assets.as_slice().iter().enumerate() {
        let size = sizes[place];
        let need = need_of(project, place, asset);
        if size < need {
            return Err(PlanRefusal::InputShort {
                asset: Bytes::copy_of(alloc, asset.id.as_slice())?,
                size,
                need,
            });
        }
    }
    Ok(())
}

fn make_plan(alloc: Global, project: &Project) -> Result<Plan, NoMemory>
    ensures { IfOk result (λ plan. plan.project ≡ project.now) }
{
    let text = project_text(alloc, project)?;
    let project = project.copy(alloc)?;
    let cells = cells(alloc, &project)?;
    let limits = limits_of(&project);
    let ids = ids_of(&project);
    let job_text = job_text(alloc, text.as_slice())?;
    Ok(Plan {
        project,
        cells,
        limits,
        ids,
        job_text,
    })
}

fn limits_of(project: &Project) -> Limits
    ensures { result ≡ spec.limits_of project.now }
{
    let rate = u32::from(project.rate);
    let fps = u32::from(project.fps);
    Limits {
        frame: rate * 125_000 / fps,
        component: rate * 100_000 / fps,
    }
}

/// The job's text of a project whose canonical text this is.
fn job_text(alloc: Global, canonical: &[u8]) -> Result<Bytes, NoMemory>
    ensures { IfOk result (λ text. text ≡ codes "DCPJOB 1" ++ 10 ∷ canonical.now) }
{
    let mut text = b"DCPJOB 1\n".to_vec(alloc)?;
    text.extend_from_slice(canonical)?;
    Ok(Bytes::from(text))
}
