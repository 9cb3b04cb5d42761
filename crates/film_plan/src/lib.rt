//! The plan of a run: what is shown in each frame, the limits of a frame's size, the package's
//! identifiers and the job's text.
#![tactic(auto)]

mod ids;
mod job;
mod needs;
mod planning;
mod refusal;

pub use ids::Ids;
pub use job::Plan;
pub use planning::plan;
pub use refusal::PlanRefusal;
