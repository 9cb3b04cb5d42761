ghost use Rattle.std.specs.Prelude.{◌≡◌, ◌⊎◌, None, Err, IfOk, IfErr, OnOk, IsOk, map, string_bytes};
ghost use Rattle.mast_world.specs.Changes.{IsSameSource};
ghost use Rattle.mast_world.specs.Count.{HasRisen};
ghost use Rattle.dcp_commands.specs.Line.{IsPrinted};
ghost use Rattle.dcp_commands.specs.Plan.{IsCause, IsPlanText, IsStop, checked_plan, status_in};
ghost use Rattle.dcp_commands.specs.Status.{Answers};
ghost use Rattle.dcp_commands.specs.Words.{plan_words};

use crate::line::print;
use crate::plan_text::plan_text;
use crate::status::Status;
use crate::stopped::Stopped;
use crate::words::plan_words;
use film_inputs::read_plan;
use mast_base::Bytes;
use mast_world::{Sink, Source};
use std::alloc::Global;

/// What `plan` prints of the project that the words name.
fn show_plan<S: Source>(alloc: Global, words: &[String], source: &mut S) -> Result<Bytes, Stopped>
    ensures text { IfOk result (IsPlanText S.tells (S.file source.old) (map string_bytes words.now)) }
    ensures refused { plan_words (map string_bytes words.now) ≡ None → result ≡ Err Stopped.Usage }
    ensures ended { IfErr result (IsStop S.tells (S.file source.old) (map string_bytes words.now)
        S.absent S.faults source.old source.new) }
    ensures untroubled { OnOk result (S.faults source.new ≡ S.faults source.old) }
    ensures kept { IsSameSource S.file S.absent S.taken S.faults source.old source.new }
{
    let Some(project) = plan_words(words) else {
        return Err(Stopped::Usage);
    };
    let plan = read_plan(alloc, source, project.as_bytes())?;
    Ok(plan_text(alloc, &plan)?)
}

/// Runs `plan`: checks a project and its inputs, and prints what a run would make.
pub(crate) fn run_plan<S: Source, O: Sink>(
    alloc: Global,
    words: &[String],
    source: &mut S,
    out: &mut O,
) -> Status
    // Why it ended so, status by status; and the other way: words, project and inputs decide, the first cause in their
    // order, or the plan.
    ensures cause { IsCause S.tells (S.file source.old) (map string_bytes words.now)
        S.absent S.faults source.old source.new O.faults out.old out.new result }
    ensures told { S.tells
        → (result ≡ Status.SourceFault)
        ⊎ Answers result (status_in (checked_plan (S.file source.old) (map string_bytes words.now))) }
    ensures refused { plan_words (map string_bytes words.now) ≡ None → Answers result Status.Usage }
    ensures kept { IsSameSource S.file S.absent S.taken S.faults source.old source.new }

    // What is printed: the plan's lines, or the status' line.
    ensures printed { O.tells
        → IsPrinted (IsPlanText S.tells (S.file source.old) (map string_bytes words.now))
        result (O.written out.old) (O.written out.new) }

    // Where there is a plan and no device fails, nothing but want of memory keeps it from being printed.
    ensures complete { S.tells → IsOk (checked_plan (S.file source.old) (map string_bytes words.now))
        → ¬ HasRisen (S.faults source.old) (S.faults source.new) → ¬ HasRisen (O.faults out.old) (O.faults out.new)
        → (result ≡ Status.Done) ⊎ (result ≡ Status.NoMemory) }
{
    let outcome = show_plan(alloc, words, source);
    print(alloc, outcome, out)
}
