ghost use Rattle.std.specs.Prelude.{◌≡◌, ◌⊎◌, None, IsOk, map, string_bytes};
ghost use Rattle.mast_world.specs.Changes.{IsSameSource};
ghost use Rattle.mast_world.specs.Count.{HasRisen};
ghost use Rattle.dcp_commands.specs.Line.{IsPrinted};
ghost use Rattle.dcp_commands.specs.Plan.{status_in};
ghost use Rattle.dcp_commands.specs.Run.{IsCause, IsRunText, run_answer};
ghost use Rattle.dcp_commands.specs.Status.{Answers};
ghost use Rattle.dcp_commands.specs.Words.{frame_words, plan_words, read_words};

use crate::frame::run_frame;
use crate::plan::run_plan;
use crate::read::run_read;
use crate::status::Status;
use crate::words::{frame_words, read_words};
use mast_world::{Sink, Source};
use std::alloc::Global;

/// Runs a command that writes no folder: `plan` checks a project and its inputs, and prints what a
/// run would make; `frame` prints the codestream of one of its frames, and `read` what a codestream
/// holds.
pub fn run<S: Source, O: Sink>(
    alloc: Global,
    words: &[String],
    source: &mut S,
    out: &mut O,
) -> Status
    // Why it ended so, status by status; and the other way: words and files decide, the first cause in their order, or what
    // is asked for.
    ensures cause { IsCause S.tells (S.file source.old) (map string_bytes words.now)
        S.absent S.faults source.old source.new O.faults out.old out.new result }
    ensures told { S.tells
        → (result ≡ Status.SourceFault)
        ⊎ Answers result (status_in (run_answer (S.file source.old) (map string_bytes words.now))) }
    ensures refused { plan_words (map string_bytes words.now) ≡ None → frame_words (map string_bytes words.now) ≡ None
        → read_words (map string_bytes words.now) ≡ None → Answers result Status.Usage }
    ensures kept { IsSameSource S.file S.absent S.taken S.faults source.old source.new }

    // What is printed: the command's lines or bytes, or the status' line.
    ensures printed { O.tells
        → IsPrinted (IsRunText S.tells (S.file source.old) (map string_bytes words.now))
        result (O.written out.old) (O.written out.new) }

    // Where there is something to print and no device fails, nothing but want of memory keeps it from being printed.
    ensures complete { S.tells → IsOk (run_answer (S.file source.old) (map string_bytes words.now))
        → ¬ HasRisen (S.faults source.old) (S.faults source.new) → ¬ HasRisen (O.faults out.old) (O.faults out.new)
        → (result ≡ Status.Done) ⊎ (result ≡ Status.NoMemory) }
{
    if let Some(name) = read_words(words) {
        return run_read(alloc, name.as_bytes(), source, out);
    }
    match frame_words(words) {
        Some(asked) => run_frame(alloc, asked.project.as_bytes(), asked.number, source, out),
        None => run_plan(alloc, words, source, out),
    }
}
