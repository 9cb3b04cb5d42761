ghost use Rattle.std.specs.Prelude.{◌≡◌, ◌⊎◌, IfOk, IfErr, OnOk, IsOk};
ghost use Rattle.mast_world.specs.Changes.{IsSameSource};
ghost use Rattle.mast_world.specs.Count.{HasRisen};
ghost use Rattle.dcp_commands.specs.Line.{IsPrinted};
ghost use Rattle.dcp_commands.specs.Plan.{status_in};
ghost use Rattle.dcp_commands.specs.Read.{IsCause, IsReadText, IsStop, read_answer, read_text};
ghost use Rattle.dcp_commands.specs.Status.{Answers};

use crate::line::print;
use crate::status::Status;
use crate::stopped::Stopped;
use mast_base::{Bytes, NoMemory};
use mast_world::{Sink, Source};
use std::alloc::Global;
use stream_inspect::{Inspected, inspect, inspected_text};

/// What is told of a file, in five lines.
fn read_text(alloc: Global, inspected: &Inspected) -> Result<Bytes, NoMemory>
    ensures { IfOk result (λ text. text ≡ read_text inspected.now) }
{
    let mut text = inspected_text(alloc, inspected)?;
    text.push(b'\n')?;
    Ok(text)
}

/// What `read` prints of the codestream in the file of this name.
fn show_stream<S: Source>(alloc: Global, name: &[u8], source: &mut S) -> Result<Bytes, Stopped>
    ensures text { IfOk result (IsReadText S.tells (S.file source.old) name.now) }
    ensures ended { IfErr result (IsStop S.tells (S.file source.old) name.now S.absent S.faults source.old source.new) }
    ensures untroubled { OnOk result (S.faults source.new ≡ S.faults source.old) }
    ensures kept { IsSameSource S.file S.absent S.taken S.faults source.old source.new }
{
    let inspected = inspect(alloc, source, name)?;
    Ok(read_text(alloc, &inspected)?)
}

/// Runs `read`: prints what a file's codestream holds.
pub(crate) fn run_read<S: Source, O: Sink>(
    alloc: Global,
    name: &[u8],
    source: &mut S,
    out: &mut O,
) -> Status
    ensures cause { IsCause S.tells (S.file source.old) name.now
        S.absent S.faults source.old source.new O.faults out.old out.new result }
    ensures told { S.tells
        → (result ≡ Status.SourceFault) ⊎ Answers result (status_in (read_answer (S.file source.old) name.now)) }
    ensures kept { IsSameSource S.file S.absent S.taken S.faults source.old source.new }
    ensures printed { O.tells
        → IsPrinted (IsReadText S.tells (S.file source.old) name.now) result (O.written out.old) (O.written out.new) }
    ensures complete { S.tells → IsOk (read_answer (S.file source.old) name.now)
        → ¬ HasRisen (S.faults source.old) (S.faults source.new) → ¬ HasRisen (O.faults out.old) (O.faults out.new)
        → (result ≡ Status.Done) ⊎ (result ≡ Status.NoMemory) }
{
    let outcome = show_stream(alloc, name, source);
    print(alloc, outcome, out)
}
