ghost use Rattle.std.specs.Prelude.{◌≡◌, ◌⊎◌, None, Err, IfOk, IfErr, OnOk, IsSome, map, string_bytes};
ghost use Rattle.mast_world.specs.Changes.{IsSameBeside, IsSameSource};
ghost use Rattle.mast_world.specs.Count.{HasRisen};
ghost use Rattle.dcp_commands.specs.Line.{IsPrinted};
ghost use Rattle.dcp_commands.specs.Make.{HasEncodedFrames, IsCause, IsFolder, IsMadeText, IsPackage};
ghost use Rattle.dcp_commands.specs.Make.{IsStop, IsTrack, checked, package_of};
ghost use Rattle.dcp_commands.specs.Status.{Answers};
ghost use Rattle.dcp_commands.specs.Words.{make_words};
ghost use Rattle.dcp_commands.specs.declared.status.Status.{Status};

use crate::line::{done_text, print};
use crate::status::Status;
use crate::stopped::Stopped;
use crate::words::make_words;
use film_inputs::read_plan;
use make_engine::{Options, make_alone};
use mast_base::Bytes;
use mast_world::{Sink, Source, Volume};
use std::alloc::Global;

/// What holds where the words say nothing else.
const OPTIONS: Options = Options {
    workers: 1,
    held: 8,
    fresh: false,
};

/// Makes the package that the words ask for, and answers what is printed of it.
fn make_package<S: Source, V: Volume>(
    alloc: Global,
    words: &[String],
    source: &mut S,
    volume: &mut V,
) -> Result<Bytes, Stopped>
    ensures package { S.tells → OnOk result (IsPackage V.tells (S.file source.old) (map string_bytes words.now)
        (V.reads volume.new) (S.taken source.old) (S.taken source.new)) }
    ensures folder { V.tells → OnOk result (IsFolder S.tells (S.file source.old) (map string_bytes words.now)
        (V.reads volume.new) (V.put volume.old) (V.put volume.new) (V.history volume.new)) }
    ensures encoded { S.tells → OnOk result (HasEncodedFrames (S.file source.old) (map string_bytes words.now)) }
    ensures text { IfOk result (IsMadeText S.tells (S.file source.old) (map string_bytes words.now)) }
    ensures source_untroubled { OnOk result (S.faults source.new ≡ S.faults source.old) }
    ensures volume_untroubled { OnOk result (V.faults volume.new ≡ V.faults volume.old) }

    ensures refused { make_words (map string_bytes words.now) ≡ None → result ≡ Err Stopped.Usage }
    ensures ended { IfErr result (IsStop S.tells (S.file source.old) (map string_bytes words.now)
        S.absent S.faults source.old source.new V.tells V.reads V.put V.faults V.history volume.old volume.new) }
    ensures kept { IsSameSource S.file S.absent S.taken S.faults source.old source.new }
    ensures beside { IsSameBeside IsTrack V.tells V.reads V.put V.faults V.history volume.old volume.new }
{
    let Some(asked) = make_words(words) else {
        return Err(Stopped::Usage);
    };
    let plan = read_plan(alloc, source, asked.project.as_bytes())?;
    let report = make_alone(alloc, &plan, &OPTIONS, source, volume)?;
    Ok(done_text(alloc, report)?)
}

/// Runs `make`: makes the package of the project that the words name in the volume, and prints how
/// it ended.
pub fn run_make<S: Source, V: Volume, O: Sink>(
    alloc: Global,
    words: &[String],
    source: &mut S,
    volume: &mut V,
    out: &mut O,
) -> Status
    // On `Done` the package's files are those of the frame-by-frame definition, and all input was read for them.
    ensures package { S.tells → result ≡ Status.Done → IsPackage V.tells (S.file source.old) (map string_bytes words.now)
        (V.reads volume.new) (S.taken source.old) (S.taken source.new) }

    // Whatever the source tells, they are tracks of values within the project's limits, so much was put into them, and
    // each image that a crash may leave has them.
    ensures folder { V.tells → result ≡ Status.Done
        → IsFolder S.tells (S.file source.old) (map string_bytes words.now)
        (V.reads volume.new) (V.put volume.old) (V.put volume.new) (V.history volume.new) }

    // Each frame that was encoded is read back to its quantised coefficients down to the bit-planes that its cut keeps,
    // within the limits.
    ensures encoded { S.tells → result ≡ Status.Done → HasEncodedFrames (S.file source.old) (map string_bytes words.now) }

    // Why it ended so, status by status; and the other way: words, project and inputs that end the command before a frame
    // is read do so, the first cause in their order.
    ensures cause { IsCause S.tells (S.file source.old) (map string_bytes words.now)
        S.absent S.faults source.old source.new V.tells V.reads V.put V.faults V.history volume.old volume.new
        O.faults out.old out.new result }
    ensures told { (status : Status) → S.tells → checked (S.file source.old) (map string_bytes words.now) ≡ Err status
        → (result ≡ Status.SourceFault) ⊎ Answers result status }
    ensures refused { make_words (map string_bytes words.now) ≡ None → Answers result Status.Usage }

    // What stays in any case.
    ensures kept { IsSameSource S.file S.absent S.taken S.faults source.old source.new }
    ensures beside { IsSameBeside IsTrack V.tells V.reads V.put V.faults V.history volume.old volume.new }

    // The line that is printed; that of `Done` has the project's number of frames.
    ensures printed { O.tells
        → IsPrinted (IsMadeText S.tells (S.file source.old) (map string_bytes words.now))
        result (O.written out.old) (O.written out.new) }

    // Where there is a package and no device fails, nothing but want of memory keeps it from being made.
    ensures complete { S.tells → IsSome (package_of (S.file source.old) (map string_bytes words.now))
        → ¬ HasRisen (S.faults source.old) (S.faults source.new)
        → ¬ HasRisen (V.faults volume.old) (V.faults volume.new) → ¬ HasRisen (O.faults out.old) (O.faults out.new)
        → (result ≡ Status.Done) ⊎ (result ≡ Status.NoMemory) }
{
    let outcome = make_package(alloc, words, source, volume);
    print(alloc, outcome, out)
}
