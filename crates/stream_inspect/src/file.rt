use crate::ends::InspectEnd;
use codec_terms::ReadRefusal;
use mast_base::Bytes;
use mast_world::{Failed, Source};
use std::alloc::Global;
use stream_survey::{Survey, survey_stream};

/// The most bytes of a file that is read.
const GREATEST_SIZE: u64 = 16_777_216;

/// What is told of a codestream, and the size of its file in bytes.
#[derive(Clone, Copy, Debug, PartialEq, Eq)]
pub struct Inspected {
    pub survey: Survey,
    pub size: u64,
}

ghost use Rattle.std.specs.Prelude.{◌≡◌, ◌≢◌, ◌⊎◌, ◌≤◌, Some, Ok, Err, IfOk, IfErr, length, option_map};
ghost use Rattle.mast_world.specs.Changes.{IsSameSource};
ghost use Rattle.mast_world.specs.Count.{counted_on_ok, HasRisen};
ghost use Rattle.stream_inspect.specs.Causes.{IsBytesCause, IsFindCause, IsInspectCause, IsReadCause, IsTaken, IsToldOf};
ghost use Rattle.stream_inspect.specs.Inspect.{greatest_size, inspected, with_bytes};

fn source_fault(_fault: Failed) -> InspectEnd
    ensures { result ≡ InspectEnd.Fault }
{
    InspectEnd::Fault
}

/// The size of a file, which has to be there and mustn't be too long.
fn find_size<S: Source>(alloc: Global, source: &mut S, name: &[u8]) -> Result<u64, InspectEnd>
    ensures size { S.tells → IfOk result (λ size. option_map length (S.file source.old name.now) ≡ Some size) }
    ensures few { IfOk result (λ size. size ≤ greatest_size) }
    ensures ended { IfErr result (IsFindCause S.tells (S.file source.old) name.now S.absent S.faults source.old source.new) }

    ensures untroubled { result ≢ Err InspectEnd.Fault → S.faults source.new ≡ S.faults source.old }
    ensures same_taken { S.taken source.new ≡ S.taken source.old }
    ensures kept { IsSameSource S.file S.absent S.taken S.faults source.old source.new }
{
    match source.find(name).map_err(source_fault)? {
        Some(size) if size > GREATEST_SIZE => Err(InspectEnd::TooLong { size }),
        Some(size) => Ok(size),
        None => Err(InspectEnd::Missing {
            name: Bytes::copy_of(alloc, name)?,
        }),
    }
}

/// Reads a whole file of so many bytes.
fn read_bytes<S: Source>(
    alloc: Global,
    source: &mut S,
    name: &[u8],
    size: u64,
) -> Result<Vec<u8>, InspectEnd>
    requires there { S.tells → option_map length (S.file source.old name.now) ≡ Some size }
    ensures read { S.tells → IfOk result (λ bytes. S.file source.old name.now ≡ Some bytes.items) }
    ensures size { IfOk result (λ bytes. length bytes.items ≡ size) }
    ensures ended { IfErr result (IsReadCause S.faults source.old source.new) }

    ensures taken { S.taken source.new ≡ counted_on_ok (S.taken source.old) size result }
    ensures untroubled { result ≢ Err InspectEnd.Fault → S.faults source.new ≡ S.faults source.old }
    ensures kept { IsSameSource S.file S.absent S.taken S.faults source.old source.new }
{
    let mut bytes = Vec::from_elem(alloc, 0, size as usize)?;
    source
        .read(name, 0, bytes.as_mut_slice())
        .map_err(source_fault)?;
    Ok(bytes)
}

/// What is told of a file with these bytes.
fn inspect_bytes(bytes: &[u8]) -> Result<Inspected, InspectEnd>
    requires { length bytes.now ≤ greatest_size }
    ensures told { IfOk result (λ it. with_bytes bytes.now ≡ Ok it) }
    ensures ended { IfErr result (IsBytesCause bytes.now) }
{
    match survey_stream(bytes) {
        Ok(survey) => Ok(Inspected {
            survey,
            size: bytes.len() as u64,
        }),
        Err(ReadRefusal::NoMemory) => Err(InspectEnd::NoMemory),
        Err(refusal) => Err(InspectEnd::Bad(refusal)),
    }
}

/// Reads the file of this name and tells what codestream it holds. The memory of the whole is the file's bytes.
pub fn inspect<S: Source>(
    alloc: Global,
    source: &mut S,
    name: &[u8],
) -> Result<Inspected, InspectEnd>
    ensures told { S.tells → IfOk result (λ it. inspected (S.file source.old) name.now ≡ Ok it) }
    ensures some_bytes { IfOk result IsToldOf }

    // Why nothing is told, by the ending; and where no fault came between, the files decide, or want of memory does.
    ensures ended { IfErr result (IsInspectCause S.tells (S.file source.old) name.now S.absent S.faults source.old source.new) }
    ensures complete { S.tells → ¬ HasRisen (S.faults source.old) (S.faults source.new)
        → (result ≡ inspected (S.file source.old) name.now) ⊎ (result ≡ Err InspectEnd.NoMemory) }

    // How many bytes were read: of a file that is too long none.
    ensures taken { IsTaken S.tells (S.file source.old name.now) (S.taken source.old) (S.taken source.new) result }

    ensures untroubled { result ≢ Err InspectEnd.Fault → S.faults source.new ≡ S.faults source.old }
    ensures kept { IsSameSource S.file S.absent S.taken S.faults source.old source.new }
{
    let size = find_size(alloc, source, name)?;
    let bytes = read_bytes(alloc, source, name, size)?;
    inspect_bytes(&bytes)
}
