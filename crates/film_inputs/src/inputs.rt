ghost use Rattle.std.specs.Prelude.{◌≡◌, ◌<◌, ◌≤◌, ◌||◌, ◌==◌, [], Some, None, Ok, IfOk, IfErr, OnOk, OnErr, IsSomeAnd, length, map, option_map, unwrap_or};
ghost use Rattle.std.specs.List.{list_any};
ghost use Rattle.film_project.specs.Facts.{asset_at};
ghost use Rattle.film_reader.specs.declared.read.TheConstants.{GREATEST_TEXT};
ghost use Rattle.mast_world.specs.Changes.{IsSameSource};
ghost use Rattle.mast_world.specs.Count.{counted, counted_on_ok};
ghost use Rattle.pcm_mix.specs.Mix.{AreSoundsThere};
ghost use Rattle.film_inputs.specs.Causes.{IsGoneAt, IsGoneInput, IsInputCause, IsPlanCause, IsTextCause};
ghost use Rattle.film_inputs.specs.Inputs.{is_named, is_single, is_wanted, missing_input, planned, size_at, sizes_of, missing_at};

use crate::ends::{InputEnd, PlanEnd};
use film_plan::{Plan, plan};
use film_project::{Asset, AssetKind, Project, ProjectRefusal};
use film_reader::{GREATEST_TEXT, read_project};
use mast_base::Bytes;
use mast_world::{Failed, Source};
use std::alloc::Global;

fn source_fault(_fault: Failed) -> InputEnd
    ensures { result ≡ InputEnd.SourceFault }
{
    InputEnd::SourceFault
}

/// The size of a file, which has to be there.
fn find_size<S: Source>(alloc: Global, source: &mut S, name: &[u8]) -> Result<u64, InputEnd>
    ensures size { S.tells → IfOk result (λ size. option_map length (S.file source.old name.now) ≡ Some size) }
    ensures ended { IfErr result (IsInputCause S.absent S.faults source.old source.new
        (λ n. (n ≡ name.now) × (S.tells → S.file source.old n ≡ None))) }

    ensures untroubled { OnOk result (S.faults source.new ≡ S.faults source.old) }
    ensures same_taken { S.taken source.new ≡ S.taken source.old }
    ensures kept { IsSameSource S.file S.absent S.taken S.faults source.old source.new }
{
    match source.find(name).map_err(source_fault)? {
        Some(size) => Ok(size),
        None => Err(InputEnd::Missing {
            name: Bytes::copy_of(alloc, name)?,
        }),
    }
}

/// Reads a whole file of so many bytes.
fn read_file<S: Source>(
    alloc: Global,
    source: &mut S,
    name: &[u8],
    size: u64,
) -> Result<Vec<u8>, InputEnd>
    requires there { S.tells → option_map length (S.file source.old name.now) ≡ Some size }
    ensures read { S.tells → IfOk result (λ text. S.file source.old name.now ≡ Some text.items) }
    ensures size { IfOk result (λ text. length text.items ≡ size) }
    ensures taken { S.taken source.new ≡ counted_on_ok (S.taken source.old) size result }
    ensures ended { IfErr result (IsInputCause S.absent S.faults source.old source.new (λ n. ⊥)) }

    ensures untroubled { OnOk result (S.faults source.new ≡ S.faults source.old) }
    ensures kept { IsSameSource S.file S.absent S.taken S.faults source.old source.new }
{
    let mut text = Vec::from_elem(alloc, 0, size as usize)?;
    source
        .read(name, 0, text.as_mut_slice())
        .map_err(source_fault)?;
    Ok(text)
}

/// Reads the text of the project file of this name. One that is too long isn't read.
fn read_text<S: Source>(alloc: Global, source: &mut S, name: &[u8]) -> Result<Vec<u8>, PlanEnd>
    ensures read { S.tells → IfOk result (λ text. S.file source.old name.now ≡ Some text.items) }
    ensures size { IfOk result (λ text. length text.items ≤ GREATEST_TEXT) }
    ensures taken { IfOk result (λ text. S.taken source.new ≡ counted (S.taken source.old) (length text.items)) }
    ensures unread { OnErr result (S.taken source.new ≡ S.taken source.old) }
    ensures ended { IfErr result (IsTextCause S.tells (S.file source.old) name.now S.absent S.faults source.old source.new) }

    ensures untroubled { OnOk result (S.faults source.new ≡ S.faults source.old) }
    ensures kept { IsSameSource S.file S.absent S.taken S.faults source.old source.new }
{
    let size = find_size(alloc, source, name)?;
    if size > GREATEST_TEXT as u64 {
        let refusal = ProjectRefusal::FileTooLong { bytes: size };
        return Err(PlanEnd::Project(refusal));
    }
    Ok(read_file(alloc, source, name, size)?)
}

fn is_single(kind: AssetKind) -> bool
    ensures { result ≡ is_single kind }
{
    match kind {
        AssetKind::Rgb48 | AssetKind::Pcm24 => true,
        AssetKind::Ppm | AssetKind::J2c => false,
    }
}

fn is_shown(project: &Project, place: u32) -> bool
    ensures { result ≡ list_any (λ clip. clip.asset == place) project.now.picture }
{
    let clips = project.picture.as_slice();
    clips.iter().any(|clip| clip.asset == place)
}

fn is_played(project: &Project, place: u32) -> bool
    ensures { result ≡ list_any (λ clip. clip.asset == place) project.now.sound }
{
    let clips = project.sound.as_slice();
    clips.iter().any(|clip| clip.asset == place)
}

/// Whether some clip names the asset at this place.
fn is_named(project: &Project, place: u32) -> bool
    ensures { result ≡ is_named project.now place }
{
    is_shown(project, place) || is_played(project, place)
}

fn asset_at(project: &Project, place: u32) -> &Asset
    requires { place < length project.now.assets }
    ensures { result.now ≡ asset_at project.now place }
{
    &project.assets.as_slice()[place as usize]
}

/// Whether the file of the asset at this place is looked for.
fn is_wanted(project: &Project, place: u32) -> bool
    requires { place < length project.now.assets }
    ensures { result ≡ is_wanted project.now place }
{
    is_single(asset_at(project, place).kind) && is_named(project, place)
}

/// The size of the asset at this place; one that isn't looked for counts as empty.
fn size_of<S: Source>(
    alloc: Global,
    project: &Project,
    place: u32,
    source: &mut S,
) -> Result<u64, InputEnd>
    requires { place < length project.now.assets }
    ensures there { S.tells → OnOk result (missing_at (S.file source.old) project.now place ≡ None) }
    ensures size { S.tells → IfOk result (λ size. size ≡ size_at (S.file source.old) project.now place) }
    ensures ended { IfErr result (IsInputCause S.absent S.faults source.old source.new
        (IsGoneAt S.tells (S.file source.old) project.now place)) }

    ensures untroubled { OnOk result (S.faults source.new ≡ S.faults source.old) }
    ensures same_taken { S.taken source.new ≡ S.taken source.old }
    ensures kept { IsSameSource S.file S.absent S.taken S.faults source.old source.new }
{
    if !is_wanted(project, place) {
        return Ok(0);
    }
    find_size(alloc, source, asset_at(project, place).file.as_slice())
}

/// The sizes of all assets, in their order.
fn find_sizes<S: Source>(
    alloc: Global,
    project: &Project,
    source: &mut S,
) -> Result<Vec<u64>, InputEnd>
    ensures there { S.tells → OnOk result (missing_input (S.file source.old) project.now ≡ None) }
    ensures sizes { S.tells → IfOk result (λ sizes. sizes.items ≡ sizes_of (S.file source.old) project.now) }
    ensures count { IfOk result (λ sizes. length sizes.items ≡ length project.now.assets) }
    ensures ended { IfErr result (IsInputCause S.absent S.faults source.old source.new
        (IsGoneInput S.tells (S.file source.old) project.now)) }

    ensures untroubled { OnOk result (S.faults source.new ≡ S.faults source.old) }
    ensures same_taken { S.taken source.new ≡ S.taken source.old }
    ensures kept { IsSameSource S.file S.absent S.taken S.faults source.old source.new }
{
    let count = project.assets.len() as u32;
    let mut sizes = Vec::with_capacity(alloc, count as usize)?;
    for place in 0..count {
        sizes.push(size_of(alloc, project, place, source)?)?;
    }
    Ok(sizes)
}

/// Reads the project file of this name, looks for the single files that its clips name, and plans it.
pub fn read_plan<S: Source>(alloc: Global, source: &mut S, name: &[u8]) -> Result<Plan, PlanEnd>
    ensures planned { S.tells → IfOk result (λ plan. planned (S.file source.old) name.now ≡ Ok plan.project) }
    ensures taken { S.tells → OnOk result (IsSomeAnd (S.file source.old name.now)
        (λ text. S.taken source.new ≡ counted (S.taken source.old) (length text))) }
    ensures sounds { S.tells → IfOk result (λ plan. AreSoundsThere (S.file source.old) plan.project) }

    // Why there is none, by the ending. A file that is too long isn't read.
    ensures ended { IfErr result (IsPlanCause S.tells (S.file source.old) name.now S.absent S.faults source.old source.new) }
    ensures unread { S.tells → IsSomeAnd (S.file source.old name.now) (λ text. GREATEST_TEXT < length text)
        → S.taken source.new ≡ S.taken source.old }

    ensures untroubled { OnOk result (S.faults source.new ≡ S.faults source.old) }
    ensures kept { IsSameSource S.file S.absent S.taken S.faults source.old source.new }
{
    let text = read_text(alloc, source, name)?;
    let project = read_project(alloc, text.as_slice())?;
    let sizes = find_sizes(alloc, &project, source)?;
    Ok(plan(alloc, &project, sizes.as_slice())?)
}
