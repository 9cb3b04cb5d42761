ghost use Rattle.std.specs.Prelude.{◌≡◌, ◌≢◌, ◌≤◌, ◌<◌, ◌+◌, codes, false, true, map, length, All, IfOk, IsOk, IsSomeAnd, option_map, slice_index_or};
ghost use Rattle.film_project.specs.Accepts as spec;
ghost use Rattle.film_project.specs.Answers.{Answers, Refuses};
ghost use Rattle.film_reader.specs.Clips.{IsMembers};
ghost use Rattle.film_project.specs.Rules.{FitsGain, FitsPicture, FitsSound};
ghost use Rattle.film_project.specs.Members.{first_of, gain_of, list_in, members_fault, number_in, text_in};
ghost use Rattle.film_project.specs.Names.{member_name};
ghost use Rattle.film_project.specs.Objects as table;
ghost use Rattle.film_project.specs.Objects.{carries_sound as sounds};
ghost use Rattle.film_project.specs.Texts.{is_one_of};
ghost use Rattle.serde_json.specs.Find.{as_object};
ghost use Rattle.serde_json.specs.View.{view};

use crate::assets::{carries_sound, find_asset};
use crate::gains::read_gains;
use crate::member::{read_number, read_optional, read_text};
use crate::names::name_member;
use crate::object::check_object;
use film_project::{Asset, Gain, PictureClip, Place, ProjectRefusal, SoundClip, TextRule};
use mast_base::List;
use serde_json::Value;
use std::alloc::Global;

pub(crate) fn read_picture(
    alloc: Global,
    items: &[Value],
    frames: u32,
    assets: &[Asset],
) -> Result<List<PictureClip>, ProjectRefusal>
    requires frames { frames ≤ 432000 }
    requires assets { length assets.now ≤ 1000 }
    ensures answer { Answers result
        (first_of (spec.picture_fault assets.now frames) 0 (map view items.now))
        (map (spec.picture_in assets.now) (map view items.now)) }
    ensures length { IfOk result (λ clips. length clips ≡ length items.now) }
    ensures fits { IfOk result (All (FitsPicture frames assets.now)) }
{
    let mut found = List::new(alloc);
    for (index, item) in items.iter().enumerate() {
        found.push(read_picture_clip(alloc, item, index, frames, assets)?)?;
    }
    Ok(found)
}

fn read_picture_clip(
    alloc: Global,
    value: &Value,
    index: usize,
    frames: u32,
    assets: &[Asset],
) -> Result<PictureClip, ProjectRefusal>
    requires frames { frames ≤ 432000 }
    requires assets { length assets.now ≤ 1000 }
    ensures answer { Answers result
        (spec.picture_fault assets.now frames index (view value.now))
        (spec.picture_in assets.now (view value.now)) }
    ensures fits { IfOk result (FitsPicture frames assets.now) }
{
    let place = Place::Picture(index);
    check_picture(alloc, value, place)?;
    let (members, hold) = read_picture_members(alloc, value, place, frames)?;
    let found = find_asset(assets, members.asset.as_bytes());
    let asset = clip_asset(alloc, place, found, false)?;
    Ok(PictureClip {
        asset: asset as u32,
        at: members.at,
        from: members.from,
        count: members.count,
        hold,
    })
}

fn check_picture(alloc: Global, value: &Value, place: Place) -> Result<(), ProjectRefusal>
    ensures { Refuses result
        (table.shape_fault place (is_one_of table.picture_names) (as_object (view value.now))) }
{
    check_object(
        alloc,
        value,
        place,
        &["asset", "at", "from", "count", "hold"],
    )
}

fn read_picture_members<'v>(
    alloc: Global,
    value: &'v Value,
    place: Place,
    frames: u32,
) -> Result<(Members<'v>, u32), ProjectRefusal>
    requires { frames ≤ 432000 }
    ensures refuses { Refuses result
        (members_fault place (view value.now) (table.picture_members frames (view value.now))) }
    ensures members { IfOk result (λ p. IsMembers frames p.0 (view value.now)) }
    ensures hold { IfOk result (λ p. p.1 ≡ number_in (codes "hold") 1 (view value.now)) }
    ensures some_hold { IfOk result (λ p. 1 ≤ p.1) }
    ensures most_hold { IfOk result (λ p. p.1 ≤ 100) }
{
    let members = read_members(alloc, value, place, frames)?;
    let hold = read_optional(alloc, value, place, "hold", 1, 100, 1)?;
    Ok((members, hold as u32))
}

/// What both kinds of clips have.
#[derive(Clone, Copy)]
struct Members<'v> {
    asset: &'v str,
    at: u32,
    from: u32,
    count: u32,
}

fn read_members<'v>(
    alloc: Global,
    value: &'v Value,
    place: Place,
    frames: u32,
) -> Result<Members<'v>, ProjectRefusal>
    requires { frames ≤ 432000 }
    ensures refuses { Refuses result
        (members_fault place (view value.now) (table.clip_members frames (view value.now))) }
    ensures members { IfOk result (λ m. IsMembers frames m (view value.now)) }
{
    let asset = read_text(alloc, value, place, "asset", TextRule::AnyText)?;
    let at = read_number(alloc, value, place, "at", 0, 431_999)?;
    let from = read_number(alloc, value, place, "from", 0, 999_999)?;
    let most = (frames as u64).saturating_sub(at);
    let count = read_number(alloc, value, place, "count", 1, most)?;
    Ok(Members {
        asset,
        at: at as u32,
        from: from as u32,
        count: count as u32,
    })
}

/// The place of a clip's asset, which has to be there and of a kind for the clip's list.
fn clip_asset(
    alloc: Global,
    place: Place,
    found: Option<(usize, &Asset)>,
    sound: bool,
) -> Result<usize, ProjectRefusal>
    ensures answer { Answers result
        (spec.found_fault (member_name place (codes "asset")) sound (option_map (λ p. (p.0, p.1.now)) found.entry))
        (spec.place_in (option_map (λ p. (p.0, p.1.now)) found.entry)) }
    ensures kind { IfOk result
        (λ i. IsSomeAnd found.entry (λ p. (p.0 ≡ i) × (sounds p.1.now.kind ≡ sound))) }
{
    if let Some((index, asset)) = found
        && carries_sound(asset.kind) == sound
    {
        return Ok(index);
    }
    Err(ProjectRefusal::NoSuchAsset {
        name: name_member(alloc, place, "asset")?,
    })
}

pub(crate) fn read_sound(
    alloc: Global,
    items: &[Value],
    frames: u32,
    channels: u8,
    assets: &[Asset],
) -> Result<List<SoundClip>, ProjectRefusal>
    requires frames { frames ≤ 432000 }
    requires channels { channels ≤ 16 }
    requires assets { length assets.now ≤ 1000 }
    ensures answer { Answers result
        (first_of (spec.sound_fault assets.now frames channels) 0 (map view items.now))
        (map (spec.sound_in assets.now) (map view items.now)) }
    ensures length { IfOk result (λ clips. length clips ≡ length items.now) }
    ensures fits { IfOk result (All (FitsSound frames channels assets.now)) }
{
    let mut found = List::new(alloc);
    for (index, item) in items.iter().enumerate() {
        found.push(read_sound_clip(alloc, item, index, frames, channels, assets)?)?;
    }
    Ok(found)
}

fn read_sound_clip(
    alloc: Global,
    value: &Value,
    index: usize,
    frames: u32,
    channels: u8,
    assets: &[Asset],
) -> Result<SoundClip, ProjectRefusal>
    requires frames { frames ≤ 432000 }
    requires channels { channels ≤ 16 }
    requires assets { length assets.now ≤ 1000 }
    ensures answer { Answers result
        (spec.sound_fault assets.now frames channels index (view value.now))
        (spec.sound_in assets.now (view value.now)) }
    ensures fits { IfOk result (FitsSound frames channels assets.now) }
{
    let place = Place::Sound(index);
    check_sound(alloc, value, place)?;
    let id = clip_id(value);
    let found = find_asset(assets, id.as_bytes());
    let inputs = input_channels(found);
    let (members, gains) = read_sound_members(alloc, value, place, frames, inputs, channels)?;
    let asset = clip_asset(alloc, place, found, true)?;
    Ok(SoundClip {
        asset: asset as u32,
        at: members.at,
        from: members.from,
        count: members.count,
        gains,
    })
}

/// The id of a clip's asset. It is empty where the clip has none, which is told later.
fn clip_id(value: &Value) -> &str
    ensures { result.now ≡ text_in (codes "asset") (view value.now) }
{
    match value.get("asset") {
        Some(asset) => asset.as_str().unwrap_or(""),
        None => "",
    }
}

fn read_sound_members<'v>(
    alloc: Global,
    value: &'v Value,
    place: Place,
    frames: u32,
    inputs: u8,
    outputs: u8,
) -> Result<(Members<'v>, List<Gain>), ProjectRefusal>
    requires frames { frames ≤ 432000 }
    requires inputs { inputs ≤ 16 }
    requires outputs { outputs ≤ 16 }
    ensures refuses { Refuses result
        (members_fault place (view value.now) (table.sound_members frames inputs outputs (view value.now))) }
    ensures members { IfOk result (λ p. IsMembers frames p.0 (view value.now)) }
    ensures gains { IfOk result
        (λ p. p.1 ≡ map gain_of (list_in (codes "gains") (view value.now))) }
    ensures most_gains { IfOk result (λ p. length p.1 ≤ 256) }
    ensures fits { IfOk result (λ p. All (FitsGain inputs outputs) p.1) }
{
    let members = read_members(alloc, value, place, frames)?;
    let gains = read_gains(alloc, value, place, inputs as u64, outputs as u64)?;
    Ok((members, gains))
}

fn check_sound(alloc: Global, value: &Value, place: Place) -> Result<(), ProjectRefusal>
    ensures { Refuses result
        (table.shape_fault place (is_one_of table.sound_names) (as_object (view value.now))) }
{
    check_object(
        alloc,
        value,
        place,
        &["asset", "at", "from", "count", "gains"],
    )
}

/// The channels of a clip's asset. Where there is no such asset, a channel need only be below 16.
fn input_channels(found: Option<(usize, &Asset)>) -> u8
    ensures value { result
        ≡ spec.input_channels (option_map (λ p. (p.0, p.1.now)) found.entry) }
    ensures most { result ≤ 16 }
{
    match found {
        Some((_, asset)) if carries_sound(asset.kind) => asset.channels,
        _ => 16,
    }
}
