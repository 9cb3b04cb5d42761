ghost use Rattle.std.specs.Prelude.{◌≡◌, ◌≢◌, ◌<◌, Ok, map, length, All, IfOk, OnOk, IsTrue};
ghost use Rattle.film_project.specs.Accepts.{accepts};
ghost use Rattle.film_project.specs.Canonical as spec;
ghost use Rattle.film_project.specs.Texts.{keeps};
ghost use Rattle.film_project.specs.declared.text_rule.TextRule.TheVariants.{AnyText};
ghost use Rattle.serde_json.specs.Data.{string};
ghost use Rattle.serde_json.specs.View.{view, members_view};
ghost use Rattle.uuid.specs.Text.{hyphenated_text, lower};

use film_project::{Asset, AssetKind, Gain, PictureClip, Project, SoundClip, TextRule};
use mast_base::{Bytes, NoMemory};
use serde_json::{Map, Value, json, put};
use std::alloc::{AllocError, Global};
use std::str;
use uuid::Uuid;

/// The canonical text of the project: JSON without spaces that has all members, in the order of
/// their names' bytes.
pub fn project_text(alloc: Global, project: &Project) -> Result<Bytes, NoMemory>
    ensures canonical { IfOk result
        (λ text. text ≡ spec.canonical_text project.now) }
    ensures reads_back { IfOk result
        (λ text. accepts text ≡ Ok project.now) }
    ensures short { IfOk result (λ text. length text < 4400000) }
{
    // What follows rests on the project's rules, which are seen where a field is.
    let _ = &project.title;
    let value = project_value(alloc, project)?;
    Ok(Bytes::from(value.to_vec(alloc)?))
}

fn project_value(alloc: Global, project: &Project) -> Result<Value, AllocError>
    ensures { IfOk result (λ v. view v ≡ spec.project_data project.now) }
{
    let mut members = Map::new(alloc);
    put_numbers(alloc, &mut members, project)?;
    put_texts(alloc, &mut members, project)?;
    put_lists(alloc, &mut members, project)?;
    Ok(Value::Object(members))
}

fn put_numbers(
    alloc: Global,
    members: &mut Map<String, Value>,
    project: &Project,
) -> Result<(), AllocError>
    ensures { OnOk result (members_view members.new.entries
        ≡ spec.with_numbers project.now (members_view members.old.entries)) }
{
    put(members, alloc, "channels", Value::from(project.channels))?;
    put(members, alloc, "fps", Value::from(project.fps))?;
    put(members, alloc, "frames", Value::from(project.frames))?;
    put(members, alloc, "height", Value::from(project.height))?;
    put(members, alloc, "power", Value::from(project.power))?;
    put(members, alloc, "rate", Value::from(project.rate))?;
    put(members, alloc, "width", Value::from(project.width))
}

fn put_texts(
    alloc: Global,
    members: &mut Map<String, Value>,
    project: &Project,
) -> Result<(), AllocError>
    ensures { OnOk result (members_view members.new.entries
        ≡ spec.with_texts project.now (members_view members.old.entries)) }
{
    let issued = text_value(alloc, TextRule::Issued, project.issued.as_slice())?;
    put(members, alloc, "issued", issued)?;
    let kind = text_value(alloc, TextRule::ContentKind, project.kind.as_slice())?;
    put(members, alloc, "kind", kind)?;
    let namespace = namespace_value(alloc, project.namespace)?;
    put(members, alloc, "namespace", namespace)?;
    let title = text_value(alloc, TextRule::Title, project.title.as_slice())?;
    put(members, alloc, "title", title)
}

fn put_lists(
    alloc: Global,
    members: &mut Map<String, Value>,
    project: &Project,
) -> Result<(), AllocError>
    ensures { OnOk result (members_view members.new.entries
        ≡ spec.with_lists project.now (members_view members.old.entries)) }
{
    let assets = project.assets.as_slice();
    let values = asset_values(alloc, assets)?;
    put(members, alloc, "assets", Value::Array(values))?;
    let picture = picture_values(alloc, project.picture.as_slice(), assets)?;
    put(members, alloc, "picture", Value::Array(picture))?;
    let sound = sound_values(alloc, project.sound.as_slice(), assets)?;
    put(members, alloc, "sound", Value::Array(sound))
}

/// A text that keeps its rule, and so is ASCII.
fn text_value(alloc: Global, rule: TextRule, bytes: &[u8]) -> Result<Value, AllocError>
    requires kept { IsTrue (keeps rule bytes.now) }
    requires ruled { rule ≢ AnyText }
    ensures { IfOk result (λ v. view v ≡ string bytes.now) }
{
    match str::from_utf8(bytes) {
        Ok(text) => Value::try_from_str(alloc, text),
        Err(_) => unreachable!(),
    }
}

fn namespace_value(alloc: Global, namespace: [u8; 16]) -> Result<Value, AllocError>
    ensures { IfOk result (λ v. view v ≡ string (hyphenated_text lower namespace)) }
{
    let mut buffer = Uuid::encode_buffer();
    let text = Uuid::from_bytes(namespace)
        .hyphenated()
        .encode_lower(&mut buffer);
    Value::try_from_str(alloc, text)
}

fn asset_values(alloc: Global, assets: &[Asset]) -> Result<Vec<Value>, AllocError>
    ensures { IfOk result
        (λ vs. map view vs.items ≡ map spec.asset_data assets.now) }
{
    let mut values = Vec::with_capacity(alloc, assets.len())?;
    for asset in assets {
        values.push(asset_value(alloc, asset)?)?;
    }
    Ok(values)
}

fn asset_value(alloc: Global, asset: &Asset) -> Result<Value, AllocError>
    ensures { IfOk result (λ v. view v ≡ spec.asset_data asset.now) }
{
    let file = text_value(alloc, TextRule::File, asset.file.as_slice())?;
    let id = text_value(alloc, TextRule::Id, asset.id.as_slice())?;
    let kind = kind_word(asset.kind);
    json!(in alloc; {"channels": asset.channels, "file": file, "id": id, "kind": kind})
}

fn kind_word(kind: AssetKind) -> &'static str
    ensures { result.now ≡ spec.kind_word kind }
{
    match kind {
        AssetKind::Rgb48 => "rgb48",
        AssetKind::Ppm => "ppm",
        AssetKind::J2c => "j2c",
        AssetKind::Pcm24 => "pcm24",
    }
}

/// The id of the asset at that place.
fn id_value(alloc: Global, assets: &[Asset], place: u32) -> Result<Value, AllocError>
    requires { place < length assets.now }
    ensures { IfOk result
        (λ v. view v ≡ string (spec.id_at assets.now place)) }
{
    let asset = &assets[place as usize];
    text_value(alloc, TextRule::Id, asset.id.as_slice())
}

fn picture_values(
    alloc: Global,
    clips: &[PictureClip],
    assets: &[Asset],
) -> Result<Vec<Value>, AllocError>
    requires { All (λ clip. clip.asset < length assets.now) clips.now }
    ensures { IfOk result (λ vs. map view vs.items
        ≡ map (spec.picture_data assets.now) clips.now) }
{
    let mut values = Vec::with_capacity(alloc, clips.len())?;
    for clip in clips {
        values.push(picture_value(alloc, clip, assets)?)?;
    }
    Ok(values)
}

fn picture_value(alloc: Global, clip: &PictureClip, assets: &[Asset]) -> Result<Value, AllocError>
    requires { clip.now.asset < length assets.now }
    ensures { IfOk result (λ v. view v
        ≡ spec.picture_data assets.now clip.now) }
{
    let asset = id_value(alloc, assets, clip.asset)?;
    json!(in alloc; {
        "asset": asset,
        "at": clip.at,
        "count": clip.count,
        "from": clip.from,
        "hold": clip.hold
    })
}

fn sound_values(
    alloc: Global,
    clips: &[SoundClip],
    assets: &[Asset],
) -> Result<Vec<Value>, AllocError>
    requires { All (λ clip. clip.asset < length assets.now) clips.now }
    ensures { IfOk result (λ vs. map view vs.items
        ≡ map (spec.sound_data assets.now) clips.now) }
{
    let mut values = Vec::with_capacity(alloc, clips.len())?;
    for clip in clips {
        values.push(sound_value(alloc, clip, assets)?)?;
    }
    Ok(values)
}

fn sound_value(alloc: Global, clip: &SoundClip, assets: &[Asset]) -> Result<Value, AllocError>
    requires { clip.now.asset < length assets.now }
    ensures { IfOk result (λ v. view v
        ≡ spec.sound_data assets.now clip.now) }
{
    let asset = id_value(alloc, assets, clip.asset)?;
    let gains = gain_values(alloc, clip.gains.as_slice())?;
    json!(in alloc; {
        "asset": asset,
        "at": clip.at,
        "count": clip.count,
        "from": clip.from,
        "gains": gains
    })
}

fn gain_values(alloc: Global, gains: &[Gain]) -> Result<Vec<Value>, AllocError>
    ensures { IfOk result
        (λ vs. map view vs.items ≡ map spec.gain_data gains.now) }
{
    let mut values = Vec::with_capacity(alloc, gains.len())?;
    for gain in gains {
        values.push(gain_value(alloc, gain)?)?;
    }
    Ok(values)
}

fn gain_value(alloc: Global, gain: &Gain) -> Result<Value, AllocError>
    ensures { IfOk result (λ v. view v ≡ spec.gain_data gain.now) }
{
    json!(in alloc; [gain.from, gain.to, gain.gain])
}
