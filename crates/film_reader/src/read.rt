ghost use Rattle.std.specs.Prelude.{◌≡◌, ◌≤◌, ◌<◌, Some, codes, map, length, All, IfOk, IsTrue};
ghost use Rattle.film_project.specs.Accepts as spec;
ghost use Rattle.film_project.specs.Answers.{Answers, Refuses, IsAnswer};
ghost use Rattle.film_project.specs.Members.{is_frame_rate, member_fault, members_fault, number_in, text_in, list_in, text};
ghost use Rattle.film_project.specs.Objects.{required, title_members, format_members, list_members, project_members};
ghost use Rattle.film_reader.specs.Top.{AreTitles, IsFormat, AreLists};
ghost use Rattle.film_project.specs.Texts.{keeps};
ghost use Rattle.film_project.specs.declared.place.Place.TheVariants.{Project as Top};
ghost use Rattle.film_project.specs.declared.text_rule.TextRule.TheVariants as rule;
ghost use Rattle.serde_json.specs.View.{view};
ghost use Rattle.uuid.specs.Text.{parsed};

use crate::assets::read_assets;
use crate::clips::{read_picture, read_sound};
use crate::member::{read_frame_count, read_frame_rate, read_number, read_objects, read_text};
use crate::object::check_object;
use film_project::{Place, Project, ProjectRefusal, TextRule};
use mast_base::Bytes;
use serde_json::Value;
use std::alloc::Global;
use uuid::Uuid;

/// The most bytes that a project file may have.
pub const GREATEST_TEXT: usize = 8_388_608;

/// The project that the text of a project file tells, or the first refusal in the fixed order: the
/// whole text, then the top object, the assets, the picture clips and the sound clips, each by its
/// unknown members and then by its members in their order.
pub fn read_project(alloc: Global, text: &[u8]) -> Result<Project, ProjectRefusal>
    ensures { IsAnswer result (spec.accepts text.now) }
{
    if text.len() > GREATEST_TEXT {
        return Err(ProjectRefusal::FileTooLong {
            bytes: text.len() as u64,
        });
    }
    match Value::from_slice(alloc, text) {
        Ok(value) => project_of(alloc, &value),
        Err(error) => if error.is_memory() {
            Err(ProjectRefusal::NoMemory)
        } else {
            Err(ProjectRefusal::NotJson)
        },
    }
}

fn project_of(alloc: Global, value: &Value) -> Result<Project, ProjectRefusal>
    ensures { Answers result
        (spec.project_fault (view value.now))
        (spec.project_in (view value.now)) }
{
    check_project(alloc, value)?;
    let (titles, format, lists) = read_top(alloc, value)?;
    let assets = read_assets(alloc, lists.assets)?;
    let picture = read_picture(alloc, lists.picture, format.frames, assets.as_slice())?;
    let sound = read_sound(
        alloc,
        lists.sound,
        format.frames,
        format.channels,
        assets.as_slice(),
    )?;
    Ok(Project {
        title: Bytes::copy_of(alloc, titles.title.as_bytes())?,
        kind: Bytes::copy_of(alloc, titles.kind.as_bytes())?,
        issued: Bytes::copy_of(alloc, titles.issued.as_bytes())?,
        namespace: titles.namespace,
        width: format.width,
        height: format.height,
        fps: format.fps,
        rate: format.rate,
        power: format.power,
        channels: format.channels,
        frames: format.frames,
        assets,
        picture,
        sound,
    })
}

fn check_project(alloc: Global, value: &Value) -> Result<(), ProjectRefusal>
    ensures { Refuses result (spec.top_shape_fault (view value.now)) }
{
    check_object(
        alloc,
        value,
        Place::Project,
        &[
            "title",
            "kind",
            "issued",
            "namespace",
            "width",
            "height",
            "fps",
            "rate",
            "power",
            "channels",
            "frames",
            "assets",
            "picture",
            "sound",
        ],
    )
}

/// The members of the top object; of its lists only that they are there.
fn read_top<'v>(
    alloc: Global,
    value: &'v Value,
) -> Result<(Titles<'v>, Format, Lists<'v>), ProjectRefusal>
    ensures refuses { Refuses result (members_fault Top (view value.now) project_members) }
    ensures titles { IfOk result (λ t. AreTitles t.0 (view value.now)) }
    ensures format { IfOk result (λ t. IsFormat t.1 (view value.now)) }
    ensures lists { IfOk result (λ t. AreLists t.2 (view value.now)) }
{
    let titles = read_titles(alloc, value)?;
    let format = read_format(alloc, value)?;
    let lists = read_lists(alloc, value)?;
    Ok((titles, format, lists))
}

#[derive(Clone, Copy)]
struct Titles<'v> {
    title: &'v str,
    kind: &'v str,
    issued: &'v str,
    namespace: [u8; 16],
}

fn read_titles<'v>(alloc: Global, value: &'v Value) -> Result<Titles<'v>, ProjectRefusal>
    ensures refuses { Refuses result (members_fault Top (view value.now) title_members) }
    ensures titles { IfOk result (λ t. AreTitles t (view value.now)) }
{
    let title = read_text(alloc, value, Place::Project, "title", TextRule::Title)?;
    let kind = read_text(alloc, value, Place::Project, "kind", TextRule::ContentKind)?;
    let issued = read_text(alloc, value, Place::Project, "issued", TextRule::Issued)?;
    let namespace = read_namespace(alloc, value)?;
    Ok(Titles {
        title,
        kind,
        issued,
        namespace,
    })
}

fn read_namespace(alloc: Global, value: &Value) -> Result<[u8; 16], ProjectRefusal>
    ensures answer { Answers result
        (member_fault Top (view value.now) (required (codes "namespace") (text rule.Namespace)))
        (spec.namespace_in (view value.now)) }
    ensures length { IfOk result (λ bytes. length bytes ≡ 16) }
    ensures bytes { IfOk result (All (λ b. b < 256)) }
{
    let text = read_text(
        alloc,
        value,
        Place::Project,
        "namespace",
        TextRule::Namespace,
    )?;
    Ok(namespace_of(text))
}

fn namespace_of(text: &str) -> [u8; 16]
    requires { IsTrue (keeps rule.Namespace text.now) }
    ensures value { Some result ≡ parsed text.now }
    ensures length { length result ≡ 16 }
    ensures bytes { All (λ b. b < 256) result }
{
    match Uuid::parse_str(text) {
        Ok(uuid) => uuid.into_bytes(),
        Err(_) => unreachable!(),
    }
}

#[derive(Clone, Copy)]
struct Format {
    width: u16,
    height: u16,
    fps: u8,
    rate: u16,
    power: u8,
    channels: u8,
    frames: u32,
}

fn read_format(alloc: Global, value: &Value) -> Result<Format, ProjectRefusal>
    ensures refuses { Refuses result (members_fault Top (view value.now) format_members) }
    ensures format { IfOk result (λ f. IsFormat f (view value.now)) }
{
    let top = Place::Project;
    let width = read_number(alloc, value, top, "width", 32, 2048)?;
    let height = read_number(alloc, value, top, "height", 32, 1080)?;
    let fps = read_frame_rate(alloc, value)?;
    let rate = read_number(alloc, value, top, "rate", 10, 250)?;
    let power = read_number(alloc, value, top, "power", 11, 13)?;
    let channels = read_number(alloc, value, top, "channels", 0, 16)?;
    let frames = read_frame_count(alloc, value)?;
    Ok(Format {
        width: width as u16,
        height: height as u16,
        fps: fps as u8,
        rate: rate as u16,
        power: power as u8,
        channels: channels as u8,
        frames: frames as u32,
    })
}

#[derive(Clone, Copy)]
struct Lists<'v> {
    assets: &'v [Value],
    picture: &'v [Value],
    sound: &'v [Value],
}

fn read_lists<'v>(alloc: Global, value: &'v Value) -> Result<Lists<'v>, ProjectRefusal>
    ensures refuses { Refuses result (members_fault Top (view value.now) list_members) }
    ensures lists { IfOk result (λ l. AreLists l (view value.now)) }
{
    Ok(Lists {
        assets: read_objects(alloc, value, "assets")?,
        picture: read_objects(alloc, value, "picture")?,
        sound: read_objects(alloc, value, "sound")?,
    })
}
