ghost use Rattle.std.specs.Prelude.{◌≡◌, ◌≤◌, ◌+◌, false, true, map, option_map, option_and_then, length, IfOk, IsTrue};
ghost use Rattle.film_project.specs.Answers.{Answers, AnswersAs, Refuses};
ghost use Rattle.std.specs.Prelude.{◌≢◌, codes};
ghost use Rattle.film_project.specs.Answers.{FindsMember, AsksWhole};
ghost use Rattle.film_project.specs.Members as spec;
ghost use Rattle.film_project.specs.Names.{member_name};
ghost use Rattle.film_project.specs.declared.place.Place.TheVariants.{Project};
ghost use Rattle.film_project.specs.declared.refusal.ProjectRefusal.TheVariants.{NoMemory, OutOfRange};
ghost use Rattle.film_project.specs.Members.{is_frame_rate, member_fault, number_in, text_in, list_in};
ghost use Rattle.film_project.specs.Members.{frame_count, frame_rate, number, objects, text};
ghost use Rattle.film_project.specs.Objects.{required, optional};
ghost use Rattle.film_project.specs.Texts.{keeps};
ghost use Rattle.serde_json.specs.View.{view};

use crate::names::name_member;
use film_project::{Place, ProjectRefusal, TextRule};
use film_texts::text_place;
use serde_json::Value;
use std::alloc::Global;

/// A member that has to be there.
pub(crate) fn find_member<'v>(
    alloc: Global,
    object: &'v Value,
    place: Place,
    member: &str,
) -> Result<&'v Value, ProjectRefusal>
    ensures { FindsMember result place member.now (view object.now) }
{
    match object.get(member) {
        Some(value) => Ok(value),
        None => Err(ProjectRefusal::MissingMember {
            name: name_member(alloc, place, member)?,
        }),
    }
}

/// A text that keeps its rule.
pub(crate) fn read_text<'v>(
    alloc: Global,
    object: &'v Value,
    place: Place,
    member: &str,
    rule: TextRule,
) -> Result<&'v str, ProjectRefusal>
    ensures answer { AnswersAs (λ s. s.now) result
        (member_fault place (view object.now) (required member.now (text rule)))
        (text_in member.now (view object.now)) }
    ensures kept { IfOk result (λ s. IsTrue (keeps rule s.now)) }
{
    let value = find_member(alloc, object, place, member)?;
    let Some(found) = value.as_str() else {
        return Err(ProjectRefusal::WrongKind {
            name: name_member(alloc, place, member)?,
        });
    };
    match text_place(rule, found) {
        None => Ok(found),
        Some(at) => Err(ProjectRefusal::BadText {
            name: name_member(alloc, place, member)?,
            at: at as u64,
        }),
    }
}

fn read_whole(
    alloc: Global,
    value: &Value,
    place: Place,
    member: &str,
) -> Result<u64, ProjectRefusal>
    ensures { AsksWhole result place member.now (view value.now) }
{
    match value.as_u64() {
        Some(found) => Ok(found),
        None => Err(ProjectRefusal::WrongKind {
            name: name_member(alloc, place, member)?,
        }),
    }
}

/// A number, or a list's length, out of its range.
pub(crate) fn out_of_range(alloc: Global, place: Place, member: &str, value: u64) -> ProjectRefusal
    ensures { result ≢ NoMemory → result ≡ OutOfRange (member_name place member.now) value }
{
    match name_member(alloc, place, member) {
        Ok(name) => ProjectRefusal::OutOfRange { name, value },
        Err(_) => ProjectRefusal::NoMemory,
    }
}

/// A number that has to be there.
pub(crate) fn read_number(
    alloc: Global,
    object: &Value,
    place: Place,
    member: &str,
    low: u64,
    high: u64,
) -> Result<u64, ProjectRefusal>
    ensures answer { Answers result
        (member_fault place (view object.now) (required member.now (number low high)))
        (number_in member.now 0 (view object.now)) }
    ensures low { IfOk result (λ n. low ≤ n) }
    ensures high { IfOk result (λ n. n ≤ high) }
{
    let value = find_member(alloc, object, place, member)?;
    let found = read_whole(alloc, value, place, member)?;
    if found < low || high < found {
        return Err(out_of_range(alloc, place, member, found));
    }
    Ok(found)
}

/// A number that may be absent.
pub(crate) fn read_optional(
    alloc: Global,
    object: &Value,
    place: Place,
    member: &str,
    low: u64,
    high: u64,
    absent: u64,
) -> Result<u64, ProjectRefusal>
    requires low { low ≤ absent }
    requires high { absent ≤ high }
    ensures answer { Answers result
        (member_fault place (view object.now) (optional member.now (number low high)))
        (number_in member.now absent (view object.now)) }
    ensures low { IfOk result (λ n. low ≤ n) }
    ensures high { IfOk result (λ n. n ≤ high) }
{
    let Some(value) = object.get(member) else {
        return Ok(absent);
    };
    let found = read_whole(alloc, value, place, member)?;
    if found < low || high < found {
        return Err(out_of_range(alloc, place, member, found));
    }
    Ok(found)
}

/// Frames a second.
pub(crate) fn read_frame_rate(alloc: Global, object: &Value) -> Result<u64, ProjectRefusal>
    ensures answer { Answers result
        (member_fault Project (view object.now) (required (codes "fps") frame_rate))
        (number_in (codes "fps") 0 (view object.now)) }
    ensures known { IfOk result (λ n. IsTrue (is_frame_rate n)) }
{
    let value = find_member(alloc, object, Place::Project, "fps")?;
    let found = read_whole(alloc, value, Place::Project, "fps")?;
    if found == 24 || found == 25 || found == 30 || found == 48 {
        return Ok(found);
    }
    Err(out_of_range(alloc, Place::Project, "fps", found))
}

/// The number of frames.
pub(crate) fn read_frame_count(alloc: Global, object: &Value) -> Result<u64, ProjectRefusal>
    ensures answer { Answers result
        (member_fault Project (view object.now) (required (codes "frames") frame_count))
        (number_in (codes "frames") 0 (view object.now)) }
    ensures low { IfOk result (λ n. 1 ≤ n) }
    ensures high { IfOk result (λ n. n ≤ 432000) }
{
    let value = find_member(alloc, object, Place::Project, "frames")?;
    let found = read_whole(alloc, value, Place::Project, "frames")?;
    if found > 432_000 {
        return Err(ProjectRefusal::TooLong { frames: found });
    }
    if found < 1 {
        return Err(out_of_range(alloc, Place::Project, "frames", found));
    }
    Ok(found)
}

/// The items of a list.
pub(crate) fn as_list(value: &Value) -> Option<&[Value]>
    ensures { option_map (λ items. map view items.now) result ≡ spec.as_list (view value.now) }
{
    match value.as_array() {
        Some(items) => Some(items.as_slice()),
        None => None,
    }
}

/// A list of objects, which are not looked at.
pub(crate) fn read_objects<'v>(
    alloc: Global,
    object: &'v Value,
    member: &str,
) -> Result<&'v [Value], ProjectRefusal>
    ensures answer { AnswersAs (λ items. map view items.now) result
        (member_fault Project (view object.now) (required member.now objects))
        (list_in member.now (view object.now)) }
    ensures most { IfOk result (λ items. length items.now ≤ 1000) }
{
    let value = find_member(alloc, object, Place::Project, member)?;
    let Some(items) = as_list(value) else {
        return Err(ProjectRefusal::WrongKind {
            name: name_member(alloc, Place::Project, member)?,
        });
    };
    if items.len() > 1000 {
        return Err(out_of_range(alloc, Place::Project, member, items.len() as u64));
    }
    Ok(items)
}
