ghost use Rattle.std.specs.Prelude.{◌≡◌};
ghost use Rattle.std.specs.List.{list_any};
ghost use Rattle.std.specs.Str.{bytes_eq};
ghost use Rattle.film_project.specs.Answers.{Refuses};
ghost use Rattle.film_project.specs.Objects.{shape_fault, unknown_fault};
ghost use Rattle.serde_json.specs.Find.{as_object};
ghost use Rattle.serde_json.specs.View.{view, members_view};

use crate::names::{name_member, name_object};
use film_project::{Place, ProjectRefusal};
use film_texts::is_one_of;
use serde_json::{Map, Value};
use std::alloc::Global;

/// The value is an object whose members have these names.
pub(crate) fn check_object(
    alloc: Global,
    value: &Value,
    place: Place,
    names: &[&str],
) -> Result<(), ProjectRefusal>
    ensures { Refuses result
        (shape_fault place (λ name. list_any (λ word. bytes_eq word.now name) names.now) (as_object (view value.now))) }
{
    match value.as_object() {
        Some(members) => check_names(alloc, members, place, names),
        None => Err(ProjectRefusal::NotObject {
            name: name_object(alloc, place)?,
        }),
    }
}

fn check_names(
    alloc: Global,
    members: &Map<String, Value>,
    place: Place,
    names: &[&str],
) -> Result<(), ProjectRefusal>
    ensures { Refuses result
        (unknown_fault place (λ name. list_any (λ word. bytes_eq word.now name) names.now) (members_view members.now.entries)) }
{
    for (key, _) in members.iter() {
        if !is_one_of(names, key.as_str()) {
            return Err(ProjectRefusal::UnknownMember {
                name: name_member(alloc, place, key.as_str())?,
            });
        }
    }
    Ok(())
}
