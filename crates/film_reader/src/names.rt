ghost use Rattle.std.specs.Prelude.{◌≡◌, ◌++◌, IfOk, string_bytes};
ghost use Rattle.film_project.specs.Names.{object_name, prefix_of, member_name, item_name};

use film_project::Place;
use mast_base::Bytes;
use std::alloc::{AllocError, Global};

/// The name of the object itself, such as `assets[3]`.
pub(crate) fn name_object(alloc: Global, place: Place) -> Result<Bytes, AllocError>
    ensures { IfOk result (λ name. name ≡ object_name place) }
{
    Ok(Bytes::from(object_text(alloc, place)?.into_bytes()))
}

fn object_text(alloc: Global, place: Place) -> Result<String, AllocError>
    ensures { IfOk result (λ name. string_bytes name ≡ object_name place) }
{
    match place {
        Place::Project => Ok(String::new(alloc)),
        Place::Asset(index) => format!(in alloc; "assets[{index}]"),
        Place::Picture(index) => format!(in alloc; "picture[{index}]"),
        Place::Sound(index) => format!(in alloc; "sound[{index}]"),
    }
}

fn member_prefix(alloc: Global, place: Place) -> Result<String, AllocError>
    ensures { IfOk result (λ prefix. string_bytes prefix ≡ prefix_of place) }
{
    match place {
        Place::Project => Ok(String::new(alloc)),
        Place::Asset(index) => format!(in alloc; "assets[{index}]."),
        Place::Picture(index) => format!(in alloc; "picture[{index}]."),
        Place::Sound(index) => format!(in alloc; "sound[{index}]."),
    }
}

fn member_text(alloc: Global, place: Place, member: &str) -> Result<String, AllocError>
    ensures { IfOk result (λ name. string_bytes name ≡ member_name place member.now) }
{
    let mut name = member_prefix(alloc, place)?;
    name.push_str(member)?;
    Ok(name)
}

/// The name of a member, such as `assets[3].file`.
pub(crate) fn name_member(alloc: Global, place: Place, member: &str) -> Result<Bytes, AllocError>
    ensures { IfOk result (λ name. name ≡ member_name place member.now) }
{
    Ok(Bytes::from(member_text(alloc, place, member)?.into_bytes()))
}

/// The name of an item of a member, such as `sound[0].gains[2]`.
pub(crate) fn name_item(
    alloc: Global,
    place: Place,
    member: &str,
    item: usize,
) -> Result<Bytes, AllocError>
    ensures { IfOk result (λ name. name ≡ item_name (member_name place member.now) item) }
{
    let mut name = member_text(alloc, place, member)?;
    name.push_str(format!(in alloc; "[{item}]")?.as_str())?;
    Ok(Bytes::from(name.into_bytes()))
}
