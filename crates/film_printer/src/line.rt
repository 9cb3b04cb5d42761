ghost use Rattle.std.specs.Prelude.{◌≡◌, ◌++◌, codes, decimal, IfOk, string_bytes};
ghost use Rattle.film_project.specs.Refusals.{refusal_line};

use film_project::ProjectRefusal;
use mast_base::{Bytes, NoMemory};
use std::alloc::{AllocError, Global};

/// The refusal as it is printed: its code, then its fields in their order, with one space before
/// each. Numbers are decimal, and a name stands as its own bytes.
pub fn refusal_text(alloc: Global, refusal: &ProjectRefusal) -> Result<Bytes, NoMemory>
    ensures { IfOk result (λ text. text ≡ refusal_line refusal.now) }
{
    Ok(write_line(alloc, refusal)?)
}

fn write_line(alloc: Global, refusal: &ProjectRefusal) -> Result<Bytes, AllocError>
    ensures { IfOk result (λ text. text ≡ refusal_line refusal.now) }
{
    match refusal {
        ProjectRefusal::NotJson => Bytes::copy_of(alloc, b"P1"),
        ProjectRefusal::NotObject { name } => named(alloc, b"P2 ", name),
        ProjectRefusal::MissingMember { name } => named(alloc, b"P3 ", name),
        ProjectRefusal::UnknownMember { name } => named(alloc, b"P4 ", name),
        ProjectRefusal::WrongKind { name } => named(alloc, b"P5 ", name),
        ProjectRefusal::OutOfRange { name, value } => numbered(alloc, b"P6 ", name, *value),
        ProjectRefusal::BadText { name, at } => numbered(alloc, b"P7 ", name, *at),
        ProjectRefusal::DoubleAsset { name } => named(alloc, b"P8 ", name),
        ProjectRefusal::NoSuchAsset { name } => named(alloc, b"P9 ", name),
        ProjectRefusal::TooLong { frames } => counted(alloc, b"P10 ", *frames),
        ProjectRefusal::FileTooLong { bytes } => counted(alloc, b"P11 ", *bytes),
        ProjectRefusal::NoMemory => Bytes::copy_of(alloc, b"no memory"),
    }
}

fn named(alloc: Global, code: &[u8], name: &Bytes) -> Result<Bytes, AllocError>
    ensures { IfOk result (λ text. text ≡ code.now ++ name.now) }
{
    let mut text = Vec::from_slice(alloc, code)?;
    text.extend_from_slice(name.as_slice())?;
    Ok(Bytes::from(text))
}

fn numbered(alloc: Global, code: &[u8], name: &Bytes, number: u64) -> Result<Bytes, AllocError>
    ensures { IfOk result (λ text. text ≡ code.now ++ (name.now ++ (codes " " ++ decimal number))) }
{
    let mut text = Vec::from_slice(alloc, code)?;
    text.extend_from_slice(name.as_slice())?;
    text.extend_from_slice(format!(in alloc; " {number}")?.as_bytes())?;
    Ok(Bytes::from(text))
}

fn counted(alloc: Global, code: &[u8], number: u64) -> Result<Bytes, AllocError>
    ensures { IfOk result (λ text. text ≡ code.now ++ decimal number) }
{
    let mut text = Vec::from_slice(alloc, code)?;
    text.extend_from_slice(format!(in alloc; "{number}")?.as_bytes())?;
    Ok(Bytes::from(text))
}
