ghost use Rattle.std.specs.Prelude.{◌≡◌, ◌++◌, IfOk, codes, decimal, string_bytes};
ghost use Rattle.stream_inspect.specs.Texts.{blocks_line, cut_line, head_line, inspected_text, marker_line, parts_line, refusal_line, size_lines, one_number, two_numbers};

use crate::file::Inspected;
use codec_terms::{HeadRefusal, MarkerRefusal, ReadRefusal, Shape};
use mast_base::{Bytes, NoMemory};
use std::alloc::{AllocError, Global};

fn size_lines(alloc: Global, shape: Shape, size: u64) -> Result<String, AllocError>
    ensures { IfOk result (λ text. string_bytes text ≡ size_lines shape size) }
{
    let width = shape.width;
    let height = shape.height;
    format!(in alloc; "size {width}x{height}\nbytes {size}\n")
}

fn parts_line(alloc: Global, parts: [u32; 3]) -> Result<String, AllocError>
    ensures { IfOk result (λ text. string_bytes text ≡ parts_line parts) }
{
    let first = parts[0];
    let second = parts[1];
    let third = parts[2];
    format!(in alloc; "parts {first} {second} {third}\n")
}

fn cut_line(alloc: Global, cut: Option<u32>) -> Result<String, AllocError>
    ensures { IfOk result (λ text. string_bytes text ≡ cut_line cut) }
{
    match cut {
        Some(cut) => format!(in alloc; "cut {cut}\n"),
        None => String::from_str(alloc, "cut none\n"),
    }
}

fn blocks_line(alloc: Global, blocks: u32) -> Result<String, AllocError>
    ensures { IfOk result (λ text. string_bytes text ≡ blocks_line blocks) }
{
    format!(in alloc; "blocks {blocks}")
}

/// What is told of a file, in five lines, without the last one's end.
pub fn inspected_text(alloc: Global, inspected: &Inspected) -> Result<Bytes, NoMemory>
    ensures { IfOk result (λ text. text ≡ inspected_text inspected.now) }
{
    let survey = inspected.survey;
    let mut text = size_lines(alloc, survey.shape, inspected.size)?.into_bytes();
    text.extend_from_slice(parts_line(alloc, survey.parts)?.as_bytes())?;
    text.extend_from_slice(cut_line(alloc, survey.cut)?.as_bytes())?;
    text.extend_from_slice(blocks_line(alloc, survey.blocks)?.as_bytes())?;
    Ok(Bytes::from(text))
}

fn one_number(alloc: Global, code: &str, number: u64) -> Result<String, AllocError>
    ensures { IfOk result (λ text. string_bytes text ≡ one_number code.now number) }
{
    format!(in alloc; "{code}{number}")
}

fn two_numbers(alloc: Global, code: &str, first: u64, second: u64) -> Result<String, AllocError>
    ensures { IfOk result (λ text. string_bytes text ≡ two_numbers code.now first second) }
{
    format!(in alloc; "{code}{first} {second}")
}

fn marker_line(alloc: Global, refusal: MarkerRefusal) -> Result<String, AllocError>
    ensures { IfOk result (λ text. string_bytes text ≡ marker_line refusal) }
{
    match refusal {
        MarkerRefusal::Truncated { at } => one_number(alloc, "M1 ", at as u64),
        MarkerRefusal::Marker { at, got } => two_numbers(alloc, "M2 ", at as u64, u64::from(got)),
        MarkerRefusal::Field { at, got } => two_numbers(alloc, "M3 ", at as u64, u64::from(got)),
    }
}

fn head_line(alloc: Global, refusal: HeadRefusal) -> Result<String, AllocError>
    ensures { IfOk result (λ text. string_bytes text ≡ head_line refusal) }
{
    match refusal {
        HeadRefusal::Truncated { at } => one_number(alloc, "H1 ", at as u64),
        HeadRefusal::BadStuffing { at } => one_number(alloc, "H2 ", at as u64),
        HeadRefusal::TooManyPasses { at, n } => two_numbers(alloc, "H3 ", at as u64, u64::from(n)),
        HeadRefusal::LengthPast { at, n } => two_numbers(alloc, "H4 ", at as u64, u64::from(n)),
        HeadRefusal::WideLength { at, n } => two_numbers(alloc, "H5 ", at as u64, n),
        HeadRefusal::NoMemory => String::from_str(alloc, "no memory"),
    }
}

fn write_line(alloc: Global, refusal: ReadRefusal) -> Result<String, AllocError>
    ensures { IfOk result (λ text. string_bytes text ≡ refusal_line refusal) }
{
    match refusal {
        ReadRefusal::Marker(refusal) => marker_line(alloc, refusal),
        ReadRefusal::Head(refusal) => head_line(alloc, refusal),
        ReadRefusal::PartLength { part, got } => {
            two_numbers(alloc, "S1 ", u64::from(part), u64::from(got))
        }
        ReadRefusal::After { at } => one_number(alloc, "S2 ", at as u64),
        ReadRefusal::NoMemory => String::from_str(alloc, "no memory"),
    }
}

/// A codestream's refusal as it is printed: its code, then its fields in their order, with one space before each.
pub fn refusal_text(alloc: Global, refusal: ReadRefusal) -> Result<Bytes, NoMemory>
    ensures { IfOk result (λ text. text ≡ refusal_line refusal) }
{
    Ok(Bytes::from(write_line(alloc, refusal)?.into_bytes()))
}
