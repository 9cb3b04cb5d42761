//! What is told of codestreams, whole, changed and cut.

use crate::damaged::agree;
use crate::streams::STREAM;
use codec_terms::HeadRefusal;
use codec_terms::MarkerRefusal::{Field, Marker, Truncated};
use codec_terms::ReadRefusal::{self, After, Head, PartLength};
use std::alloc::{AllocError, Global};
use std::process::Abort;
use std::test::Fail;
use stream_reader::read_stream;
use stream_survey::{Survey, survey_stream};

/// How many of the stream's bytes there are, other bytes at their places, what is put in front of a place, and what is told: the parts'
/// lengths and the number of code-blocks, or the refusal.
type Row = (
    usize,
    &'static [(usize, u8)],
    usize,
    &'static [u8],
    Result<(&'static [u32], u32), ReadRefusal>,
);

#[rattlefmt::skip]
const ROWS: [Row; 28] = [
    (205, &[], 205, &[], Ok((&[20, 20, 20], 0))),
    // A packet that isn't empty and includes no code-block.
    (205, &[(157, 0x80)], 205, &[], Ok((&[20, 20, 20], 0))),
    // A code-block in the first packet of the first, second and third part.
    (205, &[(118, 23), (152, 23), (157, 0xc0)], 158, &[4, 0x20, 3], Ok((&[23, 20, 20], 1))),
    (205, &[(123, 23), (172, 23), (177, 0xc0)], 178, &[4, 0x20, 3], Ok((&[20, 23, 20], 1))),
    (205, &[(128, 23), (192, 23), (197, 0xc0)], 198, &[4, 0x20, 3], Ok((&[20, 20, 23], 1))),
    // Parts with other lengths.
    (205, &[(118, 21), (152, 21)], 205, &[], Err(PartLength { part: 0, got: 21 })),
    (205, &[(123, 19), (172, 19)], 205, &[], Err(PartLength { part: 1, got: 19 })),
    (205, &[(128, 21), (192, 21)], 205, &[], Err(PartLength { part: 2, got: 21 })),
    (204, &[(128, 21), (192, 21)], 204, &[], Err(PartLength { part: 2, got: 21 })),
    (203, &[(128, 21), (192, 21)], 203, &[], Err(ReadRefusal::Marker(Truncated { at: 203 }))),
    // Bytes behind the end.
    (205, &[], 205, &[0], Err(After { at: 205 })),
    (205, &[], 205, &[0xff, 0xd9], Err(After { at: 205 })),
    // Cut short.
    (0, &[], 0, &[], Err(ReadRefusal::Marker(Truncated { at: 0 }))),
    (142, &[], 142, &[], Err(ReadRefusal::Marker(Truncated { at: 142 }))),
    (144, &[], 144, &[], Err(ReadRefusal::Marker(Truncated { at: 144 }))),
    (150, &[], 150, &[], Err(ReadRefusal::Marker(Truncated { at: 150 }))),
    (156, &[], 156, &[], Err(ReadRefusal::Marker(Truncated { at: 156 }))),
    (160, &[], 160, &[], Err(Head(HeadRefusal::Truncated { at: 160 }))),
    (163, &[], 163, &[], Err(ReadRefusal::Marker(Truncated { at: 163 }))),
    (204, &[], 204, &[], Err(ReadRefusal::Marker(Truncated { at: 204 }))),
    // Other markers and fields.
    (205, &[(1, 0x4e)], 205, &[], Err(ReadRefusal::Marker(Marker { at: 0, got: 0xff4e }))),
    (205, &[(147, 1)], 205, &[], Err(ReadRefusal::Marker(Field { at: 147, got: 256 }))),
    (205, &[(152, 21)], 205, &[], Err(ReadRefusal::Marker(Field { at: 149, got: 21 }))),
    (205, &[(153, 1)], 205, &[], Err(ReadRefusal::Marker(Field { at: 153, got: 1 }))),
    (205, &[(154, 1)], 205, &[], Err(ReadRefusal::Marker(Field { at: 154, got: 1 }))),
    (205, &[(156, 0x92)], 205, &[], Err(ReadRefusal::Marker(Marker { at: 155, got: 0xff92 }))),
    (205, &[(164, 0xd9)], 205, &[], Err(ReadRefusal::Marker(Marker { at: 163, got: 0xffd9 }))),
    (205, &[(204, 0x90)], 205, &[], Err(ReadRefusal::Marker(Marker { at: 203, got: 0xff90 }))),
];

/// The byte at a place, where it isn't another one.
fn byte_at(at: usize, byte: u8, others: &[(usize, u8)]) -> u8 {
    for (place, other) in others {
        if *place == at {
            return *other;
        }
    }
    byte
}

fn changed(
    alloc: Global,
    len: usize,
    others: &[(usize, u8)],
    front: usize,
    more: &[u8],
) -> Result<Vec<u8>, AllocError> {
    let mut bytes = Vec::new(alloc);
    for (at, byte) in STREAM.iter().take(len).enumerate() {
        if at == front {
            bytes.extend_from_slice(more)?;
        }
        bytes.push(byte_at(at, *byte, others))?;
    }
    if front == len {
        bytes.extend_from_slice(more)?;
    }
    Ok(bytes)
}

/// Whether a picture of this size at cut 0 is told, with these parts and so many code-blocks.
fn is_told(survey: &Survey, parts: &[u32], blocks: u32) -> bool {
    survey.shape.width == 32
        && survey.shape.height == 32
        && survey.cut == Some(0)
        && survey.parts.as_slice() == parts
        && survey.blocks == blocks
}

fn check(
    rt: &impl Abort,
    survey: Result<Survey, ReadRefusal>,
    told: &Result<(&[u32], u32), ReadRefusal>,
) {
    match (survey, told) {
        (Ok(survey), Ok((parts, blocks))) => assert!(rt; is_told(&survey, *parts, *blocks)),
        (Err(refusal), Err(wanted)) => assert!(rt; refusal == *wanted),
        _ => assert!(rt; false),
    }
}

#[test]
fn tells_what_a_stream_holds(rt: HostRuntime) -> Result<(), Fail> {
    let alloc = rt.alloc();
    for (len, others, front, more, told) in &ROWS {
        let bytes = changed(alloc, *len, *others, *front, *more)?;
        check(&rt, survey_stream(&bytes), told);
        assert!(&rt; agree(&survey_stream(&bytes), &read_stream(alloc, &bytes)));
    }
    Ok(())
}
