//! A codestream that is cut short at any place, or has another byte at any place. Whatever it says, the reader and the
//! survey tell the same of it.

use crate::streams::STREAM;
use codec_terms::{Coefficients, HeadRefusal, MarkerRefusal, ReadRefusal};
use std::alloc::{AllocError, Global};
use std::process::Abort;
use std::test::Fail;
use stream_reader::read_stream;
use stream_survey::{Survey, survey_stream};

/// The places where the stream may be cut short, and whether a packet's header is wanted there.
const CUTS: [(usize, usize, bool); 7] = [
    (0, 157, false),
    (157, 163, true),
    (163, 177, false),
    (177, 183, true),
    (183, 197, false),
    (197, 203, true),
    (203, 205, false),
];

fn is_survey_of(survey: &Survey, read: &Coefficients) -> bool {
    let area = usize::from(read.shape.width) * usize::from(read.shape.height);
    survey.shape == read.shape
        && survey.cut == read.cut
        && survey.parts.as_slice() == read.parts.as_slice()
        && survey.blocks == read.blocks
        && read.values.len() == 3 * area
}

/// Whether a survey tells of a codestream what its reader does.
pub(crate) fn agree(
    survey: &Result<Survey, ReadRefusal>,
    read: &Result<Coefficients, ReadRefusal>,
) -> bool {
    match (survey, read) {
        (Ok(survey), Ok(read)) => is_survey_of(survey, read),
        (Err(told), Err(refusal)) => *told == *refusal,
        _ => false,
    }
}

/// The stream with another byte at a place.
fn with_byte(alloc: Global, at: usize, other: u8) -> Result<Vec<u8>, AllocError> {
    let mut bytes = Vec::new(alloc);
    for (place, byte) in STREAM.iter().enumerate() {
        bytes.push(if place == at { other } else { *byte })?;
    }
    Ok(bytes)
}

fn check_changed(rt: &impl Abort, alloc: Global, at: usize, other: u8) -> Result<(), AllocError> {
    let bytes = with_byte(alloc, at, other)?;
    assert!(rt;
        agree(&survey_stream(&bytes), &read_stream(alloc, &bytes)),
        "{other} at {at}"
    );
    Ok(())
}

#[test]
fn tells_the_same_of_changed_streams(rt: HostRuntime) -> Result<(), Fail> {
    let alloc = rt.alloc();
    for (at, byte) in STREAM.iter().enumerate() {
        check_changed(&rt, alloc, at, 0x00)?;
        check_changed(&rt, alloc, at, 0xff)?;
        check_changed(&rt, alloc, at, *byte ^ 1)?;
    }
    Ok(())
}

/// Why so many of its bytes are refused.
fn shortage(len: usize, in_header: bool) -> ReadRefusal {
    if in_header {
        ReadRefusal::Head(HeadRefusal::Truncated { at: len })
    } else {
        ReadRefusal::Marker(MarkerRefusal::Truncated { at: len })
    }
}

fn check_short(rt: &impl Abort, alloc: Global, len: usize, wanted: ReadRefusal) {
    let bytes = STREAM.get(..len).unwrap_or(&[]);
    assert!(rt; bytes.len() == len);
    let survey = survey_stream(bytes);
    assert!(rt; agree(&survey, &read_stream(alloc, bytes)), "{len}");
    match survey {
        Ok(_) => assert!(rt; false, "{len}"),
        Err(refusal) => assert!(rt; refusal == wanted, "{len}"),
    }
}

fn check_range(rt: &impl Abort, alloc: Global, first: usize, end: usize, in_header: bool) {
    for len in first..end {
        check_short(rt, alloc, len, shortage(len, in_header));
    }
}

#[test]
fn says_where_a_stream_is_cut_short(rt: HostRuntime) {
    let alloc = rt.alloc();
    let mut next = 0;
    for (first, end, in_header) in &CUTS {
        assert!(&rt; *first == next);
        check_range(&rt, alloc, *first, *end, *in_header);
        next = *end;
    }
    assert!(&rt; next == STREAM.len());
}
