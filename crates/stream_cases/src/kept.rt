//! What a reader gets back of coefficients that were written at a cut.

ghost use Rattle.std.specs.Prelude.{◌≤◌, ◌<◌, ℤ, List};
ghost use Rattle.block_packets.specs.Coded.{AreCodedBlocks};

use crate::damaged::agree;
use crate::pictures::{SHAPE, edges};
use band_starts::{band_at, band_length, band_start};
use cinema_stream::{higher_cut_laws, sizes_at, stream_at};
use codec_terms::Coefficients;
use cut_planes::lowest_plane;
use picture_blocks::Blocks;
use std::alloc::Global;
use std::process::Abort;
use std::test::Fail;
use stream_reader::read_stream;
use stream_survey::survey_stream;

/// A coefficient without its lowest bit-planes.
fn without(word: u16, planes: u32) -> i32 {
    let planes = planes.min(15);
    let magnitude = i32::from(word & 0x7fff) >> planes << planes;
    if word < 0x8000 { magnitude } else { -magnitude }
}

/// Whether these values are what is left of a sub-band.
fn are_left(words: &[u16], values: &[i32], planes: u32) -> bool {
    words.len() == values.len()
        && words
            .iter()
            .zip(values)
            .all(|(word, value)| without(*word, planes) == *value)
}

/// Checks that the values of a sub-band have lost the bit-planes below the lowest one that a cut keeps.
fn check_band(rt: &impl Abort, words: &[u16], values: &[i32], place: usize, cut: u32)
    requires { place < 48 }
{
    let band = band_at(place);
    let start = band_start(SHAPE, band);
    let end = start.saturating_add(band_length(SHAPE, band));
    match (words.get(start..end), values.get(start..end)) {
        (Some(words), Some(values)) => {
            assert!(rt; are_left(words, values, lowest_plane(cut, band)), "{place}");
        }
        _ => assert!(rt; false),
    }
}

fn check_values(rt: &impl Abort, words: &[u16], read: &Coefficients, cut: u32) {
    assert!(rt; read.shape == SHAPE && read.cut == Some(cut));
    for place in 0..48usize {
        check_band(rt, words, read.values.as_slice(), place, cut);
    }
}

/// Checks what is read of a picture's codestream at a cut.
fn check_cut(
    rt: &impl Abort,
    alloc: Global,
    words: &[u16],
    blocks: &Blocks,
    cut: u32,
) -> Result<(), Fail>
    requires cut { cut ≤ 720 }
    requires of { (q : List ℤ) × AreCodedBlocks q 0 blocks.now }
{
    higher_cut_laws();
    let stream = stream_at(alloc, blocks, cut)?;
    let sizes = sizes_at(blocks, cut);
    assert!(rt; stream.len() == sizes.whole as usize, "cut {cut}");
    let read = read_stream(alloc, stream.as_slice());
    assert!(rt;
        agree(&survey_stream(stream.as_slice()), &read),
        "cut {cut}"
    );
    match &read {
        Ok(read) => {
            assert!(rt;
                read.parts.as_slice() == sizes.parts.as_slice(),
                "cut {cut}"
            );
            check_values(rt, words, read, cut);
        }
        Err(_) => assert!(rt; false, "cut {cut}"),
    }
    Ok(())
}

#[test]
fn reads_what_a_cut_keeps(rt: HostRuntime) -> Result<(), Fail> {
    let alloc = rt.alloc();
    let (bands, blocks) = edges(alloc)?;
    check_cut(&rt, alloc, bands.words(), &blocks, 0)?;
    check_cut(&rt, alloc, bands.words(), &blocks, 77)?;
    check_cut(&rt, alloc, bands.words(), &blocks, 240)?;
    Ok(())
}
