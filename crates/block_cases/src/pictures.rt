//! The code-blocks of a picture, each at its place.
ghost use Rattle.std.specs.Prelude.{◌≡◌, ◌*◌, IfOk, vec_len};
ghost use Rattle.codec_laws.specs.Bounds.{IsPictureSize};

use band_starts::{band_at, band_start, block_columns_rows, block_start};
use codec_terms::Shape;
use mast_base::NoMemory;
use picture_blocks::{Blocks, CodingRoom};
use picture_sets::PictureSets;
use std::alloc::Global;
use std::test::Fail;

/// Words that are all 0 but the one at this place, which is -5.
fn words_with_one(alloc: Global, shape: Shape, at: usize) -> Result<Vec<u16>, NoMemory>
    ensures { IfOk result (λ words. vec_len words ≡ 3 * (shape.width * shape.height)) }
{
    let area = usize::from(shape.width) * usize::from(shape.height);
    let mut words = Vec::from_elem(alloc, 0u16, 3 * area)?;
    if at < words.len() {
        words[at] = 0x8005;
    }
    Ok(words)
}

/// How many bit-planes each code-block has, sub-band by sub-band. All of them are coded.
fn plane_counts(alloc: Global, blocks: &Blocks) -> Result<Vec<usize>, NoMemory> {
    let shape = blocks.shape();
    let mut counts = Vec::new(alloc);
    for place in 0..48usize {
        let band = band_at(place);
        let (columns, rows) = block_columns_rows(shape, band);
        for n in 0..columns * rows {
            let block = blocks.at(band, n % columns, n / columns);
            counts.push(block.plane_count().min(block.coded_count()))?;
        }
    }
    Ok(counts)
}

/// The same of a picture that has one sample that isn't 0.
fn plane_counts_with_one(alloc: Global, shape: Shape, at: usize) -> Result<Vec<usize>, NoMemory>
    requires { IsPictureSize shape }
{
    let words = words_with_one(alloc, shape, at)?;
    let mut sets = PictureSets::new(alloc, shape)?;
    sets.fill(&words);
    let mut blocks = Blocks::new(alloc, shape)?;
    blocks.start(&sets);
    blocks.code_to_cut(&sets, 0, &mut CodingRoom::new(alloc))?;
    plane_counts(alloc, &blocks)
}

// A sub-band of 65 columns and 35 rows has three code-blocks in a row, and the sample is in the last of the second row.
#[test]
fn codes_one_sample_of_a_picture(rt: HostRuntime) -> Result<(), Fail> {
    let alloc = rt.alloc();
    let shape = Shape {
        width: 130,
        height: 70,
    };
    let band = band_at(29);
    let first = block_start(shape, band);
    let at = band_start(shape, band) + 33 * 65 + 64;
    let counts = plane_counts_with_one(alloc, shape, at)?;
    for (place, count) in counts.iter().enumerate() {
        let want = if place == first + 5 { 3 } else { 0 };
        assert!(&rt; *count == want);
    }
    Ok(())
}
