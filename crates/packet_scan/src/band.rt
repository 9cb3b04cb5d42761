ghost use Rattle.std.specs.Prelude.{◌≡◌, ◌+◌, ◌*◌, ◌<◌, ◌≤◌, ◌^◌, IfErr, OnOk, Ok, Err, All, length};
ghost use Rattle.codec_terms.specs.PacketReading.{band_read, bands_read};
ghost use Rattle.packet_scan.specs.Scanning.{IsSmallShape, with_sizes, with_band_sizes};

use crate::blank::blank_tree;
use crate::block::read_block;
use crate::place::Place;
use crate::sizes::Sizes;
use codec_terms::{BandShape, HeadRefusal};
use header_bits::BitPlace;

// Reads what a header says of a sub-band's blocks, of which there are some.
fn read_blocks(
    bytes: &[u8],
    place: &mut BitPlace,
    shape: BandShape,
    sizes: &mut Sizes,
) -> Result<(), HeadRefusal>
    requires some_columns { 0 < shape.columns }
    requires some_rows { 0 < shape.rows }
    requires small { IsSmallShape shape }
    requires few { length sizes.old ≤ 32 }
    requires bounded { length bytes.now ≤ 2 ^ 60 }
    ensures read { OnOk result (
        with_sizes sizes.old (band_read bytes.now shape place.old) ≡ Ok (sizes.new, place.new)) }
    ensures refused { IfErr result (λ refusal. band_read bytes.now shape place.old ≡ Err refusal) }
    ensures few { length sizes.new ≤ length sizes.old + 16 }
{
    let columns = shape.columns as usize;
    let rows = shape.rows as usize;
    let mut layers = blank_tree(columns, rows);
    let mut planes = blank_tree(columns, rows);
    let mut at = Place::FIRST;
    for _ in 0..shape.columns * shape.rows {
        read_block(bytes, place, shape.mb, at, &mut layers, &mut planes, sizes)?;
        at = at.next(columns);
    }
    Ok(())
}

// Reads what a header says of a sub-band's blocks.
fn read_band(
    bytes: &[u8],
    place: &mut BitPlace,
    shape: BandShape,
    sizes: &mut Sizes,
) -> Result<(), HeadRefusal>
    requires small { IsSmallShape shape }
    requires few { length sizes.old ≤ 32 }
    requires bounded { length bytes.now ≤ 2 ^ 60 }
    ensures read { OnOk result (
        with_sizes sizes.old (band_read bytes.now shape place.old) ≡ Ok (sizes.new, place.new)) }
    ensures refused { IfErr result (λ refusal. band_read bytes.now shape place.old ≡ Err refusal) }
    ensures few { length sizes.new ≤ length sizes.old + 16 }
{
    if shape.columns == 0 || shape.rows == 0 {
        return Ok(());
    }
    read_blocks(bytes, place, shape, sizes)
}

/// Reads what a header says of the blocks of all sub-bands: the lengths of the codewords of those that are included.
pub(crate) fn read_bands(
    bytes: &[u8],
    place: &mut BitPlace,
    shapes: &[BandShape],
    sizes: &mut Sizes,
) -> Result<(), HeadRefusal>
    requires few { length shapes.now ≤ 3 }
    requires small { All IsSmallShape shapes.now }
    requires empty { length sizes.old ≡ 0 }
    requires bounded { length bytes.now ≤ 2 ^ 60 }
    ensures read { OnOk result (
        with_band_sizes sizes.old (bands_read bytes.now shapes.now place.old) ≡ Ok (sizes.new, place.new)) }
    ensures refused { IfErr result (λ refusal. bands_read bytes.now shapes.now place.old ≡ Err refusal) }
    ensures few { length sizes.new ≤ 48 }
{
    for shape in shapes {
        read_band(bytes, place, *shape, sizes)?;
    }
    Ok(())
}
