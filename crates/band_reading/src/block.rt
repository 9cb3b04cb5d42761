ghost use Rattle.std.specs.Prelude.{◌≡◌, ◌<◌, ◌≤◌, ◌+◌, ◌*◌, ◌/◌, ◌-◌, ℕ, length};
ghost use Rattle.codec_terms.specs.Bands.{band_columns, band_rows, band_length};
ghost use Rattle.codec_terms.specs.Precincts.{block_columns, block_rows, block_width, block_height};
ghost use Rattle.band_reading.specs.Samples.{sample_at, values_of, IsInBlock, IsSample};

use crate::rows::put_rows;
use band_map::{band_size, block_size};
use block_reading::{ReadRoom, read_block};
use codec_terms::{Band, PacketBlock, Shape};

// Reads the values of the block in column x and row y of a sub-band's blocks.
fn read_values(
    shape: Shape,
    mb: u8,
    band: Band,
    block: &PacketBlock,
    x: u32,
    y: u32,
    room: &mut ReadRoom,
    values: &mut [i32],
)
    requires least { 1 ≤ band.level }
    requires greatest { band.level ≤ 5 }
    requires planes { mb ≤ 31 }
    requires wide { x < block_columns shape band }
    requires high { y < block_rows shape band }
    requires whole { length values.old ≡ block_width shape band x * block_height shape band y }
    ensures { values.new ≡ values_of shape mb band x y block.now }
{
    let (width, height) = block_size(shape, band, x, y);
    let planes = mb.saturating_sub(block.zero_planes);
    read_block(
        band.kind,
        width as u8,
        height as u8,
        planes,
        block.passes,
        block.codeword.as_slice(),
        room,
        values,
    );
}

// Reads the block in column x and row y of a sub-band's blocks, and copies it from its values to its place.
fn read_through(
    shape: Shape,
    mb: u8,
    band: Band,
    block: &PacketBlock,
    x: u32,
    y: u32,
    room: &mut ReadRoom,
    values: &mut [i32],
    out: &mut [i32],
)
    requires least { 1 ≤ band.level }
    requires greatest { band.level ≤ 5 }
    requires planes { mb ≤ 31 }
    requires wide { x < block_columns shape band }
    requires high { y < block_rows shape band }
    requires values { length values.old ≡ block_width shape band x * block_height shape band y }
    requires whole { length out.old ≡ band_length shape band }
    ensures inside { (i j : ℕ) → i < band_columns shape band → j < band_rows shape band → IsInBlock x y i j
        → IsSample shape mb band block.now out.new i j }
    ensures outside { (i j : ℕ) → i < band_columns shape band → (IsInBlock x y i j → ⊥)
        → sample_at shape band out.new i j ≡ sample_at shape band out.old i j }
{
    read_values(shape, mb, band, block, x, y, room, values);
    let (columns, _) = band_size(shape, band);
    let (width, height) = block_size(shape, band, x, y);
    put_rows(
        values,
        width as usize,
        height as usize,
        32 * (x as usize),
        32 * (y as usize),
        columns as usize,
        out,
    );
}

// How many samples a block has.
fn block_samples(shape: Shape, band: Band, x: u32, y: u32) -> usize
    requires least { 1 ≤ band.level }
    requires greatest { band.level ≤ 5 }
    ensures number { result ≡ block_width shape band x * block_height shape band y }
    ensures few { result ≤ 1024 }
{
    let (width, height) = block_size(shape, band, x, y);
    width as usize * height as usize
}

/// Reads the block in column x and row y of a sub-band's blocks to its place.
pub(crate) fn read_block_to(
    shape: Shape,
    mb: u8,
    band: Band,
    block: &PacketBlock,
    x: u32,
    y: u32,
    room: &mut ReadRoom,
    scratch: &mut [i32; 1024],
    out: &mut [i32],
)
    requires least { 1 ≤ band.level }
    requires greatest { band.level ≤ 5 }
    requires planes { mb ≤ 31 }
    requires wide { x < block_columns shape band }
    requires high { y < block_rows shape band }
    requires whole { length out.old ≡ band_length shape band }
    ensures inside { (i j : ℕ) → i < band_columns shape band → j < band_rows shape band → IsInBlock x y i j
        → IsSample shape mb band block.now out.new i j }
    ensures outside { (i j : ℕ) → i < band_columns shape band → (IsInBlock x y i j → ⊥)
        → sample_at shape band out.new i j ≡ sample_at shape band out.old i j }
{
    let values = &mut scratch[..block_samples(shape, band, x, y)];
    read_through(shape, mb, band, block, x, y, room, values, out);
}
