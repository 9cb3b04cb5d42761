ghost use Rattle.std.specs.Prelude.{◌≡◌, ◌<◌, ◌≤◌, ◌/◌, ℕ, length};
ghost use Rattle.codec_terms.specs.Bands.{band_columns, band_rows, band_length};
ghost use Rattle.codec_terms.specs.Precincts.{resolution};
ghost use Rattle.codec_terms.specs.StreamReading.{band_shape, stated_planes};
ghost use Rattle.codec_laws.specs.Bounds.{IsPictureSize};
ghost use Rattle.band_laws.specs.Places.{precinct_count};
ghost use Rattle.part_packets.specs.Shapes.{IsOfShape};
ghost use Rattle.band_reading.specs.Samples.{sample_at, place_in_part, block_in, IsInPrecinct, IsSample};

use crate::block::read_block_to;
use band_map::blocks_of;
use band_starts::kind_place;
use block_reading::ReadRoom;
use codec_terms::{Band, MainHead, PacketBand};

/// Reads the blocks that a precinct has of a sub-band to their places.
pub(crate) fn read_part(
    head: &MainHead,
    band: Band,
    number: u32,
    part: &PacketBand,
    room: &mut ReadRoom,
    scratch: &mut [i32; 1024],
    out: &mut [i32],
)
    requires size { IsPictureSize head.now.shape }
    requires least { 1 ≤ band.level }
    requires greatest { band.level ≤ 5 }
    requires planes { stated_planes head.now band ≤ 31 }
    requires number { number < precinct_count head.now.shape (resolution band) }
    requires part { IsOfShape (band_shape head.now number band) part.now }
    requires whole { length out.old ≡ band_length head.now.shape band }
    ensures inside { (x y : ℕ) → x < band_columns head.now.shape band → y < band_rows head.now.shape band
        → IsInPrecinct head.now.shape band number x y
        → IsSample head.now.shape (stated_planes head.now band) band
        (block_in part.now (place_in_part head.now.shape band (x / 32) (y / 32))) out.new x y }
    ensures outside { (x y : ℕ) → x < band_columns head.now.shape band
        → (IsInPrecinct head.now.shape band number x y → ⊥)
        → sample_at head.now.shape band out.new x y ≡ sample_at head.now.shape band out.old x y }
{
    let mb = head.mb[kind_place(band)];
    let area = blocks_of(head.shape, band, number);
    for n in 0..area.columns * area.rows {
        let x = area.x + n % area.columns;
        let y = area.y + n / area.columns;
        let block = &part.blocks.as_slice()[n as usize];
        read_block_to(head.shape, mb, band, block, x, y, room, scratch, out);
    }
}
