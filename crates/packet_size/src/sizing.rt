ghost use Rattle.std.specs.Prelude.{◌≡◌, ℕ, ◌+◌, ◌*◌, ◌<◌, ◌≤◌, ◌^◌, ◌∷◌, true, List, All, map, length};
ghost use Rattle.std.specs.List.{flat_map, list_any};
ghost use Rattle.codec_terms.specs.declared.packet.PacketBand.{PacketBand};
ghost use Rattle.codec_terms.specs.PacketHeader.{band_bits, band_codewords, block_codeword, packed, packet};
ghost use Rattle.packet_size.specs.Lengths.{HasLengths};
ghost use Rattle.packet_size.specs.Sizes.{HasPassCodes, AreSizesOf, includes_some, block_of, band_of};

use crate::band::put_band;
use crate::counter::BitCounter;
use crate::sizes::{BandSizes, BlockSize};

// The number of bytes that a block has behind the header.
fn codeword_length(block: &BlockSize) -> u64
    ensures length { result ≡ length (block_codeword (block_of block.now)) }
    ensures few { result < 2 ^ 32 }
{
    if block.included {
        u64::from(block.len)
    } else {
        0
    }
}

// The number of bytes that a sub-band has behind the header.
fn band_length(band: &BandSizes) -> u64
    ensures length { result ≡ length (band_codewords (band_of band.now)) }
    ensures few { result ≤ 16 * 2 ^ 32 }
{
    let mut length = 0u64;
    for block in band.blocks {
        length += codeword_length(block);
    }
    length
}

// Whether a block is included.
fn includes_some(band: &BandSizes) -> bool
    ensures { result ≡ includes_some band.now }
{
    band.blocks.iter().any(|block| block.included)
}

fn is_full(bands: &[BandSizes]) -> bool
    ensures { result ≡ list_any includes_some bands.now }
{
    bands.iter().any(|band| includes_some(band))
}

// The number of bytes of the header of a packet that isn't empty.
fn header_length(bands: &[BandSizes]) -> u64
    requires few { length bands.now ≤ 3 }
    requires passes { All HasPassCodes bands.now }
    ensures length { result ≡ length (packed (true ∷ flat_map band_bits (map band_of bands.now))) }
    ensures few { result ≤ 2 ^ 26 }
{
    let mut counter = BitCounter::new();
    counter.put(1, 1);
    for band in bands {
        put_band(&mut counter, band);
    }
    counter.byte_count()
}

// The number of bytes behind the header.
fn body_length(bands: &[BandSizes]) -> u64
    requires { length bands.now ≤ 3 }
    ensures length { result ≡ length (flat_map band_codewords (map band_of bands.now)) }
    ensures few { result ≤ 2 ^ 40 }
    ensures within { (most : ℕ) → All (HasLengths most) bands.now → result ≤ 48 * most }
{
    let mut length = 0u64;
    for band in bands {
        length += band_length(band);
    }
    length
}

// The number of bytes, of blocks that have these sizes and some codewords.
fn size_of_any(bands: &[BandSizes]) -> u64
    requires few { length bands.now ≤ 3 }
    requires passes { All HasPassCodes bands.now }
    ensures size { result ≡ length (packet (map band_of bands.now)) }
    ensures few { result < 2 ^ 41 }
    ensures within { (most : ℕ) → All (HasLengths most) bands.now → result ≤ 2 ^ 26 + 48 * most }
{
    if !is_full(bands) {
        return 1;
    }
    header_length(bands) + body_length(bands)
}

/// The number of bytes of a packet whose blocks have these sizes. A packet has at most three sub-bands, and each block
/// that is included 1 to 164 passes. It takes no memory.
pub fn packet_size(bands: &[BandSizes]) -> u64
    requires few { length bands.now ≤ 3 }
    requires passes { All HasPassCodes bands.now }
    ensures size { (of : List PacketBand) → AreSizesOf bands.now of → result ≡ length (packet of) }
    ensures few { result < 2 ^ 41 }
    // How long it can be where no codeword has more than `most` bytes.
    ensures within { (most : ℕ) → All (HasLengths most) bands.now → result ≤ 2 ^ 26 + 48 * most }
{
    size_of_any(bands)
}
