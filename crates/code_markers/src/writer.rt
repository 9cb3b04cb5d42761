ghost use Rattle.std.specs.Prelude.{◌≡◌, ◌++◌, ◌∷◌, List, ℕ, map, IfOk, Some, Ok};
ghost use Rattle.codec_terms.specs.Bands.{plane_limit, component_bands};
ghost use Rattle.codec_terms.specs.Codestream.{size_segment, lengths_segment, cut_segment, main_header};
ghost use Rattle.codec_terms.specs.MainReading.{main_read};
ghost use Rattle.codec_laws.specs.Bounds.{IsPictureSize};

use codec_terms::Shape;
use mast_base::{Bytes, NoMemory};
use std::alloc::Global;

/// The number of bytes of a main header.
const HEADER_LENGTH: usize = 143;

/// SOC.
const START: [u8; 2] = [0xff, 0x4f];

/// COD (A.6.1): CPRL, one layer, the component transform, five levels, code-blocks of 32 × 32, the 9-7
/// filter, and precincts of 128 × 128, and of 256 × 256 from resolution 1 on.
#[rattlefmt::skip]
const CODING: [u8; 20] = [
    0xff, 0x52, 0, 0x12, 1, 4, 0, 1, 1, 5, 3, 3, 0, 0, 0x77, 0x88, 0x88, 0x88, 0x88, 0x88,
];

/// QCD (A.6.4): one guard bit, and of each sub-band the exponent in five bits and the mantissa in
/// eleven.
#[rattlefmt::skip]
const QUANTISATION: [u8; 37] = [
    0xff, 0x5c, 0, 0x23, 0x22,
    0x70, 0,
    0x79, 0, 0x79, 0, 0x7a, 0,
    0x71, 0, 0x71, 0, 0x72, 0,
    0x69, 0, 0x69, 0, 0x6a, 0,
    0x69, 0, 0x69, 0, 0x6a, 0,
    0x61, 0, 0x61, 0, 0x62, 0,
];

// SIZ (A.5.1): the picture, which is the one tile too, without offsets, and three components of 12
// bits.
#[rattlefmt::skip]
fn size_segment(shape: Shape) -> [u8; 49]
    ensures { result ≡ size_segment shape }
{
    let [w3, w2, w1, w0] = u32::from(shape.width).to_be_bytes();
    let [h3, h2, h1, h0] = u32::from(shape.height).to_be_bytes();
    [
        0xff, 0x51, 0, 0x2f, 0, 3,
        w3, w2, w1, w0, h3, h2, h1, h0, 0, 0, 0, 0, 0, 0, 0, 0,
        w3, w2, w1, w0, h3, h2, h1, h0, 0, 0, 0, 0, 0, 0, 0, 0,
        0, 3, 11, 1, 1, 11, 1, 1, 11, 1, 1,
    ]
}

// TLM (A.7.1): all tile-parts are of tile 0.
#[rattlefmt::skip]
fn lengths_segment(parts: [u32; 3]) -> [u8; 21]
    ensures { result ≡ lengths_segment parts }
{
    let [a3, a2, a1, a0] = parts[0].to_be_bytes();
    let [b3, b2, b1, b0] = parts[1].to_be_bytes();
    let [c3, c2, c1, c0] = parts[2].to_be_bytes();
    [
        0xff, 0x55, 0, 0x13, 0, 0x50,
        0, a3, a2, a1, a0,
        0, b3, b2, b1, b0,
        0, c3, c2, c1, c0,
    ]
}

// COM (A.9.2): binary content, `CUT1` and the cut.
fn cut_segment(cut: u32) -> [u8; 14]
    ensures { result ≡ cut_segment cut }
{
    let [a, b, c, d] = cut.to_be_bytes();
    [0xff, 0x64, 0, 12, 0, 0, b'C', b'U', b'T', b'1', a, b, c, d]
}

/// The main header of a codestream: 143 bytes from SOC up to the first tile-part. `parts` are the
/// lengths of the tile-parts, each from its marker SOT on, and `cut` is the one that the comment states.
pub fn main_header(
    alloc: Global,
    shape: Shape,
    parts: [u32; 3],
    cut: u32,
) -> Result<Bytes, NoMemory>
    ensures bytes { IfOk result (λ bytes. bytes ≡ main_header shape parts cut) }
    // A reader that finds the marker of a tile-part behind it gets everything back.
    ensures read_back { IfOk result (λ bytes. (rest : List ℕ) → IsPictureSize shape →
        main_read (bytes ++ 0xFF ∷ 0x90 ∷ rest) ≡ Ok (record {
          shape = shape;
          mb = map plane_limit (component_bands 0);
          parts = parts;
          cut = Some cut;
          next = 143;
        })) }
{
    let mut out = Vec::with_capacity(alloc, HEADER_LENGTH)?;
    out.extend_from_slice(&START)?;
    out.extend_from_slice(&size_segment(shape))?;
    out.extend_from_slice(&CODING)?;
    out.extend_from_slice(&QUANTISATION)?;
    out.extend_from_slice(&lengths_segment(parts))?;
    out.extend_from_slice(&cut_segment(cut))?;
    Ok(Bytes::from(out))
}
