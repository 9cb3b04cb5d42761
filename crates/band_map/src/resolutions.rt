ghost use Rattle.std.specs.Prelude.{◌≡◌, ◌≤◌, ◌-◌, ◌^◌};
ghost use Rattle.std.specs.Int.{div_ceil};
ghost use Rattle.codec_terms.specs.Precincts.{precinct_exponent, precinct_columns, precinct_rows};

use codec_terms::Shape;

/// How many precincts of a resolution lie along a side of the picture.
pub(crate) fn precincts_along(side: u16, resolution: u8) -> u32
    ensures number { result
        ≡ div_ceil (div_ceil side (2 ^ (5 - resolution))) (2 ^ precinct_exponent resolution) }
    ensures few { result ≤ 256 }
{
    let samples = u32::from(side).div_ceil(1 << 5u8.saturating_sub(resolution));
    samples.div_ceil(if resolution == 0 { 128 } else { 256 })
}

/// A resolution's columns and rows of precincts (equation B-16), of resolutions from 0 to 5.
pub fn precincts(shape: Shape, resolution: u8) -> (u32, u32)
    ensures columns { result.0 ≡ precinct_columns shape resolution }
    ensures rows { result.1 ≡ precinct_rows shape resolution }
    ensures few_columns { result.0 ≤ 256 }
    ensures few_rows { result.1 ≤ 256 }
{
    (
        precincts_along(shape.width, resolution),
        precincts_along(shape.height, resolution),
    )
}
