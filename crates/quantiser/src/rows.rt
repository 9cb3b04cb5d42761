ghost use Rattle.std.specs.Prelude.{◌≡◌, ◌<◌, ◌≤◌, ◌+◌, ◌-◌, ◌*◌, ◌^◌, All, length, map, unsigned_abs};
ghost use Rattle.codec_terms.specs.Bands.{exponent_at, plane_limit};
ghost use Rattle.codec_terms.specs.declared.picture.BandKind.TheVariants.{HL};
ghost use Rattle.codec_terms.specs.Quantiser.{quantised};
ghost use Rattle.quantiser.specs.Quotients.{divided, lowest_quantised};
ghost use Rattle.quantiser.specs.Signed.{magnitude, signed_values};

use crate::parts::{in_fifths, in_lowest, in_ninths, in_wide_ninths};
use codec_terms::{Band, BandKind};

// One loop for each divisor, with its product as a literal: as a parameter it would cost a
// product of 64 bits.

fn fifths(shift: u32, values: &[i32], out: &mut [u16])
    requires least { 10 ≤ shift }
    requires greatest { shift ≤ 13 }
    requires length { length values.now ≡ length out.old }
    requires bounds { All (λ v. unsigned_abs v ≤ 2 ^ 26) values.now }
    ensures { signed_values out.new ≡ map (divided (2 ^ shift * 5)) values.now }
{
    for i in 0..out.len() {
        out[i] = in_fifths(shift, values[i]);
    }
}

fn ninths(shift: u32, values: &[i32], out: &mut [u16])
    requires least { 10 ≤ shift }
    requires greatest { shift ≤ 11 }
    requires length { length values.now ≡ length out.old }
    requires bounds { All (λ v. unsigned_abs v ≤ 2 ^ 26) values.now }
    ensures { signed_values out.new ≡ map (divided (2 ^ shift * 9)) values.now }
{
    for i in 0..out.len() {
        out[i] = in_ninths(shift, values[i]);
    }
}

fn wide_ninths(shift: u32, values: &[i32], out: &mut [u16])
    requires least { 8 ≤ shift }
    requires greatest { shift ≤ 9 }
    requires length { length values.now ≡ length out.old }
    requires bounds { All (λ v. unsigned_abs v ≤ 2 ^ 26) values.now }
    ensures { signed_values out.new ≡ map (divided (2 ^ shift * 9)) values.now }
{
    for i in 0..out.len() {
        out[i] = in_wide_ninths(shift, values[i]);
    }
}

fn lowest(values: &[i32], out: &mut [u16])
    requires { length values.now ≡ length out.old }
    ensures { signed_values out.new ≡ map lowest_quantised values.now }
{
    for i in 0..out.len() {
        out[i] = in_lowest(values[i]);
    }
}

// By how many doublings the step of a level is above that of level 5.
fn doublings(level: u8) -> u32
    ensures { result ≡ 15 - exponent_at level HL }
{
    match level {
        0 | 1 => 3,
        2 | 3 => 2,
        4 => 1,
        _ => 0,
    }
}

/// Quantises a row of transformed samples. A sub-band's step is a power of two, or five or nine
/// times one. A word has the magnitude in bits 0 to 14 and the sample's sign in bit 15, also where
/// the magnitude is 0.
pub fn quantise(band: Band, values: &[i32], out: &mut [u16])
    requires length { length values.now ≡ length out.old }
    requires bounds { All (λ v. unsigned_abs v ≤ 2 ^ 26) values.now }
    ensures values { signed_values out.new ≡ map (quantised band) values.now }
    ensures planes { All (λ word. magnitude word < 2 ^ plane_limit band) out.new }
{
    let more = doublings(band.level);
    match band.kind {
        BandKind::LL => lowest(values, out),
        BandKind::HL | BandKind::LH => {
            if more < 2 {
                wide_ninths(8 + more, values, out);
            } else {
                ninths(8 + more, values, out);
            }
        }
        BandKind::HH => fifths(10 + more, values, out),
    }
}
