ghost use Rattle.std.specs.Prelude.{◌≡◌, ◌≤◌, ◌*◌, length};

use mast_base::{Bytes, Limits};

/// The size of a picture in samples.
#[derive(Clone, Copy, Debug, PartialEq, Eq)]
pub struct Shape {
    pub width: u16,
    pub height: u16,
}

/// The four kinds of sub-band (ITU-T T.800 Annex B.5): the first letter tells whether the rows
/// were low-pass or high-pass filtered, the second letter tells it of the columns.
#[derive(Clone, Copy, Debug, PartialEq, Eq)]
pub enum BandKind {
    LL,
    HL,
    LH,
    HH,
}

/// One sub-band of one component. Levels count from 1, the finest, to 5; LL has level 5.
#[derive(Clone, Copy, Debug, PartialEq, Eq)]
pub struct Band {
    pub component: u8,
    pub level: u8,
    pub kind: BandKind,
}

/// What decides how a picture is encoded. `power` is five times the exponent that makes the
/// samples linear.
#[derive(Clone, Copy, Debug, PartialEq, Eq)]
pub struct Params {
    pub width: u16,
    pub height: u16,
    pub power: u8,
    pub limits: Limits,
    pub ghost least_width: { 32 ≤ width },
    pub ghost greatest_width: { width ≤ 2048 },
    pub ghost least_height: { 32 ≤ height },
    pub ghost greatest_height: { height ≤ 1080 },
    pub ghost least_power: { 11 ≤ power },
    pub ghost greatest_power: { power ≤ 13 },
    pub ghost least_frame: { 26041 ≤ limits.frame },
    pub ghost greatest_frame: { limits.frame ≤ 1302083 },
    pub ghost least_component: { 20833 ≤ limits.component },
    pub ghost greatest_component: { limits.component ≤ 1041666 },
}

/// A picture to encode: rows from the top, pixels R, G, B, 16 bits big-endian each.
#[derive(Debug, Drop)]
pub struct Task {
    pub params: Params,
    pub raw: Bytes,
    pub ghost whole: { length raw ≡ params.width * params.height * 6 },
}

impl Params {
    ghost use Rattle.codec_terms.specs.Encode.{shape_of};

    /// The picture's size.
    pub fn shape(&self) -> Shape
        ensures { result ≡ shape_of self.now }
    {
        Shape {
            width: self.width,
            height: self.height,
        }
    }
}
