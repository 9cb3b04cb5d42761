ghost use Rattle.std.specs.Prelude.{◌≡◌, ◌+◌, ◌*◌, ◌<◌, ◌≤◌, All, length};
ghost use Rattle.codec_terms.specs.declared.picture.BandKind.TheVariants.{LL, HL, LH, HH};
ghost use Rattle.codec_terms.specs.Grid.{grid_of, items_of};
ghost use Rattle.codec_laws.specs.Bounds.{IsClamped};
ghost use Rattle.wave_laws.specs.Rows.{quadrant};
ghost use Rattle.quantiser.specs.Signed.{signed_values};
ghost use Rattle.wave_level.specs.Parts.{low_side, high_side, band_at, part_values};

use crate::pairs::take_pair;
use codec_terms::{Band, BandKind};
use dwt97::{round, start};

/// A level of a component: its number, from 1, the finest, to 5, and the size of the plane of samples that it takes
/// apart.
#[derive(Clone, Copy, Debug)]
pub struct Level {
    pub component: u8,
    pub number: u8,
    pub columns: usize,
    pub rows: usize,
}

impl Level {
    /// One of the level's sub-bands.
    pub(crate) fn band(self, kind: BandKind) -> Band
        ensures { result ≡ band_at self kind }
    {
        Band {
            component: self.component,
            level: self.number,
            kind,
        }
    }

    /// The level behind it, of its low-low samples.
    pub fn next(self) -> Level
        requires { self.number < 5 }
        ensures component { result.component ≡ self.component }
        ensures number { result.number ≡ self.number + 1 }
        ensures columns { result.columns ≡ low_side self.columns }
        ensures rows { result.rows ≡ low_side self.rows }
    {
        Level {
            component: self.component,
            number: self.number + 1,
            columns: self.low_columns(),
            rows: self.low_rows(),
        }
    }

    /// How many columns of samples become low ones.
    pub fn low_columns(self) -> usize
        ensures { result ≡ low_side self.columns }
    {
        self.columns - self.columns / 2
    }

    /// How many rows of them become low ones.
    pub fn low_rows(self) -> usize
        ensures { result ≡ low_side self.rows }
    {
        self.rows - self.rows / 2
    }
}

/// Takes a plane of samples apart into the plane of the next level and the words of three sub-bands, each row by row.
/// The plane's samples mean nothing behind, nor do those of `line`, which is room for a row.
pub fn decompose(
    level: Level,
    plane: &mut [i32],
    line: &mut [i32],
    low: &mut [i32],
    hl: &mut [u16],
    lh: &mut [u16],
    hh: &mut [u16],
)
    requires columns { 2 ≤ level.columns }
    requires least { 2 ≤ level.rows }
    requires most { level.rows ≤ 2048 }
    requires whole { length plane.old ≡ level.columns * level.rows }
    requires clamped { All IsClamped plane.old }
    requires line { level.columns ≤ length line.old }
    requires low { length low.old ≡ low_side level.rows * low_side level.columns }
    requires hl { length hl.old ≡ low_side level.rows * high_side level.columns }
    requires lh { length lh.old ≡ high_side level.rows * low_side level.columns }
    requires hh { length hh.old ≡ high_side level.rows * high_side level.columns }
    ensures low { low.new ≡ items_of (quadrant LL (grid_of level.columns level.rows plane.old)) }
    ensures clamped { All IsClamped low.new }
    ensures hl { signed_values hl.new ≡ part_values (band_at level HL) (grid_of level.columns level.rows plane.old) }
    ensures lh { signed_values lh.new ≡ part_values (band_at level LH) (grid_of level.columns level.rows plane.old) }
    ensures hh { signed_values hh.new ≡ part_values (band_at level HH) (grid_of level.columns level.rows plane.old) }
{
    start(plane, level.columns, level.rows);
    for j in 0..level.rows - level.rows / 2 {
        round(plane, level.columns, level.rows, j);
        take_pair(level, j, plane, line, low, hl, lh, hh);
    }
}
