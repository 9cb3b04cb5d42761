ghost use Rattle.std.specs.Prelude.{◌≡◌, ◌+◌, ◌*◌, ◌<◌, ◌≤◌, ℤ, List, length};
ghost use Rattle.codec_laws.specs.Bounds.{IsGridOf, IsClamped};
ghost use Rattle.dwt97.specs.Lifting.{AreBounded};
ghost use Rattle.dwt97.specs.Plane.{row_in};
ghost use Rattle.wave_level.specs.Parts.{low_side, high_side};
ghost use Rattle.wave_level.specs.Taken.{IsPairDone, IsTakenTo};

use crate::level::Level;
use crate::rows::{finish_even, finish_odd};

/// Takes rows 2j and 2j + 1 of a level's plane, or the last row alone, once round j of its columns is through: row j of
/// the next level's plane, and row j of each sub-band's words. So a plane can be made row by row while it is taken apart.
/// The samples of `line`, which is room for a row, mean nothing behind.
pub fn take_pair(
    level: Level,
    j: usize,
    plane: &[i32],
    line: &mut [i32],
    low: &mut [i32],
    hl: &mut [u16],
    lh: &mut [u16],
    hh: &mut [u16],
)
    requires columns { 2 ≤ level.columns }
    requires inside { 2 * j < level.rows }
    requires whole { length plane.now ≡ level.columns * level.rows }
    requires line { level.columns ≤ length line.old }
    requires low { length low.old ≡ low_side level.rows * low_side level.columns }
    requires hl { length hl.old ≡ low_side level.rows * high_side level.columns }
    requires lh { length lh.old ≡ high_side level.rows * low_side level.columns }
    requires hh { length hh.old ≡ high_side level.rows * high_side level.columns }
    requires even { AreBounded 300000000 (row_in level.columns plane.now (2 * j)) }
    requires odd { 2 * j + 1 < level.rows → AreBounded 200000000 (row_in level.columns plane.now (2 * j + 1)) }
    ensures { (area : List (List ℤ)) → IsGridOf IsClamped level.columns level.rows area
        → IsPairDone j area level.columns level.rows plane.now → IsTakenTo level j area low.old hl.old lh.old hh.old
        → IsTakenTo level (j + 1) area low.new hl.new lh.new hh.new }
{
    finish_even(level, plane, j, line, low, hl);
    if 2 * j + 1 < level.rows {
        finish_odd(level, plane, j, line, lh, hh);
    }
}
