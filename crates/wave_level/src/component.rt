ghost use Rattle.std.specs.Prelude.{◌≡◌, ◌+◌, ◌-◌, ◌*◌, ◌^◌, ◌<◌, ◌≤◌, All, length};
ghost use Rattle.codec_terms.specs.declared.picture.BandKind.TheVariants.{LL};
ghost use Rattle.codec_terms.specs.Encode.{wave};
ghost use Rattle.codec_terms.specs.Grid.{grid_of, items_of};
ghost use Rattle.codec_laws.specs.Bounds.{IsClamped};
ghost use Rattle.wave_laws.specs.Rows.{quadrant};
ghost use Rattle.quantiser.specs.Signed.{signed_values};
ghost use Rattle.wave_level.specs.Parts.{low_side, high_side, band_at, part_values};
ghost use Rattle.wave_level.specs.Component.{level_values, values_behind, component_values, low_room, room_for, first_of};

use crate::level::{Level, decompose};
use codec_terms::{BandKind, Shape};
use quantiser::quantise;

// A level whose three sub-bands stand one behind the other.
fn decompose_into(
    level: Level,
    plane: &mut [i32],
    line: &mut [i32],
    low: &mut [i32],
    words: &mut [u16],
)
    requires columns { 2 ≤ level.columns }
    requires least { 2 ≤ level.rows }
    requires most { level.rows ≤ 2048 }
    requires whole { length plane.old ≡ level.columns * level.rows }
    requires clamped { All IsClamped plane.old }
    requires line { level.columns ≤ length line.old }
    requires low { length low.old ≡ low_side level.rows * low_side level.columns }
    requires words { length words.old + length low.old ≡ level.columns * level.rows }
    ensures low { low.new ≡ items_of (quadrant LL (grid_of level.columns level.rows plane.old)) }
    ensures clamped { All IsClamped low.new }
    ensures words { signed_values words.new
        ≡ level_values level.component level.number (grid_of level.columns level.rows plane.old) }
{
    let high_columns = level.columns / 2;
    let high_rows = level.rows / 2;
    let (hl, rest) = words.split_at_mut(level.low_rows() * high_columns);
    let (lh, hh) = rest.split_at_mut(high_rows * level.low_columns());
    decompose(level, plane, line, low, hl, lh, hh);
}

/// Takes a plane of samples through its level and those behind it: the words of LL first, this level's own last. What
/// these slices hold behind is as in `sub_bands`; a level that was taken apart pair by pair goes on with the next one
/// here.
pub fn decompose_all(
    level: Level,
    plane: &mut [i32],
    line: &mut [i32],
    room: &mut [i32],
    words: &mut [u16],
)
    requires first { 1 ≤ level.number }
    requires last { level.number ≤ 5 }
    requires columns { 2 ^ (5 - level.number) < level.columns }
    requires rows { 2 ^ (5 - level.number) < level.rows }
    requires most { level.rows ≤ 2048 }
    requires whole { length plane.old ≡ level.columns * level.rows }
    requires clamped { All IsClamped plane.old }
    requires line { level.columns ≤ length line.old }
    requires room { low_room (5 - level.number) level.columns level.rows ≤ length room.old }
    requires words { length words.old ≡ level.columns * level.rows }
    ensures { signed_values words.new
        ≡ values_behind level.component (5 - level.number) (grid_of level.columns level.rows plane.old) }
{
    let low_length = level.low_rows() * level.low_columns();
    let (low, room) = room.split_at_mut(low_length);
    let (low_words, high_words) = words.split_at_mut(low_length);
    decompose_into(level, plane, line, low, high_words);
    if level.number < 5 {
        decompose_all(level.next(), low, line, room, low_words);
    } else {
        quantise(level.band(BandKind::LL), low, low_words);
    }
}

// The low-low planes of a level and of those behind it.
fn low_length(level: Level) -> usize
    requires first { 1 ≤ level.number }
    requires last { level.number ≤ 5 }
    requires columns { level.columns ≤ 2 ^ 16 }
    requires rows { level.rows ≤ 2 ^ 16 }
    ensures length { result ≡ low_room (5 - level.number) level.columns level.rows }
    ensures most { result ≤ (6 - level.number) * 2 ^ 32 }
{
    let own = level.low_rows() * level.low_columns();
    if level.number < 5 {
        own + low_length(level.next())
    } else {
        own
    }
}

/// The first level of a component.
pub fn first_level(component: u8, shape: Shape) -> Level
    ensures { result ≡ first_of component shape }
{
    Level {
        component,
        number: 1,
        columns: usize::from(shape.width),
        rows: usize::from(shape.height),
    }
}

/// How many samples of room `sub_bands` takes: a row, and the low-low planes of all levels.
pub fn room_length(shape: Shape) -> usize
    ensures { result ≡ room_for shape }
{
    let level = first_level(0, shape);
    level.columns + low_length(level)
}

/// Takes a component's plane of samples through five levels of the wavelet transform (ITU-T T.800, Annex F.4) and gives
/// the words of its sub-bands, LL first and then HL, LH and HH of levels 5 to 1, each in raster order. The plane's
/// samples mean nothing behind, nor do those of `room`, which has `room_length` of them or more.
pub fn sub_bands(
    component: u8,
    shape: Shape,
    plane: &mut [i32],
    room: &mut [i32],
    words: &mut [u16],
)
    requires width { 17 ≤ shape.width }
    requires least { 17 ≤ shape.height }
    requires most { shape.height ≤ 2048 }
    requires whole { length plane.old ≡ shape.width * shape.height }
    requires clamped { All IsClamped plane.old }
    requires room { room_for shape ≤ length room.old }
    requires words { length words.old ≡ shape.width * shape.height }
    ensures { signed_values words.new ≡ component_values shape component (wave shape plane.old) }
{
    let level = first_level(component, shape);
    let (line, room) = room.split_at_mut(level.columns);
    decompose_all(level, plane, line, room, words);
}
