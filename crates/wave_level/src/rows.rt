ghost use Rattle.std.specs.Prelude.{◌≡◌, ◌+◌, ◌-◌, ◌*◌, ◌/◌, ◌<◌, ◌≤◌, ◌++◌, length, map};
ghost use Rattle.codec_terms.specs.declared.picture.BandKind.TheVariants.{HL, LH, HH};
ghost use Rattle.codec_terms.specs.Quantiser.{quantised};
ghost use Rattle.wave_laws.specs.Rows.{low_factor, high_factor, scaled_row, low_half, high_half};
ghost use Rattle.dwt97.specs.Lifting.{AreBounded};
ghost use Rattle.dwt97.specs.Plane.{row_in};
ghost use Rattle.quantiser.specs.Signed.{signed_values};
ghost use Rattle.wave_level.specs.Parts.{first_rows, low_side, high_side, band_at};

use crate::level::Level;
use codec_terms::{Band, BandKind};
use dwt97::{finish_high_row, finish_low_row};
use quantiser::quantise;

// A row that was low in its columns: its low samples, and the words of its high ones.
fn low_row(band: Band, row: &[i32], low: &mut [i32], line: &mut [i32], words: &mut [u16])
    requires whole { length row.now ≡ length low.old + length words.old }
    requires some { 0 < length words.old }
    requires least { length words.old ≤ length low.old }
    requires most { length low.old ≤ length words.old + 1 }
    requires line { length line.old ≡ length words.old }
    requires bounded { AreBounded 300000000 row.now }
    ensures low { low.new ≡ low_half (scaled_row low_factor row.now) }
    ensures high { signed_values words.new ≡ map (quantised band) (high_half (scaled_row low_factor row.now)) }
{
    finish_low_row(row, low, line);
    quantise(band, line, words);
}

// A row that was high in its columns: the words of its low samples and those of its high ones.
fn high_row(
    low_band: Band,
    high_band: Band,
    row: &[i32],
    low_line: &mut [i32],
    high_line: &mut [i32],
    low_words: &mut [u16],
    high_words: &mut [u16],
)
    requires whole { length row.now ≡ length low_words.old + length high_words.old }
    requires some { 0 < length high_words.old }
    requires least { length high_words.old ≤ length low_words.old }
    requires most { length low_words.old ≤ length high_words.old + 1 }
    requires low_line { length low_line.old ≡ length low_words.old }
    requires high_line { length high_line.old ≡ length high_words.old }
    requires bounded { AreBounded 200000000 row.now }
    ensures low { signed_values low_words.new ≡ map (quantised low_band) (low_half (scaled_row high_factor row.now)) }
    ensures high { signed_values high_words.new ≡ map (quantised high_band) (high_half (scaled_row high_factor row.now)) }
{
    finish_high_row(row, low_line, high_line);
    quantise(low_band, low_line, low_words);
    quantise(high_band, high_line, high_words);
}

/// Takes row 2k of a plane once it is done: row k of the next level's plane and row k of HL's words.
pub(crate) fn finish_even(
    level: Level,
    plane: &[i32],
    k: usize,
    line: &mut [i32],
    low: &mut [i32],
    words: &mut [u16],
)
    requires columns { 2 ≤ level.columns }
    requires plane { (2 * k + 1) * level.columns ≤ length plane.now }
    requires low { (k + 1) * low_side level.columns ≤ length low.old }
    requires words { (k + 1) * high_side level.columns ≤ length words.old }
    requires line { high_side level.columns ≤ length line.old }
    requires bounded { AreBounded 300000000 (row_in level.columns plane.now (2 * k)) }
    ensures low { first_rows (low_side level.columns) (k + 1) low.new
        ≡ first_rows (low_side level.columns) k low.old
        ++ low_half (scaled_row low_factor (row_in level.columns plane.now (2 * k))) }
    ensures words { signed_values (first_rows (high_side level.columns) (k + 1) words.new)
        ≡ signed_values (first_rows (high_side level.columns) k words.old)
        ++ map (quantised (band_at level HL)) (high_half (scaled_row low_factor (row_in level.columns plane.now (2 * k)))) }
{
    let columns = level.columns;
    let high_columns = columns / 2;
    let low_columns = columns - high_columns;
    let row = &plane[2 * k * columns..(2 * k + 1) * columns];
    let low = &mut low[k * low_columns..(k + 1) * low_columns];
    let words = &mut words[k * high_columns..(k + 1) * high_columns];
    low_row(
        level.band(BandKind::HL),
        row,
        low,
        &mut line[..high_columns],
        words,
    );
}

/// Takes row 2k + 1 of a plane once it is done: row k of LH's words and row k of HH's.
pub(crate) fn finish_odd(
    level: Level,
    plane: &[i32],
    k: usize,
    line: &mut [i32],
    low_words: &mut [u16],
    high_words: &mut [u16],
)
    requires columns { 2 ≤ level.columns }
    requires plane { (2 * k + 2) * level.columns ≤ length plane.now }
    requires low { (k + 1) * low_side level.columns ≤ length low_words.old }
    requires high { (k + 1) * high_side level.columns ≤ length high_words.old }
    requires line { level.columns ≤ length line.old }
    requires bounded { AreBounded 200000000 (row_in level.columns plane.now (2 * k + 1)) }
    ensures low { signed_values (first_rows (low_side level.columns) (k + 1) low_words.new)
        ≡ signed_values (first_rows (low_side level.columns) k low_words.old)
        ++ map (quantised (band_at level LH)) (low_half (scaled_row high_factor (row_in level.columns plane.now (2 * k + 1)))) }
    ensures high { signed_values (first_rows (high_side level.columns) (k + 1) high_words.new)
        ≡ signed_values (first_rows (high_side level.columns) k high_words.old)
        ++ map (quantised (band_at level HH)) (high_half (scaled_row high_factor (row_in level.columns plane.now (2 * k + 1)))) }
{
    let columns = level.columns;
    let high_columns = columns / 2;
    let low_columns = columns - high_columns;
    let row = &plane[(2 * k + 1) * columns..(2 * k + 2) * columns];
    let (low_line, high_line) = line.split_at_mut(low_columns);
    let low_words = &mut low_words[k * low_columns..(k + 1) * low_columns];
    let high_words = &mut high_words[k * high_columns..(k + 1) * high_columns];
    high_row(
        level.band(BandKind::LH),
        level.band(BandKind::HH),
        row,
        low_line,
        &mut high_line[..high_columns],
        low_words,
        high_words,
    );
}
