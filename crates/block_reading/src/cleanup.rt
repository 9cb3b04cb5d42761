ghost use Rattle.std.specs.Prelude.{◌≡◌, ◌==◌, ◌&&◌, ◌+◌, ◌-◌, ◌*◌, ◌/◌, ◌%◌, ◌<◌, ◌≤◌, ℕ, true, fold};
ghost use Rattle.std.specs.List.{range_with_len};
ghost use Rattle.std.specs.Int.{bit_at, from_bool, w64, trailing_zeros};
ghost use Rattle.codec_terms.specs.BlockReading.{Known, cleanup_at, run_read, cleanup_column};
ghost use Rattle.block_words.specs.Told.{column_of};
ghost use Rattle.block_sets.specs.Places.{column_at, row_at};
ghost use Rattle.block_passes.specs.Left.{HasFour, is_left_at, is_quiet_at, is_run_at};
ghost use Rattle.block_reading.specs.Scan.{block_at, walk_of, bit_step, column_step, columns_read};
ghost use Rattle.block_reading.specs.Known.{area_of, HasRoom, HasKnown, HasSample};
ghost use Rattle.block_reading.specs.Todo.{AreUnread, HasCleaned};

use crate::field::Field;
use crate::room::ReadRoom;
use crate::sample::{read_bit, read_sign, read_zero_bit, zero_context_at};
use mq_coder::Reader;

// The samples of a word that are neither significant nor visited.
fn left_in(field: &Field<'_>, room: &ReadRoom, w: usize) -> u64
    requires { w < 16 }
    ensures { (k : Known) → HasRoom (area_of field.now) room.now k
        → (j : ℕ) → j < 64 → bit_at result j ≡ from_bool (is_left_at (block_at (area_of field.now)) w (walk_of k) j) }
{
    field.samples[w] & !room.significant[w] & !room.visited[w]
}

fn clean(field: &Field<'_>, reader: &mut Reader<'_>, room: &mut ReadRoom, w: usize, i: u32)
    requires w { w < 16 }
    requires i { i < 64 }
    ensures { (k : Known) → HasKnown (area_of field.now) reader.old room.old k
        → HasKnown (area_of field.now) reader.new room.new
        (bit_step (cleanup_at (area_of field.now) field.now.plane) (area_of field.now) w k i) }
{
    let is_left = left_in(field, room, w) >> i & 1 == 1;
    if is_left {
        read_zero_bit(field, reader, room, w, i);
    }
}

// The samples from `i` on below `end` that are left, where they are no part of a run.
fn clean_rest(
    field: &Field<'_>,
    reader: &mut Reader<'_>,
    room: &mut ReadRoom,
    w: usize,
    i: u32,
    end: u32,
)
    requires w { w < 16 }
    requires order { i ≤ end }
    requires end { end ≤ 64 }
    ensures { (k : Known) → HasKnown (area_of field.now) reader.old room.old k
        → HasKnown (area_of field.now) reader.new room.new
        (fold (bit_step (cleanup_at (area_of field.now) field.now.plane) (area_of field.now) w) k (range_with_len i (end - i))) }
{
    for j in i..end {
        clean(field, reader, room, w, j);
    }
}

fn number_of(high: bool, low: bool) -> u32
    ensures value { result ≡ 2 * from_bool high + from_bool low }
    ensures small { result < 4 }
{
    2 * u32::from(high) + u32::from(low)
}

// The samples of a column that is a run.
fn read_run(field: &Field<'_>, reader: &mut Reader<'_>, room: &mut ReadRoom, w: usize, i: u32)
    requires w { w < 16 }
    requires i { i + 4 ≤ 64 }
    requires column { i % 4 ≡ 0 }
    ensures { (k : Known) → HasKnown (area_of field.now) reader.old room.old k
        → HasFour (block_at (area_of field.now)) w i → AreUnread (area_of field.now) w i k
        → HasKnown (area_of field.now) reader.new room.new
        (run_read (area_of field.now) field.now.plane (column_of (column_at w i) (row_at w i) 4) k) }
{
    let some = read_bit(field, reader, room, 17);
    if some {
        let high = read_bit(field, reader, room, 18);
        let low = read_bit(field, reader, room, 18);
        let first = number_of(high, low);
        read_sign(field, reader, room, w, i + first);
        clean_rest(field, reader, room, w, i + first + 1, i + 4);
    }
}

fn is_quiet(field: &Field<'_>, room: &ReadRoom, w: usize, i: u32) -> bool
    requires w { w < 16 }
    requires i { i < 64 }
    ensures { (k : Known) → HasRoom (area_of field.now) room.now k → HasSample field.now w i
        → result ≡ is_quiet_at (block_at (area_of field.now)) w (walk_of k) i }
{
    zero_context_at(field, room, w, i) == 0
}

// Whether the zero context of four samples is 0.
fn are_quiet(field: &Field<'_>, room: &ReadRoom, w: usize, i: u32) -> bool
    requires w { w < 16 }
    requires i { i + 4 ≤ 64 }
    ensures { (k : Known) → HasRoom (area_of field.now) room.now k → HasFour (block_at (area_of field.now)) w i
        → result ≡ ((is_quiet_at (block_at (area_of field.now)) w (walk_of k) i
        && is_quiet_at (block_at (area_of field.now)) w (walk_of k) (i + 1))
        && (is_quiet_at (block_at (area_of field.now)) w (walk_of k) (i + 2)
        && is_quiet_at (block_at (area_of field.now)) w (walk_of k) (i + 2 + 1))) }
{
    let upper = is_quiet(field, room, w, i) & is_quiet(field, room, w, i + 1);
    let lower = is_quiet(field, room, w, i + 2) & is_quiet(field, room, w, i + 3);
    upper & lower
}

// Whether a column is a run, where `left` has the samples that are left of its word.
fn is_run(field: &Field<'_>, room: &ReadRoom, w: usize, left: u64, c: u32) -> bool
    requires w { w < 16 }
    requires c { c < 16 }
    ensures { (k : Known) → HasRoom (area_of field.now) room.now k
        → ((j : ℕ) → 4 * c ≤ j → j < 64 → bit_at left j ≡ from_bool (is_left_at (block_at (area_of field.now)) w (walk_of k) j))
        → result ≡ is_run_at (block_at (area_of field.now)) w (walk_of k) c }
{
    let all = left >> (4 * c) & 15;
    if all == 15 {
        are_quiet(field, room, w, 4 * c)
    } else {
        false
    }
}

fn clean_column(
    field: &Field<'_>,
    reader: &mut Reader<'_>,
    room: &mut ReadRoom,
    w: usize,
    left: u64,
    c: u32,
)
    requires w { w < 16 }
    requires c { c < 16 }
    ensures { (k : Known) → HasKnown (area_of field.now) reader.old room.old k
        → ((j : ℕ) → 4 * c ≤ j → j < 64 → bit_at left j ≡ from_bool (is_left_at (block_at (area_of field.now)) w (walk_of k) j))
        → HasKnown (area_of field.now) reader.new room.new
        (column_step (cleanup_column (area_of field.now) field.now.plane) (area_of field.now) w k c) }
{
    if is_run(field, room, w, left, c) {
        read_run(field, reader, room, w, 4 * c);
    } else {
        clean_rest(field, reader, room, w, 4 * c, 4 * c + 4);
    }
}

// Reads the column of the lowest sample that is left, and gives those left behind it.
fn clean_lowest(
    field: &Field<'_>,
    reader: &mut Reader<'_>,
    room: &mut ReadRoom,
    w: usize,
    left: u64,
) -> u64
    requires w { w < 16 }
    requires some { 0 < left }
    ensures told { (k : Known) → HasCleaned field.now w k reader.old room.old left
        → HasCleaned field.now w k reader.new room.new result }
    ensures behind { trailing_zeros w64 left / 4 < trailing_zeros w64 result / 4 }
{
    let c = left.trailing_zeros() / 4;
    clean_column(field, reader, room, w, left, c);
    left_in(field, room, w) & u64::MAX << (4 * c) << 4
}

/// The cleanup pass over a word's samples (Annex D.3.4).
pub(crate) fn clean_word(field: &Field<'_>, reader: &mut Reader<'_>, room: &mut ReadRoom, w: usize)
    requires { w < 16 }
    ensures { (k : Known) → HasKnown (area_of field.now) reader.old room.old k
        → HasKnown (area_of field.now) reader.new room.new
        (columns_read (cleanup_column (area_of field.now) field.now.plane) (area_of field.now) w 16 k) }
{
    let mut left = left_in(field, room, w);
    while left != 0 {
        left = clean_lowest(field, reader, room, w, left);
    }
}
