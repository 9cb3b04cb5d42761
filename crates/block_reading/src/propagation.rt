ghost use Rattle.std.specs.Prelude.{◌≡◌, ◌<◌, ℕ, true, false};
ghost use Rattle.std.specs.Int.{bit_at, from_bool, w64, trailing_zeros};
ghost use Rattle.codec_terms.specs.BlockReading.{Known, known_significant, known_zero_context, next_bit, zero_bit_read, marked_visited, propagation_at};
ghost use Rattle.block_sets.specs.Places.{column_at, row_at};
ghost use Rattle.block_passes.specs.Scan.{is_later};
ghost use Rattle.block_reading.specs.Scan.{bits_read};
ghost use Rattle.block_reading.specs.Known.{area_of, HasKnown, HasSample};
ghost use Rattle.block_reading.specs.Todo.{HasPropagated};

use crate::field::Field;
use crate::room::ReadRoom;
use crate::sample::{read_zero_bit, visit};
use block_sets::near;
use mq_coder::Reader;

/// The neighbours of a column's first bit that come after it, of its second, third and fourth, counted from there on.
static LATER: [u64; 4] = [0x32, 0x3a, 0x3a, 0x18];

// The neighbours of a bit that come after it in its word.
fn later(i: u32) -> u64
    requires { i < 64 }
    ensures { (j : ℕ) → j < 64 → bit_at result j ≡ from_bool (is_later i j) }
{
    LATER[(i & 3) as usize] << i
}

fn propagate(
    field: &Field<'_>,
    reader: &mut Reader<'_>,
    room: &mut ReadRoom,
    w: usize,
    i: u32,
) -> bool
    requires w { w < 16 }
    requires i { i < 64 }
    ensures told { (k : Known) → HasKnown (area_of field.now) reader.old room.old k → HasSample field.now w i
        → known_significant (area_of field.now) k (column_at w i) (row_at w i) ≡ false
        → HasKnown (area_of field.now) reader.new room.new
        (marked_visited (area_of field.now) (column_at w i) (row_at w i)
        (zero_bit_read (area_of field.now) field.now.plane (column_at w i) (row_at w i) k)) }
    ensures bit { (k : Known) → HasKnown (area_of field.now) reader.old room.old k → HasSample field.now w i
        → result ≡ next_bit (known_zero_context (area_of field.now) k (column_at w i) (row_at w i)) k }
{
    let bit = read_zero_bit(field, reader, room, w, i);
    visit(field, room, w, i);
    bit
}

// Reads the lowest candidate, and gives those that are left.
fn propagate_lowest(
    field: &Field<'_>,
    reader: &mut Reader<'_>,
    room: &mut ReadRoom,
    w: usize,
    candidates: u64,
    free: u64,
) -> u64
    requires w { w < 16 }
    requires some { 0 < candidates }
    ensures told { (k : Known) → HasPropagated field.now w k reader.old room.old candidates free
        → HasPropagated field.now w k reader.new room.new result free }
    ensures behind { trailing_zeros w64 candidates < trailing_zeros w64 result }
{
    let i = candidates.trailing_zeros();
    let others = candidates & !(1 << i);
    if propagate(field, reader, room, w, i) {
        others | later(i) & free
    } else {
        others
    }
}

/// The significance propagation pass over a word's samples (Annex D.3.1).
pub(crate) fn propagate_word(
    field: &Field<'_>,
    reader: &mut Reader<'_>,
    room: &mut ReadRoom,
    w: usize,
)
    requires { w < 16 }
    ensures { (k : Known) → HasKnown (area_of field.now) reader.old room.old k
        → HasKnown (area_of field.now) reader.new room.new
        (bits_read (propagation_at (area_of field.now) field.now.plane) (area_of field.now) w 64 k) }
{
    let free = field.samples[w] & !room.significant[w];
    let mut candidates = near(&room.significant, w) & free;
    while candidates != 0 {
        candidates = propagate_lowest(field, reader, room, w, candidates, free);
    }
}
