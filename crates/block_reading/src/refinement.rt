ghost use Rattle.std.specs.Prelude.{◌≡◌, ◌+◌, ◌^◌, ◌<◌, ℕ, true};
ghost use Rattle.std.specs.Int.{w64, trailing_zeros};
ghost use Rattle.codec_terms.specs.BlockReading.{Known, known_magnitude, refinement_context, refined_read, refinement_at};
ghost use Rattle.block_sets.specs.Places.{column_at, row_at};
ghost use Rattle.block_reading.specs.Scan.{bits_read};
ghost use Rattle.block_reading.specs.Known.{area_of, HasRoom, HasKnown, HasSample};
ghost use Rattle.block_reading.specs.Bounds.{IsFresh};
ghost use Rattle.block_reading.specs.Todo.{HasRefined};

use crate::field::Field;
use crate::room::{ReadRoom, cell_of, place_of};
use block_contexts::refine_context;
use mq_coder::Reader;

// The context of a significant sample's bit.
fn context_of(field: &Field<'_>, room: &ReadRoom, w: usize, i: u32) -> u8
    requires w { w < 16 }
    requires i { i < 64 }
    ensures told { (k : Known) → HasRoom (area_of field.now) room.now k → HasSample field.now w i
        → result ≡ refinement_context (area_of field.now) field.now.plane k (column_at w i) (row_at w i) }
    ensures small { result < 19 }
{
    let first = room.magnitudes[cell_of(w, i)] >> (field.plane + 1) == 1;
    refine_context(room.words[place_of(w, i)], first)
}

fn refine(field: &Field<'_>, reader: &mut Reader<'_>, room: &mut ReadRoom, w: usize, i: u32)
    requires w { w < 16 }
    requires i { i < 64 }
    ensures { (k : Known) → HasKnown (area_of field.now) reader.old room.old k → HasSample field.now w i
        → known_magnitude (area_of field.now) k (column_at w i) (row_at w i) + 2 ^ field.now.plane < 2 ^ 32
        → HasKnown (area_of field.now) reader.new room.new
        (refined_read (area_of field.now) field.now.plane (column_at w i) (row_at w i)
        (refinement_context (area_of field.now) field.now.plane k (column_at w i) (row_at w i)) k) }
{
    let context = context_of(field, room, w, i);
    let bit = reader.bit(context);
    let cell = cell_of(w, i);
    room.magnitudes[cell] = room.magnitudes[cell].wrapping_add(u32::from(bit) << field.plane);
}

// Reads the lowest of the samples that are left, and gives the others.
fn refine_lowest(
    field: &Field<'_>,
    reader: &mut Reader<'_>,
    room: &mut ReadRoom,
    w: usize,
    left: u64,
) -> u64
    requires w { w < 16 }
    requires some { 0 < left }
    ensures told { (k : Known) (planes : ℕ) → IsFresh (area_of field.now) planes field.now.plane w 0 k
        → HasRefined field.now w k reader.old room.old left → HasRefined field.now w k reader.new room.new result }
    ensures behind { trailing_zeros w64 left < trailing_zeros w64 result }
{
    refine(field, reader, room, w, left.trailing_zeros());
    left & (left - 1)
}

/// The magnitude refinement pass over a word's samples (Annex D.3.3).
pub(crate) fn refine_word(field: &Field<'_>, reader: &mut Reader<'_>, room: &mut ReadRoom, w: usize)
    requires { w < 16 }
    ensures { (k : Known) (planes : ℕ) → IsFresh (area_of field.now) planes field.now.plane w 0 k
        → HasKnown (area_of field.now) reader.old room.old k
        → HasKnown (area_of field.now) reader.new room.new
        (bits_read (refinement_at (area_of field.now) field.now.plane) (area_of field.now) w 64 k) }
{
    let mut left = room.significant[w] & !room.visited[w];
    while left != 0 {
        left = refine_lowest(field, reader, room, w, left);
    }
}
