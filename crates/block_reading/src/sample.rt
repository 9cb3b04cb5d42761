ghost use Rattle.std.specs.Prelude.{◌≡◌, ◌<◌, ℕ, true, false};
ghost use Rattle.codec_terms.specs.Mq.{Decoder};
ghost use Rattle.codec_terms.specs.BlockReading.{Known, behind_bit, known_significant, known_zero_context, next_bit};
ghost use Rattle.codec_terms.specs.BlockReading.{marked_visited, sign_read, zero_bit_read};
ghost use Rattle.block_sets.specs.Places.{column_at, row_at};
ghost use Rattle.block_reading.specs.Known.{area_of, HasRoom, HasKnown, with_sign, HasSample};

use crate::field::Field;
use crate::room::{ReadRoom, cell_of, place_of};
use block_contexts::sign_context;
use block_words::mark;
use mq_coder::Reader;

/// The next bit in this context.
pub(crate) fn read_bit(
    field: &Field<'_>,
    reader: &mut Reader<'_>,
    room: &ReadRoom,
    context: u8,
) -> bool
    requires { context < 19 }
    ensures told { (k : Known) → HasKnown (area_of field.now) reader.old room.now k
        → HasKnown (area_of field.now) reader.new room.now (behind_bit context k) }
    ensures bit { (k : Known) → HasKnown (area_of field.now) reader.old room.now k → result ≡ next_bit context k }
{
    reader.bit(context)
}

/// The zero context of a sample.
pub(crate) fn zero_context_at(field: &Field<'_>, room: &ReadRoom, w: usize, i: u32) -> u8
    requires w { w < 16 }
    requires i { i < 64 }
    ensures told { (k : Known) → HasRoom (area_of field.now) room.now k → HasSample field.now w i
        → result ≡ known_zero_context (area_of field.now) k (column_at w i) (row_at w i) }
    ensures small { result < 9 }
{
    field.zeros[(room.words[place_of(w, i)] & 0xff) as usize] / 2
}

/// Makes a sample significant, with this sign and the bit of the plane.
fn set_sample(field: &Field<'_>, room: &mut ReadRoom, w: usize, i: u32, negative: bool)
    requires w { w < 16 }
    requires i { i < 64 }
    ensures { (k : Known) → HasRoom (area_of field.now) room.old k → HasSample field.now w i
        → known_significant (area_of field.now) k (column_at w i) (row_at w i) ≡ false
        → HasRoom (area_of field.now) room.new
        (with_sign (area_of field.now) field.now.plane (column_at w i) (row_at w i) negative k) }
{
    mark(&mut room.words, place_of(w, i), 0xf00 * u16::from(negative));
    room.significant[w] |= 1 << i;
    let cell = cell_of(w, i);
    room.magnitudes[cell] = 1 << field.plane;
    room.negative[cell] = negative;
}

/// The sign of a sample that becomes significant (Annex D.3.2).
pub(crate) fn read_sign(
    field: &Field<'_>,
    reader: &mut Reader<'_>,
    room: &mut ReadRoom,
    w: usize,
    i: u32,
)
    requires w { w < 16 }
    requires i { i < 64 }
    ensures { (k : Known) → HasKnown (area_of field.now) reader.old room.old k → HasSample field.now w i
        → known_significant (area_of field.now) k (column_at w i) (row_at w i) ≡ false
        → HasKnown (area_of field.now) reader.new room.new
        (sign_read (area_of field.now) field.now.plane (column_at w i) (row_at w i) k) }
{
    let (context, flips) = sign_context(room.words[place_of(w, i)]);
    let bit = reader.bit(context);
    set_sample(field, room, w, i, flips != bit);
}

/// A sample's bit in its zero context, and its sign where the bit is 1.
pub(crate) fn read_zero_bit(
    field: &Field<'_>,
    reader: &mut Reader<'_>,
    room: &mut ReadRoom,
    w: usize,
    i: u32,
) -> bool
    requires w { w < 16 }
    requires i { i < 64 }
    ensures told { (k : Known) → HasKnown (area_of field.now) reader.old room.old k → HasSample field.now w i
        → known_significant (area_of field.now) k (column_at w i) (row_at w i) ≡ false
        → HasKnown (area_of field.now) reader.new room.new
        (zero_bit_read (area_of field.now) field.now.plane (column_at w i) (row_at w i) k) }
    ensures bit { (k : Known) → HasKnown (area_of field.now) reader.old room.old k → HasSample field.now w i
        → result ≡ next_bit (known_zero_context (area_of field.now) k (column_at w i) (row_at w i)) k }
{
    let context = zero_context_at(field, room, w, i);
    let bit = read_bit(field, reader, room, context);
    if bit {
        read_sign(field, reader, room, w, i);
    }
    bit
}

/// Makes a sample one of those that the propagation pass visited.
pub(crate) fn visit(field: &Field<'_>, room: &mut ReadRoom, w: usize, i: u32)
    requires w { w < 16 }
    requires i { i < 64 }
    ensures { (d : Decoder) (k : Known) → HasKnown (area_of field.now) d room.old k → HasSample field.now w i
        → HasKnown (area_of field.now) d room.new
        (marked_visited (area_of field.now) (column_at w i) (row_at w i) k) }
{
    room.visited[w] |= 1 << i;
}
