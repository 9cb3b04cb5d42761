ghost use Rattle.std.specs.Prelude.{◌≡◌, ◌<◌, ◌≤◌, ℕ};
ghost use Rattle.codec_terms.specs.BlockReading.{Known, propagation_read, refinement_read, cleanup_read, next_read};
ghost use Rattle.block_reading.specs.Known.{area_of, HasKnown};
ghost use Rattle.block_reading.specs.Bounds.{IsSpared};
ghost use Rattle.block_reading.specs.Order.{kind_of_pass, IsReady};

use crate::cleanup::clean_word;
use crate::field::Field;
use crate::propagation::propagate_word;
use crate::refinement::refine_word;
use crate::room::ReadRoom;
use mq_coder::Reader;

/// The significance propagation pass.
fn propagate_all(field: &Field<'_>, reader: &mut Reader<'_>, room: &mut ReadRoom)
    ensures { (k : Known) → HasKnown (area_of field.now) reader.old room.old k
        → HasKnown (area_of field.now) reader.new room.new (propagation_read (area_of field.now) field.now.plane k) }
{
    for w in 0..16usize {
        propagate_word(field, reader, room, w);
    }
}

/// The magnitude refinement pass.
fn refine_all(field: &Field<'_>, reader: &mut Reader<'_>, room: &mut ReadRoom)
    ensures { (k : Known) (planes : ℕ) → IsSpared (area_of field.now) planes field.now.plane k
        → HasKnown (area_of field.now) reader.old room.old k
        → HasKnown (area_of field.now) reader.new room.new (refinement_read (area_of field.now) field.now.plane k) }
{
    for w in 0..16usize {
        refine_word(field, reader, room, w);
    }
}

/// The cleanup pass, which ends its bit-plane.
fn clean_all(field: &Field<'_>, reader: &mut Reader<'_>, room: &mut ReadRoom)
    ensures { (k : Known) → HasKnown (area_of field.now) reader.old room.old k
        → HasKnown (area_of field.now) reader.new room.new (cleanup_read (area_of field.now) field.now.plane k) }
{
    for w in 0..16usize {
        clean_word(field, reader, room, w);
    }
    room.visited = [0; 16];
}

/// A coding pass: the first of three in a bit-plane, the second or the third.
pub(crate) fn read_pass(field: &Field<'_>, reader: &mut Reader<'_>, room: &mut ReadRoom, third: u32)
    ensures { (k : Known) (planes : ℕ) → third < 3
        → HasKnown (area_of field.now) reader.old room.old k → IsReady (area_of field.now) planes field.now.plane third k
        → HasKnown (area_of field.now) reader.new room.new
        (next_read (area_of field.now) k (field.now.plane, kind_of_pass third)) }
{
    match third {
        0 => propagate_all(field, reader, room),
        1 => refine_all(field, reader, room),
        _ => clean_all(field, reader, room),
    }
}
