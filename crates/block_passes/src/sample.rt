ghost use Rattle.std.specs.Prelude.{◌≡◌, ◌==◌, ◌+◌, ◌<◌, ◌≤◌, ◌*◌, ℕ, Bool, true};
ghost use Rattle.std.specs.Int.{from_bool};
ghost use Rattle.codec_terms.specs.BlockDecisions.{Block, Walk, plane_bit, with_decision, zero_context_of, visited_at, sign_told, bit_told};
ghost use Rattle.block_sets.specs.Places.{column_at, row_at};
ghost use Rattle.block_passes.specs.Scan.{has_sample};
ghost use Rattle.block_passes.specs.Told.{IsPlane, HasTold};

use crate::plane::Plane;
use crate::state::{PassState, place_of};
use block_contexts::sign_context;
use block_words::mark;

/// Twice the zero context of a sample.
pub(crate) fn zero_code(plane: &Plane<'_>, state: &PassState, w: usize, i: u32) -> u8
    requires w { w < 16 }
    requires i { i < 64 }
    ensures told { (b : Block) (p : ℕ) (v : Walk) → IsPlane b p plane.now → HasTold b state.now v → has_sample b w i ≡ true
        → result ≡ 2 * zero_context_of b v (column_at w i) (row_at w i) }
    ensures small { result < 18 }
{
    plane.zeros[(state.words[place_of(w, i)] & 0xff) as usize]
}

/// Puts a decision behind the others: twice its context and the bit.
pub(crate) fn code(state: &mut PassState, code: u8)
    requires room { state.old.count < 7680 }
    ensures told { (b : Block) (v : Walk) (context : ℕ) (bit : Bool) → HasTold b state.old v → context < 19
        → code ≡ 2 * context + from_bool bit → HasTold b state.new (with_decision context bit v) }
    ensures significant { state.new.significant ≡ state.old.significant }
    ensures count { state.new.count ≡ state.old.count + 1 }
{
    state.push(code);
}

/// The sign of a sample that becomes significant (Annex D.3.2).
pub(crate) fn code_sign(plane: &Plane<'_>, state: &mut PassState, w: usize, i: u32)
    requires w { w < 16 }
    requires i { i < 64 }
    requires room { state.old.count < 7680 }
    ensures told { (b : Block) (p : ℕ) (v : Walk) → IsPlane b p plane.now → HasTold b state.old v → has_sample b w i ≡ true
        → HasTold b state.new (sign_told b (column_at w i) (row_at w i) v) }
    ensures count { state.new.count ≡ state.old.count + 1 }
{
    let place = place_of(w, i);
    let (context, flips) = sign_context(state.words[place]);
    let negative = plane.is_negative(w, i);
    state.push(2 * context + u8::from(flips != negative));
    mark(&mut state.words, place, 0xf00 * u16::from(negative));
    state.significant[w] |= 1 << i;
}

/// A sample's bit in its zero context, and its sign where the bit is 1.
pub(crate) fn code_bit(plane: &Plane<'_>, state: &mut PassState, w: usize, i: u32) -> bool
    requires w { w < 16 }
    requires i { i < 64 }
    requires room { state.old.count + 2 ≤ 7680 }
    ensures told { (b : Block) (p : ℕ) (v : Walk) → IsPlane b p plane.now → HasTold b state.old v → has_sample b w i ≡ true
        → HasTold b state.new (bit_told b p (column_at w i) (row_at w i) v) }
    ensures bit { (b : Block) (p : ℕ) → IsPlane b p plane.now → has_sample b w i ≡ true
        → result ≡ plane_bit b p (column_at w i) (row_at w i) }
    ensures count { state.new.count ≤ state.old.count + 2 }
{
    let zero = zero_code(plane, state, w, i);
    if plane.bit(w, i) {
        code(state, zero + 1);
        code_sign(plane, state, w, i);
        true
    } else {
        code(state, zero);
        false
    }
}

/// Makes a sample one of those that the propagation pass visited.
pub(crate) fn visit(state: &mut PassState, w: usize, i: u32)
    requires w { w < 16 }
    requires i { i < 64 }
    ensures told { (b : Block) (v : Walk) → HasTold b state.old v → has_sample b w i ≡ true
        → HasTold b state.new (visited_at b (column_at w i) (row_at w i) v) }
    ensures count { state.new.count ≡ state.old.count }
{
    state.visited[w] |= 1 << i;
}
