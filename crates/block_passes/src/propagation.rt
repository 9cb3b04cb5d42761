ghost use Rattle.std.specs.Prelude.{◌≡◌, ◌+◌, ◌<◌, ◌≤◌, ℕ, true};
ghost use Rattle.std.specs.Int.{bit_at, from_bool, w64, trailing_zeros};
ghost use Rattle.codec_terms.specs.BlockDecisions.{Block, Walk, plane_bit, visited_at, bit_told, propagated};
ghost use Rattle.block_sets.specs.Places.{column_at, row_at};
ghost use Rattle.block_passes.specs.Scan.{has_sample, bits_told, is_later};
ghost use Rattle.block_passes.specs.Told.{IsPlane, HasTold};
ghost use Rattle.block_passes.specs.Candidates.{HasPropagated};

use crate::plane::Plane;
use crate::sample::{code_bit, visit};
use crate::state::PassState;
use block_sets::near;

/// The neighbours of a column's first bit that come after it, of its second, third and fourth, counted from there on.
static LATER: [u64; 4] = [0x32, 0x3a, 0x3a, 0x18];

// The neighbours of a bit that come after it in its word.
fn later(i: u32) -> u64
    requires { i < 64 }
    ensures { (j : ℕ) → j < 64 → bit_at result j ≡ from_bool (is_later i j) }
{
    LATER[(i & 3) as usize] << i
}

fn propagate(plane: &Plane<'_>, state: &mut PassState, w: usize, i: u32) -> bool
    requires w { w < 16 }
    requires i { i < 64 }
    requires room { state.old.count + 2 ≤ 7680 }
    ensures told { (b : Block) (p : ℕ) (v : Walk) → IsPlane b p plane.now → HasTold b state.old v → has_sample b w i ≡ true
        → HasTold b state.new
        (visited_at b (column_at w i) (row_at w i) (bit_told b p (column_at w i) (row_at w i) v)) }
    ensures bit { (b : Block) (p : ℕ) → IsPlane b p plane.now → has_sample b w i ≡ true
        → result ≡ plane_bit b p (column_at w i) (row_at w i) }
    ensures count { state.new.count ≤ state.old.count + 2 }
{
    let bit = code_bit(plane, state, w, i);
    visit(state, w, i);
    bit
}

// Codes the lowest candidate, and gives those that are left.
fn propagate_lowest(
    plane: &Plane<'_>,
    state: &mut PassState,
    w: usize,
    candidates: u64,
    free: u64,
) -> u64
    requires w { w < 16 }
    requires some { 0 < candidates }
    requires room { state.old.count + 2 ≤ 7680 }
    ensures told { (b : Block) (p : ℕ) (v : Walk) → IsPlane b p plane.now → HasPropagated b p w v state.old candidates free
        → HasPropagated b p w v state.new result free }
    ensures behind { trailing_zeros w64 candidates < trailing_zeros w64 result }
    ensures count { state.new.count ≤ state.old.count + 2 }
{
    let i = candidates.trailing_zeros();
    let others = candidates & !(1 << i);
    if propagate(plane, state, w, i) {
        others | later(i) & free
    } else {
        others
    }
}

/// The significance propagation pass over a word's samples (Annex D.3.1).
pub(crate) fn propagate_word(plane: &Plane<'_>, state: &mut PassState, w: usize)
    requires w { w < 16 }
    requires room { state.old.count + 160 ≤ 7680 }
    ensures told { (b : Block) (p : ℕ) (v : Walk) → IsPlane b p plane.now → HasTold b state.old v
        → HasTold b state.new (bits_told (propagated b p) b w 64 v) }
    ensures count { state.new.count ≤ state.old.count + 160 }
{
    let free = plane.samples[w] & !state.significant[w];
    let mut candidates = near(&state.significant, w) & free;
    while candidates != 0 {
        candidates = propagate_lowest(plane, state, w, candidates, free);
    }
}
