ghost use Rattle.std.specs.Prelude.{◌≡◌, ◌==◌, ◌+◌, ◌<◌, ◌≤◌, ℕ, true, not};
ghost use Rattle.std.specs.Int.{bit_at, from_bool, w64, trailing_zeros};
ghost use Rattle.codec_terms.specs.Contexts.{refine_context, refine_context_at};
ghost use Rattle.codec_terms.specs.BlockDecisions.{Block, Walk, is_first, plane_bit, with_decision, refined};
ghost use Rattle.block_sets.specs.Places.{column_at, row_at};
ghost use Rattle.block_sets.specs.Sets.{has_neighbour};
ghost use Rattle.block_passes.specs.Scan.{has_sample, bits_told};
ghost use Rattle.block_passes.specs.Told.{IsPlane, HasTold};
ghost use Rattle.block_passes.specs.Left.{HasRefined};

use crate::plane::Plane;
use crate::sample::code;
use crate::state::PassState;
use block_sets::near;

// The context of a bit by whether it is the sample's first one and whether a neighbour is significant (table D.4).
fn context_of(first: bool, beside: bool) -> u8
    ensures context { (n : ℕ) → beside ≡ not (n == 0) → result ≡ refine_context first n }
    ensures small { result < 19 }
{
    16 - 2 * u8::from(first) + u8::from(first & beside)
}

fn refine(plane: &Plane<'_>, state: &mut PassState, w: usize, i: u32, beside: u64)
    requires w { w < 16 }
    requires i { i < 64 }
    requires room { state.old.count < 7680 }
    ensures told { (b : Block) (p : ℕ) (v : Walk) → IsPlane b p plane.now → HasTold b state.old v → has_sample b w i ≡ true
        → bit_at beside i ≡ from_bool (has_neighbour state.old.significant (column_at w i) (row_at w i))
        → HasTold b state.new (with_decision
        (refine_context_at b.width v.significant (is_first b p (column_at w i) (row_at w i)) (column_at w i) (row_at w i))
        (plane_bit b p (column_at w i) (row_at w i)) v) }
    ensures significant { state.new.significant ≡ state.old.significant }
    ensures count { state.new.count ≡ state.old.count + 1 }
{
    let context = context_of(plane.is_first(w, i), beside >> i & 1 == 1);
    code(state, 2 * context + u8::from(plane.bit(w, i)));
}

// Codes the lowest of the samples that are left, and gives the others; `beside` has those with a significant neighbour.
fn refine_lowest(plane: &Plane<'_>, state: &mut PassState, w: usize, left: u64, beside: u64) -> u64
    requires w { w < 16 }
    requires some { 0 < left }
    requires room { state.old.count < 7680 }
    requires beside { (j : ℕ) → j < 64
        → bit_at beside j ≡ from_bool (has_neighbour state.old.significant (column_at w j) (row_at w j)) }
    ensures told { (b : Block) (p : ℕ) (v : Walk) → IsPlane b p plane.now → HasRefined b p w v state.old left
        → HasRefined b p w v state.new result }
    ensures significant { state.new.significant ≡ state.old.significant }
    ensures behind { trailing_zeros w64 left < trailing_zeros w64 result }
    ensures count { state.new.count ≡ state.old.count + 1 }
{
    let i = left.trailing_zeros();
    refine(plane, state, w, i, beside);
    left & (left - 1)
}

/// The magnitude refinement pass over a word's samples (Annex D.3.3).
pub(crate) fn refine_word(plane: &Plane<'_>, state: &mut PassState, w: usize)
    requires w { w < 16 }
    requires room { state.old.count + 160 ≤ 7680 }
    ensures told { (b : Block) (p : ℕ) (v : Walk) → IsPlane b p plane.now → HasTold b state.old v
        → HasTold b state.new (bits_told (refined b p) b w 64 v) }
    ensures count { state.new.count ≤ state.old.count + 160 }
{
    let beside = near(&state.significant, w);
    let mut left = state.significant[w] & !state.visited[w];
    while left != 0 {
        left = refine_lowest(plane, state, w, left, beside);
    }
}
