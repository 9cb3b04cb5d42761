ghost use Rattle.std.specs.Prelude.{◌≡◌, ◌==◌, ◌+◌, ◌*◌, ◌/◌, ◌-◌, ◌%◌, ◌<◌, ◌≤◌, ◌&&◌, ℕ, true, position, IfSome};
ghost use Rattle.std.specs.List.{range_with_len};
ghost use Rattle.std.specs.Int.{bit_at, from_bool, w64, trailing_zeros};
ghost use Rattle.codec_terms.specs.BlockDecisions.{Block, Walk, plane_bit, column_cleaned};
ghost use Rattle.block_sets.specs.Places.{column_at, row_at};
ghost use Rattle.block_sets.specs.Sets.{has_neighbour};
ghost use Rattle.block_passes.specs.Scan.{has_sample, columns_told};
ghost use Rattle.block_passes.specs.Told.{IsPlane, HasTold};
ghost use Rattle.block_passes.specs.Left.{is_left_at, is_run_at, HasFour, HasCleaned};

use crate::plane::Plane;
use crate::remaining::{Rest, behind, beside_one, with_left};
use crate::sample::{code, code_bit, code_sign};
use crate::state::PassState;
use block_sets::near;

// The samples of a word that are neither significant nor visited.
fn left_in(plane: &Plane<'_>, state: &PassState, w: usize) -> u64
    requires { w < 16 }
    ensures { (b : Block) (p : ℕ) (v : Walk) → IsPlane b p plane.now → HasTold b state.now v
        → (j : ℕ) → j < 64 → bit_at result j ≡ from_bool (is_left_at b w v j) }
{
    plane.samples[w] & !state.significant[w] & !state.visited[w]
}

// What is left of a word before its cleanup pass.
fn rest_of(plane: &Plane<'_>, state: &PassState, w: usize) -> Rest
    requires { w < 16 }
    ensures left { (b : Block) (p : ℕ) (v : Walk) → IsPlane b p plane.now → HasTold b state.now v
        → (j : ℕ) → j < 64 → bit_at result.left j ≡ from_bool (is_left_at b w v j) }
    ensures runs { (b : Block) (p : ℕ) (v : Walk) → IsPlane b p plane.now → HasTold b state.now v
        → (j : ℕ) → j < 64 → bit_at result.runs j ≡ from_bool ((j % 4 == 0) && is_run_at b w v (j / 4)) }
{
    let left = left_in(plane, state, w);
    let quiet = left & !near(&state.significant, w);
    let pairs = quiet & quiet >> 1;
    Rest {
        left,
        runs: pairs & pairs >> 2 & 0x1111_1111_1111_1111,
    }
}

// Which of four samples is the first whose bit is 1.
fn first_one(plane: &Plane<'_>, w: usize, i: u32) -> Option<u32>
    requires w { w < 16 }
    requires i { i + 4 ≤ 64 }
    requires column { i % 4 ≡ 0 }
    ensures first { (b : Block) (p : ℕ) → IsPlane b p plane.now → HasFour b w i
        → result ≡ position (plane_bit b p (column_at w i)) (range_with_len (row_at w i) 4) }
    ensures within { IfSome result (λ first. first < 4) }
{
    let four = plane.bits[w] >> i & 15;
    if four == 0 {
        None
    } else {
        Some(four.trailing_zeros())
    }
}

// Codes the run that begins with the lowest of the rest, at bit `i`, up to its first 1, and gives the others.
fn clean_run(plane: &Plane<'_>, state: &mut PassState, w: usize, rest: Rest, i: u32) -> Rest
    requires w { w < 16 }
    requires some { 0 < rest.left }
    requires i { i ≡ trailing_zeros w64 rest.left }
    requires column { i % 4 ≡ 0 }
    requires run { bit_at rest.runs i ≡ 1 }
    requires room { state.old.count + 4 ≤ 7680 }
    ensures told { (b : Block) (p : ℕ) (v : Walk) → IsPlane b p plane.now → HasCleaned b p w v state.old rest
        → HasCleaned b p w v state.new result }
    ensures behind { trailing_zeros w64 rest.left < trailing_zeros w64 result.left }
    ensures count { state.new.count ≤ state.old.count + 4 }
{
    match first_one(plane, w, i) {
        None => {
            code(state, 34);
            with_left(rest, behind(rest.left, i + 3))
        }
        Some(first) => {
            code(state, 35);
            code(state, 36 + (first / 2) as u8);
            code(state, 36 + (first % 2) as u8);
            code_sign(plane, state, w, i + first);
            beside_one(rest, behind(rest.left, i + first), i + first)
        }
    }
}

// Codes the lowest of the rest, at bit `i`, which isn't part of a run, and gives the others.
fn clean_sample(plane: &Plane<'_>, state: &mut PassState, w: usize, rest: Rest, i: u32) -> Rest
    requires w { w < 16 }
    requires some { 0 < rest.left }
    requires i { i ≡ trailing_zeros w64 rest.left }
    requires no_run { bit_at rest.runs i ≡ 0 }
    requires room { state.old.count + 2 ≤ 7680 }
    ensures told { (b : Block) (p : ℕ) (v : Walk) → IsPlane b p plane.now → HasCleaned b p w v state.old rest
        → HasCleaned b p w v state.new result }
    ensures behind { trailing_zeros w64 rest.left < trailing_zeros w64 result.left }
    ensures count { state.new.count ≤ state.old.count + 2 }
{
    let left = rest.left & (rest.left - 1);
    if code_bit(plane, state, w, i) {
        beside_one(rest, left, i)
    } else {
        with_left(rest, left)
    }
}

// Codes the lowest of the rest, or the run that begins with it up to its first 1, and gives the others. Up to bit `n`
// there are at most 2 n decisions, and 2 more for each column that is begun.
fn clean_lowest(plane: &Plane<'_>, state: &mut PassState, w: usize, rest: Rest) -> Rest
    requires w { w < 16 }
    requires some { 0 < rest.left }
    requires room { state.old.count + 160 ≤ 7680 + 2 * trailing_zeros w64 rest.left + 2 * ((trailing_zeros w64 rest.left + 3) / 4) }
    ensures told { (b : Block) (p : ℕ) (v : Walk) → IsPlane b p plane.now → HasCleaned b p w v state.old rest
        → HasCleaned b p w v state.new result }
    ensures behind { trailing_zeros w64 rest.left < trailing_zeros w64 result.left }
    ensures count { state.new.count + 2 * trailing_zeros w64 rest.left + 2 * ((trailing_zeros w64 rest.left + 3) / 4)
        ≤ state.old.count + 2 * trailing_zeros w64 result.left + 2 * ((trailing_zeros w64 result.left + 3) / 4) }
{
    let i = rest.left.trailing_zeros();
    if rest.runs >> i & 1 == 1 {
        clean_run(plane, state, w, rest, i)
    } else {
        clean_sample(plane, state, w, rest, i)
    }
}

/// The cleanup pass over a word's samples (Annex D.3.4).
pub(crate) fn clean_word(plane: &Plane<'_>, state: &mut PassState, w: usize)
    requires w { w < 16 }
    requires room { state.old.count + 160 ≤ 7680 }
    ensures told { (b : Block) (p : ℕ) (v : Walk) → IsPlane b p plane.now → HasTold b state.old v
        → HasTold b state.new (columns_told (column_cleaned b p) b w 16 v) }
    ensures count { state.new.count ≤ state.old.count + 160 }
{
    let mut rest = rest_of(plane, state, w);
    while rest.left != 0 {
        rest = clean_lowest(plane, state, w, rest);
    }
}
