ghost use Rattle.std.specs.Prelude.{◌≡◌, ℕ, ◌+◌, ◌-◌, true, false, pos, negsuc, [], ◌∷◌, ◌++◌, map, List, length, take, replicate};
ghost use Rattle.codec_terms.specs.declared.picture.BandKind.TheVariants.{LL, HL, LH};
ghost use Rattle.codec_terms.specs.Mq.{Decision, codeword};
ghost use Rattle.codec_terms.specs.Passes.{Pass, Propagation, Refinement, Cleanup, passes_down_to, pass_count};
ghost use Rattle.codec_terms.specs.BlockDecisions.{Block, Walk, propagated, pass_told, plane_count, decisions};
ghost use Rattle.codec_terms.specs.BlockReading.{Area, Known, propagation_at, block_read};
ghost use Rattle.codec_values.specs.Worked.{decision, one_sample, four_by_four, known_context_bits, bits_in};

/// The arithmetic coder on no decision, on one, and on bits that carry into the first byte.
pub fn coder_values()
    ensures none { codeword [] ≡ 0xFF ∷ 0x7F ∷ [] }
    ensures one { codeword (decision 18 false ∷ []) ≡ 0x7F ∷ [] }
    ensures carry { codeword (bits_in 18 known_context_bits) ≡ 0x01 ∷ 0x01 ∷ 0xFF ∷ 0x7F ∷ [] }
{}

/// Code-blocks of one sample and of four by four.
pub fn block_values()
    ensures one_plane { plane_count (one_sample LL (pos 1)) ≡ 1 }
    ensures one_codeword { codeword (decisions (one_sample LL (pos 1)) 0) ≡ 0x03 ∷ [] }
    ensures no_plane { plane_count (one_sample LL (pos 0)) ≡ 0 }
    ensures no_decision { decisions (one_sample LL (pos 0)) 0 ≡ [] }
    ensures order { passes_down_to 3 2
        ≡ (4, Cleanup) ∷ (3, Propagation) ∷ (3, Refinement) ∷ (3, Cleanup) ∷ [] }
    ensures full_planes { plane_count (one_sample HL (pos 32767)) ≡ 15 }
    ensures full_passes { pass_count (plane_count (one_sample HL (pos 32767)) - 0) ≡ 43 }
    ensures run { codeword (decisions four_by_four 0) ≡ 0x11 ∷ 0xE4 ∷ 0xB1 ∷ [] }
    ensures run_read { block_read (record { kind = LL; width = 4; height = 4 }) 1 1 (0x11 ∷ 0xE4 ∷ 0xB1 ∷ [])
        ≡ four_by_four.values }
    ensures kept_planes { codeword (decisions (one_sample LH (pos 26)) 1) ≡ 0x01 ∷ 0x7F ∷ [] }
    ensures kept_read { block_read (record { kind = LH; width = 1; height = 1 }) 5 10 (0x01 ∷ 0x7F ∷ []) ≡ pos 26 ∷ [] }
{}

/// The passes of n bit-planes are `pass_count n`, and those of the highest bit-planes are the first of those of all.
/// What a pass does rests on the sets alone: its decisions come behind those that were there.
pub fn pass_laws()
    ensures count { (p n : ℕ) → length (passes_down_to p n) ≡ pass_count n }
    ensures first { (p n : ℕ) → take (pass_count n) (passes_down_to 0 (p + n)) ≡ passes_down_to p n }
    ensures behind { (b : Block) (p : ℕ) (pass : Pass) (ds : List Decision) (w : Walk)
        → pass_told b p pass (record w { decisions = ds ++ w.decisions })
        ≡ record (pass_told b p pass w) { decisions = ds ++ (pass_told b p pass w).decisions } }
{}

/// What a propagation pass does at one sample keeps the number of samples, in both directions.
pub fn sample_laws()
    ensures told { (b : Block) (p x y : ℕ) (w : Walk) → length (propagated b p x w y).significant ≡ length w.significant }
    ensures read { (a : Area) (p x y : ℕ) (k : Known)
        → length (propagation_at a p x k y).significant ≡ length k.significant }
{}
