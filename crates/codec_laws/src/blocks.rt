ghost use Rattle.std.specs.Prelude.{◌≡◌, ◌<◌, ◌≤◌, ◌*◌, ◌-◌, ◌^◌, suc, ℕ, ℤ, Bool, List, All, length, map, nat_le, unsigned_abs};
ghost use Rattle.codec_terms.specs.declared.picture.Shape.{Shape};
ghost use Rattle.codec_terms.specs.declared.picture.Band.{Band};
ghost use Rattle.codec_terms.specs.declared.picture.BandKind.{BandKind};
ghost use Rattle.codec_terms.specs.Bands.{plane_limit};
ghost use Rattle.codec_terms.specs.Contexts.{zero_context, sign_context, refine_context};
ghost use Rattle.codec_terms.specs.BlockDecisions.{Block, plane_start, propagation, refinement, cleanup, plane_count, decisions};
ghost use Rattle.codec_terms.specs.Codestream.{block_of};
ghost use Rattle.codec_laws.specs.Bounds.{FitsBand};
ghost use Rattle.codec_laws.specs.Contexts.{IsContext, InSign, InRefinement};
ghost use Rattle.codec_laws.specs.PlaneDecisions.{block_decisions};

/// Zero coding, signs and refinement have contexts of their own, and all that a code-block's decisions have are
/// among the nineteen of the arithmetic coder.
pub fn context_laws()
    ensures zero { (kind : BandKind) (h v d : ℕ) → zero_context kind h v d < 9 }
    ensures sign { (h v : ℤ) → InSign (sign_context h v).context }
    ensures refinement { (first : Bool) (n : ℕ) → InRefinement (refine_context first n) }
    ensures decisions { (block : Block) (p : ℕ) → All IsContext (decisions block p) }
{}

/// A code-block has at most its sub-band's bit-planes, where the sub-band's values fit them.
pub fn plane_laws()
    ensures { (shape : Shape) (band : Band) (values : List ℤ) (bx by : ℕ) → All (FitsBand band) values
        → plane_count (block_of shape band values bx by) ≤ plane_limit band }
{}

/// Behind a bit-plane's cleanup the significant samples are those with a bit in that plane or above it, whether it is
/// the plane that begins with the cleanup or one of the others.
pub fn significance_laws()
    ensures first { (block : Block) (p : ℕ) → length block.values ≡ block.width * block.height
        → (cleanup block p (plane_start block p)).significant ≡ map (λ v. nat_le (2 ^ p) (unsigned_abs v)) block.values }
    ensures further { (block : Block) (p : ℕ) → length block.values ≡ block.width * block.height
        → (cleanup block p (refinement block p (propagation block p (plane_start block p)))).significant
        ≡ map (λ v. nat_le (2 ^ p) (unsigned_abs v)) block.values }
{}

/// On a block's highest bit-plane propagation and refinement change nothing.
pub fn highest_plane_laws()
    ensures propagation { (block : Block) (p : ℕ) → All (λ v. unsigned_abs v < 2 ^ 64) block.values
        → plane_count block ≤ suc p → propagation block p (plane_start block p) ≡ plane_start block p }
    ensures refinement { (block : Block) (p : ℕ) → All (λ v. unsigned_abs v < 2 ^ 64) block.values
        → plane_count block ≤ suc p → refinement block p (plane_start block p) ≡ plane_start block p }
    ensures decisions { (block : Block) (p : ℕ) → All (λ v. unsigned_abs v < 2 ^ 64) block.values
        → plane_count block ≤ suc p
        → (cleanup block p (refinement block p (propagation block p (plane_start block p)))).decisions
        ≡ (cleanup block p (plane_start block p)).decisions }
{}

/// A code-block's decisions are those of its bit-planes in turn, each from the samples on that have a bit above it.
pub fn plane_decision_laws()
    ensures { (block : Block) (p : ℕ) → length block.values ≡ block.width * block.height
        → All (λ v. unsigned_abs v < 2 ^ 64) block.values
        → decisions block p ≡ block_decisions block p (plane_count block - p) }
{}
