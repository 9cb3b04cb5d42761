//! What a decoder reads of a code-block's codeword is what was kept of the block (ITU-T T.800, Annexes C and D). The laws
//! name no code.
#![tactic(auto)]

ghost use Rattle.std.specs.Prelude.{◌≡◌, ◌*◌, ◌-◌, ◌^◌, ◌<◌, ℕ, All, length, map, unsigned_abs};
ghost use Rattle.codec_terms.specs.BlockDecisions.{Block, decisions, plane_count};
ghost use Rattle.codec_terms.specs.BlockReading.{block_read};
ghost use Rattle.codec_terms.specs.Mq.{codeword};
ghost use Rattle.codec_terms.specs.Passes.{pass_count};
ghost use Rattle.codec_terms.specs.Quantiser.{kept};

use codec_laws::significance_laws;
use mq_laws::coder_laws;

/// Of the codeword of a block's decisions down to a bit-plane, all passes give the block's values without their bits below
/// that plane. Where the plane isn't below the block's highest, there are no passes and the values are 0.
pub fn block_read_laws()
    ensures kept { (block : Block) (p : ℕ) → length block.values ≡ block.width * block.height
        → All (λ v. unsigned_abs v < 2 ^ 64) block.values
        → block_read (record { kind = block.kind; width = block.width; height = block.height }) (plane_count block)
        (pass_count (plane_count block - p)) (codeword (decisions block p))
        ≡ map (kept p) block.values }
{
    coder_laws();
    significance_laws();
}
