use mast_base::{Bytes, List, NoMemory};
use mq_coder::{Ending, flushed};
use std::alloc::Global;

/// The code of a block.
#[derive(Debug, Drop)]
pub struct Coded {
    /// The number of bit-planes from the highest that isn't zero down.
    pub planes: u8,
    /// One for each plane that may be kept as the last, from the highest.
    pub endings: List<Ending>,
    /// The bytes that came out, on which all the endings stand.
    pub bytes: Bytes,
}

impl Coded {
    ghost use Rattle.std.specs.Prelude.{◌≡◌, ◌-◌, ◌<◌, suc, IfOk, length};
    ghost use Rattle.codec_terms.specs.BlockDecisions.{Block, decisions};
    ghost use Rattle.codec_terms.specs.Mq.{codeword};
    ghost use Rattle.block_coder.specs.Codes.{IsCodeOf};

    /// The length of the codeword that ends behind the plane.
    pub fn length(&self, ending: usize) -> u32
        requires of { (b : Block) × IsCodeOf b self.now }
        requires within { ending < self.now.planes }
        ensures { (b : Block) → IsCodeOf b self.now
            → result ≡ length (codeword (decisions b (self.now.planes - suc ending))) }
    {
        self.endings.as_slice()[ending].length
    }

    /// The codeword of the decisions down to the plane.
    pub fn codeword(&self, alloc: Global, ending: usize) -> Result<Bytes, NoMemory>
        requires of { (b : Block) × IsCodeOf b self.now }
        requires within { ending < self.now.planes }
        ensures { (b : Block) → IsCodeOf b self.now
            → IfOk result (λ bytes. bytes ≡ codeword (decisions b (self.now.planes - suc ending))) }
    {
        flushed(
            alloc,
            self.bytes.as_slice(),
            &self.endings.as_slice()[ending],
        )
    }
}
