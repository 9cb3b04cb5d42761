ghost use Rattle.std.specs.Prelude.{◌≤◌, ℕ, ℤ, List};
ghost use Rattle.picture_blocks.specs.Blocks.{PictureBlocks};
ghost use Rattle.block_packets.specs.Coded.{AreCodedBlocks};

/// Code-blocks that are coded as far down as a cut keeps them are so for each higher cut.
pub fn higher_cut_laws()
    ensures { (q : List ℤ) (cut higher : ℕ) (blocks : PictureBlocks) → AreCodedBlocks q cut blocks → cut ≤ higher
        → AreCodedBlocks q higher blocks }
{}
