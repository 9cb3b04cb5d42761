ghost use Rattle.std.specs.Prelude.{◌≡◌, ◌<◌, ◌+◌, ◌%◌, ℕ, suc, ℤ, List, OnOk};
ghost use Rattle.codec_terms.specs.Bands.{lowest_plane};
ghost use Rattle.cut_laws.specs.Ranks.{band_changed};
ghost use Rattle.picture_sets.specs.Sets.{AreSetsOfPicture};
ghost use Rattle.picture_blocks.specs.Blocks.{PictureBlocks, AreCodedAt, IsBandCoded, IsFurther};
ghost use Rattle.block_packets.specs.Coded.{AreCodedBlocks};

use crate::bands::band_at_rank;
use cut_laws::{next_cut_laws, rank_laws};
use cut_planes::lowest_plane;
use mast_base::NoMemory;
use picture_blocks::{Blocks, CodingRoom};
use picture_sets::PictureSets;

/// Code-blocks that are coded down to a cut are so down to the cut below it as soon as those of the one sub-band that
/// changes are coded further.
pub fn coded_cut_laws()
    ensures { (q : List ℤ) (cut : ℕ) (before after : PictureBlocks) → after.shape ≡ before.shape
        → AreCodedAt q (suc cut) before → IsFurther before after
        → IsBandCoded q (band_changed cut) (lowest_plane cut (band_changed cut)) after → AreCodedAt q cut after }
{
    rank_laws();
    next_cut_laws();
}

/// Codes what a cut keeps and the cut above it doesn't: one bit-plane of the code-blocks of one sub-band.
pub(crate) fn code_plane_of(
    blocks: &mut Blocks,
    sets: &PictureSets,
    cut: u32,
    room: &mut CodingRoom,
) -> Result<(), NoMemory>
    requires cut { cut < 720 }
    requires shape { sets.now.shape ≡ blocks.old.shape }
    requires of { (q : List ℤ) × (AreSetsOfPicture q sets.now × AreCodedBlocks q (cut + 1) blocks.old) }
    ensures shape { blocks.new.shape ≡ blocks.old.shape }
    ensures coded { OnOk result ((q : List ℤ) → AreSetsOfPicture q sets.now → AreCodedBlocks q (cut + 1) blocks.old
        → AreCodedBlocks q cut blocks.new) }
{
    coded_cut_laws();
    let band = band_at_rank(cut % 48);
    blocks.code_band(sets, band, lowest_plane(cut, band), room)?;
    Ok(())
}
