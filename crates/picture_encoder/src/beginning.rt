ghost use Rattle.std.specs.Prelude.{◌≡◌, ◌*◌, length};
ghost use Rattle.codec_terms.specs.Encode.{coefficients};
ghost use Rattle.codec_laws.specs.Bounds.{IsPictureSize};
ghost use Rattle.least_cut.specs.Begun.{IsBegun};

use codec_laws::coefficient_laws;
use picture_bands::PictureBands;
use picture_blocks::Blocks;
use picture_sets::PictureSets;

/// Makes the sub-bands of a picture and their sets, and begins its code-blocks.
pub(crate) fn begin(
    bands: &mut PictureBands,
    sets: &mut PictureSets,
    blocks: &mut Blocks,
    raw: &[u8],
)
    requires size { IsPictureSize bands.old.shape }
    requires whole { length raw.now ≡ bands.old.shape.width * bands.old.shape.height * 6 }
    requires sets_shape { sets.old.shape ≡ bands.old.shape }
    requires blocks_shape { blocks.old.shape ≡ bands.old.shape }
    ensures shape { bands.new.shape ≡ bands.old.shape }
    ensures power { bands.new.power ≡ bands.old.power }
    ensures sets_shape { sets.new.shape ≡ bands.old.shape }
    ensures blocks_shape { blocks.new.shape ≡ bands.old.shape }
    ensures begun { IsBegun (coefficients bands.old.shape bands.old.power raw.now) sets.new blocks.new }
{
    coefficient_laws();
    bands.transform(raw);
    sets.fill(bands.words());
    blocks.start(sets);
}
