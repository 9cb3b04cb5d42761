ghost use Rattle.std.specs.Prelude.{◌≡◌, ◌<◌, ◌+◌, ◌*◌, ℕ, List, drop, length};
ghost use Rattle.codec_terms.specs.BlockDecisions.{Block, plane_bit, is_first};
ghost use Rattle.codec_terms.specs.Contexts.{contains};
ghost use Rattle.codec_terms.specs.declared.picture.Shape.{Shape};
ghost use Rattle.codec_terms.specs.declared.picture.Band.{Band};
ghost use Rattle.codec_terms.specs.Bands.{band_columns, band_rows, band_length};
ghost use Rattle.codec_terms.specs.Precincts.{block_width, block_height};
ghost use Rattle.codec_terms.specs.Codestream.{block_of};
ghost use Rattle.quantiser.specs.Signed.{signed_values};
ghost use Rattle.block_sets.specs.Squares.{AreRowsOf};
ghost use Rattle.block_sets.specs.Planes.{plane_samples, first_samples};

/// What the sets of a bit-plane say of a sample.
pub fn plane_laws()
    ensures bit { (b : Block) (p x y : ℕ) → length b.values ≡ b.width * b.height → x < b.width → y < b.height
        → contains b.width (plane_samples b p) x y ≡ plane_bit b p x y }
    ensures first { (b : Block) (p x y : ℕ) → length b.values ≡ b.width * b.height → x < b.width → y < b.height
        → contains b.width (first_samples b p) x y ≡ is_first b p x y }
{}

/// A code-block's rows stand in those of its sub-band, a row of the sub-band apart.
pub fn band_block_laws()
    ensures rows { (shape : Shape) (band : Band) (words : List ℕ) (bx by : ℕ) → length words ≡ band_length shape band
        → 32 * bx < band_columns shape band → 32 * by < band_rows shape band
        → AreRowsOf (block_of shape band (signed_values words) bx by) (band_columns shape band)
        (drop (32 * by * band_columns shape band + 32 * bx) words) }
    ensures whole { (shape : Shape) (band : Band) (words : List ℕ) (bx by : ℕ) → length words ≡ band_length shape band
        → 32 * bx < band_columns shape band → 32 * by < band_rows shape band
        → length (block_of shape band (signed_values words) bx by).values
        ≡ block_width shape band bx * block_height shape band by }
{}
