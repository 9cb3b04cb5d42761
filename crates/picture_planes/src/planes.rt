ghost use Rattle.std.specs.Prelude.{◌≡◌, ◌*◌, ◌^◌, [], ◌∷◌, All, length};
ghost use Rattle.codec_terms.specs.Encode.{picture_planes};
ghost use Rattle.wave_laws.specs.Ranges.{IsWithin};

use crate::rows::PixelRows;
use xyz_convert::Tables;

/// The planes of a picture's components, from its raw bytes: rows from the top, six bytes for each pixel, red, green and
/// blue, the higher byte first. A plane has its rows one behind another.
pub fn fill_planes(
    tables: &Tables,
    raw: &[u8],
    height: usize,
    rows: &mut PixelRows,
    luma: &mut [i32],
    chroma_blue: &mut [i32],
    chroma_red: &mut [i32],
)
    requires whole { length raw.now ≡ 6 * (rows.old * height) }
    requires luma { length luma.old ≡ rows.old * height }
    requires chroma_blue { length chroma_blue.old ≡ rows.old * height }
    requires chroma_red { length chroma_red.old ≡ rows.old * height }
    ensures width { rows.new ≡ rows.old }
    ensures within { All (All (IsWithin (2 ^ 24))) (luma.new ∷ chroma_blue.new ∷ chroma_red.new ∷ []) }
    ensures planes { luma.new ∷ chroma_blue.new ∷ chroma_red.new ∷ [] ≡ picture_planes tables.now raw.now }
{
    let width = rows.width();
    for y in 0..height {
        let start = y * width;
        let end = start + width;
        rows.fill_row(
            tables,
            &raw[6 * start..6 * end],
            &mut luma[start..end],
            &mut chroma_blue[start..end],
            &mut chroma_red[start..end],
        );
    }
}
