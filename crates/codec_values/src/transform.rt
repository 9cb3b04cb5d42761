ghost use Rattle.std.specs.Prelude.{◌≡◌, ℤ, pos, neg_ℤ, [], ◌∷◌, map, replicate};
ghost use Rattle.std.specs.List.{range_with_len};
ghost use Rattle.codec_terms.specs.declared.picture.Band.{Band};
ghost use Rattle.codec_terms.specs.declared.picture.BandKind.TheVariants.{LL, HL};
ghost use Rattle.codec_terms.specs.Grid.{part_of};
ghost use Rattle.codec_terms.specs.Wavelet.{shifted, luma, chroma_blue, chroma_red, transformed_line, level};
ghost use Rattle.codec_terms.specs.Encode.{wave};
ghost use Rattle.codec_values.specs.Worked.{small, scattered};
ghost use Rattle.codec_terms.specs.Bands.{band_of, lowest_plane};
ghost use Rattle.codec_terms.specs.Quantiser.{quantised, kept};

/// The component transform of the code values 4095, 2048, 2048.
pub fn component_values()
    ensures luma { luma (shifted 4095) (shifted 2048) (shifted 2048) ≡ pos 5013870 }
    ensures blue { chroma_blue (shifted 4095) (shifted 2048) (shifted 2048) ≡ neg_ℤ (pos 2829722) }
    ensures red { chroma_red (shifted 4095) (shifted 2048) (shifted 2048) ≡ pos 8384512 }
{}

/// A line that is the same throughout has low samples of nearly that value, and high ones of nearly 0.
pub fn lifting_values()
    ensures flat { transformed_line (replicate 7 (neg_ℤ (pos 16777216)))
        ≡ neg_ℤ (pos 16776816) ∷ neg_ℤ (pos 16776816) ∷ neg_ℤ (pos 16776816) ∷ neg_ℤ (pos 16776816)
        ∷ pos 659 ∷ pos 659 ∷ pos 659 ∷ [] }
    ensures short { transformed_line (replicate 2 (neg_ℤ (pos 16777216))) ≡ neg_ℤ (pos 16776816) ∷ pos 659 ∷ [] }
{}

/// Black and white by turns: the part that is high in both directions goes beyond the clamp.
pub fn level_values()
    ensures { level ((pos 67108864 ∷ neg_ℤ (pos 67108864) ∷ [])
        ∷ (neg_ℤ (pos 67108864) ∷ pos 67108864 ∷ []) ∷ [])
        ≡ (neg_ℤ (pos 5) ∷ pos 7720 ∷ []) ∷ (pos 7720 ∷ pos 67108864 ∷ []) ∷ [] }
{}

/// The upper left corner of the smallest picture behind five levels: the sub-bands of levels 5 and 4.
pub fn wave_values()
    ensures { part_of 0 0 4 4 (wave small (map scattered (range_with_len 0 1024)))
        ≡ (neg_ℤ (pos 36139) ∷ neg_ℤ (pos 1638) ∷ neg_ℤ (pos 2444370) ∷ neg_ℤ (pos 2242680) ∷ [])
        ∷ (pos 154105 ∷ neg_ℤ (pos 439606) ∷ pos 250231 ∷ pos 490861 ∷ [])
        ∷ (pos 143369 ∷ neg_ℤ (pos 180536) ∷ pos 5505859 ∷ pos 5178217 ∷ [])
        ∷ (neg_ℤ (pos 570281) ∷ pos 44425 ∷ neg_ℤ (pos 1983736) ∷ neg_ℤ (pos 2045045) ∷ [])
        ∷ [] }
{}

pub fn quantiser_values()
    ensures small { quantised (band_of 0 5 HL) (neg_ℤ (pos 13823)) ≡ neg_ℤ (pos 5) }
    ensures greatest { quantised (band_of 0 5 HL) (pos 67108864) ≡ pos 29127 }
    ensures saturated { quantised (band_of 0 5 LL) (pos 67108864) ≡ pos 16383 }
{}

/// Cut 0 keeps each value as it is.
pub fn quantiser_laws()
    ensures { (band : Band) (v : ℤ) → kept (lowest_plane 0 band) v ≡ v }
{}
