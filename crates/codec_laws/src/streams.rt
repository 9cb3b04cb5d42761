ghost use Rattle.std.specs.Prelude.{◌≡◌, ◌<◌, ◌≤◌, ◌+◌, ◌^◌, ℕ, ℤ, List, [], ◌∷◌, ◌++◌, length, map, Some, Ok};
ghost use Rattle.codec_terms.specs.declared.picture.Shape.{Shape};
ghost use Rattle.mast_base.specs.declared.limits.Limits.{Limits};
ghost use Rattle.codec_terms.specs.Bands.{plane_limit, component_bands};
ghost use Rattle.codec_terms.specs.Codestream.{main_header, stream, part_length, part_lengths};
ghost use Rattle.codec_terms.specs.MainReading.{main_read};
ghost use Rattle.codec_terms.specs.Cut.{IsWithin, IsLeastCut, least_cut};
ghost use Rattle.codec_laws.specs.Bounds.{IsPictureSize, FitBands};

/// The main header, behind which the first tile-part begins, is read back: the size, the sub-bands' numbers of planes,
/// the parts' lengths and the cut. So it is of a whole stream.
pub fn main_header_laws()
    ensures header { (shape : Shape) (first second third cut : ℕ) (rest : List ℕ) → IsPictureSize shape
        → first < 2 ^ 32 → second < 2 ^ 32 → third < 2 ^ 32 → cut < 2 ^ 32
        → main_read (main_header shape (first ∷ second ∷ third ∷ []) cut ++ 0xFF ∷ 0x90 ∷ rest)
        ≡ Ok (record {
          shape = shape;
          mb = map plane_limit (component_bands 0);
          parts = first ∷ second ∷ third ∷ [];
          cut = Some cut;
          next = 143;
        }) }
    ensures stream { (shape : Shape) (q : List ℤ) (cut : ℕ) → IsPictureSize shape → cut < 2 ^ 32
        → part_length shape q cut 0 < 2 ^ 32 → part_length shape q cut 1 < 2 ^ 32 → part_length shape q cut 2 < 2 ^ 32
        → main_read (stream shape q cut)
        ≡ Ok (record {
          shape = shape;
          mb = map plane_limit (component_bands 0);
          parts = part_lengths shape q cut;
          cut = Some cut;
          next = 143;
        }) }
{}

/// A stream has 145 bytes beside its three parts.
pub fn stream_laws()
    ensures { (shape : Shape) (q : List ℤ) (cut : ℕ)
        → length (stream shape q cut)
        ≡ 145 + (part_length shape q cut 0 + (part_length shape q cut 1 + part_length shape q cut 2)) }
{}

/// At cut 720 the stream of any picture is far within the least limits, so that there is a least cut.
pub fn last_cut_laws()
    ensures within { (limits : Limits) (shape : Shape) (q : List ℤ) → IsPictureSize shape → FitBands shape q
        → 364 ≤ limits.frame → 73 ≤ limits.component → IsWithin limits shape q 720 }
    ensures least { (limits : Limits) (shape : Shape) (q : List ℤ) → IsPictureSize shape → FitBands shape q
        → 364 ≤ limits.frame → 73 ≤ limits.component → IsLeastCut limits shape q (least_cut limits shape q) }
{}
