ghost use Rattle.std.specs.Prelude.{◌≡◌, ◌≤◌, ℕ, ℤ, pos, neg_ℤ, [], ◌∷◌, ◌++◌, List, length, map, replicate, slice_set, take, Some, Ok, Err};
ghost use Rattle.codec_terms.specs.declared.picture.Shape.{Shape};
ghost use Rattle.mast_base.specs.declared.limits.Limits.{Limits};
ghost use Rattle.codec_terms.specs.declared.reading.ReadRefusal.TheVariants.{Marker, PartLength, After};
ghost use Rattle.codec_terms.specs.declared.reading.MarkerRefusal.TheVariants.{Truncated, Marker as WrongMarker, Field};
ghost use Rattle.codec_terms.specs.Bands.{component_bands};
ghost use Rattle.codec_terms.specs.Codestream.{main_header, stream, part_lengths};
ghost use Rattle.codec_terms.specs.Cut.{IsWithin, IsLeastCut, least_cut};
ghost use Rattle.codec_terms.specs.StreamReading.{stream_read};
ghost use Rattle.codec_values.specs.Worked.{zero_stream, small, small_with, few, few_stream, first_to_go, wide, labels, labels_found};

/// The smallest picture without any coefficient that isn't zero.
pub fn zero_stream_values()
    ensures bytes { stream small (replicate 3072 (pos 0)) 0 ≡ zero_stream }
    ensures whole { length zero_stream ≡ 205 }
    ensures parts { part_lengths small (replicate 3072 (pos 0)) 0 ≡ 20 ∷ 20 ∷ 20 ∷ [] }
{}

/// Its bytes are read back; without the last byte and with one more they are refused.
pub fn reading_values()
    ensures read { stream_read zero_stream
        ≡ Ok (record {
          shape = small;
          values = replicate 3072 (pos 0);
          cut = Some 0;
          parts = 20 ∷ 20 ∷ 20 ∷ [];
          blocks = 0;
        }) }
    ensures cut_short { stream_read (take 204 zero_stream) ≡ Err (Marker (Truncated 204)) }
    ensures too_long { stream_read (zero_stream ++ 0 ∷ []) ≡ Err (After 205) }
{}

/// A few coefficients, of four code-blocks, written and read back: all of them at cut 0, and those that are left
/// at cut 100.
pub fn few_stream_values()
    ensures written { stream small few 0 ≡ few_stream }
    ensures whole { length few_stream ≡ 225 }
    ensures read { stream_read few_stream
        ≡ Ok (record { shape = small; values = few; cut = Some 0; parts = 31 ∷ 24 ∷ 25 ∷ []; blocks = 4 }) }
    ensures read_at_cut { stream_read (stream small few 100)
        ≡ Ok (record {
          shape = small;
          values = small_with (neg_ℤ (pos 1232)) (pos 4) (pos 0) (pos 0) (pos 0);
          cut = Some 100;
          parts = 28 ∷ 20 ∷ 20 ∷ [];
          blocks = 2;
        }) }
{}

/// Changed bytes of the zero stream are refused at their field, or where the tile-part ends.
pub fn refusal_values()
    // A width of 31.
    ensures width { stream_read (slice_set zero_stream 11 31) ≡ Err (Marker (Field 8 31)) }
    // A second segment COD in the place of QCD.
    ensures twice { stream_read (slice_set zero_stream 72 0x52) ≡ Err (Marker (WrongMarker 71 0xFF52)) }
    // Two guard bits, and an exponent of 31.
    ensures planes { stream_read (slice_set (slice_set zero_stream 75 0x42) 76 0xF8) ≡ Err (Marker (Field 76 0xF800)) }
    // A comment whose length is 4.
    ensures comment { stream_read (slice_set zero_stream 132 4) ≡ Err (Marker (Field 131 4)) }
    // A tile-part's length of 21, in the tile-part alone and in both places.
    ensures stated { stream_read (slice_set zero_stream 152 21) ≡ Err (Marker (Field 149 21)) }
    ensures part { stream_read (slice_set (slice_set zero_stream 118 21) 152 21) ≡ Err (PartLength 0 21) }
{}

/// In a picture of 600 columns and 300 rows, which has several precincts in each direction, a reader finds
/// each code-block where the writer put it.
pub fn block_place_values()
    ensures { map (labels_found wide) (component_bands 0) ≡ map (labels wide) (component_bands 0) }
{}

/// The main header has 143 bytes.
pub fn main_header_laws()
    ensures { (shape : Shape) (first second third cut : ℕ)
        → length (main_header shape (first ∷ second ∷ third ∷ []) cut) ≡ 143 }
{}

/// One coefficient makes 209 bytes at cut 0, with a tile-part of 24, and 205 at cut 1, which takes it away first.
pub fn cut_values()
    ensures zero { least_cut (record { frame = 209; component = 24 }) small first_to_go ≡ 0 }
    ensures frame { least_cut (record { frame = 208; component = 24 }) small first_to_go ≡ 1 }
    ensures component { least_cut (record { frame = 209; component = 23 }) small first_to_go ≡ 1 }
{}

/// Where any cut is within the limits, the cut is the least that is.
pub fn cut_laws()
    ensures { (limits : Limits) (shape : Shape) (q : List ℤ) (cut : ℕ) → cut ≤ 720 → IsWithin limits shape q cut
        → IsLeastCut limits shape q (least_cut limits shape q) }
{}
