//! Reading a written stream gives back its tile-parts, the kept coefficients of each sub-band, and all coefficients that the
//! cut keeps, over the standard's definitions alone (ITU-T T.800, Annexes A to D, in this profile). The laws name no code.
#![tactic(auto)]

ghost use Rattle.std.specs.Prelude.{◌≡◌, ◌+◌, ◌*◌, ◌<◌, ◌^◌, ℕ, ℤ, List, All, ◌∷◌, ◌++◌, length, map, Some, Ok};
ghost use Rattle.std.specs.List.{flat_map};
ghost use Rattle.codec_terms.specs.declared.picture.Shape.{Shape};
ghost use Rattle.codec_terms.specs.declared.picture.Task.{Task};
ghost use Rattle.codec_terms.specs.declared.reading.MainHead.{MainHead};
ghost use Rattle.codec_terms.specs.Bands.{plane_limit, component_bands, all_bands};
ghost use Rattle.codec_terms.specs.Codestream.{components, part_length, part_lengths, tile_part, stream};
ghost use Rattle.codec_terms.specs.StreamReading.{marker_behind, stated_length, tile_part_read, parts_read, band_read_values, included_count, stream_read};
ghost use Rattle.codec_terms.specs.Encode.{kept_band, kept_coefficients, shape_of, task_coefficients, task_cut, encoding};
ghost use Rattle.codec_laws.specs.Bounds.{IsPictureSize, FitBands};
ghost use Rattle.codec_laws.specs.Places.{packets_of};
ghost use Rattle.stream_laws.specs.Counts.{all_kept_blocks};

use block_read_laws::block_read_laws;
use packet_laws::picture_packet_laws;

/// By its main header each tile-part of a written stream is read back, with the marker behind it: its packets exactly as
/// they were written, and the place behind them. So are all three in turn, up to the end marker.
pub fn tile_part_laws()
    ensures tile_part { (bytes front rest : List ℕ) (shape : Shape) (q : List ℤ) (cut component a b : ℕ) (head : MainHead)
        → component < 3 → FitBands shape q → part_length shape q cut component < 2 ^ 32
        → head.shape ≡ shape → head.mb ≡ map plane_limit (component_bands 0)
        → stated_length head component ≡ part_length shape q cut component → a * 256 + b ≡ marker_behind component
        → bytes ≡ front ++ tile_part shape q cut component ++ a ∷ b ∷ rest
        → tile_part_read bytes head component (length front)
        ≡ Ok (packets_of shape q cut component, length front + part_length shape q cut component) }
    ensures parts { (bytes front rest : List ℕ) (shape : Shape) (q : List ℤ) (cut : ℕ) (head : MainHead) → FitBands shape q
        → part_length shape q cut 0 < 2 ^ 32 → part_length shape q cut 1 < 2 ^ 32 → part_length shape q cut 2 < 2 ^ 32
        → head.shape ≡ shape → head.mb ≡ map plane_limit (component_bands 0) → head.parts ≡ part_lengths shape q cut
        → bytes ≡ front ++ flat_map (tile_part shape q cut) components ++ 0xFF ∷ 0xD9 ∷ rest
        → parts_read bytes head components (length front)
        ≡ Ok (
          map (packets_of shape q cut) components,
          length front
              + (part_length shape q cut 0 + (part_length shape q cut 1 + part_length shape q cut 2)),
        ) }
{
    picture_packet_laws();
}

/// Of the packets of a component as they were written, a reader gives for each of its sub-bands the coefficients without the
/// bit-planes that the cut leaves out, whether or not their code-blocks are included.
pub fn band_value_laws()
    ensures band { (shape : Shape) (q : List ℤ) (cut : ℕ) (head : MainHead) → 0 < shape.width
        → length q ≡ 3 * (shape.width * shape.height) → FitBands shape q
        → head.shape ≡ shape → head.mb ≡ map plane_limit (component_bands 0)
        → All (λ band. band_read_values head (packets_of shape q cut band.component) band ≡ kept_band shape cut q band) all_bands }
{
    block_read_laws();
}

/// The packets of a picture include as many code-blocks as have bit-planes that the cut keeps.
pub fn included_block_laws()
    ensures count { (shape : Shape) (q : List ℤ) (cut : ℕ) → 0 < shape.width
        → included_count (map (packets_of shape q cut) components) ≡ all_kept_blocks shape q cut }
{}

/// A stream is read back: the picture's size, the coefficients that the cut keeps, the cut, the parts' lengths and the
/// number of code-blocks of which the cut keeps bit-planes.
pub fn stream_read_laws()
    ensures stream { (shape : Shape) (q : List ℤ) (cut : ℕ) → IsPictureSize shape
        → length q ≡ 3 * (shape.width * shape.height) → FitBands shape q → cut < 2 ^ 32
        → part_length shape q cut 0 < 2 ^ 32 → part_length shape q cut 1 < 2 ^ 32 → part_length shape q cut 2 < 2 ^ 32
        → stream_read (stream shape q cut)
        ≡ Ok (record {
          shape = shape;
          values = kept_coefficients shape cut q;
          cut = Some cut;
          parts = part_lengths shape q cut;
          blocks = all_kept_blocks shape q cut;
        }) }
{
    picture_packet_laws();
    block_read_laws();
}

/// Each task's codestream is read back, with the coefficients that its own cut keeps.
pub fn encoding_read_laws()
    ensures encoding { (task : Task)
        → stream_read (encoding task)
        ≡ Ok (record {
          shape = shape_of task.params;
          values = kept_coefficients (shape_of task.params) (task_cut task) (task_coefficients task);
          cut = Some (task_cut task);
          parts = part_lengths (shape_of task.params) (task_coefficients task) (task_cut task);
          blocks = all_kept_blocks (shape_of task.params) (task_coefficients task) (task_cut task);
        }) }
{
    picture_packet_laws();
    block_read_laws();
}
