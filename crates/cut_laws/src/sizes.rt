ghost use Rattle.std.specs.Prelude.{◌≡◌, ◌≤◌, ◌<◌, ◌+◌, ◌^◌, ℕ, ℤ, List, length, sum_by};
ghost use Rattle.codec_terms.specs.declared.picture.Shape.{Shape};
ghost use Rattle.codec_terms.specs.Precincts.{Precinct, packet_order};
ghost use Rattle.codec_terms.specs.Codestream.{precinct_packet, component_packets, part_length, tile_part, stream};
ghost use Rattle.codec_laws.specs.Bounds.{IsPictureSize, FitBands};

/// The packets of a component are together as long as each in turn, and a tile-part is as long as it states.
pub fn size_laws()
    ensures packets { (shape : Shape) (q : List ℤ) (cut component : ℕ)
        → length (component_packets shape q cut component)
        ≡ sum_by (λ p. length (precinct_packet shape q cut component p)) (packet_order shape) }
    ensures part { (shape : Shape) (q : List ℤ) (cut component : ℕ)
        → length (tile_part shape q cut component) ≡ part_length shape q cut component }
{}

/// However many bit-planes are kept, the lengths of packets, tile-parts and whole codestreams fit 32 bits.
pub fn bound_laws()
    ensures order { (shape : Shape) → IsPictureSize shape → length (packet_order shape) ≤ 59 }
    ensures packet { (shape : Shape) (q : List ℤ) (cut component : ℕ) (precinct : Precinct) → FitBands shape q
        → component < 3 → precinct.resolution < 6
        → length (precinct_packet shape q cut component precinct) < 2 ^ 24 }
    ensures part { (shape : Shape) (q : List ℤ) (cut component : ℕ) → IsPictureSize shape → FitBands shape q
        → component < 3 → part_length shape q cut component < 2 ^ 30 }
    ensures stream { (shape : Shape) (q : List ℤ) (cut : ℕ) → IsPictureSize shape → FitBands shape q
        → length (stream shape q cut) < 2 ^ 32 }
{}
