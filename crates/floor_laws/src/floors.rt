ghost use Rattle.std.specs.Prelude.{◌≤◌, ◌↔◌, IsTrue, ℕ, ℤ, List, length};
ghost use Rattle.mast_base.specs.declared.limits.Limits.{Limits};
ghost use Rattle.codec_terms.specs.declared.picture.Shape.{Shape};
ghost use Rattle.codec_terms.specs.declared.picture.Band.{Band};
ghost use Rattle.codec_terms.specs.Bands.{lowest_plane};
ghost use Rattle.codec_terms.specs.BlockDecisions.{Block};
ghost use Rattle.codec_terms.specs.Precincts.{Precinct};
ghost use Rattle.codec_terms.specs.PacketHeader.{block_codeword};
ghost use Rattle.codec_terms.specs.Codestream.{packet_block, precinct_packet, part_length, stream};
ghost use Rattle.codec_terms.specs.Cut.{IsWithin};
ghost use Rattle.floor_laws.specs.Floors.{codeword_floor, precinct_floor, part_floor, stream_floor, IsOver, is_over};

/// A lower cut keeps each bit-plane that a higher one keeps.
pub fn lower_cut_laws()
    ensures { (cut lower : ℕ) (band : Band) → lower ≤ cut → lowest_plane lower band ≤ lowest_plane cut band }
{}

/// What is coded at a cut is at least as long as its floor at that cut or at any higher one: a code-block's codeword, a
/// packet, a tile-part and the whole codestream.
pub fn floor_laws()
    ensures codeword { (band : Band) (p lower : ℕ) (block : Block) → lower ≤ p
        → codeword_floor (packet_block band p block) ≤ length (block_codeword (packet_block band lower block)) }
    ensures packet { (shape : Shape) (q : List ℤ) (cut lower component : ℕ) (precinct : Precinct) → lower ≤ cut
        → precinct_floor shape q cut component precinct ≤ length (precinct_packet shape q lower component precinct) }
    ensures part { (shape : Shape) (q : List ℤ) (cut lower component : ℕ) → lower ≤ cut
        → part_floor shape q cut component ≤ part_length shape q lower component }
    ensures stream { (shape : Shape) (q : List ℤ) (cut lower : ℕ) → lower ≤ cut
        → stream_floor shape q cut ≤ length (stream shape q lower) }
{}

/// Where a floor is above its limit, neither that cut nor any lower one is within the limits.
pub fn stop_laws()
    ensures test { (limits : Limits) (shape : Shape) (q : List ℤ) (cut : ℕ)
        → IsTrue (is_over limits shape q cut) ↔ IsOver limits shape q cut }
    ensures stop { (limits : Limits) (shape : Shape) (q : List ℤ) (cut lower : ℕ) → IsOver limits shape q cut
        → lower ≤ cut → ¬ IsWithin limits shape q lower }
{}
