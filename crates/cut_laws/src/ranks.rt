ghost use Rattle.std.specs.Prelude.{◌≡◌, ◌≢◌, ◌<◌, ◌≤◌, ◌+◌, ◌%◌, ℕ, ℤ, suc, false, List};
ghost use Rattle.codec_terms.specs.declared.picture.Shape.{Shape};
ghost use Rattle.codec_terms.specs.declared.picture.Band.{Band};
ghost use Rattle.codec_terms.specs.Bands.{rank, lowest_plane};
ghost use Rattle.codec_terms.specs.Precincts.{Precinct};
ghost use Rattle.codec_terms.specs.Codestream.{precinct_packet};
ghost use Rattle.band_starts.specs.Places.{IsPictureBand};
ghost use Rattle.cut_laws.specs.Ranks.{band_at_rank, is_changed};

/// Each rank below 48 is that of exactly one of a picture's sub-bands.
pub fn rank_laws()
    ensures below { (band : Band) → IsPictureBand band → rank band < 48 }
    ensures is_band { (n : ℕ) → n < 48 → IsPictureBand (band_at_rank n) }
    ensures found { (n : ℕ) → n < 48 → rank (band_at_rank n) ≡ n }
    ensures one { (band : Band) → IsPictureBand band → band_at_rank (rank band) ≡ band }
{}

/// From a cut to the next one the lowest bit-plane that is kept rises by one in one sub-band, whose rank is the cut's
/// rest by 48. In each other one it stays. So a greater cut keeps no plane that a lower one doesn't, and the last one none.
pub fn next_cut_laws()
    ensures one { (cut : ℕ) (band : Band) → rank band ≡ cut % 48 → lowest_plane (suc cut) band ≡ suc (lowest_plane cut band) }
    ensures others { (cut : ℕ) (band : Band) → IsPictureBand band → rank band ≢ cut % 48
        → lowest_plane (suc cut) band ≡ lowest_plane cut band }
    ensures rises { (lower cut : ℕ) (band : Band) → lower ≤ cut → lowest_plane lower band ≤ lowest_plane cut band }
    ensures last { (band : Band) → lowest_plane 720 band ≡ 15 }
{}

/// From a cut to the next one the packets stay the same of each component and resolution but one.
pub fn next_packet_laws()
    ensures { (shape : Shape) (q : List ℤ) (cut component : ℕ) (precinct : Precinct) → component < 3
        → precinct.resolution < 6 → is_changed cut component precinct.resolution ≡ false
        → precinct_packet shape q (suc cut) component precinct ≡ precinct_packet shape q cut component precinct }
{}
