ghost use Rattle.std.specs.Prelude.{◌≡◌, length, sum_by};
ghost use Rattle.std.specs.List.{range_with_len};
ghost use Rattle.codec_terms.specs.declared.picture.Shape.{Shape};
ghost use Rattle.codec_terms.specs.Precincts.{packet_order};
ghost use Rattle.band_laws.specs.Places.{precincts_by_place, precinct_count};

/// The packets of a component are the precincts of a grid's places in raster order, at each place
/// from the least resolution that has one there. They are as many as all resolutions' precincts.
pub fn packet_place_laws()
    ensures order { (shape : Shape) → packet_order shape ≡ precincts_by_place shape }
    ensures count { (shape : Shape) →
        length (packet_order shape) ≡ sum_by (precinct_count shape) (range_with_len 0 6) }
{}
