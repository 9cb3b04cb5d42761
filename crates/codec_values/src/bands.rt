ghost use Rattle.std.specs.Prelude.{◌≡◌, ◌*◌, ◌<◌, ℕ, ℤ, pos, neg_ℤ, List, length, IsTrue, [], ◌∷◌, map, take, sum_by, count_by, ◌==◌};
ghost use Rattle.std.specs.List.Sorted.{IsSortedBy};
ghost use Rattle.std.specs.Int.{div_ceil};
ghost use Rattle.std.specs.List.{list_all, range_with_len, flat_map, AllByRecursion};
ghost use Rattle.codec_terms.specs.declared.picture.Shape.{Shape};
ghost use Rattle.codec_terms.specs.declared.picture.Band.{Band};
ghost use Rattle.codec_terms.specs.declared.packet.PacketBlock.{PacketBlock};
ghost use Rattle.codec_terms.specs.Grid.{grid_of, grid_with, of_parts};
ghost use Rattle.codec_terms.specs.Codestream.{block_places};
ghost use Rattle.codec_terms.specs.Bands.{component_bands, all_bands, band_columns, band_rows, band_length, rank, band_place, band_values};
ghost use Rattle.codec_terms.specs.Encode.{kept_coefficients};
ghost use Rattle.codec_values.specs.Worked.{small, small_with, few};
ghost use Rattle.codec_terms.specs.Precincts.{precinct_columns, precinct_rows, Precinct, comes_before, all_precincts, packet_order, OneGroup, HasPrecincts, part_at, resolution, block_columns, block_rows, blocks_at, blocks_in, precinct_number};

/// The sub-bands of a picture of 33 columns and 47 rows, and the order of all sub-bands.
pub fn sub_band_values()
    ensures columns { map (band_columns (record { width = 33; height = 47 })) (component_bands 0)
        ≡ 2 ∷ 1 ∷ 2 ∷ 1 ∷ 2 ∷ 3 ∷ 2 ∷ 4 ∷ 5 ∷ 4 ∷ 8 ∷ 9 ∷ 8 ∷ 16 ∷ 17 ∷ 16 ∷ [] }
    ensures rows { map (band_rows (record { width = 33; height = 47 })) (component_bands 0)
        ≡ 2 ∷ 2 ∷ 1 ∷ 1 ∷ 3 ∷ 3 ∷ 3 ∷ 6 ∷ 6 ∷ 6 ∷ 12 ∷ 12 ∷ 12 ∷ 24 ∷ 23 ∷ 23 ∷ [] }

    // Each number from 0 to 47 is the rank of exactly one sub-band.
    ensures ranks { IsTrue (list_all (λ n. count_by (λ band. rank band == n) all_bands == 1) (range_with_len 0 48)) }
    ensures places { map band_place all_bands ≡ range_with_len 0 48 }
{}

/// The sub-bands of a component have as many samples as the picture, and each sample along a side
/// is in exactly one code-block, as each code-block is in exactly one precinct, of which there are enough.
pub fn sub_band_laws()
    ensures sizes { (shape : Shape) (component : ℕ) → sum_by (band_length shape) (component_bands component)
        ≡ shape.width * shape.height }
    ensures blocks { (n x : ℕ) → x < n → OneGroup n 32 x }
    ensures precincts { (n x : ℕ) → x < n → OneGroup n 4 x }
    ensures reach { (shape : Shape) (component : ℕ) → AllByRecursion (HasPrecincts shape) (component_bands component) }
{}

/// A grid is put together of the parts that it is divided into, as a sub-band's coefficients are of its code-blocks,
/// and its code-blocks of those of its precincts. The blocks of a packet, in raster order, are such a part, and the
/// number of its precinct says which.
pub fn part_laws()
    ensures coefficients { (size columns rows : ℕ) (grid : List (List ℤ)) → 0 < size → 0 < columns
        → AllByRecursion (λ row. length row ≡ columns) grid → length grid ≡ rows
        → of_parts (grid_with (div_ceil columns size) (div_ceil rows size) (part_at size columns rows grid)) ≡ grid }
    ensures blocks { (size columns rows : ℕ) (grid : List (List PacketBlock)) → 0 < size → 0 < columns
        → AllByRecursion (λ row. length row ≡ columns) grid → length grid ≡ rows
        → of_parts (grid_with (div_ceil columns size) (div_ceil rows size) (part_at size columns rows grid)) ≡ grid }
    ensures number { (shape : Shape) (band : Band) (px py : ℕ) → px < precinct_columns shape (resolution band)
        → blocks_in shape band (precinct_number shape (resolution band) px py) ≡ blocks_at shape band px py }
    ensures packet { (f : ℕ → ℕ → PacketBlock) (shape : Shape) (band : Band) (px py : ℕ)
        → grid_of (blocks_at shape band px py).columns (blocks_at shape band px py).rows
        (map (λ place. f place.0 place.1) (block_places (blocks_at shape band px py)))
        ≡ part_at 4 (block_columns shape band) (block_rows shape band)
        (grid_with (block_columns shape band) (block_rows shape band) f) px py }
{}

/// A picture's coefficients are those of its sub-bands in turn, and cut 0 keeps them all.
pub fn coefficient_laws()
    ensures in_turn { (shape : Shape) (q : List ℤ) → length q ≡ 3 * (shape.width * shape.height)
        → flat_map (band_values shape q) all_bands ≡ q }
    ensures cut_zero { (shape : Shape) (q : List ℤ) → length q ≡ 3 * (shape.width * shape.height)
        → kept_coefficients shape 0 q ≡ q }
{}

/// At cut 100 bit-planes 0 and 1 are gone everywhere: -1234 and 5 stay in part, -3, 1 and -2 don't. At cut 48 only
/// bit-plane 0 is.
pub fn kept_values()
    ensures two_planes { kept_coefficients small 100 few ≡ small_with (neg_ℤ (pos 1232)) (pos 4) (pos 0) (pos 0) (pos 0) }
    ensures one_plane { kept_coefficients small 48 few
        ≡ small_with (neg_ℤ (pos 1234)) (pos 4) (neg_ℤ (pos 2)) (pos 0) (neg_ℤ (pos 2)) }
{}

/// The packets of a component are all its precincts, since any measure of them sums to the same, and no one
/// comes before the one in front of it.
pub fn packet_order_laws()
    ensures same { (f : Precinct → ℕ) (shape : Shape) → sum_by f (packet_order shape) ≡ sum_by f (all_precincts shape) }
    ensures in_order { (shape : Shape) → IsSortedBy comes_before (packet_order shape) }
{}

/// Precincts and the first packets of a full picture and of a narrow one, by resolution and number.
pub fn packet_orders()
    ensures full_columns { map (precinct_columns (record { width = 2048; height = 1080 })) (range_with_len 0 6)
        ≡ 1 ∷ 1 ∷ 1 ∷ 2 ∷ 4 ∷ 8 ∷ [] }
    ensures full_rows { map (precinct_rows (record { width = 2048; height = 1080 })) (range_with_len 0 6)
        ≡ 1 ∷ 1 ∷ 1 ∷ 2 ∷ 3 ∷ 5 ∷ [] }
    ensures full_resolutions { map (λ p. p.resolution) (take 8 (packet_order (record { width = 2048; height = 1080 })))
        ≡ 0 ∷ 1 ∷ 2 ∷ 3 ∷ 4 ∷ 5 ∷ 5 ∷ 4 ∷ [] }
    ensures full_numbers { map (λ p. p.number) (take 8 (packet_order (record { width = 2048; height = 1080 })))
        ≡ 0 ∷ 0 ∷ 0 ∷ 0 ∷ 0 ∷ 0 ∷ 1 ∷ 1 ∷ [] }
    ensures narrow_resolutions { map (λ p. p.resolution) (packet_order (record { width = 255; height = 257 }))
        ≡ 0 ∷ 1 ∷ 2 ∷ 3 ∷ 4 ∷ 5 ∷ 5 ∷ [] }
    ensures narrow_numbers { map (λ p. p.number) (packet_order (record { width = 255; height = 257 }))
        ≡ 0 ∷ 0 ∷ 0 ∷ 0 ∷ 0 ∷ 0 ∷ 1 ∷ [] }
{}
