ghost use Rattle.std.specs.Prelude.{◌≡◌, ◌≢◌, ◌<◌, ◌≤◌, ◌+◌, ◌*◌, ◌^◌, ℕ, ℤ, Bool, false, List, [], ◌∷◌, ◌++◌, All, length, slice_index, slice_index_or, Ok};
ghost use Rattle.std.specs.List.{flat_map};
ghost use Rattle.codec_terms.specs.declared.picture.Shape.{Shape};
ghost use Rattle.codec_terms.specs.declared.picture.Band.{Band};
ghost use Rattle.codec_terms.specs.declared.packet.PacketBlock.{PacketBlock};
ghost use Rattle.codec_terms.specs.Bands.{band_length, all_bands, lowest_plane, band_values};
ghost use Rattle.codec_terms.specs.Mq.{Decision, codeword};
ghost use Rattle.codec_terms.specs.Precincts.{Precinct, block_columns, block_rows, blocks_in};
ghost use Rattle.codec_terms.specs.Bits.{low_bits};
ghost use Rattle.codec_terms.specs.TagTree.{Tree, FoundTree, new_node, new_tree, blank_tree, leaf_bits, leaf_told, leaf_value};
ghost use Rattle.codec_terms.specs.PacketHeader.{pass_bits, length_bits, packed, ends_with_ff};
ghost use Rattle.codec_terms.specs.PacketReading.{BitPlace, bit_read, number_read, pass_count_read, size_read, header_end};
ghost use Rattle.codec_terms.specs.Codestream.{block_of, packet_block, packet_band, precinct_packet};
ghost use Rattle.codec_terms.specs.Grid.{items_of, with_places, of_parts};
ghost use Rattle.codec_terms.specs.StreamReading.{band_blocks};
ghost use Rattle.codec_laws.specs.BitsAhead.{IsAhead, start_at, Gives};
ghost use Rattle.codec_laws.specs.Codewords.{HasNoMarker};
ghost use Rattle.codec_laws.specs.Places.{OnePrecinct, blocks_of, block_grid, packet_blocks, packets_of};
ghost use Rattle.codec_laws.specs.TreeReading.{AreSameTrees, HasLeaf, LeafIsRead, IsTold, leaf_of, known_value};

/// A codeword doesn't end with FF, and no marker begins within codewords that stand behind one another, within a
/// header's bytes, or within a packet.
pub fn codeword_laws()
    ensures end { (ds : List Decision) → ends_with_ff (codeword ds) ≡ false }
    ensures codewords { (dss : List (List Decision)) → HasNoMarker (flat_map codeword dss) }
    ensures header { (bits : List Bool) → HasNoMarker (packed bits) }
    ensures packets { (shape : Shape) (q : List ℤ) (cut component : ℕ) (precinct : Precinct)
        → HasNoMarker (precinct_packet shape q cut component precinct) }
{}

/// The code-blocks of a sub-band's values, put together as a reader does, give the values back.
pub fn block_laws()
    ensures { (shape : Shape) (band : Band) (values : List ℤ) → length values ≡ band_length shape band
        → items_of (of_parts (with_places (block_grid shape band) (blocks_of shape band values))) ≡ values }
{}

/// Each code-block of a picture's sub-band stands in exactly one precinct, and a reader finds all of a sub-band's in
/// the packets, each at its own place.
pub fn precinct_laws()
    ensures one { (shape : Shape)
        → All (λ band. (x y : ℕ) → x < block_columns shape band → y < block_rows shape band
        → OnePrecinct shape band x y) all_bands }
    ensures found { (shape : Shape) (q : List ℤ) (cut : ℕ) → 0 < shape.width
        → All (λ band. band_blocks shape (packets_of shape q cut band.component) band
        ≡ packet_blocks shape q cut band) all_bands }
{}

/// A packet's part of a sub-band has as many code-blocks as columns times rows, and each of its precinct's code-blocks
/// stands at its place in raster order.
pub fn packet_band_laws()
    ensures count { (shape : Shape) (q : List ℤ) (cut precinct : ℕ) (band : Band)
        → length (packet_band shape q cut precinct band).blocks
        ≡ (packet_band shape q cut precinct band).columns * (packet_band shape q cut precinct band).rows }
    ensures places { (shape : Shape) (q : List ℤ) (cut precinct : ℕ) (band : Band) (x y : ℕ) (d : PacketBlock)
        → x < (blocks_in shape band precinct).columns → y < (blocks_in shape band precinct).rows
        → slice_index_or (packet_band shape q cut precinct band).blocks (y * (blocks_in shape band precinct).columns + x) d
        ≡ packet_block band (lowest_plane cut band) (block_of shape band (band_values shape q band)
        ((blocks_in shape band precinct).x + x) ((blocks_in shape band precinct).y + y)) }
{}

/// The bits that a header's bytes pack are read back one by one, whatever stands around the bytes, and where they end
/// is found.
pub fn packed_bits_laws()
    ensures begin { (front : List ℕ) (bits : List Bool) (rest : List ℕ)
        → IsAhead (front ++ packed bits ++ rest) (start_at (length front)) bits (length front + length (packed bits)) }
    ensures bit { (bytes : List ℕ) (end : ℕ) (p : BitPlace) (bit : Bool) (bits : List Bool)
        → IsAhead bytes p (bit ∷ bits) end → Gives bytes (bit_read bytes) p bit bits end }
    ensures end { (bytes : List ℕ) (end : ℕ) (p : BitPlace) → IsAhead bytes p [] end → header_end bytes p ≡ Ok end }
{}

/// A number of passes, a length and any number of so many bits are read back from their bits.
pub fn header_number_laws()
    ensures numbers { (bytes : List ℕ) (end k n : ℕ) (p : BitPlace) (bits : List Bool) → n < 2 ^ k
        → IsAhead bytes p (low_bits k n ++ bits) end → Gives bytes (number_read bytes k 0) p n bits end }
    ensures passes { (bytes : List ℕ) (end n : ℕ) (p : BitPlace) (bits : List Bool) → 1 ≤ n → n ≤ 164
        → IsAhead bytes p (pass_bits n ++ bits) end → Gives bytes (pass_count_read bytes) p n bits end }
    ensures lengths { (bytes : List ℕ) (end passes len : ℕ) (p : BitPlace) (bits : List Bool)
        → passes ≤ 164 → len < 2 ^ 32
        → IsAhead bytes p (length_bits passes len ++ bits) end → Gives bytes (size_read bytes passes) p len bits end }
{}

/// A new tag tree is what a reader that knows nothing has. The bits of a leaf, for any threshold, leave the reader with
/// what the writer then has, so that leaf may follow leaf. They tell a value below the threshold, and the reader knows it.
pub fn tag_tree_laws()
    ensures new { (columns rows : ℕ) (values : List ℕ) → length values ≡ rows * columns
        → AreSameTrees (new_tree columns rows values) (blank_tree columns rows) }
    ensures leaves { (columns rows : ℕ) (values : List ℕ) (at : ℕ) → length values ≡ rows * columns → at < rows * columns
        → HasLeaf (new_tree columns rows values) at }
    ensures values { (columns rows : ℕ) (values : List ℕ) (at : ℕ) → length values ≡ rows * columns → at < rows * columns
        → leaf_of (new_tree columns rows values) at ≡ new_node (slice_index values at) }
    ensures read { (bytes : List ℕ) (t at end : ℕ) (tree : Tree) (found : FoundTree) (p : BitPlace) (bits : List Bool)
        → AreSameTrees tree found → HasLeaf tree at → IsAhead bytes p (leaf_bits t tree at ++ bits) end
        → LeafIsRead bytes t at tree found p bits end }
    // The bits are the same for all thresholds above the leaf's value.
    ensures above { (t t' at : ℕ) (tree : Tree) (found : FoundTree) → AreSameTrees tree found → HasLeaf tree at
        → (leaf_of tree at).value < t → (leaf_of tree at).value < t'
        → (leaf_bits t tree at ≡ leaf_bits t' tree at) × (leaf_told t tree at ≡ leaf_told t' tree at) }
    ensures kept { (t at other : ℕ) (tree : Tree) → HasLeaf tree at → HasLeaf tree other
        → HasLeaf (leaf_told t tree at) other }
    ensures told { (t at : ℕ) (tree : Tree) → HasLeaf tree at
        → IsTold t (leaf_of tree at) (leaf_of (leaf_told t tree at) at) }
    ensures others { (t at other : ℕ) (tree : Tree) → HasLeaf tree at → other ≢ at
        → leaf_of (leaf_told t tree at) other ≡ leaf_of tree other }
    ensures known { (at : ℕ) (tree : Tree) (found : FoundTree) → AreSameTrees tree found → HasLeaf tree at
        → leaf_value found at ≡ known_value (leaf_of tree at) }
{}
