//! Reading gives back what a written packet's header tells, the codewords of a sub-band, the whole packet, and the
//! packets of a picture's component, over the standard's definitions alone (ITU-T T.800, Annex B.9 and B.10, with one
//! layer). The laws name no code.
#![tactic(auto)]

ghost use Rattle.std.specs.Prelude.{◌≡◌, ◌≤◌, ◌+◌, ◌*◌, ◌<◌, ◌^◌, ℕ, ℤ, Bool, true, List, ◌∷◌, ◌++◌, All, length, map, Some, Ok};
ghost use Rattle.std.specs.List.{range_with_len, flat_map};
ghost use Rattle.codec_terms.specs.declared.packet.PacketBlock.{PacketBlock};
ghost use Rattle.codec_terms.specs.declared.packet.PacketBand.{PacketBand};
ghost use Rattle.codec_terms.specs.declared.packet.BandShape.{BandShape};
ghost use Rattle.codec_terms.specs.declared.picture.Shape.{Shape};
ghost use Rattle.codec_terms.specs.declared.reading.MainHead.{MainHead};
ghost use Rattle.codec_terms.specs.Bands.{plane_limit, component_bands};
ghost use Rattle.codec_terms.specs.Codestream.{component_packets, part_length};
ghost use Rattle.codec_terms.specs.TagTree.{Tree, FoundTree, leaf_value};
ghost use Rattle.codec_terms.specs.Precincts.{Precinct, packet_order};
ghost use Rattle.codec_terms.specs.StreamReading.{precinct_shapes, packets_read};
ghost use Rattle.codec_terms.specs.PacketHeader.{pass_bits, length_bits, first_layer, missing_planes, blocks_bits, band_bits, block_codeword, packet};
ghost use Rattle.codec_terms.specs.PacketReading.{BitPlace, included_read, blocks_read, band_read, bands_read, codewords_read, packet_read};
ghost use Rattle.codec_laws.specs.BitsAhead.{IsAhead, Gives};
ghost use Rattle.codec_laws.specs.Bounds.{FitBands};
ghost use Rattle.codec_laws.specs.Places.{packets_of};
ghost use Rattle.codec_laws.specs.TreeReading.{AreSameTrees};
ghost use Rattle.packet_laws.specs.ReadBack.{AreInOrder, band_heads, IsReadable, HasNewLeaves, IsInOrder, head_of, read_of, bands_read_of, packet_read_of};

/// What a packet's header says is read back: of a block that is included, of blocks in raster order with the trees kept
/// in step, of a sub-band, and of all sub-bands.
pub fn packet_header_laws()
    ensures included { (bytes : List ℕ) (mb at end : ℕ) (block : PacketBlock) (found : FoundTree) (p : BitPlace) (bits : List Bool)
        → mb ≤ 31 → IsReadable mb block → block.included ≡ true → leaf_value found at ≡ Some block.zero_planes
        → IsAhead bytes p (pass_bits block.passes ++ (length_bits block.passes (length block.codeword) ++ bits)) end
        → Gives bytes (included_read bytes mb at found) p (head_of block) bits end }
    ensures blocks { (bytes : List ℕ) (mb at end : ℕ) (blocks : List PacketBlock) (layers planes : Tree)
        (found_layers found_planes : FoundTree) (p : BitPlace) (bits : List Bool)
        → mb ≤ 31 → All (IsReadable mb) blocks → AreSameTrees layers found_layers → AreSameTrees planes found_planes
        → HasNewLeaves layers at (map first_layer blocks) → HasNewLeaves planes at (map missing_planes blocks)
        → IsAhead bytes p (blocks_bits layers planes at blocks ++ bits) end
        → Gives bytes (blocks_read bytes mb found_layers found_planes (range_with_len at (length blocks))) p (map head_of blocks) bits end }
    ensures band { (bytes : List ℕ) (end : ℕ) (band : PacketBand) (shape : BandShape) (p : BitPlace) (bits : List Bool)
        → IsInOrder shape band → IsAhead bytes p (band_bits band ++ bits) end
        → Gives bytes (band_read bytes shape) p (map head_of band.blocks) bits end }
    ensures bands { (bytes : List ℕ) (end : ℕ) (shapes : List BandShape) (bands : List PacketBand) (p : BitPlace) (bits : List Bool)
        → AreInOrder shapes bands → IsAhead bytes p (flat_map band_bits bands ++ bits) end
        → Gives bytes (bands_read bytes shapes) p (map band_heads bands) bits end }
{}

/// The codewords of a sub-band's blocks, wherever they stand, are read back behind what the header says of them; a
/// block that isn't included reads as one without planes, passes and codeword.
pub fn packet_codeword_laws()
    ensures { (bytes front rest : List ℕ) (blocks : List PacketBlock)
        → bytes ≡ front ++ (flat_map block_codeword blocks ++ rest)
        → codewords_read bytes (map head_of blocks) (length front)
        ≡ Ok (map read_of blocks, length front + length (flat_map block_codeword blocks)) }
{}

/// A packet is read back, wherever it stands: each sub-band with its blocks as a reader gives them, and the place behind
/// the packet. So are packets behind one another, one for each precinct.
pub fn packet_laws()
    ensures one { (bytes front rest : List ℕ) (shapes : List BandShape) (bands : List PacketBand)
        → AreInOrder shapes bands → bytes ≡ front ++ packet bands ++ rest
        → packet_read bytes (length front) shapes ≡ Ok (packet_read_of bands (length front + length (packet bands))) }
    ensures each { (bytes front rest : List ℕ) (head : MainHead) (component : ℕ) (precincts : List Precinct)
        (bands : Precinct → List PacketBand)
        → All (λ p. AreInOrder (precinct_shapes head component p) (bands p)) precincts
        → bytes ≡ front ++ flat_map (λ p. packet (bands p)) precincts ++ rest
        → packets_read bytes head component precincts (length front)
        ≡ Ok (map (λ p. bands_read_of (bands p)) precincts, length front + length (flat_map (λ p. packet (bands p)) precincts)) }
{}

/// By its main header a picture's packets of a component are read back, each exactly as it was written, where the
/// coefficients fit their sub-bands' bit-planes and the tile-part's length its field.
pub fn picture_packet_laws()
    ensures { (bytes front rest : List ℕ) (shape : Shape) (q : List ℤ) (cut component : ℕ) (head : MainHead)
        → component < 3 → FitBands shape q → part_length shape q cut component < 2 ^ 32
        → head.shape ≡ shape → head.mb ≡ map plane_limit (component_bands 0)
        → bytes ≡ front ++ component_packets shape q cut component ++ rest
        → packets_read bytes head component (packet_order shape) (length front)
        ≡ Ok (packets_of shape q cut component, length front + length (component_packets shape q cut component)) }
{}
