ghost use Rattle.std.specs.Prelude.{◌≡◌, true, false, [], ◌∷◌, ◌++◌, map, replicate, List, Bool, Some, None, Ok, Err};
ghost use Rattle.std.specs.List.{range_with_len};
ghost use Rattle.codec_terms.specs.TagTree.{new_tree, leaves_bits, blank_tree, pushed, wants, leaf_value};
ghost use Rattle.codec_terms.specs.PacketHeader.{pass_bits, packed, packet, ends_with_ff};
ghost use Rattle.codec_terms.specs.PacketReading.{packet_read};
ghost use Rattle.codec_terms.specs.declared.packet.HeadRefusal.TheVariants.{Truncated, BadStuffing, TooManyPasses, LengthPast, WideLength};
ghost use Rattle.codec_values.specs.Worked.{three_bands, three_shapes, no_bands, shape_of_planes, passes_back};

/// Numbers of passes, and stuffed bytes.
pub fn header_values()
    ensures few_passes { map pass_bits (1 ∷ 2 ∷ 5 ∷ [])
        ≡ (false ∷ []) ∷ (true ∷ false ∷ []) ∷ (true ∷ true ∷ true ∷ false ∷ []) ∷ [] }
    ensures six_passes { pass_bits 6 ≡ replicate 4 true ++ replicate 5 false }
    ensures thirty_six_passes { pass_bits 36 ≡ replicate 8 true ++ replicate 1 false }
    ensures thirty_seven_passes { pass_bits 37 ≡ replicate 9 true ++ replicate 7 false }
    // Each number of passes is read back from its bits.
    ensures read { map passes_back (range_with_len 1 164) ≡ range_with_len 1 164 }
    ensures eight_ones { packed (replicate 8 true) ≡ 0xFF ∷ 0x00 ∷ [] }
    ensures nine_ones { packed (replicate 9 true) ≡ 0xFF ∷ 0x40 ∷ [] }
{}

/// The bytes of a header never end with FF.
pub fn header_laws()
    ensures { (bits : List Bool) → ends_with_ff (packed bits) ≡ false }
{}

/// Two leaves, of which the first has value 0 and the second isn't below 1; and trees over no leaf.
pub fn tag_tree_values()
    ensures written { leaves_bits 1 (new_tree 2 1 (0 ∷ 1 ∷ [])) (0 ∷ 1 ∷ []) ≡ true ∷ true ∷ false ∷ [] }
    ensures wanted { wants 1 (blank_tree 2 1) 0 ≡ true }
    ensures first { leaf_value (pushed false 1 (pushed true 1 (pushed true 1 (blank_tree 2 1) 0) 0) 1) 0 ≡ Some 0 }
    ensures empty { (new_tree 0 4 []).levels ≡ [] }
    ensures empty_blank { (blank_tree 0 4).levels ≡ [] }
    ensures second { leaf_value (pushed false 1 (pushed true 1 (pushed true 1 (blank_tree 2 1) 0) 0) 1) 1 ≡ None }
{}

/// A packet with one block in each of three sub-bands, of which one is included.
pub fn packet_values()
    ensures written { packet three_bands ≡ 0xC0 ∷ 0x04 ∷ 0x20 ∷ 0x03 ∷ [] }
    ensures read { packet_read (0xC0 ∷ 0x04 ∷ 0x20 ∷ 0x03 ∷ []) 0 three_shapes
        ≡ Ok (record { bands = three_bands; next = 4 }) }
    ensures cut_short { packet_read (0xC0 ∷ 0x04 ∷ []) 0 three_shapes ≡ Err (Truncated 2) }
    // An FF before a byte with its top bit set; two zero planes of two; two passes of one plane; a length of 33 bits.
    ensures stuffing { packet_read (0xFF ∷ 0x80 ∷ []) 0 three_shapes ≡ Err (BadStuffing 1) }
    ensures no_plane { packet_read (0xC0 ∷ []) 0 (shape_of_planes 2 ∷ []) ≡ Err (TooManyPasses 0 0) }
    ensures passes { packet_read (0xF0 ∷ []) 0 (shape_of_planes 1 ∷ []) ≡ Err (TooManyPasses 0 2) }
    ensures wide { packet_read (0xEF ∷ 0xFF ∷ 0x7F ∷ 0xFF ∷ 0x70 ∷ []) 0 (shape_of_planes 12 ∷ []) ≡ Err (WideLength 4 33) }
    ensures past { packet_read (0xC0 ∷ 0x04 ∷ 0x20 ∷ []) 0 three_shapes ≡ Err (LengthPast 3 1) }
    ensures nothing { packet no_bands ≡ 0x00 ∷ [] }
    ensures nothing_read { packet_read (0x00 ∷ []) 0 three_shapes ≡ Ok (record { bands = no_bands; next = 1 }) }
{}
