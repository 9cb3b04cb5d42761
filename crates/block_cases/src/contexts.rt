//! Rows of T.800's tables D.1 to D.4.

use block_contexts::{refine_context, sign_code, sign_context, zero_codes, zero_context};
use codec_terms::BandKind;

#[test]
fn zero_contexts_are_those_of_the_table(rt: HostRuntime) {
    // Each with the contexts for LL, HL, LH and HH.
    for (word, contexts) in [
        (0b0000_0000, [0, 0, 0, 0]),
        (0b0000_0001, [5, 3, 5, 1]),
        (0b0000_0011, [8, 4, 8, 2]),
        (0b0000_0100, [3, 5, 3, 1]),
        (0b0000_1100, [4, 8, 4, 2]),
        (0b0000_0101, [7, 7, 7, 2]),
        (0b0001_0000, [1, 1, 1, 3]),
        (0b0011_0000, [2, 2, 2, 6]),
        (0b0111_0000, [2, 2, 2, 8]),
        (0b0001_0010, [6, 3, 6, 4]),
        (0b1000_1000, [3, 6, 3, 4]),
        (0b1010_1001, [7, 7, 7, 7]),
        (0b1111_1111, [8, 8, 8, 8]),
    ] {
        let [ll, hl, lh, hh] = contexts;
        assert_eq!(rt; zero_context(BandKind::LL, word), ll, "LL at {word}");
        assert_eq!(rt; zero_context(BandKind::HL, word), hl, "HL at {word}");
        assert_eq!(rt; zero_context(BandKind::LH, word), lh, "LH at {word}");
        assert_eq!(rt;
            zero_context(BandKind::HH, word | 0xf000),
            hh,
            "HH at {word}"
        );
    }
    assert_eq!(rt; zero_codes(BandKind::HL)[0x04], 10);
}

#[test]
fn sign_contexts_are_those_of_the_table(rt: HostRuntime) {
    for (word, context, flips) in [
        (0x0005, 13, false),
        (0x0003, 12, false),
        (0x0405, 11, false),
        (0x0008, 10, false),
        (0x0000, 9, false),
        (0x0804, 10, false),
        (0x0103, 9, false),
        (0x0808, 10, true),
        (0x0105, 11, true),
        (0x0101, 12, true),
        (0x0303, 12, true),
        (0x0f0f, 13, true),
        // A sign counts only where the neighbour is significant.
        (0x0f05, 13, true),
        (0x0b00, 9, false),
    ] {
        let (got, turned) = sign_context(word);
        assert_eq!(rt; got, context, "at {word}");
        assert!(rt; turned == flips);
        assert_eq!(rt; sign_code(word), 2 * context + u8::from(flips), "at {word}");
    }
}

#[test]
fn refinement_contexts_are_those_of_the_table(rt: HostRuntime) {
    assert_eq!(rt; refine_context(0x0f00, true), 14);
    assert_eq!(rt; refine_context(0x0080, true), 15);
    assert_eq!(rt; refine_context(0x0001, true), 15);
    assert_eq!(rt; refine_context(0x0000, false), 16);
    assert_eq!(rt; refine_context(0x00ff, false), 16);
}
