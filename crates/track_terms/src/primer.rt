ghost use Rattle.std.specs.Prelude.{◌≡◌};
ghost use Rattle.track_terms.specs.Primer as spec;

use crate::tag::*;

/// What the primer says of a tag.
#[derive(Clone, Copy, Debug)]
pub struct PrimerEntry {
    pub tag: u16,
    /// The tag's label behind its first four bytes, in groups of four bytes.
    pub label: [u32; 3],
}

/// The labels of all tags, by tags.
#[rattlefmt::skip]
static ENTRIES: [PrimerEntry; 49] = [
    PrimerEntry { tag: DATA_DEFINITION, label: [0x0101_0102, 0x0407_0100, 0x0000_0000] },
    PrimerEntry { tag: DURATION, label: [0x0101_0102, 0x0702_0201, 0x0103_0000] },
    PrimerEntry { tag: COMPONENTS, label: [0x0101_0102, 0x0601_0104, 0x0609_0000] },
    PrimerEntry { tag: SOURCE_PACKAGE, label: [0x0101_0102, 0x0601_0103, 0x0100_0000] },
    PrimerEntry { tag: SOURCE_TRACK, label: [0x0101_0102, 0x0601_0103, 0x0200_0000] },
    PrimerEntry { tag: START_POSITION, label: [0x0101_0102, 0x0702_0103, 0x0104_0000] },
    PrimerEntry { tag: PACKAGES, label: [0x0101_0102, 0x0601_0104, 0x0501_0000] },
    PrimerEntry { tag: ESSENCE_DATA, label: [0x0101_0102, 0x0601_0104, 0x0502_0000] },
    PrimerEntry { tag: LINKED_PACKAGE, label: [0x0101_0102, 0x0601_0106, 0x0100_0000] },
    PrimerEntry { tag: SAMPLE_RATE, label: [0x0101_0101, 0x0406_0101, 0x0000_0000] },
    PrimerEntry { tag: CONTAINER_DURATION, label: [0x0101_0101, 0x0406_0102, 0x0000_0000] },
    PrimerEntry { tag: ESSENCE_CONTAINER, label: [0x0101_0102, 0x0601_0104, 0x0102_0000] },
    PrimerEntry { tag: LINKED_TRACK, label: [0x0101_0105, 0x0601_0103, 0x0500_0000] },
    PrimerEntry { tag: PICTURE_CODING, label: [0x0101_0102, 0x0401_0601, 0x0000_0000] },
    PrimerEntry { tag: STORED_HEIGHT, label: [0x0101_0101, 0x0401_0502, 0x0100_0000] },
    PrimerEntry { tag: STORED_WIDTH, label: [0x0101_0101, 0x0401_0502, 0x0200_0000] },
    PrimerEntry { tag: FRAME_LAYOUT, label: [0x0101_0101, 0x0401_0301, 0x0400_0000] },
    PrimerEntry { tag: ASPECT_RATIO, label: [0x0101_0101, 0x0401_0101, 0x0100_0000] },
    PrimerEntry { tag: LAST_MODIFIED, label: [0x0101_0102, 0x0702_0110, 0x0204_0000] },
    PrimerEntry { tag: CONTENT_STORAGE, label: [0x0101_0102, 0x0601_0104, 0x0201_0000] },
    PrimerEntry { tag: VERSION, label: [0x0101_0102, 0x0301_0201, 0x0500_0000] },
    PrimerEntry { tag: IDENTIFICATIONS, label: [0x0101_0102, 0x0601_0104, 0x0604_0000] },
    PrimerEntry { tag: OPERATIONAL_PATTERN, label: [0x0101_0105, 0x0102_0203, 0x0000_0000] },
    PrimerEntry { tag: ESSENCE_CONTAINERS, label: [0x0101_0105, 0x0102_0210, 0x0201_0000] },
    PrimerEntry { tag: DESCRIPTIVE_SCHEMES, label: [0x0101_0105, 0x0102_0210, 0x0202_0000] },
    PrimerEntry { tag: COMPANY_NAME, label: [0x0101_0102, 0x0520_0701, 0x0201_0000] },
    PrimerEntry { tag: PRODUCT_NAME, label: [0x0101_0102, 0x0520_0701, 0x0301_0000] },
    PrimerEntry { tag: VERSION_STRING, label: [0x0101_0102, 0x0520_0701, 0x0501_0000] },
    PrimerEntry { tag: PRODUCT_ID, label: [0x0101_0102, 0x0520_0701, 0x0700_0000] },
    PrimerEntry { tag: MODIFIED, label: [0x0101_0102, 0x0702_0110, 0x0203_0000] },
    PrimerEntry { tag: GENERATION_ID, label: [0x0101_0102, 0x0520_0701, 0x0100_0000] },
    PrimerEntry { tag: INSTANCE_ID, label: [0x0101_0101, 0x0101_1502, 0x0000_0000] },
    PrimerEntry { tag: QUANTISATION_BITS, label: [0x0101_0104, 0x0402_0303, 0x0400_0000] },
    PrimerEntry { tag: AUDIO_RATE, label: [0x0101_0105, 0x0402_0301, 0x0101_0000] },
    PrimerEntry { tag: CHANNEL_COUNT, label: [0x0101_0105, 0x0402_0101, 0x0400_0000] },
    PrimerEntry { tag: BYTES_A_SECOND, label: [0x0101_0105, 0x0402_0303, 0x0500_0000] },
    PrimerEntry { tag: BLOCK_ALIGN, label: [0x0101_0105, 0x0402_0302, 0x0100_0000] },
    PrimerEntry { tag: INDEX_ID, label: [0x0101_0104, 0x0103_0405, 0x0000_0000] },
    PrimerEntry { tag: BODY_ID, label: [0x0101_0104, 0x0103_0404, 0x0000_0000] },
    PrimerEntry { tag: PACKAGE_ID, label: [0x0101_0101, 0x0101_1510, 0x0000_0000] },
    PrimerEntry { tag: TRACKS, label: [0x0101_0102, 0x0601_0104, 0x0605_0000] },
    PrimerEntry { tag: PACKAGE_MODIFIED, label: [0x0101_0102, 0x0702_0110, 0x0205_0000] },
    PrimerEntry { tag: PACKAGE_CREATED, label: [0x0101_0102, 0x0702_0110, 0x0103_0000] },
    PrimerEntry { tag: DESCRIPTOR, label: [0x0101_0102, 0x0601_0104, 0x0203_0000] },
    PrimerEntry { tag: TRACK_ID, label: [0x0101_0102, 0x0107_0101, 0x0000_0000] },
    PrimerEntry { tag: SEQUENCE, label: [0x0101_0102, 0x0601_0104, 0x0204_0000] },
    PrimerEntry { tag: TRACK_NUMBER, label: [0x0101_0102, 0x0104_0103, 0x0000_0000] },
    PrimerEntry { tag: EDIT_RATE, label: [0x0101_0102, 0x0530_0405, 0x0000_0000] },
    PrimerEntry { tag: ORIGIN, label: [0x0101_0102, 0x0702_0103, 0x0103_0000] },
];

/// What a primer can say, by tags. That of a file has what is said of the tags in its sets.
#[tactic(auto, unfolding(crate::specs::Primer::all_entries))]
pub fn primer_entries() -> &'static [PrimerEntry]
    ensures { result.now ≡ spec.all_entries }
{
    &ENTRIES
}
