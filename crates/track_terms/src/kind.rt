ghost use Rattle.std.specs.Prelude.{◌≡◌};
ghost use Rattle.track_terms.specs.Kinds as spec;

use crate::key::LABEL;

/// What a track holds.
#[derive(Clone, Copy, Debug, PartialEq, Eq)]
pub enum TrackKind {
    Picture,
    Sound,
}

/// What differs between a file of pictures and one of sound. Keys and labels are in groups of four bytes.
#[derive(Clone, Copy, Debug)]
pub struct KindTerms {
    /// The key of the items.
    pub item_key: [u32; 4],
    /// The label of the essence container.
    pub container: [u32; 4],
    /// The label of the data definition.
    pub definition: [u32; 4],
    /// The number of the set that describes the essence.
    pub descriptor: u8,
}

const PICTURE_TERMS: KindTerms = KindTerms {
    item_key: [LABEL, 0x0102_0101, 0x0D01_0301, 0x1501_0801],
    container: [LABEL, 0x0401_0107, 0x0D01_0301, 0x020C_0100],
    definition: [LABEL, 0x0401_0101, 0x0103_0202, 0x0100_0000],
    descriptor: 13,
};

const SOUND_TERMS: KindTerms = KindTerms {
    item_key: [LABEL, 0x0102_0101, 0x0D01_0301, 0x1601_0101],
    container: [LABEL, 0x0401_0101, 0x0D01_0301, 0x0206_0100],
    definition: [LABEL, 0x0401_0101, 0x0103_0202, 0x0200_0000],
    descriptor: 14,
};

impl TrackKind {
    pub fn terms(self) -> KindTerms
        ensures { result ≡ spec.terms_of self }
    {
        match self {
            TrackKind::Picture => PICTURE_TERMS,
            TrackKind::Sound => SOUND_TERMS,
        }
    }

    /// Whether a file of this kind has the set of this number: it has one of the two descriptors.
    pub fn has_set(self, set: u8) -> bool
        ensures { result ≡ spec.has_set self set }
    {
        set <= 12 || set == self.terms().descriptor
    }
}
