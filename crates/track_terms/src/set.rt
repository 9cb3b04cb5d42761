ghost use Rattle.std.specs.Prelude.{◌≡◌, length};
ghost use Rattle.track_terms.specs.Sets as spec;

use crate::key::{CODING, PATTERN};
use crate::tag::*;
use crate::value::{Fact, Value, Word};

/// An item of a set of the header metadata.
#[derive(Clone, Copy, Debug)]
pub struct SetRow {
    /// The set's number, from 1.
    pub set: u8,
    pub tag: u16,
    pub value: Value,
}

/// The byte of each set's key that says which it is, from set 1 on.
static BYTES: [u8; 14] = [
    0x2F, 0x30, 0x18, 0x23, 0x36, 0x3B, 0x0F, 0x11, 0x37, 0x3B, 0x0F, 0x11, 0x29, 0x48,
];

/// The items of all sets, in their order. A file has one of the two descriptors, the last sets: both are
/// referred to as 13.
#[rattlefmt::skip]
static ROWS: [SetRow; 85] = [
    // The preface.
    SetRow { set: 1, tag: INSTANCE_ID, value: Value::Reference(1) },
    SetRow { set: 1, tag: LAST_MODIFIED, value: Value::Fact(Fact::Issued) },
    SetRow { set: 1, tag: VERSION, value: Value::U16(0x0102) },
    SetRow { set: 1, tag: IDENTIFICATIONS, value: Value::OneReference(2) },
    SetRow { set: 1, tag: CONTENT_STORAGE, value: Value::Reference(3) },
    SetRow { set: 1, tag: OPERATIONAL_PATTERN, value: Value::Label(PATTERN) },
    SetRow { set: 1, tag: ESSENCE_CONTAINERS, value: Value::OneContainer },
    SetRow { set: 1, tag: DESCRIPTIVE_SCHEMES, value: Value::NoLabels },
    // The identification.
    SetRow { set: 2, tag: INSTANCE_ID, value: Value::Reference(2) },
    SetRow { set: 2, tag: GENERATION_ID, value: Value::Id(Word::Generation) },
    SetRow { set: 2, tag: COMPANY_NAME, value: Value::Text(Word::Maker) },
    SetRow { set: 2, tag: PRODUCT_NAME, value: Value::Text(Word::Maker) },
    SetRow { set: 2, tag: VERSION_STRING, value: Value::Text(Word::MakerVersion) },
    SetRow { set: 2, tag: PRODUCT_ID, value: Value::Id(Word::Product) },
    SetRow { set: 2, tag: MODIFIED, value: Value::Fact(Fact::Issued) },
    // The content storage.
    SetRow { set: 3, tag: INSTANCE_ID, value: Value::Reference(3) },
    SetRow { set: 3, tag: PACKAGES, value: Value::TwoReferences(5, 9) },
    SetRow { set: 3, tag: ESSENCE_DATA, value: Value::OneReference(4) },
    // The essence container data.
    SetRow { set: 4, tag: INSTANCE_ID, value: Value::Reference(4) },
    SetRow { set: 4, tag: LINKED_PACKAGE, value: Value::SourcePackage },
    SetRow { set: 4, tag: INDEX_ID, value: Value::U32(129) },
    SetRow { set: 4, tag: BODY_ID, value: Value::U32(1) },
    // The material package.
    SetRow { set: 5, tag: INSTANCE_ID, value: Value::Reference(5) },
    SetRow { set: 5, tag: PACKAGE_ID, value: Value::MaterialPackage },
    SetRow { set: 5, tag: PACKAGE_CREATED, value: Value::Fact(Fact::Issued) },
    SetRow { set: 5, tag: PACKAGE_MODIFIED, value: Value::Fact(Fact::Issued) },
    SetRow { set: 5, tag: TRACKS, value: Value::OneReference(6) },
    // The material package's track.
    SetRow { set: 6, tag: INSTANCE_ID, value: Value::Reference(6) },
    SetRow { set: 6, tag: TRACK_ID, value: Value::U32(1) },
    SetRow { set: 6, tag: TRACK_NUMBER, value: Value::U32(0) },
    SetRow { set: 6, tag: EDIT_RATE, value: Value::Fact(Fact::Rate) },
    SetRow { set: 6, tag: ORIGIN, value: Value::U64(0) },
    SetRow { set: 6, tag: SEQUENCE, value: Value::Reference(7) },
    // The sequence of that track.
    SetRow { set: 7, tag: INSTANCE_ID, value: Value::Reference(7) },
    SetRow { set: 7, tag: DATA_DEFINITION, value: Value::DataDefinition },
    SetRow { set: 7, tag: DURATION, value: Value::Fact(Fact::Frames) },
    SetRow { set: 7, tag: COMPONENTS, value: Value::OneReference(8) },
    // The source clip of that sequence.
    SetRow { set: 8, tag: INSTANCE_ID, value: Value::Reference(8) },
    SetRow { set: 8, tag: DATA_DEFINITION, value: Value::DataDefinition },
    SetRow { set: 8, tag: DURATION, value: Value::Fact(Fact::Frames) },
    SetRow { set: 8, tag: START_POSITION, value: Value::U64(0) },
    SetRow { set: 8, tag: SOURCE_PACKAGE, value: Value::SourcePackage },
    SetRow { set: 8, tag: SOURCE_TRACK, value: Value::U32(1) },
    // The source package.
    SetRow { set: 9, tag: INSTANCE_ID, value: Value::Reference(9) },
    SetRow { set: 9, tag: PACKAGE_ID, value: Value::SourcePackage },
    SetRow { set: 9, tag: PACKAGE_CREATED, value: Value::Fact(Fact::Issued) },
    SetRow { set: 9, tag: PACKAGE_MODIFIED, value: Value::Fact(Fact::Issued) },
    SetRow { set: 9, tag: TRACKS, value: Value::OneReference(10) },
    SetRow { set: 9, tag: DESCRIPTOR, value: Value::Reference(13) },
    // The source package's track.
    SetRow { set: 10, tag: INSTANCE_ID, value: Value::Reference(10) },
    SetRow { set: 10, tag: TRACK_ID, value: Value::U32(1) },
    SetRow { set: 10, tag: TRACK_NUMBER, value: Value::TrackNumber },
    SetRow { set: 10, tag: EDIT_RATE, value: Value::Fact(Fact::Rate) },
    SetRow { set: 10, tag: ORIGIN, value: Value::U64(0) },
    SetRow { set: 10, tag: SEQUENCE, value: Value::Reference(11) },
    // The sequence of that track.
    SetRow { set: 11, tag: INSTANCE_ID, value: Value::Reference(11) },
    SetRow { set: 11, tag: DATA_DEFINITION, value: Value::DataDefinition },
    SetRow { set: 11, tag: DURATION, value: Value::Fact(Fact::Frames) },
    SetRow { set: 11, tag: COMPONENTS, value: Value::OneReference(12) },
    // The source clip of that sequence.
    SetRow { set: 12, tag: INSTANCE_ID, value: Value::Reference(12) },
    SetRow { set: 12, tag: DATA_DEFINITION, value: Value::DataDefinition },
    SetRow { set: 12, tag: DURATION, value: Value::Fact(Fact::Frames) },
    SetRow { set: 12, tag: START_POSITION, value: Value::U64(0) },
    SetRow { set: 12, tag: SOURCE_PACKAGE, value: Value::NoPackage },
    SetRow { set: 12, tag: SOURCE_TRACK, value: Value::U32(0) },
    // The descriptor of pictures.
    SetRow { set: 13, tag: INSTANCE_ID, value: Value::Reference(13) },
    SetRow { set: 13, tag: LINKED_TRACK, value: Value::U32(1) },
    SetRow { set: 13, tag: SAMPLE_RATE, value: Value::Fact(Fact::Rate) },
    SetRow { set: 13, tag: CONTAINER_DURATION, value: Value::Fact(Fact::Frames) },
    SetRow { set: 13, tag: ESSENCE_CONTAINER, value: Value::Container },
    SetRow { set: 13, tag: STORED_WIDTH, value: Value::Fact(Fact::Width) },
    SetRow { set: 13, tag: STORED_HEIGHT, value: Value::Fact(Fact::Height) },
    SetRow { set: 13, tag: FRAME_LAYOUT, value: Value::U8(0) },
    SetRow { set: 13, tag: ASPECT_RATIO, value: Value::Fact(Fact::AspectRatio) },
    SetRow { set: 13, tag: PICTURE_CODING, value: Value::Label(CODING) },
    // The descriptor of sound.
    SetRow { set: 14, tag: INSTANCE_ID, value: Value::Reference(13) },
    SetRow { set: 14, tag: LINKED_TRACK, value: Value::U32(1) },
    SetRow { set: 14, tag: SAMPLE_RATE, value: Value::Fact(Fact::Rate) },
    SetRow { set: 14, tag: CONTAINER_DURATION, value: Value::Fact(Fact::Frames) },
    SetRow { set: 14, tag: ESSENCE_CONTAINER, value: Value::Container },
    SetRow { set: 14, tag: AUDIO_RATE, value: Value::Rational(48_000, 1) },
    SetRow { set: 14, tag: CHANNEL_COUNT, value: Value::Fact(Fact::Channels) },
    SetRow { set: 14, tag: QUANTISATION_BITS, value: Value::U32(24) },
    SetRow { set: 14, tag: BLOCK_ALIGN, value: Value::Fact(Fact::SampleBytes) },
    SetRow { set: 14, tag: BYTES_A_SECOND, value: Value::Fact(Fact::SecondBytes) },
];

/// The byte of each set's key that says which it is, from set 1 on.
#[tactic(auto, unfolding(crate::specs::Sets::bytes))]
pub fn set_bytes() -> &'static [u8]
    ensures bytes { result.now ≡ spec.bytes }
    ensures count { length result.now ≡ 14 }
{
    &BYTES
}

/// The items of all sets, in their order.
#[tactic(auto, unfolding(crate::specs::Sets::rows))]
pub fn set_rows() -> &'static [SetRow]
    ensures { result.now ≡ spec.rows }
{
    &ROWS
}
