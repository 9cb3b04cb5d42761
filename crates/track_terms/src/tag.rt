//! The tags of the items of sets: an item's tag says what its value is.

pub const DATA_DEFINITION: u16 = 0x0201;

pub const DURATION: u16 = 0x0202;

pub const COMPONENTS: u16 = 0x1001;

pub const SOURCE_PACKAGE: u16 = 0x1101;

pub const SOURCE_TRACK: u16 = 0x1102;

pub const START_POSITION: u16 = 0x1201;

pub const PACKAGES: u16 = 0x1901;

pub const ESSENCE_DATA: u16 = 0x1902;

pub const LINKED_PACKAGE: u16 = 0x2701;

pub const SAMPLE_RATE: u16 = 0x3001;

pub const CONTAINER_DURATION: u16 = 0x3002;

pub const ESSENCE_CONTAINER: u16 = 0x3004;

pub const LINKED_TRACK: u16 = 0x3006;

pub const PICTURE_CODING: u16 = 0x3201;

pub const STORED_HEIGHT: u16 = 0x3202;

pub const STORED_WIDTH: u16 = 0x3203;

pub const FRAME_LAYOUT: u16 = 0x320C;

pub const ASPECT_RATIO: u16 = 0x320E;

pub const LAST_MODIFIED: u16 = 0x3B02;

pub const CONTENT_STORAGE: u16 = 0x3B03;

pub const VERSION: u16 = 0x3B05;

pub const IDENTIFICATIONS: u16 = 0x3B06;

pub const OPERATIONAL_PATTERN: u16 = 0x3B09;

pub const ESSENCE_CONTAINERS: u16 = 0x3B0A;

pub const DESCRIPTIVE_SCHEMES: u16 = 0x3B0B;

pub const COMPANY_NAME: u16 = 0x3C01;

pub const PRODUCT_NAME: u16 = 0x3C02;

pub const VERSION_STRING: u16 = 0x3C04;

pub const PRODUCT_ID: u16 = 0x3C05;

pub const MODIFIED: u16 = 0x3C06;

pub const GENERATION_ID: u16 = 0x3C09;

pub const INSTANCE_ID: u16 = 0x3C0A;

pub const QUANTISATION_BITS: u16 = 0x3D01;

pub const AUDIO_RATE: u16 = 0x3D03;

pub const CHANNEL_COUNT: u16 = 0x3D07;

pub const BYTES_A_SECOND: u16 = 0x3D09;

pub const BLOCK_ALIGN: u16 = 0x3D0A;

pub const INDEX_ID: u16 = 0x3F06;

pub const BODY_ID: u16 = 0x3F07;

pub const PACKAGE_ID: u16 = 0x4401;

pub const TRACKS: u16 = 0x4403;

pub const PACKAGE_MODIFIED: u16 = 0x4404;

pub const PACKAGE_CREATED: u16 = 0x4405;

pub const DESCRIPTOR: u16 = 0x4701;

pub const TRACK_ID: u16 = 0x4801;

pub const SEQUENCE: u16 = 0x4803;

pub const TRACK_NUMBER: u16 = 0x4804;

pub const EDIT_RATE: u16 = 0x4B01;

pub const ORIGIN: u16 = 0x4B02;

// Those of index segments, which the primer leaves out.
pub const EDIT_UNIT_BYTES: u16 = 0x3F05;

pub const SLICE_COUNT: u16 = 0x3F08;

pub const INDEX_ENTRIES: u16 = 0x3F0A;

pub const INDEX_RATE: u16 = 0x3F0B;

pub const INDEX_START: u16 = 0x3F0C;

pub const INDEX_DURATION: u16 = 0x3F0D;
