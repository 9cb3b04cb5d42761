ghost use Rattle.std.specs.Prelude.{◌≡◌};
ghost use Rattle.track_terms.specs.Partitions as spec;

use crate::key::{BODY, FOOTER, HEADER};

/// What one partition's pack says. Places and counts are in bytes.
#[derive(Clone, Copy, Debug, PartialEq, Eq)]
pub struct Partition {
    /// The key, in groups of four bytes.
    pub key: [u32; 4],
    /// The place where this partition begins.
    pub this: u64,
    /// The place where the one before begins.
    pub previous: u64,
    /// The place where the footer begins, 0 where it isn't known.
    pub footer: u64,
    /// How many bytes of header metadata follow the pack.
    pub header_bytes: u64,
    /// How many bytes of index segments follow the pack.
    pub index_bytes: u64,
    /// The number of the index stream, 0 for none.
    pub index_id: u32,
    /// The number of the essence's stream, 0 for none.
    pub body_id: u32,
}

impl Partition {
    /// That of the header metadata, for a file whose footer begins at this place.
    pub fn header(footer: u64) -> Self
        ensures { result ≡ spec.header_partition footer }
    {
        Partition {
            key: HEADER,
            this: 0,
            previous: 0,
            footer,
            header_bytes: 16_260,
            index_bytes: 0,
            index_id: 0,
            body_id: 0,
        }
    }

    /// That of the items.
    pub fn body(footer: u64) -> Self
        ensures { result ≡ spec.body_partition footer }
    {
        Partition {
            key: BODY,
            this: 16_384,
            previous: 0,
            footer,
            header_bytes: 0,
            index_bytes: 0,
            index_id: 0,
            body_id: 1,
        }
    }

    /// That of so many bytes of index segments.
    pub fn footer(footer: u64, index_bytes: u64) -> Self
        ensures { result ≡ spec.footer_partition footer index_bytes }
    {
        Partition {
            key: FOOTER,
            this: footer,
            previous: 16_384,
            footer,
            header_bytes: 0,
            index_bytes,
            index_id: 129,
            body_id: 0,
        }
    }
}
