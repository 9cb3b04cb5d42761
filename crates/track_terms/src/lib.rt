//! What an MXF track file of pictures or of sound is made of: the facts of a track, the keys and tables
//! of its head, and the definitions of its bytes, by which the crates that write it are judged.
//!
//! Words are those of SMPTE ST 377-1 (partitions, primer, header metadata, index segments), ST 379 (the
//! generic container), ST 422 and ST 429-3 and -4 (tracks of a digital cinema package). Which keys, labels,
//! tags and versions a file has is this project's choice.
#![tactic(auto)]

mod facts;
mod key;
mod kind;
mod partition;
mod primer;
mod set;
pub mod tag;
mod value;

pub use facts::TrackFacts;
pub use key::{
    BODY, CODING, FILL, FOOTER, HEADER, INDEX, LABEL, PATTERN, PRIMER, RANDOM_INDEX, SET, UMID,
    key_of,
};
pub use kind::{KindTerms, TrackKind};
pub use partition::Partition;
pub use primer::{PrimerEntry, primer_entries};
pub use set::{SetRow, set_bytes, set_rows};
pub use value::{Fact, Value, Word};
