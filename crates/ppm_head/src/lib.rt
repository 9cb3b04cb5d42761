//! The headers of binary PPM pictures with 16-bit samples.
#![tactic(auto)]

mod header;
mod tokens;

pub use header::BadHeader;
pub use tokens::header_end;
