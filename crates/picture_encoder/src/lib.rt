//! The encoder of pictures: raw bytes to a codestream within byte limits, at the least cut that fits.
#![tactic(auto)]

mod assembly;
mod beginning;
mod encoded;
mod encoder;

pub use assembly::assemble;
pub use encoded::Encoded;
pub use encoder::Encoder;
