//! A codestream (ITU-T T.800, in this profile), read to its coefficients.
#![tactic(auto)]

mod stream;
mod values;

pub use stream::read_stream;
