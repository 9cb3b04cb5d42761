//! A forecast of the least cut at which a picture's codestream is within its limits, from how many samples each
//! bit-plane makes significant. An encoder that begins a little above that cut codes few bit-planes in vain.
#![tactic(auto)]

mod block;
mod entropy;
mod forecast;
mod length;

pub use forecast::Forecast;
