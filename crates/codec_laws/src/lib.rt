//! Laws of the codec's definitions, on which the encoder, the packets and the reader stand. They name no code, so
//! that a change of the code proves none of them again.
#![tactic(auto)]

mod blocks;
mod coefficients;
mod packets;
mod streams;

pub use blocks::{
    context_laws, highest_plane_laws, plane_decision_laws, plane_laws, significance_laws,
};
pub use coefficients::{coefficient_laws, quantiser_laws, wave_laws};
pub use packets::{
    block_laws, codeword_laws, header_number_laws, packed_bits_laws, packet_band_laws,
    precinct_laws, tag_tree_laws,
};
pub use streams::{last_cut_laws, main_header_laws, stream_laws};
