//! Worked values of the codec's definitions, each computed by the check, and laws that they meet.
//! No code rests on this crate.
#![tactic(auto)]

mod bands;
mod blocks;
mod colour;
mod packets;
mod streams;
mod transform;

pub use bands::{
    coefficient_laws, kept_values, packet_order_laws, packet_orders, part_laws, sub_band_laws,
    sub_band_values,
};
pub use blocks::{block_values, coder_values, pass_laws, sample_laws};
pub use colour::{colour_laws, colour_values};
pub use packets::{header_laws, header_values, packet_values, tag_tree_values};
pub use streams::{
    block_place_values, cut_laws, cut_values, few_stream_values, main_header_laws, reading_values,
    refusal_values, zero_stream_values,
};
pub use transform::{
    component_values, level_values, lifting_values, quantiser_laws, quantiser_values, wave_values,
};
