//! From 16-bit RGB samples to 12-bit X'Y'Z' code values (SMPTE ST 428-1), by tables and a row at a time.
#![tactic(auto)]

mod entries;
mod power;
mod row;
mod tables;
mod weights;

pub use row::to_xyz_row;
pub use tables::Tables;
