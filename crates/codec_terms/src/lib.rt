//! The terms in which the codec is defined: its definitions, of ITU-T T.800 and SMPTE ST 428-1, the laws that
//! show them right, and the types of pictures, packets and readings.
#![tactic(auto)]

mod packet;
mod picture;
mod reading;

pub use packet::{BandShape, HeadRefusal, PacketBand, PacketBlock, PacketRead};
pub use picture::{Band, BandKind, Params, Shape, Task};
pub use reading::{Coefficients, MainHead, MarkerRefusal, ReadRefusal};
