//! Tests of tag trees and packets.
#![tactic(auto)]

#[cfg(test)]
mod drawn;
#[cfg(test)]
mod packets;
#[cfg(test)]
mod readings;
#[cfg(test)]
mod sizes;
#[cfg(test)]
mod trees;
