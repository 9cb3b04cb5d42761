//! Tests of the markers of codestreams.
#![tactic(auto)]

#[cfg(test)]
mod changes;
#[cfg(test)]
mod headers;
#[cfg(test)]
mod orders;
#[cfg(test)]
mod parts;
