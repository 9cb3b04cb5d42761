//! Tests of code-blocks: their contexts, the decisions of their bit-planes, their codewords and what is read of these.
#![tactic(auto)]

#[cfg(test)]
mod codes;
#[cfg(test)]
mod contexts;
#[cfg(test)]
mod pictures;
#[cfg(test)]
mod planes;
#[cfg(test)]
mod reads;
#[cfg(test)]
mod steps;
