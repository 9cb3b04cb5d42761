//! Tests of codestreams.
#![tactic(auto)]

#[cfg(test)]
mod books;
#[cfg(test)]
mod damaged;
#[cfg(test)]
mod kept;
#[cfg(test)]
mod pictures;
#[cfg(test)]
mod streams;
#[cfg(test)]
mod surveys;
