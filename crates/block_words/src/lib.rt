//! The words of a code-block's samples, which tell of their neighbours, and laws of the definition's steps by what a word
//! tells (ITU-T T.800, Annex D.3).
#![tactic(auto)]

mod marking;

pub use marking::mark;
