ghost use Rattle.std.specs.Prelude.{Some, codes};

use std::error::Error;
use std::fmt;

/// A device did not do what it was asked.
#[derive(Clone, Copy, Debug, PartialEq, Eq)]
pub struct Failed;

/// The output folder failed.
#[derive(Clone, Copy, Debug, PartialEq, Eq)]
pub struct StoreFault;

impl fmt::Display for Failed {
    ghost output = { λ _. Some (codes "device fault") };

    fn fmt<W: fmt::Write>(&self, f: &mut fmt::Formatter<W>) -> fmt::Result {
        f.write_str("device fault")
    }
}

impl fmt::Display for StoreFault {
    ghost output = { λ _. Some (codes "store fault") };

    fn fmt<W: fmt::Write>(&self, f: &mut fmt::Formatter<W>) -> fmt::Result {
        f.write_str("store fault")
    }
}

impl Error for Failed {}

impl Error for StoreFault {}

impl From<Failed> for StoreFault {
    fn from(_error: Failed) -> Self {
        StoreFault
    }
}
