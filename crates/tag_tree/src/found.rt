ghost use Rattle.std.specs.Prelude.{◌≡◌, ◌<◌, max, None, Some, if◌then◌else◌};
ghost use Rattle.codec_terms.specs.TagTree.{nothing_found, is_open, with_bit};

use std::marker::Model;

/// What a reader knows of a node. Contracts see the definition's record.
#[derive(Clone, Copy, Debug)]
pub(crate) struct Found {
    reached: u32,
    known: bool,
}

impl Model for Found {
    ghost use Rattle.codec_terms.specs.TagTree as tree;

    ghost Value = { tree.Found };

    ghost view = { λ f. record { reached = f.reached; known = f.known } };

    ghost inverse = { λ f. record { reached = f.reached; known = f.known } };
}

impl Found {
    /// A node of which nothing was read.
    pub(crate) fn nothing() -> Self
        ensures { result ≡ nothing_found }
    {
        Found {
            reached: 0,
            known: false,
        }
    }

    /// The least value that what was read leaves the node, below a parent that has reached `low`.
    pub(crate) fn raised(self, low: u32) -> u32
        ensures { result ≡ max low self.reached }
    {
        low.max(self.reached)
    }

    /// Whether a bit for this threshold belongs to the node.
    pub(crate) fn is_open(self, low: u32, threshold: u32) -> bool
        ensures { result ≡ is_open threshold low self }
    {
        !self.known && low.max(self.reached) < threshold
    }

    /// The node when that bit was read.
    pub(crate) fn with_bit(self, low: u32, bit: bool) -> Self
        requires { max low self.reached < 0xffff_ffff }
        ensures { result ≡ with_bit bit low self }
    {
        let reached = low.max(self.reached);
        if bit {
            Found {
                reached,
                known: true,
            }
        } else {
            Found {
                reached: reached + 1,
                known: false,
            }
        }
    }

    /// The node's value, where it is known.
    pub(crate) fn value(self) -> Option<u32>
        ensures { result ≡ (if self.known then Some self.reached else None) }
    {
        if self.known { Some(self.reached) } else { None }
    }
}
