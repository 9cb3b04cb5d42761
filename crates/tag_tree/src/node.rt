ghost use Rattle.std.specs.Prelude.{◌≡◌, ◌++◌, OnOk, OnErr, length, take};
ghost use Rattle.codec_terms.specs.TagTree.{new_node, node_bits, node_told};

use mast_base::{List, NoMemory};
use std::marker::Model;

/// A node of a writer's tree. Contracts see the definition's node.
#[derive(Clone, Copy, Debug)]
pub(crate) struct Node {
    value: u32,
    reached: u32,
    known: bool,
}

impl Model for Node {
    ghost use Rattle.codec_terms.specs.TagTree as tree;

    ghost Value = { tree.Node };

    ghost view = { λ n. record { value = n.value; reached = n.reached; known = n.known } };

    ghost inverse = { λ n. record { value = n.value; reached = n.reached; known = n.known } };
}

impl Node {
    /// A node of which nothing was sent.
    pub(crate) fn new(value: u32) -> Self
        ensures { result ≡ new_node value }
    {
        Node {
            value,
            reached: 0,
            known: false,
        }
    }

    pub(crate) fn value(self) -> u32
        ensures { result ≡ self.value }
    {
        self.value
    }

    /// The least value that what was sent leaves the node.
    pub(crate) fn reached(self) -> u32
        ensures { result ≡ self.reached }
    {
        self.reached
    }

    /// The node when its bits for this threshold were sent, below a parent that has reached `low`.
    pub(crate) fn told(self, low: u32, threshold: u32) -> Self
        ensures { result ≡ node_told threshold low self }
    {
        Node {
            value: self.value,
            reached: low.max(self.reached).max(self.value.min(threshold)),
            known: self.known || self.value < threshold,
        }
    }

    /// Appends the node's bits for this threshold.
    pub(crate) fn push_bits(
        self,
        low: u32,
        threshold: u32,
        out: &mut List<bool>,
    ) -> Result<(), NoMemory>
        ensures ok { OnOk result (out.new ≡ out.old ++ node_bits threshold low self) }
        ensures err { OnErr result (take (length out.old) out.new ≡ out.old) }
    {
        if self.known {
            return Ok(());
        }
        let zeros = self
            .value
            .min(threshold)
            .saturating_sub(low.max(self.reached));
        for _ in 0..zeros {
            out.push(false)?;
        }
        if self.value < threshold {
            out.push(true)?;
        }
        Ok(())
    }
}
