ghost use Rattle.std.specs.Prelude.{◌≡◌, ◌+◌, ◌^◌, ◌<◌, ◌≤◌};
ghost use Rattle.codec_terms.specs.TagTree.{new_node, no_node, node_bits, node_told};
ghost use Rattle.packet_size.specs.Counting.{counted};

use crate::counter::BitCounter;
use std::marker::Model;

/// A node of a tag tree whose bits are counted. Contracts see the definition's node.
#[derive(Clone, Copy, Debug)]
pub(crate) struct Node {
    value: u16,
    reached: u16,
    known: bool,
}

impl Model for Node {
    ghost use Rattle.codec_terms.specs.TagTree as tree;

    ghost Value = { tree.Node };

    ghost view = { λ n. record { value = n.value; reached = n.reached; known = n.known } };

    ghost inverse = { λ n. record { value = n.value; reached = n.reached; known = n.known } };
}

impl Node {
    /// A node of which nothing was told.
    pub(crate) fn new(value: u16) -> Self
        ensures { result ≡ new_node value }
    {
        Node {
            value,
            reached: 0,
            known: false,
        }
    }

    /// What stands for a node above the root: it has no bits, and changes none below it.
    pub(crate) fn none() -> Self
        ensures { result ≡ no_node }
    {
        Node {
            value: 0,
            reached: 0,
            known: true,
        }
    }

    pub(crate) fn value(self) -> u16
        ensures { result ≡ self.value }
    {
        self.value
    }

    /// Counts the node's bits for this threshold, below a parent that has reached `low`, and gives what the node then
    /// has reached.
    pub(crate) fn tell(&mut self, low: u16, threshold: u16, counter: &mut BitCounter) -> u16
        requires room { counter.old.bytes < 2 ^ 62 }
        ensures told { self.new ≡ node_told threshold low self.old }
        ensures bits { counter.new ≡ counted counter.old (node_bits threshold low self.old) }
        ensures reached { result ≡ self.new.reached }
        ensures few { counter.new.bytes ≤ counter.old.bytes + 2 ^ 16 }
    {
        let raised = low.max(self.reached);
        let reached = self.value.min(threshold);
        let below = self.value < threshold;
        if !self.known {
            counter.put_run(u32::from(reached.saturating_sub(raised)), below);
        }
        self.reached = raised.max(reached);
        self.known = self.known || below;
        self.reached
    }
}
