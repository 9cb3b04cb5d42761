ghost use Rattle.std.specs.Prelude.{◌≡◌, max, IfOk, IfErr, OnOk, OnErr, Ok, Err};
ghost use Rattle.codec_terms.specs.TagTree.{nothing_found};
ghost use Rattle.codec_laws.specs.TreeReading.{no_found};
ghost use Rattle.packet_scan.specs.Nodes.{known_value, node_read};

use codec_terms::HeadRefusal;
use header_bits::{BitPlace, read_zeros};
use std::marker::Model;

/// What is known of a node of a tag tree. Contracts see the definition's record.
#[derive(Clone, Copy, Debug)]
pub(crate) struct Node {
    reached: u8,
    known: bool,
}

impl Model for Node {
    ghost use Rattle.codec_terms.specs.TagTree as tree;

    ghost Value = { tree.Found };

    ghost view = { λ n. record { reached = n.reached; known = n.known } };

    ghost inverse = { λ n. record { reached = n.reached; known = n.known } };
}

impl Node {
    /// A node of which nothing is known.
    pub(crate) fn new() -> Self
        ensures { result ≡ nothing_found }
    {
        Node {
            reached: 0,
            known: false,
        }
    }

    /// What stands for a node above the root: it wants no bits, and changes none below it.
    pub(crate) fn none() -> Self
        ensures { result ≡ no_found }
    {
        Node {
            reached: 0,
            known: true,
        }
    }

    // The node's value, where it is known.
    fn value(self) -> Option<u32>
        ensures { result ≡ known_value self }
    {
        if self.known {
            Some(u32::from(self.reached))
        } else {
            None
        }
    }

    /// Reads the node's bits for this threshold, below a parent that has reached `low`, and gives what the node then has
    /// reached.
    pub(crate) fn read(
        &mut self,
        bytes: &[u8],
        place: &mut BitPlace,
        low: u8,
        threshold: u8,
    ) -> Result<u8, HeadRefusal>
        ensures read { OnOk result (node_read bytes.now threshold low self.old place.old ≡ Ok (self.new, place.new)) }
        ensures reached { IfOk result (λ reached. reached ≡ max low self.new.reached) }
        ensures refused { IfErr result (λ refusal. node_read bytes.now threshold low self.old place.old ≡ Err refusal) }
        ensures kept { OnErr result (self.new ≡ self.old) }
    {
        let raised = low.max(self.reached);
        if self.known || threshold <= raised {
            return Ok(raised);
        }
        let zeros = read_zeros(bytes, place, raised, threshold - raised)?;
        self.reached = zeros.count;
        self.known = zeros.ended;
        Ok(zeros.count)
    }

    /// Reads the node's bits as `read` does, and gives its value, where it is then known.
    pub(crate) fn read_value(
        &mut self,
        bytes: &[u8],
        place: &mut BitPlace,
        low: u8,
        threshold: u8,
    ) -> Result<Option<u32>, HeadRefusal>
        ensures read { OnOk result (node_read bytes.now threshold low self.old place.old ≡ Ok (self.new, place.new)) }
        ensures value { IfOk result (λ value. value ≡ known_value self.new) }
        ensures refused { IfErr result (λ refusal. node_read bytes.now threshold low self.old place.old ≡ Err refusal) }
        ensures kept { OnErr result (self.new ≡ self.old) }
    {
        self.read(bytes, place, low, threshold)?;
        Ok(self.value())
    }
}
