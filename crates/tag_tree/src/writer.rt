ghost use Rattle.std.specs.Prelude.{◌≡◌, ◌*◌, IfOk, length};
ghost use Rattle.std.specs.List.{range_with_len};
ghost use Rattle.codec_terms.specs.TagTree.{new_tree, leaves_bits};
ghost use Rattle.tag_tree.specs.Asking.{each_leaf, value_below, AreReadBack};

use crate::fill::fill;
use crate::grid::Grid;
use crate::levels::levels_of;
use crate::node::Node;
use crate::paths::{Leaf, push_bits, tell};
use crate::truncate::truncate;
use mast_base::{List, NoMemory};
use std::alloc::Global;
use std::marker::Model;

/// A writer of a tree's bits. Contracts see the definition's tree.
#[derive(Debug, Drop)]
pub struct TreeWriter {
    columns: usize,
    rows: usize,
    levels: Vec<Grid<Node>>,
}

impl Model for TreeWriter {
    ghost use Rattle.codec_terms.specs.TagTree.{Tree};

    ghost Value = { Tree };

    ghost use Rattle.tag_tree.specs.Sizes.{IsWhole};

    ghost view = { λ t. record { columns = t.columns; levels = t.levels.items } };

    ghost invariant = { λ t. IsWhole t.columns t.rows t.levels.items };
}

impl TreeWriter {
    ghost use Rattle.std.specs.Prelude.{◌≡◌, ◌<◌, ◌*◌, ◌++◌, IfOk, OnOk, OnErr, List, length};
    ghost use Rattle.codec_terms.specs.TagTree.{new_tree, leaf_bits, leaf_told};
    ghost use Rattle.tag_tree.specs.Trees.{leaf_rows, leaf_count};
    ghost use Rattle.tag_tree.specs.Asking.{Question, asked_bits, stated, AreLeaves, AreReadBack};

    /// A writer of which no bit was sent, over so many columns and rows of leaves with these values in raster order.
    pub fn new(alloc: Global, columns: u32, rows: u32, values: &[u32]) -> Result<Self, NoMemory>
        requires { length values.now ≡ rows * columns }
        ensures tree { IfOk result (λ tree. tree ≡ new_tree columns rows values.now) }
        ensures leaves { IfOk result (λ tree. leaf_count tree ≡ rows * columns) }
        ensures read_back { IfOk result (λ tree. (qs : List Question) → AreLeaves (rows * columns) qs
            → AreReadBack columns rows qs (asked_bits tree qs) (stated values.now qs)) }
    {
        let columns = columns as usize;
        let rows = rows as usize;
        let mut levels = levels_of(alloc, columns, rows, Node::new(0))?;
        fill(&mut levels, columns, rows, values);
        Ok(TreeWriter {
            columns,
            rows,
            levels,
        })
    }

    /// Begins anew with other values of the leaves. It takes no memory.
    pub fn reset(&mut self, values: &[u32])
        requires { length values.now ≡ leaf_count self.old }
        ensures tree { self.new ≡ new_tree self.old.columns (leaf_rows self.old.levels) values.now }
        ensures size { leaf_count self.new ≡ leaf_count self.old }
    {
        fill(&mut self.levels, self.columns, self.rows, values);
    }

    /// Appends the bits of leaf number `at`, in raster order, behind all that were sent before. After `NoMemory` the
    /// tree and `out` are as they were.
    pub fn leaf(&mut self, at: u32, threshold: u32, out: &mut List<bool>) -> Result<(), NoMemory>
        requires leaf { at < leaf_count self.old }
        ensures told { OnOk result (self.new ≡ leaf_told threshold self.old at) }
        ensures bits { OnOk result (out.new ≡ out.old ++ leaf_bits threshold self.old at) }
        ensures size { leaf_count self.new ≡ leaf_count self.old }
        ensures tree_kept { OnErr result (self.new ≡ self.old) }
        ensures bits_kept { OnErr result (out.new ≡ out.old) }
    {
        self.leaf_at(at as usize, threshold, out)
    }

    /// The same for any number of leaves.
    pub(crate) fn leaf_at(
        &mut self,
        at: usize,
        threshold: u32,
        out: &mut List<bool>,
    ) -> Result<(), NoMemory>
        requires leaf { at < leaf_count self.old }
        ensures told { OnOk result (self.new ≡ leaf_told threshold self.old at) }
        ensures bits { OnOk result (out.new ≡ out.old ++ leaf_bits threshold self.old at) }
        ensures size { leaf_count self.new ≡ leaf_count self.old }
        ensures tree_kept { OnErr result (self.new ≡ self.old) }
        ensures bits_kept { OnErr result (out.new ≡ out.old) }
    {
        let leaf = Leaf {
            x: at % self.columns,
            y: at / self.columns,
        };
        let before = out.len();
        match push_bits(&self.levels, leaf, 0, threshold, out) {
            Ok(()) => {
                tell(&mut self.levels, leaf, 0, threshold);
                Ok(())
            }
            Err(NoMemory) => {
                truncate(out, before);
                Err(NoMemory)
            }
        }
    }
}

/// The bits of all leaves in raster order, each for this threshold.
pub fn write_tree(
    alloc: Global,
    columns: u32,
    rows: u32,
    values: &[u32],
    threshold: u32,
) -> Result<List<bool>, NoMemory>
    requires { length values.now ≡ rows * columns }
    ensures bits { IfOk result (λ bits. bits ≡ leaves_bits threshold (new_tree columns rows values.now)
        (range_with_len 0 (rows * columns))) }
    // A reader that is asked the same knows of each leaf its value, where that is below the threshold.
    ensures read_back { IfOk result (λ bits. AreReadBack columns rows (each_leaf (rows * columns) threshold) bits
        (value_below threshold values.now)) }
{
    let mut tree = TreeWriter::new(alloc, columns, rows, values)?;
    let mut bits = List::new(alloc);
    for at in 0..values.len() {
        tree.leaf_at(at, threshold, &mut bits)?;
    }
    Ok(bits)
}
