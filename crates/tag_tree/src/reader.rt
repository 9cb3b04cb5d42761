use crate::found::Found;
use crate::grid::Grid;
use crate::levels::levels_of;
use crate::paths::{Leaf, push, wants};
use mast_base::NoMemory;
use std::alloc::Global;
use std::marker::Model;

/// A reader of a tree's bits. Contracts see what it knows of the tree.
#[derive(Debug, Drop)]
pub struct TreeReader {
    columns: usize,
    rows: usize,
    levels: Vec<Grid<Found>>,
}

impl Model for TreeReader {
    ghost use Rattle.codec_terms.specs.TagTree.{FoundTree};

    ghost Value = { FoundTree };

    ghost use Rattle.tag_tree.specs.Sizes.{IsWhole};

    ghost view = { λ t. record { columns = t.columns; levels = t.levels.items } };

    ghost invariant = { λ t. IsWhole t.columns t.rows t.levels.items };
}

impl TreeReader {
    ghost use Rattle.std.specs.Prelude.{◌≡◌, ◌*◌, ◌<◌, ◌≤◌, true, IfOk, length};
    ghost use Rattle.codec_terms.specs.TagTree.{blank_tree, wants, pushed, leaf_value};
    ghost use Rattle.tag_tree.specs.Trees.{found_count};

    /// A reader of which no bit was read, for a tree over so many columns and rows of leaves.
    pub fn new(alloc: Global, columns: u32, rows: u32) -> Result<Self, NoMemory>
        ensures tree { IfOk result (λ tree. tree ≡ blank_tree columns rows) }
        ensures leaves { IfOk result (λ tree. found_count tree ≡ rows * columns) }
    {
        let columns = columns as usize;
        let rows = rows as usize;
        Ok(TreeReader {
            columns,
            rows,
            levels: levels_of(alloc, columns, rows, Found::nothing())?,
        })
    }

    /// How many levels the tree has, from the root's down to that of the leaves.
    pub fn level_count(&self) -> u32
        ensures count { result ≡ length self.now.levels }
        ensures few { result ≤ 33 }
    {
        self.levels.len() as u32
    }

    /// Whether leaf number `at`, in raster order, needs a further bit for this threshold.
    pub fn wants(&self, at: u32, threshold: u32) -> bool
        requires leaf { at < found_count self.now }
        ensures { result ≡ wants threshold self.now at }
    {
        let at = at as usize;
        let leaf = Leaf {
            x: at % self.columns,
            y: at / self.columns,
        };
        wants(&self.levels, leaf, 0, threshold)
    }

    /// Takes that bit.
    pub fn push(&mut self, at: u32, threshold: u32, bit: bool)
        requires leaf { at < found_count self.old }
        requires wanted { wants threshold self.old at ≡ true }
        ensures pushed { self.new ≡ pushed bit threshold self.old at }
        ensures size { found_count self.new ≡ found_count self.old }
    {
        let at = at as usize;
        let leaf = Leaf {
            x: at % self.columns,
            y: at / self.columns,
        };
        push(&mut self.levels, leaf, 0, threshold, bit);
    }

    /// The leaf's value, where it is known.
    pub fn value(&self, at: u32) -> Option<u32>
        requires leaf { at < found_count self.now }
        ensures { result ≡ leaf_value self.now at }
    {
        let at = at as usize;
        match self.levels.as_slice() {
            [] => None,
            [.., leaves] => leaves.get(at % self.columns, at / self.columns).value(),
        }
    }
}
