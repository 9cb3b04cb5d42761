ghost use Rattle.std.specs.Prelude.{◌≡◌, ℕ, ◌+◌, ◌*◌, ◌<◌, ◌^◌, IfOk, length, map, replicate};
ghost use Rattle.codec_terms.specs.Grid.{grid_of, grid_item, with_grid_item};
ghost use Rattle.codec_terms.specs.TagTree.{new_node, no_node};
ghost use Rattle.codec_laws.specs.TreeReading.{IsInside};
ghost use Rattle.tag_tree.specs.Sizes.{IsSized};
ghost use Rattle.tag_tree.specs.Children.{wide, least_child, HasChildren, IsHalf};

use crate::node::Node;
use mast_base::NoMemory;
use std::alloc::Global;
use std::marker::Model;

/// A level of a tree: rows of nodes, one behind the other.
#[derive(Debug, Drop)]
pub(crate) struct Grid<T> {
    columns: usize,
    rows: usize,
    items: Vec<T>,
}

impl<T> Model for Grid<T> {
    ghost use Rattle.std.specs.Prelude.{◌≡◌, ◌*◌, List, length};
    ghost use Rattle.codec_terms.specs.Grid.{grid_of};

    ghost Value = { List (List T) };

    ghost view = { λ g. grid_of g.columns g.rows g.items.items };

    ghost invariant = { λ g. length g.items.items ≡ g.rows * g.columns };
}

impl<T: Copy + Drop> Grid<T> {
    /// A level that has this node everywhere.
    pub(crate) fn filled(
        alloc: Global,
        columns: usize,
        rows: usize,
        item: T,
    ) -> Result<Self, NoMemory>
        requires columns { columns < 2 ^ 32 }
        requires rows { rows < 2 ^ 32 }
        ensures { IfOk result (λ grid. grid ≡ replicate rows (replicate columns item)) }
    {
        let len = rows * columns;
        let mut items = Vec::with_capacity(alloc, len)?;
        for _ in 0..len {
            items.push(item)?;
        }
        Ok(Grid {
            columns,
            rows,
            items,
        })
    }

    fn columns(&self) -> usize
        requires { 0 < length self.now }
        ensures { result ≡ wide self.now }
    {
        self.columns
    }

    fn rows(&self) -> usize
        ensures { result ≡ length self.now }
    {
        self.rows
    }

    // The place of this column and row among the nodes.
    fn place(&self, x: usize, y: usize) -> usize
        requires inside { IsInside self.now x y }
        ensures place { result ≡ y * wide self.now + x }
        ensures below { result < length self.now * wide self.now }
    {
        y * self.columns + x
    }

    /// The node in this column and row.
    pub(crate) fn get(&self, x: usize, y: usize) -> T
        requires inside { IsInside self.now x y }
        ensures { (outside : T) → result ≡ grid_item outside self.now x y }
    {
        self.items[self.place(x, y)]
    }

    /// Puts a node in the place of another.
    pub(crate) fn set(&mut self, x: usize, y: usize, item: T)
        requires inside { IsInside self.old x y }
        ensures { self.new ≡ with_grid_item self.old x y item }
    {
        let place = self.place(x, y);
        self.items[place] = item;
    }
}

impl Grid<Node> {
    /// Puts new nodes of these values, in raster order, in the place of all.
    pub(crate) fn set_values(&mut self, values: &[u32])
        requires { length values.now ≡ length self.old * wide self.old }
        ensures { self.new ≡ map (map new_node) (grid_of (wide self.old) (length self.old) values.now) }
    {
        for at in 0..values.len() {
            self.items[at] = Node::new(values[at]);
        }
    }

    // The least value of the nodes below the one in this column and row, which are at most four.
    fn least_child(&self, x: usize, y: usize) -> u32
        requires { HasChildren self.now x y }
        ensures { result ≡ least_child self.now x y }
    {
        let columns = self.columns();
        let rows = self.rows();
        let left = 2 * x;
        let top = 2 * y;
        let right = (left + 1).min(columns - 1);
        let bottom = (top + 1).min(rows - 1);
        let upper = self
            .get(left, top)
            .value()
            .min(self.get(right, top).value());
        let lower = self
            .get(left, bottom)
            .value()
            .min(self.get(right, bottom).value());
        upper.min(lower)
    }

    /// Puts new nodes, each of the least value of those below it, in the place of all.
    pub(crate) fn gather(&mut self, below: &Grid<Node>)
        requires { IsHalf self.old below.now }
        ensures sized { IsSized (wide self.old) (length self.old) self.new }
        ensures items { (x y : ℕ) → x < wide self.old → y < length self.old
            → grid_item no_node self.new x y ≡ new_node (least_child below.now x y) }
    {
        for at in 0..self.items.len() {
            let least = below.least_child(at % self.columns, at / self.columns);
            self.items[at] = Node::new(least);
        }
    }
}
