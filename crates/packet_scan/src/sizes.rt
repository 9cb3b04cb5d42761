use std::marker::Model;

/// The lengths of codewords, at most 48. Contracts see a list.
#[derive(Debug, Drop)]
pub(crate) struct Sizes {
    sizes: [u32; 48],
    count: usize,
}

impl Model for Sizes {
    ghost use Rattle.std.specs.Prelude.{◌≤◌, ℕ, List, take};

    ghost Value = { List ℕ };

    ghost view = { λ s. take s.count s.sizes };

    ghost invariant = { λ s. s.count ≤ 48 };
}

impl Sizes {
    ghost use Rattle.std.specs.Prelude.{◌≡◌, ◌<◌, ◌++◌, ◌∷◌, [], length};

    pub(crate) fn new() -> Self
        ensures { result ≡ [] }
    {
        Sizes {
            sizes: [0; 48],
            count: 0,
        }
    }

    /// Puts a length behind the others.
    pub(crate) fn push(&mut self, size: u32)
        requires { length self.old < 48 }
        ensures { self.new ≡ self.old ++ size ∷ [] }
    {
        self.sizes[self.count] = size;
        self.count += 1;
    }

    pub(crate) fn as_slice(&self) -> &[u32]
        ensures { result.now ≡ self.now }
    {
        &self.sizes[..self.count]
    }
}
